//! A document of which the pieces are read.
ghost use Rattle.std.specs.Prelude.{◌≡◌, IfOk, replicate};
ghost use Rattle.std.specs.Arc.{arc_value};
ghost use Rattle.project_machine.specs.ProjectState.{blank_row, with_row};

use char_documents::Doc;
use mark_base::{Memory, Slug};
use project_state::{StoredDocument, StoredRow};
use std::alloc::Global;
use std::marker::Model;
use std::sync::Arc;

/// A document: its name, its text, and a row for each annotator, blank where none was read.
#[derive(Drop)]
pub(crate) struct ToldDocument {
    name: Slug,
    text: Arc<Doc>,
    rows: Vec<StoredRow>,
}

impl Model for ToldDocument {
    ghost use Rattle.std.specs.Arc.{arc_value};
    ghost use Rattle.project_machine.specs.ProjectState.{Document};
    ghost use Rattle.project_state.specs.Codes.{document_code};

    ghost Value = { Document };

    ghost coded = { document_code };

    ghost view = { λ document. record { name = document.name; text = arc_value document.text; rows = document.rows.items } };
}

/// Rows on which nothing was done.
fn blank_rows(alloc: Global, count: usize) -> Result<Vec<StoredRow>, Memory>
    ensures { IfOk result (λ rows. rows.items ≡ replicate count blank_row) }
{
    let mut rows = Vec::new(alloc);
    while rows.len() < count {
        rows.push(StoredRow::blank(alloc)?)?;
    }
    Ok(rows)
}

impl ToldDocument {
    /// A document of this name and text on which nothing was done by so many annotators.
    pub(crate) fn blank(
        alloc: Global,
        name: Slug,
        text: Doc,
        raters: usize,
    ) -> Result<ToldDocument, Memory>
        ensures { IfOk result (λ document. document ≡ record { name = name; text = text; rows = replicate raters blank_row }) }
    {
        let rows = blank_rows(alloc, raters)?;
        let text = Arc::new(alloc, text)?;
        Ok(ToldDocument { name, text, rows })
    }

    /// Its name.
    pub(crate) fn name(&self) -> &Slug
        ensures { result.now ≡ self.now.name }
    {
        &self.name
    }

    /// Its text.
    pub(crate) fn text(&self) -> &Arc<Doc>
        ensures { arc_value result.now ≡ self.now.text }
    {
        &self.text
    }

    /// It has another row at a place among the annotators, where there is one.
    pub(crate) fn put(&mut self, rater: usize, row: StoredRow)
        ensures { self.new ≡ with_row rater row self.old }
    {
        if rater < self.rows.len() {
            self.rows[rater] = row;
        }
    }

    /// It as a project keeps it.
    pub(crate) fn into_stored(self) -> StoredDocument
        ensures { result ≡ self }
    {
        let ToldDocument { name, text, rows } = self;
        StoredDocument::new(name, text, rows)
    }
}
