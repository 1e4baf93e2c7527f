//! A document and its rows.
ghost use Rattle.std.specs.Prelude.{◌≡◌, IfOk, bytes_eq, get_or, is_some, map, None, slice_get};
ghost use Rattle.std.specs.Arc.{arc_value};
ghost use Rattle.std.specs.List.{list_any};
ghost use Rattle.std.specs.Option.{option_copied};
ghost use Rattle.project_machine.specs.Machine.{line_of};
ghost use Rattle.project_machine.specs.ProjectState.{blank_row, with_row};
ghost use Rattle.project_machine.specs.History.{freed, under_hold};
ghost use Rattle.project_state.specs.RowActs.{CanActOnRow, row_behind};

use crate::DocLine;
use crate::row::StoredRow;
use crate::row_act::RowAct;
use char_documents::Doc;
use mark_base::{Memory, Slug};
use std::alloc::Global;
use std::marker::Model;
use std::sync::Arc;

/// A document: its name, its text, and a row for each annotator in the order of their names.
#[derive(Drop)]
pub struct StoredDocument {
    name: Slug,
    text: Arc<Doc>,
    rows: Vec<StoredRow>,
}

impl Model for StoredDocument {
    ghost use Rattle.std.specs.Arc.{arc_value};
    ghost use Rattle.project_machine.specs.ProjectState.{Document};
    ghost use Rattle.project_state.specs.Codes.{document_code};

    ghost Value = { Document };

    ghost coded = { document_code };

    ghost view = { λ document. record { name = document.name; text = arc_value document.text; rows = document.rows.items } };
}

/// No row is out any more.
fn free_rows(rows: &mut [StoredRow])
    ensures { rows.new ≡ map (under_hold None) rows.old }
{
    for row in rows.iter_mut() {
        row.free();
    }
}

impl StoredDocument {
    /// A document of this name and text, with a row for each annotator in the order of their names.
    pub fn new(name: Slug, text: Arc<Doc>, rows: Vec<StoredRow>) -> StoredDocument
        ensures { result ≡ record { name = name; text = arc_value text; rows = rows.items } }
    {
        StoredDocument { name, text, rows }
    }

    /// Its name.
    pub fn name(&self) -> &Slug
        ensures { result.now ≡ self.now.name }
    {
        &self.name
    }

    /// Whether this is its name.
    pub fn is_named(&self, name: &Slug) -> bool
        ensures { result ≡ bytes_eq self.now.name name.now }
    {
        self.name == *name
    }

    /// Its text.
    pub fn text(&self) -> &Arc<Doc>
        ensures { arc_value result.now ≡ self.now.text }
    {
        &self.text
    }

    /// The row of this place among the annotators, counted from 0.
    pub fn row(&self, rater: usize) -> Option<&StoredRow>
        ensures { option_copied result ≡ slice_get self.now.rows rater }
    {
        self.rows.get(rater)
    }

    /// The rows in the order of the annotators.
    pub fn rows(&self) -> &[StoredRow]
        ensures { result.now ≡ self.now.rows }
    {
        self.rows.as_slice()
    }

    /// Whether some row is out.
    pub fn is_some_out(&self) -> bool
        ensures { result ≡ list_any (λ r. is_some r.hold) self.now.rows }
    {
        self.rows.iter().any(|row| row.is_out())
    }

    /// No row is out any more.
    pub(crate) fn free(&mut self)
        ensures { self.new ≡ freed self.old }
    {
        free_rows(self.rows.as_mut_slice());
    }

    /// Does an act to the row of this place among the annotators, where there is one. It takes no memory.
    pub(crate) fn act(&mut self, alloc: Global, rater: usize, act: RowAct)
        requires { CanActOnRow act (get_or self.old.rows rater blank_row) }
        ensures { self.new ≡ with_row rater (row_behind act (get_or self.old.rows rater blank_row)) self.old }
    {
        if rater < self.rows.len() {
            let row = &mut self.rows[rater];
            row.act(alloc, act);
        }
    }

    /// Its line in the list of documents.
    pub fn line(&self) -> Result<DocLine, Memory>
        ensures { IfOk result (λ line. line ≡ line_of self.now) }
    {
        Ok(DocLine {
            name: self.name.copy()?,
            characters: self.text.char_count(),
        })
    }
}
