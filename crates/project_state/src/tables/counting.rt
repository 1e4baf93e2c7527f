//! The tables of agreement of a project, counted anew.
ghost use Rattle.std.specs.Prelude.{◌≡◌, ◌<◌, ◌+◌, IfOk, IfSome, OnOk, length, set};
ghost use Rattle.char_documents.specs.Tokens.{tokens_of};
ghost use Rattle.label_tracks.specs.Levels.{grouping_of};
ghost use Rattle.kappa_alpha.specs.Standing.{document_at};
ghost use Rattle.project_machine.specs.Legal.{IsKept};
ghost use Rattle.project_machine.specs.ProjectState.{document};
ghost use Rattle.project_machine.specs.Tables.{labelled, labels_in, standing_of};
ghost use Rattle.project_state.specs.Tables.Counting.{AreLabels, labelled_upto, posted_as, standing_upto};

use crate::tables::tabling::{document_there, labels_of};
use crate::{BookState, StoredDocument, StoredRow};
use char_documents::Doc;
use kappa_alpha::Tables;
use label_tracks::{Groups, LabelRow};
use mark_base::{Memory, Steps};
use std::alloc::Global;
use std::sync::ledger::Ledger;

/// How many tokens a text has.
fn token_count(text: &Doc) -> u32
    ensures { result ≡ length (tokens_of text.now) }
{
    let _few = text.char_count();
    text.tokens().len() as u32
}

/// The labels of a row, where something was committed and the row is not ignored.
fn labels_in(
    alloc: Global,
    state: &BookState,
    groups: &Groups,
    text: &Doc,
    row: &StoredRow,
) -> Result<Option<LabelRow>, Memory>
    requires { groups.now ≡ grouping_of state.now.state.conf.types state.now.state.level }
    ensures labels { IfOk result (λ labels. labels ≡ labels_in state.now.state text.now row.now) }
    ensures fit { IfOk result (λ labels. IfSome labels (AreLabels (length (tokens_of text.now)) groups.now.width)) }
{
    if row.revision() == 0 || row.is_ignored() {
        return Ok(None);
    }
    let labels = labels_of(alloc, state, groups, text, row.layer())?;
    Ok(Some(labels))
}

/// The labels of a row stand, where it has any.
fn post_row<G: Ledger>(
    alloc: Global,
    state: &BookState,
    groups: &Groups,
    tables: &mut Tables,
    doc: u32,
    rater: u8,
    text: &Doc,
    row: &StoredRow,
    steps: &mut Steps<G>,
) -> Result<(), Memory>
    requires groups { groups.now ≡ grouping_of state.now.state.conf.types state.now.state.level }
    requires width { tables.old.categories ≡ groups.now.width }
    requires doc_in { doc < length tables.old.documents }
    requires rater_in { rater < tables.old.raters }
    requires tokens { (document_at tables.old.documents doc).tokens ≡ length (tokens_of text.now) }
    ensures { OnOk result (tables.new ≡ posted_as tables.old doc rater (labels_in state.now.state text.now row.now)) }
{
    match labels_in(alloc, state, groups, text, row)? {
        Some(labels) => {
            let _before = tables.post(doc, rater, labels, steps);
            Ok(())
        }
        None => Ok(()),
    }
}

/// The labels of all rows of a document stand, where none stood.
fn post_rows<G: Ledger>(
    alloc: Global,
    state: &BookState,
    groups: &Groups,
    tables: &mut Tables,
    doc: u32,
    document: &StoredDocument,
    steps: &mut Steps<G>,
) -> Result<(), Memory>
    requires groups { groups.now ≡ grouping_of state.now.state.conf.types state.now.state.level }
    requires width { tables.old.categories ≡ groups.now.width }
    requires doc_in { doc < length tables.old.documents }
    requires rows { length document.now.rows ≡ tables.old.raters }
    requires blank { document_at tables.old.documents doc ≡ labelled_upto state.now.state 0 document.now }
    ensures { OnOk result (tables.new ≡ record tables.old { documents = set tables.old.documents doc (labelled state.now.state document.now) }) }
{
    for rater in 0..tables.raters() {
        match document.row(rater as usize) {
            Some(row) => post_row(
                alloc,
                state,
                groups,
                tables,
                doc,
                rater,
                document.text(),
                row,
                steps,
            )?,
            None => unreachable!(),
        }
    }
    Ok(())
}

/// The next document of a project comes in, with the labels of its rows.
fn add_document<G: Ledger>(
    alloc: Global,
    state: &BookState,
    groups: &Groups,
    tables: &mut Tables,
    doc: u32,
    steps: &mut Steps<G>,
) -> Result<(), Memory>
    requires kept { IsKept state.now.state }
    requires groups { groups.now ≡ grouping_of state.now.state.conf.types state.now.state.level }
    requires there { doc < length state.now.state.documents }
    requires before { tables.old ≡ standing_upto state.now.state doc tables.old.spare }
    ensures { OnOk result (tables.new ≡ standing_upto state.now.state (doc + 1) tables.new.spare) }
{
    let document = document_there(state, doc as usize);
    tables.reserve()?;
    let _number = tables.admit(token_count(document.text()));
    post_rows(alloc, state, groups, tables, doc, document, steps)
}

/// The tables of a project, counted anew: the labels of all rows that were committed and are not ignored stand. Cost:
/// for each such row that of `row_of` and of a first `Tables::post`.
pub fn tables_of<G: Ledger>(
    alloc: Global,
    state: &BookState,
    groups: &Groups,
    steps: &mut Steps<G>,
) -> Result<Tables, Memory>
    requires kept { IsKept state.now.state }
    requires groups { groups.now ≡ grouping_of state.now.state.conf.types state.now.state.level }
    ensures { IfOk result (λ tables. tables ≡ standing_of state.now.state tables.spare) }
{
    let mut tables = Tables::new(alloc, state.annotator_count() as u8, groups.width())?;
    for doc in 0..state.documents() {
        add_document(alloc, state, groups, &mut tables, doc, steps)?;
    }
    Ok(tables)
}
