//! The pieces of rows.
ghost use Rattle.std.specs.Prelude.{◌≡◌, ◌∷◌, ◌++◌, ◌||◌, ◌<◌, [], IfOk, OnOk, get_or, length, map, not};
ghost use Rattle.std.specs.List.{AllByRecursion, enumerate_from, filter, flat_map};
ghost use Rattle.std.specs.Arc.{arc_value};
ghost use Rattle.ann_writer.specs.AnnOf.{ann_of};
ghost use Rattle.entry_bytes.specs.Entries.{entry_bytes};
ghost use Rattle.layer_rules.specs.WellFormed.{IsWellFormed};
ghost use Rattle.command_bytes.specs.CommandBytes.{scripts_bytes};
ghost use Rattle.command_bytes.specs.WritableCommands.{CanBeWritten};
ghost use Rattle.project_machine.specs.Entries.{flags_of, has_draft, is_committed, pieces_where, row_pieces, rows_pieces};
ghost use Rattle.project_machine.specs.Legal.{IsKept, IsRowKept};
ghost use Rattle.project_machine.specs.ProjectState.{annotators, document, row_at};

use crate::state_pieces::lines::lines_of;
use crate::state_pieces::run::Run;
use char_documents::Doc;
use command_bytes::{accepted_scripts_can_be_written, write_scripts};
use conf_model::Conf;
use entry_bytes::{Entry, Person};
use mark_base::{Memory, Slug};
use project_state::{BookState, StoredDocument, StoredRow};
use std::alloc::Global;
use std::sync::Arc;

/// Whether a row was committed.
fn is_committed(row: &StoredRow) -> bool
    ensures { result ≡ is_committed row.now }
{
    0 < row.revision()
}

/// Whether something is parked in a row.
fn has_draft(row: &StoredRow) -> bool
    ensures { result ≡ has_draft row.now }
{
    !row.done().items().is_empty() || !row.undone().items().is_empty()
}

/// The flags of a row: 1 for finished, and 2 for ignored.
fn flags_of(row: &StoredRow) -> u8
    ensures { result ≡ flags_of row.now }
{
    let finished = row.is_finished() as u8;
    if row.is_ignored() {
        finished + 2
    } else {
        finished
    }
}

/// Puts the piece of a row itself, where something was committed or is parked.
fn put_row_itself(
    alloc: Global,
    doc: u32,
    who: &Slug,
    row: &StoredRow,
    run: &mut Run,
) -> Result<(), Memory>
    ensures { OnOk result (run.new ≡ run.old ++ map entry_bytes (pieces_where (is_committed row.now || has_draft row.now) (Entry.Row doc who.now row.now.revision (flags_of row.now)))) }
{
    if !(is_committed(row) || has_draft(row)) {
        return Ok(());
    }
    let piece = Entry::Row {
        doc,
        who: who.copy()?,
        revision: row.revision(),
        flags: flags_of(row),
    };
    run.put(alloc, &piece)
}

/// Puts the piece of the layer of a row, where one was committed.
fn put_layer(
    alloc: Global,
    conf: &Conf,
    doc: &Doc,
    row: &StoredRow,
    run: &mut Run,
) -> Result<(), Memory>
    requires { IsWellFormed conf.now (length doc.now) row.now.layer }
    ensures { OnOk result (run.new ≡ run.old ++ map entry_bytes (pieces_where (is_committed row.now) (Entry.Layer (ann_of conf.now doc.now row.now.layer)))) }
{
    if !is_committed(row) {
        return Ok(());
    }
    let piece = Entry::Layer {
        lines: lines_of(alloc, row.layer(), doc, conf)?,
    };
    run.put(alloc, &piece)
}

/// Puts the piece of what is parked in a row, where something is.
fn put_draft(
    alloc: Global,
    conf: &Conf,
    doc: &Doc,
    row: &StoredRow,
    run: &mut Run,
) -> Result<(), Memory>
    requires done { AllByRecursion (CanBeWritten conf.now doc.now) row.now.done }
    requires undone { AllByRecursion (CanBeWritten conf.now doc.now) row.now.undone }
    ensures { OnOk result (run.new ≡ run.old ++ map entry_bytes (pieces_where (has_draft row.now) (Entry.Draft (scripts_bytes conf.now doc.now row.now.done row.now.undone)))) }
{
    if !has_draft(row) {
        return Ok(());
    }
    let piece = Entry::Draft {
        commands: write_scripts(alloc, row.done(), row.undone(), doc, conf)?,
    };
    run.put(alloc, &piece)
}

/// Puts the pieces of a row of an annotator, in the document of a number, with this text.
fn put_row(
    alloc: Global,
    state: &BookState,
    doc: u32,
    text: &Arc<Doc>,
    who: &Slug,
    row: &StoredRow,
    run: &mut Run,
) -> Result<(), Memory>
    requires text { arc_value text.now ≡ (document state.now.state doc).text }
    requires kept { IsRowKept state.now.state.conf (document state.now.state doc).text state.now.state.place who.now row.now }
    ensures { OnOk result (run.new ≡ run.old ++ map entry_bytes (row_pieces state.now.state doc (who.now, row.now))) }
{
    accepted_scripts_can_be_written();
    put_row_itself(alloc, doc, who, row, run)?;
    put_layer(alloc, state.conf(), text, row, run)?;
    put_draft(alloc, state.conf(), text, row, run)
}

/// Puts the pieces of the row of an annotator, who has this place among the annotators, in the document of a number.
fn put_row_at(
    alloc: Global,
    state: &BookState,
    doc: u32,
    stored: &StoredDocument,
    rater: usize,
    who: &Slug,
    run: &mut Run,
) -> Result<(), Memory>
    requires kept { IsKept state.now.state }
    requires there { doc < length state.now.state.documents }
    requires is { stored.now ≡ document state.now.state doc }
    requires annotates { rater < length (annotators state.now.state) }
    requires named { who.now ≡ get_or (annotators state.now.state) rater who.now }
    ensures { OnOk result (run.new ≡ run.old ++ map entry_bytes (row_pieces state.now.state doc (who.now, row_at state.now.state doc rater))) }
{
    match stored.row(rater) {
        Some(row) => put_row(alloc, state, doc, stored.text(), who, row, run),
        None => unreachable!(),
    }
}

/// Puts the pieces of the rows of the document of a number, by name.
fn put_rows_of(
    alloc: Global,
    state: &BookState,
    doc: u32,
    stored: &StoredDocument,
    names: &[Slug],
    run: &mut Run,
) -> Result<(), Memory>
    requires kept { IsKept state.now.state }
    requires there { doc < length state.now.state.documents }
    requires is { stored.now ≡ document state.now.state doc }
    requires names { names.now ≡ annotators state.now.state }
    ensures { OnOk result (run.new ≡ run.old ++ map entry_bytes (rows_pieces state.now.state (doc, document state.now.state doc))) }
{
    for (rater, who) in names.iter().enumerate() {
        put_row_at(alloc, state, doc, stored, rater, who, run)?;
    }
    Ok(())
}

/// The document of a number that is there.
#[tactic(auto, using(project_state::proofs::StoredLemmas::got))]
pub(crate) fn document_there(state: &BookState, doc: usize) -> &StoredDocument
    requires { doc < length state.now.state.documents }
    ensures { result.now ≡ document state.now.state doc }
{
    match state.document_at(doc) {
        Some(document) => document,
        None => unreachable!(),
    }
}

/// The names of the annotators among some people, in their order.
#[tactic(auto, using(project_state::proofs::FrontLemmas::names_behind_annotator, project_state::proofs::FrontLemmas::names_behind_curator))]
fn annotator_names(alloc: Global, people: &[Person]) -> Result<Vec<Slug>, Memory>
    ensures { IfOk result (λ names. names.items ≡ map (λ person. person.name) (filter (λ person. not person.curator) people.now)) }
{
    let mut names = Vec::new(alloc);
    for person in people {
        if !person.curator {
            names.push(person.name.copy()?)?;
        }
    }
    Ok(names)
}

/// Puts the pieces of the rows of all documents.
pub(crate) fn put_rows(alloc: Global, state: &BookState, run: &mut Run) -> Result<(), Memory>
    requires { IsKept state.now.state }
    ensures { OnOk result (run.new ≡ run.old ++ map entry_bytes (flat_map (rows_pieces state.now.state) (enumerate_from 0 state.now.state.documents))) }
{
    let names = annotator_names(alloc, state.roster().people())?;
    for doc in 0..state.documents() {
        let document = document_there(state, doc as usize);
        put_rows_of(alloc, state, doc, document, names.as_slice(), run)?;
    }
    Ok(())
}
