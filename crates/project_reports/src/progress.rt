//! Who is done.
ghost use Rattle.std.specs.Prelude.{◌≡◌, ◌++◌, filter, flat_map, map, not, slice_get, IfOk, OnOk};
ghost use Rattle.agreement_report.specs.Report.{IsReady, row, text_of};
ghost use Rattle.project_machine.specs.ProgressTable.{annotation_count, flag_text, own_progress, own_row, progress_fields, progress_header, progress_rows, progress_table, shown_progress, standing};
ghost use Rattle.project_reports.specs.WrittenRows.{row_if};

use crate::table_writer::{finish, write_row};
use csv::Writer;
use entry_bytes::Person;
use layer_model::Layer;
use mark_base::{Bytes, Kind, Memory, Slug, Text};
use project_state::{BookState, StoredDocument, StoredRow};
use std::alloc::Global;

/// The names of the annotators among some people, in their order.
#[tactic(auto, using(project_state::proofs::FrontLemmas::names_behind_annotator, project_state::proofs::FrontLemmas::names_behind_curator))]
fn annotator_names(alloc: Global, people: &[Person]) -> Result<Vec<Slug>, Memory>
    ensures { IfOk result (λ names. names.items ≡ map (λ person. person.name) (filter (λ person. not person.curator) people.now)) }
{
    let mut names = Vec::new(alloc);
    for person in people {
        if !person.curator {
            names.push(person.name.copy()?)?;
        }
    }
    Ok(names)
}

/// How many annotations a layer has.
fn annotation_count(layer: &Layer) -> u64
    ensures { result ≡ annotation_count layer.now }
{
    u64::from(layer.count(Kind::Text))
        + u64::from(layer.count(Kind::Event))
        + u64::from(layer.count(Kind::Relation))
        + u64::from(layer.count(Kind::Attribute))
        + u64::from(layer.count(Kind::Legacy))
        + u64::from(layer.count(Kind::Normal))
        + u64::from(layer.count(Kind::Note))
}

/// Where the work on a row stands.
fn standing(stored: &StoredRow) -> &'static str
    ensures { result.now ≡ standing stored.now }
{
    if stored.is_finished() {
        "finished"
    } else if stored.is_out() {
        "out"
    } else if stored.revision() == 0 {
        "none"
    } else {
        "open"
    }
}

/// A flag as a word.
fn flag_text(flag: bool) -> &'static str
    ensures { result.now ≡ flag_text flag }
{
    if flag { "true" } else { "false" }
}

/// Writes the row of an annotator on the document of a name.
fn write_work(
    alloc: Global,
    writer: &mut Writer<Vec<u8>>,
    document: &Slug,
    who: &Slug,
    stored: &StoredRow,
) -> Result<(), Memory>
    requires { IsReady writer.old }
    ensures ready { OnOk result (IsReady writer.new) }
    ensures written { OnOk result (text_of writer.new ≡ text_of writer.old ++ row (progress_fields document.now who.now stored.now)) }
{
    let revision = stored.revision().to_string(alloc)?;
    let standing = Text::of(alloc, standing(stored))?;
    let ignored = Text::of(alloc, flag_text(stored.is_ignored()))?;
    let annotations = annotation_count(stored.layer()).to_string(alloc)?;
    let parked = stored.done().count().to_string(alloc)?;
    write_row(
        writer,
        &[
            document.text().as_bytes(),
            who.text().as_bytes(),
            revision.as_bytes(),
            standing.text().as_bytes(),
            ignored.text().as_bytes(),
            annotations.as_bytes(),
            parked.as_bytes(),
        ],
    )
}

/// Writes the row of an annotator of this place among the annotators, where the document has one.
fn write_work_at(
    alloc: Global,
    writer: &mut Writer<Vec<u8>>,
    document: &StoredDocument,
    rater: usize,
    who: &Slug,
) -> Result<(), Memory>
    requires { IsReady writer.old }
    ensures ready { OnOk result (IsReady writer.new) }
    ensures written { OnOk result (text_of writer.new ≡ text_of writer.old ++ row_if document.now.name who.now (slice_get document.now.rows rater)) }
{
    match document.row(rater) {
        Some(stored) => write_work(alloc, writer, document.name(), who, stored),
        None => Ok(()),
    }
}

/// Writes the rows of a document.
fn write_document(
    alloc: Global,
    writer: &mut Writer<Vec<u8>>,
    names: &[Slug],
    document: &StoredDocument,
) -> Result<(), Memory>
    requires { IsReady writer.old }
    ensures ready { OnOk result (IsReady writer.new) }
    ensures written { OnOk result (text_of writer.new ≡ text_of writer.old ++ progress_rows names.now document.now) }
{
    for (rater, who) in names.iter().enumerate() {
        write_work_at(alloc, writer, document, rater, who)?;
    }
    Ok(())
}

/// Writes the rows of documents.
fn write_documents(
    alloc: Global,
    writer: &mut Writer<Vec<u8>>,
    names: &[Slug],
    documents: &[StoredDocument],
) -> Result<(), Memory>
    requires { IsReady writer.old }
    ensures ready { OnOk result (IsReady writer.new) }
    ensures written { OnOk result (text_of writer.new ≡ text_of writer.old ++ flat_map (progress_rows names.now) documents.now) }
{
    for document in documents {
        write_document(alloc, writer, names, document)?;
    }
    Ok(())
}

/// Writes the header of the table.
fn write_header(writer: &mut Writer<Vec<u8>>) -> Result<(), Memory>
    requires { IsReady writer.old }
    ensures ready { OnOk result (IsReady writer.new) }
    ensures written { OnOk result (text_of writer.new ≡ text_of writer.old ++ row progress_header) }
{
    write_row(
        writer,
        &[
            b"document",
            b"annotator",
            b"revision",
            b"state",
            b"ignored",
            b"annotations",
            b"parked",
        ],
    )
}

/// Who is done, as CSV: a row for each document and annotator, the documents as they were added, the annotators of each in
/// the order of their names.
///
/// `revision` is how often the layer was committed. `state` is `finished`; or `out`, where somebody has checked the layer
/// out; or `open`, where it was committed; or `none`. `ignored` is `true` where a curator leaves the layer out of the
/// tables, and else `false`. `annotations` counts those of the layer that was committed last, of all letters, and no
/// classes. `parked` counts the commands that are done in the draft that was parked and not committed.
///
/// Cost, read off the code and not measured: the table; no layer is looked into.
pub fn progress_csv(alloc: Global, state: &BookState) -> Result<Bytes, Memory>
    ensures { IfOk result (λ bytes. bytes ≡ progress_table state.now.state) }
{
    let names = annotator_names(alloc, state.roster().people())?;
    let mut writer = Writer::from_writer(Vec::new(alloc));
    write_header(&mut writer)?;
    write_documents(alloc, &mut writer, &names, state.document_list())?;
    finish(writer)
}

/// Writes the rows of one annotator, of this place among the annotators.
fn write_own_rows(
    alloc: Global,
    writer: &mut Writer<Vec<u8>>,
    rater: usize,
    who: &Slug,
    documents: &[StoredDocument],
) -> Result<(), Memory>
    requires { IsReady writer.old }
    ensures ready { OnOk result (IsReady writer.new) }
    ensures written { OnOk result (text_of writer.new ≡ text_of writer.old ++ flat_map (own_row rater who.now) documents.now) }
{
    for document in documents {
        write_work_at(alloc, writer, document, rater, who)?;
    }
    Ok(())
}

/// The rows of one annotator alone.
fn own_progress_csv(alloc: Global, state: &BookState, who: &Slug) -> Result<Bytes, Memory>
    ensures { IfOk result (λ bytes. bytes ≡ own_progress state.now.state who.now) }
{
    let mut writer = Writer::from_writer(Vec::new(alloc));
    write_header(&mut writer)?;
    write_own_rows(
        alloc,
        &mut writer,
        state.rater_of(who),
        who,
        state.document_list(),
    )?;
    finish(writer)
}

/// What a caller is shown of who is done: a curator what `progress_csv` writes, and an annotator the own rows of it, one
/// for each document. Cost: as `progress_csv`, or the documents.
pub fn shown_progress_csv(alloc: Global, state: &BookState, caller: &Slug) -> Result<Bytes, Memory>
    ensures { IfOk result (λ bytes. bytes ≡ shown_progress state.now.state caller.now) }
{
    if state.is_curator(caller) {
        progress_csv(alloc, state)
    } else {
        own_progress_csv(alloc, state, caller)
    }
}
