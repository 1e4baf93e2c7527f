//! The commands `export` and `curated`: a layer of the project of a file.
ghost use Rattle.std.specs.Prelude.{◌≡◌, ◌≢◌, None, IfErr, IfOk, IsErrOf, MatchResult, OnOk, find, length, true};
ghost use Rattle.std.specs.Option.{option_copied};
ghost use Rattle.std.specs.Arc.{arc_value};
ghost use Rattle.named_disks.specs.NamedDisks.{IsIn, KeepsAll, reads_as};
ghost use Rattle.project_book.specs.Keeping.{TellsKeeper};
ghost use Rattle.layer_rules.specs.WellFormed.{IsWellFormed};
ghost use Rattle.ann_reader.specs.AnnFiles.{IsAnn};
ghost use Rattle.ann_writer.specs.AnnOf.{ann_of};
ghost use Rattle.project_machine.specs.History.{after};
ghost use Rattle.project_machine.specs.ProjectState.{is_curator};
ghost use Rattle.project_machine.specs.Requests as answers;
ghost use Rattle.project_machine.specs.Requests.{ReadLayer, TakeSnapshot, Taken};
ghost use Rattle.project_state.specs.Values.{view_of};
ghost use Rattle.http_answers.specs.Answers.Answers.{CanBeViewed, curated_layer};
ghost use Rattle.project_commands.specs.Commands.Requests.{Grants, RefusesTo};
ghost use Rattle.project_commands.specs.Showing.{Exports, NoSnapshot, NotExported, ShowsCurated, ShowsCuratedTo, ShowsLayer, ShowsSnapshot, curator_in, first_curator};

use crate::commands::ask_granted;
use ann_writer::ann_bytes;
use char_documents::Doc;
use conf_model::Conf;
use entry_bytes::Person;
use layer_model::Layer;
use mark_base::{Bytes, Memory, Slug, Steps};
use named_disks::Disks;
use program_inputs::{Trouble, look_at_project};
use project_book::{Book, Reply, Request, Roster, SnapshotView};
use project_journal::Keeper;
use project_machine::states_can_be_restored;
use std::alloc::Global;
use std::sync::Arc;
use std::sync::ledger::Ledger;

/// The first curator among people.
fn curator_among(people: &[Person]) -> Option<&Person>
    ensures { option_copied result ≡ find (λ person. person.curator) people.now }
{
    people.iter().find(|person| person.curator)
}

/// The first curator by name.
fn first_curator(roster: &Roster) -> Result<Slug, Memory>
    ensures { IfOk result (λ name. name ≡ first_curator roster.now) }
{
    match curator_among(roster.people()) {
        Some(person) => {
            let name = person.name.copy()?;
            Ok(name)
        }
        None => Err(Memory),
    }
}

/// The first curator of a project, which has one.
pub(crate) fn curator_in<K: Keeper>(project: &Book<K>) -> Result<Slug, Memory>
    ensures first { IfOk result (λ name. name ≡ curator_in project.now.log) }
    ensures curates { IfOk result (λ name. is_curator (after project.now.log) name ≡ true) }
{
    states_can_be_restored();
    project.keeps();
    let name = first_curator(project.roster())?;
    Ok(name)
}

/// A layer with the text and the configuration that it is for.
#[derive(Drop)]
pub(crate) struct LayerRead {
    pub(crate) layer: Arc<Layer>,
    pub(crate) doc: Arc<Doc>,
    pub(crate) conf: Arc<Conf>,
}

/// The committed layer of an annotator, as a caller reads it.
pub(crate) fn read_layer<K: Keeper, G: Ledger>(
    project: &mut Book<K>,
    caller: &Slug,
    doc: Slug,
    who: Slug,
    steps: &mut Steps<G>,
) -> Result<LayerRead, Trouble>
    ensures granted { IfOk result (λ read. Grants project.old.log caller.now (ReadLayer doc who) (answers.Layer (arc_value read.layer) (arc_value read.doc) (arc_value read.conf)) project.new.log) }
    ensures shown { IfOk result (λ read. IsWellFormed (arc_value read.conf) (length (arc_value read.doc)) (arc_value read.layer)) }
    ensures refused { IfErr result (RefusesTo project.old.log caller.now (ReadLayer doc who)) }
    ensures keeper { TellsKeeper K.faults K.faultless project.old.keeper project.new.keeper (IsErrOf result Trouble.DiskFailed) }
    ensures certain { K.doubt project.old.keeper ≡ None → OnOk result (K.doubt project.new.keeper ≡ None) }
    ensures no_file { IfErr result (λ trouble. trouble ≢ Trouble.FileFailed) }
    ensures no_read { IfErr result (λ trouble. trouble ≢ Trouble.ReadFault) }
    ensures no_write { IfErr result (λ trouble. trouble ≢ Trouble.WriteFault) }
    ensures no_use { IfErr result (λ trouble. trouble ≢ Trouble.DiskInUse) }
{
    match ask_granted(project, caller, Request::ReadLayer { doc, who }, steps)? {
        Reply::Layer(layer, doc, conf) => Ok(LayerRead { layer, doc, conf }),
        _ => unreachable!(),
    }
}

/// The .ann lines of a layer.
fn lines_of(alloc: Global, read: &LayerRead) -> Result<Bytes, Memory>
    requires { IsWellFormed (arc_value read.now.conf) (length (arc_value read.now.doc)) (arc_value read.now.layer) }
    ensures lines { IfOk result (λ bytes. bytes ≡ ann_of (arc_value read.now.conf) (arc_value read.now.doc) (arc_value read.now.layer)) }
    ensures again { IfOk result (λ bytes. IsAnn (arc_value read.now.conf) (arc_value read.now.doc) bytes (arc_value read.now.layer)) }
{
    let lines = ann_bytes(alloc, &read.layer, &read.doc, &read.conf)?;
    Ok(lines)
}

/// The committed layer of an annotator of a project, as .ann lines.
fn layer_here<K: Keeper, G: Ledger>(
    alloc: Global,
    project: &mut Book<K>,
    who: &Slug,
    name: Slug,
    steps: &mut Steps<G>,
) -> Result<Bytes, Trouble>
    ensures shown { IfOk result (λ bytes. ShowsLayer project.old.log who.now name bytes project.new.log) }
    ensures refused { IfErr result (RefusesTo project.old.log who.now (ReadLayer name who.now)) }
    ensures keeper { TellsKeeper K.faults K.faultless project.old.keeper project.new.keeper (IsErrOf result Trouble.DiskFailed) }
    ensures certain { K.doubt project.old.keeper ≡ None → OnOk result (K.doubt project.new.keeper ≡ None) }
    ensures no_file { IfErr result (λ trouble. trouble ≢ Trouble.FileFailed) }
    ensures no_read { IfErr result (λ trouble. trouble ≢ Trouble.ReadFault) }
    ensures no_write { IfErr result (λ trouble. trouble ≢ Trouble.WriteFault) }
    ensures no_use { IfErr result (λ trouble. trouble ≢ Trouble.DiskInUse) }
{
    let owner = who.copy()?;
    let read = match read_layer(project, who, name, owner, steps) {
        Ok(read) => read,
        Err(why) => return Err(why),
    };
    let lines = lines_of(alloc, &read)?;
    Ok(lines)
}

/// A snapshot, as a caller reads it.
fn read_snapshot<K: Keeper, G: Ledger>(
    project: &mut Book<K>,
    caller: &Slug,
    number: u64,
    steps: &mut Steps<G>,
) -> Result<SnapshotView, Trouble>
    ensures granted { IfOk result (λ view. Grants project.old.log caller.now (TakeSnapshot number) (Taken (view_of view)) project.new.log) }
    ensures shown { IfOk result (λ view. CanBeViewed (view_of view)) }
    ensures refused { IfErr result (RefusesTo project.old.log caller.now (TakeSnapshot number)) }
    ensures keeper { TellsKeeper K.faults K.faultless project.old.keeper project.new.keeper (IsErrOf result Trouble.DiskFailed) }
    ensures certain { K.doubt project.old.keeper ≡ None → OnOk result (K.doubt project.new.keeper ≡ None) }
    ensures no_file { IfErr result (λ trouble. trouble ≢ Trouble.FileFailed) }
    ensures no_read { IfErr result (λ trouble. trouble ≢ Trouble.ReadFault) }
    ensures no_write { IfErr result (λ trouble. trouble ≢ Trouble.WriteFault) }
    ensures no_use { IfErr result (λ trouble. trouble ≢ Trouble.DiskInUse) }
{
    match ask_granted(project, caller, Request::TakeSnapshot { number }, steps)? {
        Reply::Taken(view) => Ok(view),
        _ => unreachable!(),
    }
}

/// The curated layer of a snapshot, as .ann lines.
fn curated_lines(alloc: Global, view: &SnapshotView) -> Result<Bytes, Memory>
    requires { CanBeViewed (view_of view.now) }
    ensures lines { IfOk result (λ bytes. bytes ≡ ann_of (view_of view.now).conf (view_of view.now).text (curated_layer (view_of view.now))) }
    ensures again { IfOk result (λ bytes. IsAnn (view_of view.now).conf (view_of view.now).text bytes (curated_layer (view_of view.now))) }
{
    let layer = view.decisions.curated(&view.snapshot)?;
    let lines = ann_bytes(alloc, &layer, &view.doc, &view.conf)?;
    Ok(lines)
}

/// The curated layer of a snapshot of a project as .ann lines, as a caller reads it.
fn curated_for<K: Keeper, G: Ledger>(
    alloc: Global,
    project: &mut Book<K>,
    caller: &Slug,
    number: u64,
    steps: &mut Steps<G>,
) -> Result<Bytes, Trouble>
    ensures shown { IfOk result (λ bytes. ShowsCuratedTo project.old.log caller.now number bytes project.new.log) }
    ensures refused { IfErr result (RefusesTo project.old.log caller.now (TakeSnapshot number)) }
    ensures keeper { TellsKeeper K.faults K.faultless project.old.keeper project.new.keeper (IsErrOf result Trouble.DiskFailed) }
    ensures certain { K.doubt project.old.keeper ≡ None → OnOk result (K.doubt project.new.keeper ≡ None) }
    ensures no_file { IfErr result (λ trouble. trouble ≢ Trouble.FileFailed) }
    ensures no_read { IfErr result (λ trouble. trouble ≢ Trouble.ReadFault) }
    ensures no_write { IfErr result (λ trouble. trouble ≢ Trouble.WriteFault) }
    ensures no_use { IfErr result (λ trouble. trouble ≢ Trouble.DiskInUse) }
{
    let view = match read_snapshot(project, caller, number, steps) {
        Ok(view) => view,
        Err(why) => return Err(why),
    };
    let lines = curated_lines(alloc, &view)?;
    Ok(lines)
}

/// The curated layer of a snapshot of a project as .ann lines, as its first curator reads it.
fn curated_here<K: Keeper, G: Ledger>(
    alloc: Global,
    project: &mut Book<K>,
    number: u64,
    steps: &mut Steps<G>,
) -> Result<Bytes, Trouble>
    ensures shown { IfOk result (λ bytes. ShowsCurated project.old.log number bytes project.new.log) }
    ensures refused { IfErr result (RefusesTo project.old.log (curator_in project.old.log) (TakeSnapshot number)) }
    ensures keeper { TellsKeeper K.faults K.faultless project.old.keeper project.new.keeper (IsErrOf result Trouble.DiskFailed) }
    ensures certain { K.doubt project.old.keeper ≡ None → OnOk result (K.doubt project.new.keeper ≡ None) }
    ensures no_file { IfErr result (λ trouble. trouble ≢ Trouble.FileFailed) }
    ensures no_read { IfErr result (λ trouble. trouble ≢ Trouble.ReadFault) }
    ensures no_write { IfErr result (λ trouble. trouble ≢ Trouble.WriteFault) }
    ensures no_use { IfErr result (λ trouble. trouble ≢ Trouble.DiskInUse) }
{
    let caller = curator_in(project)?;
    match curated_for(alloc, project, &caller, number, steps) {
        Ok(lines) => Ok(lines),
        Err(why) => Err(why),
    }
}

/// `export BOOK WHO NAME`: reads the project of a file as it stands, and gives the committed layer of an annotator on a document as
/// .ann lines, as the annotator reads it. Cost: reading the project, and the lines.
pub fn export_layer<D: Disks, G: Ledger>(
    alloc: Global,
    book: &str,
    who: &Slug,
    name: Slug,
    disks: &mut D,
    steps: &mut Steps<G>,
) -> Result<Bytes, Trouble>
    requires { IsIn (D.out disks.old) book.now }
    ensures told { MatchResult result (Exports (reads_as (D.stored disks.old) book.now) who.now name) (NotExported (reads_as (D.stored disks.old) book.now) who.now name) }
    ensures kept { KeepsAll (D.stored disks.old) (D.out disks.old) (D.stored disks.new) (D.out disks.new) }
    ensures stays { D.faultless disks.old → D.faultless disks.new }
    ensures never { D.faultless disks.old → IsErrOf result Trouble.DiskFailed → ⊥ }
    ensures free { D.faultless disks.old → IsErrOf result Trouble.DiskInUse → ⊥ }
    ensures no_file { IfErr result (λ trouble. trouble ≢ Trouble.FileFailed) }
    ensures no_read { IfErr result (λ trouble. trouble ≢ Trouble.ReadFault) }
    ensures no_write { IfErr result (λ trouble. trouble ≢ Trouble.WriteFault) }
{
    let mut project = look_at_project(alloc, disks, book)?;
    match layer_here(alloc, &mut project, who, name, steps) {
        Ok(lines) => Ok(lines),
        Err(why) => Err(why),
    }
}

/// `curated BOOK NUMBER`: reads the project of a file as it stands, and gives the curated layer of the snapshot of a number, from 1, as
/// .ann lines, as the first curator by name reads it. Cost: reading the project, and the curated layer.
pub fn show_curated<D: Disks, G: Ledger>(
    alloc: Global,
    book: &str,
    number: u64,
    disks: &mut D,
    steps: &mut Steps<G>,
) -> Result<Bytes, Trouble>
    requires { IsIn (D.out disks.old) book.now }
    ensures told { MatchResult result (ShowsSnapshot (reads_as (D.stored disks.old) book.now) number) (NoSnapshot (reads_as (D.stored disks.old) book.now) number) }
    ensures kept { KeepsAll (D.stored disks.old) (D.out disks.old) (D.stored disks.new) (D.out disks.new) }
    ensures stays { D.faultless disks.old → D.faultless disks.new }
    ensures never { D.faultless disks.old → IsErrOf result Trouble.DiskFailed → ⊥ }
    ensures free { D.faultless disks.old → IsErrOf result Trouble.DiskInUse → ⊥ }
    ensures no_file { IfErr result (λ trouble. trouble ≢ Trouble.FileFailed) }
    ensures no_read { IfErr result (λ trouble. trouble ≢ Trouble.ReadFault) }
    ensures no_write { IfErr result (λ trouble. trouble ≢ Trouble.WriteFault) }
{
    let mut project = look_at_project(alloc, disks, book)?;
    match curated_here(alloc, &mut project, number, steps) {
        Ok(lines) => Ok(lines),
        Err(why) => Err(why),
    }
}
