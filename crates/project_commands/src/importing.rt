//! The command `import`: the layer of an .ann file is committed for an annotator of the project of a file.
ghost use Rattle.std.specs.Prelude.{◌≡◌, ◌≢◌, ◌≤◌, [], None, codes, unwrap_or, IfErr, IfOk, IsErrOf, MatchResult, OnOk};
ghost use Rattle.std.specs.Arc.{arc_value};
ghost use Rattle.mark_base.specs.Streams.{TellsFault};
ghost use Rattle.named_disks.specs.NamedDisks.{IsIn, KeepsOthers, is_there, reads_as};
ghost use Rattle.layer_rules.specs.CarriedByRule.{carried_by_rule};
ghost use Rattle.layer_undo.specs.Desks.{layer_of, settled};
ghost use Rattle.project_machine.specs.Requests as answers;
ghost use Rattle.project_machine.specs.Requests.{Commit, Committed, Parked, ReadConf, ReadText};
ghost use Rattle.project_state.specs.Values.{asked_of};
ghost use Rattle.project_book.specs.Keeping.{TellsKeeper};
ghost use Rattle.annotation_http.specs.Exchanges.Connections.{holding_of, with_desk};
ghost use Rattle.program_inputs.specs.Troubles.{with_number};
ghost use Rattle.project_commands.specs.Commands.Requests.{Grants, RefusesTo};
ghost use Rattle.project_commands.specs.Importing.{Commits, Imports, ImportsFile, ImportsHere, Loads, NoLayer, NotCommitted, NotImported, NotImportedFrom, NotImportedHere, NotLoaded, NotRead, Reads, ReadsLayer, park_of};

use crate::commands::{ask_granted, check_out};
use annotation_http::{Held, park_request};
use char_documents::Doc;
use conf_model::Conf;
use layer_core::{Command, Refusal};
use layer_model::{Layer, Rule};
use layer_rules::carried_by_rule;
use mark_base::{Bytes, Memory, Slug, Steps, Text};
use named_disks::Disks;
use program_inputs::{
    Folder, Trouble, give_project_back, open_project, read_ann_file, with_number,
};
use project_book::{Book, BookRefusal, Reply, Request};
use project_journal::Keeper;
use std::alloc::Global;
use std::sync::Arc;
use std::sync::ledger::Ledger;

// ---- what an .ann file is read for

/// The configuration of a project, as a caller reads it.
fn read_conf<K: Keeper, G: Ledger>(
    project: &mut Book<K>,
    caller: &Slug,
    steps: &mut Steps<G>,
) -> Result<Arc<Conf>, Trouble>
    ensures granted { IfOk result (λ conf. Grants project.old.log caller.now ReadConf (answers.Conf (arc_value conf)) project.new.log) }
    ensures refused { IfErr result (RefusesTo project.old.log caller.now ReadConf) }
    ensures keeper { TellsKeeper K.faults K.faultless project.old.keeper project.new.keeper (IsErrOf result Trouble.DiskFailed) }
    ensures certain { K.doubt project.old.keeper ≡ None → OnOk result (K.doubt project.new.keeper ≡ None) }
    ensures no_file { IfErr result (λ trouble. trouble ≢ Trouble.FileFailed) }
    ensures no_read { IfErr result (λ trouble. trouble ≢ Trouble.ReadFault) }
    ensures no_write { IfErr result (λ trouble. trouble ≢ Trouble.WriteFault) }
    ensures no_use { IfErr result (λ trouble. trouble ≢ Trouble.DiskInUse) }
{
    match ask_granted(project, caller, Request::ReadConf, steps)? {
        Reply::Conf(conf) => Ok(conf),
        _ => unreachable!(),
    }
}

/// The text of a document, as a caller reads it.
fn read_text<K: Keeper, G: Ledger>(
    project: &mut Book<K>,
    caller: &Slug,
    doc: Slug,
    steps: &mut Steps<G>,
) -> Result<Arc<Doc>, Trouble>
    ensures granted { IfOk result (λ text. Grants project.old.log caller.now (ReadText doc) (answers.Text (arc_value text)) project.new.log) }
    ensures refused { IfErr result (RefusesTo project.old.log caller.now (ReadText doc)) }
    ensures keeper { TellsKeeper K.faults K.faultless project.old.keeper project.new.keeper (IsErrOf result Trouble.DiskFailed) }
    ensures certain { K.doubt project.old.keeper ≡ None → OnOk result (K.doubt project.new.keeper ≡ None) }
    ensures no_file { IfErr result (λ trouble. trouble ≢ Trouble.FileFailed) }
    ensures no_read { IfErr result (λ trouble. trouble ≢ Trouble.ReadFault) }
    ensures no_write { IfErr result (λ trouble. trouble ≢ Trouble.WriteFault) }
    ensures no_use { IfErr result (λ trouble. trouble ≢ Trouble.DiskInUse) }
{
    match ask_granted(project, caller, Request::ReadText { doc }, steps)? {
        Reply::Text(text) => Ok(text),
        _ => unreachable!(),
    }
}

/// A configuration and a text.
#[derive(Drop)]
struct Schema {
    conf: Arc<Conf>,
    text: Arc<Doc>,
}

/// The configuration of a project and the text of a document, as a caller reads them.
fn read_schema<K: Keeper, G: Ledger>(
    project: &mut Book<K>,
    caller: &Slug,
    doc: Slug,
    steps: &mut Steps<G>,
) -> Result<Schema, Trouble>
    ensures read { IfOk result (λ schema. Reads project.old.log caller.now doc (arc_value schema.conf) (arc_value schema.text) project.new.log) }
    ensures refused { IfErr result (NotRead project.old.log caller.now doc) }
    ensures keeper { TellsKeeper K.faults K.faultless project.old.keeper project.new.keeper (IsErrOf result Trouble.DiskFailed) }
    ensures certain { K.doubt project.old.keeper ≡ None → OnOk result (K.doubt project.new.keeper ≡ None) }
    ensures no_file { IfErr result (λ trouble. trouble ≢ Trouble.FileFailed) }
    ensures no_read { IfErr result (λ trouble. trouble ≢ Trouble.ReadFault) }
    ensures no_write { IfErr result (λ trouble. trouble ≢ Trouble.WriteFault) }
    ensures no_use { IfErr result (λ trouble. trouble ≢ Trouble.DiskInUse) }
{
    let conf = match read_conf(project, caller, steps) {
        Ok(conf) => conf,
        Err(why) => return Err(why),
    };
    let text = match read_text(project, caller, doc, steps) {
        Ok(text) => text,
        Err(why) => return Err(why),
    };
    Ok(Schema { conf, text })
}

/// The layer that an .ann file spells for a document of a project.
fn read_layer<F: Folder, K: Keeper, G: Ledger>(
    alloc: Global,
    project: &mut Book<K>,
    caller: &Slug,
    doc: Slug,
    ann: &str,
    folder: &mut F,
    steps: &mut Steps<G>,
) -> Result<Layer, Trouble>
    ensures read { IfOk result (λ layer. ReadsLayer project.old.log caller.now doc (F.file folder.old ann.now) layer project.new.log) }
    ensures refused { IfErr result (NoLayer project.old.log caller.now doc (F.file folder.old ann.now) (F.folder_faults folder.old) (F.folder_faults folder.new)) }
    ensures stays { K.faultless project.old.keeper → K.faultless project.new.keeper }
    ensures never { K.faultless project.old.keeper → IsErrOf result Trouble.DiskFailed → ⊥ }
    ensures certain { K.doubt project.old.keeper ≡ None → OnOk result (K.doubt project.new.keeper ≡ None) }
    ensures later { F.folder_faults folder.old ≤ F.folder_faults folder.new }
    ensures cause { TellsFault (IsErrOf result Trouble.FileFailed) (F.folder_faults folder.old) (F.folder_faults folder.new) }
    ensures no_read { IfErr result (λ trouble. trouble ≢ Trouble.ReadFault) }
    ensures no_write { IfErr result (λ trouble. trouble ≢ Trouble.WriteFault) }
    ensures no_use { IfErr result (λ trouble. trouble ≢ Trouble.DiskInUse) }
{
    let schema = match read_schema(project, caller, doc, steps) {
        Ok(schema) => schema,
        Err(why) => return Err(why),
    };
    match read_ann_file(alloc, folder, ann, &schema.text, &schema.conf) {
        Ok(layer) => Ok(layer),
        Err(why) => Err(why),
    }
}

// ---- what is done with the layer

/// What a rule names by which a desk refuses.
fn named_by(alloc: Global, conf: &Conf, rule: Rule) -> Result<Text, Memory>
    ensures { IfOk result (λ named. named ≡ unwrap_or (carried_by_rule conf.now rule) []) }
{
    match carried_by_rule(alloc, conf, rule)? {
        Some(named) => Ok(named),
        None => Ok(Text::from_string(String::new(alloc))),
    }
}

/// Loads a layer on a held desk.
fn load(alloc: Global, held: &mut Held, layer: Layer) -> Result<(), Trouble>
    ensures loaded { OnOk result (Loads held.old.desk layer held.new.desk) }
    ensures refused { IfErr result (NotLoaded held.old.desk layer) }
    ensures same { (held.new.who ≡ held.old.who) × (held.new.doc ≡ held.old.doc) × (held.new.hold ≡ held.old.hold) }
    ensures no_disk { IfErr result (λ trouble. trouble ≢ Trouble.DiskFailed) }
    ensures no_file { IfErr result (λ trouble. trouble ≢ Trouble.FileFailed) }
    ensures no_read { IfErr result (λ trouble. trouble ≢ Trouble.ReadFault) }
    ensures no_write { IfErr result (λ trouble. trouble ≢ Trouble.WriteFault) }
    ensures no_use { IfErr result (λ trouble. trouble ≢ Trouble.DiskInUse) }
{
    match held.desk.perform(Command::Load { layer }) {
        Ok(_) => Ok(()),
        Err(Refusal::Rule(rule)) => {
            let named = named_by(alloc, &held.conf, rule)?;
            Err(Trouble::Refused {
                refusal: BookRefusal::Broken(rule),
                named,
            })
        }
        Err(Refusal::Memory) => Err(Trouble::Memory),
    }
}

/// The layer of a desk as a request to commit it.
fn commit_request(held: &Held, layer: &Arc<Layer>) -> Result<Request, Memory>
    ensures { IfOk result (λ request. asked_of request ≡ Commit held.now.doc held.now.hold (arc_value layer.now)) }
{
    Ok(Request::Commit {
        doc: held.doc.copy()?,
        hold: held.hold,
        layer: layer.clone()?,
    })
}

/// Commits a layer, which is that of a held desk.
fn commit_layer<K: Keeper, G: Ledger>(
    project: &mut Book<K>,
    held: &Held,
    layer: &Arc<Layer>,
    steps: &mut Steps<G>,
) -> Result<u64, Trouble>
    ensures committed { IfOk result (λ revision. Grants project.old.log held.now.who (Commit held.now.doc held.now.hold (arc_value layer.now)) (Committed revision) project.new.log) }
    ensures refused { IfErr result (RefusesTo project.old.log held.now.who (Commit held.now.doc held.now.hold (arc_value layer.now))) }
    ensures keeper { TellsKeeper K.faults K.faultless project.old.keeper project.new.keeper (IsErrOf result Trouble.DiskFailed) }
    ensures certain { K.doubt project.old.keeper ≡ None → OnOk result (K.doubt project.new.keeper ≡ None) }
    ensures no_file { IfErr result (λ trouble. trouble ≢ Trouble.FileFailed) }
    ensures no_read { IfErr result (λ trouble. trouble ≢ Trouble.ReadFault) }
    ensures no_write { IfErr result (λ trouble. trouble ≢ Trouble.WriteFault) }
    ensures no_use { IfErr result (λ trouble. trouble ≢ Trouble.DiskInUse) }
{
    let request = commit_request(held, layer)?;
    match ask_granted(project, &held.who, request, steps)? {
        Reply::Committed { revision } => Ok(revision),
        _ => unreachable!(),
    }
}

/// Commits the layer of a held desk, and goes on from it.
fn commit<K: Keeper, G: Ledger>(
    project: &mut Book<K>,
    held: &mut Held,
    steps: &mut Steps<G>,
) -> Result<u64, Trouble>
    ensures committed { IfOk result (λ revision. Grants project.old.log held.old.who (Commit held.old.doc held.old.hold (layer_of held.old.desk)) (Committed revision) project.new.log) }
    ensures settled { OnOk result (holding_of held.new ≡ with_desk (holding_of held.old) (settled held.old.desk)) }
    ensures refused { IfErr result (RefusesTo project.old.log held.old.who (Commit held.old.doc held.old.hold (layer_of held.old.desk))) }
    ensures keeper { TellsKeeper K.faults K.faultless project.old.keeper project.new.keeper (IsErrOf result Trouble.DiskFailed) }
    ensures certain { K.doubt project.old.keeper ≡ None → OnOk result (K.doubt project.new.keeper ≡ None) }
    ensures no_file { IfErr result (λ trouble. trouble ≢ Trouble.FileFailed) }
    ensures no_read { IfErr result (λ trouble. trouble ≢ Trouble.ReadFault) }
    ensures no_write { IfErr result (λ trouble. trouble ≢ Trouble.WriteFault) }
    ensures no_use { IfErr result (λ trouble. trouble ≢ Trouble.DiskInUse) }
{
    let layer = held.desk.shared()?;
    match commit_layer(project, held, &layer, steps) {
        Ok(revision) => {
            held.desk.settle(layer);
            Ok(revision)
        }
        Err(why) => Err(why),
    }
}

/// Loads a layer on a held desk and commits it.
fn load_and_commit<K: Keeper, G: Ledger>(
    alloc: Global,
    project: &mut Book<K>,
    held: &mut Held,
    layer: Layer,
    steps: &mut Steps<G>,
) -> Result<u64, Trouble>
    ensures committed { IfOk result (λ revision. Commits project.old.log (holding_of held.old) layer revision (holding_of held.new) project.new.log) }
    ensures refused { IfErr result (NotCommitted project.old.log (holding_of held.old) layer) }
    ensures stays { K.faultless project.old.keeper → K.faultless project.new.keeper }
    ensures never { K.faultless project.old.keeper → IsErrOf result Trouble.DiskFailed → ⊥ }
    ensures certain { K.doubt project.old.keeper ≡ None → OnOk result (K.doubt project.new.keeper ≡ None) }
    ensures no_file { IfErr result (λ trouble. trouble ≢ Trouble.FileFailed) }
    ensures no_read { IfErr result (λ trouble. trouble ≢ Trouble.ReadFault) }
    ensures no_write { IfErr result (λ trouble. trouble ≢ Trouble.WriteFault) }
    ensures no_use { IfErr result (λ trouble. trouble ≢ Trouble.DiskInUse) }
{
    match load(alloc, held, layer) {
        Ok(()) => {}
        Err(why) => return Err(why),
    }
    match commit(project, held, steps) {
        Ok(revision) => Ok(revision),
        Err(why) => Err(why),
    }
}

/// Gives a held desk back.
fn park<K: Keeper, G: Ledger>(
    project: &mut Book<K>,
    held: &Held,
    steps: &mut Steps<G>,
) -> Result<(), Trouble>
    ensures parked { OnOk result (Grants project.old.log held.now.who (park_of (holding_of held.now)) Parked project.new.log) }
    ensures refused { IfErr result (RefusesTo project.old.log held.now.who (park_of (holding_of held.now))) }
    ensures keeper { TellsKeeper K.faults K.faultless project.old.keeper project.new.keeper (IsErrOf result Trouble.DiskFailed) }
    ensures certain { K.doubt project.old.keeper ≡ None → OnOk result (K.doubt project.new.keeper ≡ None) }
    ensures no_file { IfErr result (λ trouble. trouble ≢ Trouble.FileFailed) }
    ensures no_read { IfErr result (λ trouble. trouble ≢ Trouble.ReadFault) }
    ensures no_write { IfErr result (λ trouble. trouble ≢ Trouble.WriteFault) }
    ensures no_use { IfErr result (λ trouble. trouble ≢ Trouble.DiskInUse) }
{
    let request = park_request(held)?;
    match ask_granted(project, &held.who, request, steps)? {
        Reply::Parked => Ok(()),
        _ => unreachable!(),
    }
}

/// Checks a layer out for an annotator, loads another on it and commits that, and gives the desk back, also where the
/// layer was not committed.
fn import_layer<K: Keeper, G: Ledger>(
    alloc: Global,
    project: &mut Book<K>,
    who: Slug,
    name: Slug,
    layer: Layer,
    steps: &mut Steps<G>,
) -> Result<u64, Trouble>
    ensures imported { IfOk result (λ revision. ImportsHere project.old.log who name layer revision project.new.log) }
    ensures refused { IfErr result (NotImportedHere project.old.log who name layer) }
    ensures stays { K.faultless project.old.keeper → K.faultless project.new.keeper }
    ensures never { K.faultless project.old.keeper → IsErrOf result Trouble.DiskFailed → ⊥ }
    ensures certain { K.doubt project.old.keeper ≡ None → OnOk result (K.doubt project.new.keeper ≡ None) }
    ensures no_file { IfErr result (λ trouble. trouble ≢ Trouble.FileFailed) }
    ensures no_read { IfErr result (λ trouble. trouble ≢ Trouble.ReadFault) }
    ensures no_write { IfErr result (λ trouble. trouble ≢ Trouble.WriteFault) }
    ensures no_use { IfErr result (λ trouble. trouble ≢ Trouble.DiskInUse) }
{
    let mut held = match check_out(alloc, project, who, name, steps) {
        Ok(held) => held,
        Err(why) => return Err(why),
    };
    let committed = load_and_commit(alloc, project, &mut held, layer, steps);
    let parked = park(project, &held, steps);
    let revision = match committed {
        Ok(revision) => revision,
        Err(why) => return Err(why),
    };
    match parked {
        Ok(()) => Ok(revision),
        Err(why) => Err(why),
    }
}

// ---- the command

/// The line that tells a revision.
fn revision_line(alloc: Global, revision: u64) -> Result<Bytes, Memory>
    ensures { IfOk result (λ bytes. bytes ≡ with_number (codes "revision ") revision) }
{
    let line = with_number(alloc, "revision ", revision)?;
    Ok(Bytes::from_vec(line.into_bytes()))
}

/// Reads an .ann file for a document of a project, and commits its layer for an annotator.
fn import_here<F: Folder, K: Keeper, G: Ledger>(
    alloc: Global,
    project: &mut Book<K>,
    who: Slug,
    name: Slug,
    ann: &str,
    folder: &mut F,
    steps: &mut Steps<G>,
) -> Result<Bytes, Trouble>
    ensures imported { IfOk result (λ bytes. ImportsFile project.old.log who name (F.file folder.old ann.now) bytes project.new.log) }
    ensures refused { IfErr result (NotImportedFrom project.old.log who name (F.file folder.old ann.now) (F.folder_faults folder.old) (F.folder_faults folder.new)) }
    ensures stays { K.faultless project.old.keeper → K.faultless project.new.keeper }
    ensures never { K.faultless project.old.keeper → IsErrOf result Trouble.DiskFailed → ⊥ }
    ensures certain { K.doubt project.old.keeper ≡ None → OnOk result (K.doubt project.new.keeper ≡ None) }
    ensures later { F.folder_faults folder.old ≤ F.folder_faults folder.new }
    ensures cause { TellsFault (IsErrOf result Trouble.FileFailed) (F.folder_faults folder.old) (F.folder_faults folder.new) }
    ensures no_read { IfErr result (λ trouble. trouble ≢ Trouble.ReadFault) }
    ensures no_write { IfErr result (λ trouble. trouble ≢ Trouble.WriteFault) }
    ensures no_use { IfErr result (λ trouble. trouble ≢ Trouble.DiskInUse) }
{
    let doc = name.copy()?;
    let layer = match read_layer(alloc, project, &who, doc, ann, folder, steps) {
        Ok(layer) => layer,
        Err(why) => return Err(why),
    };
    let revision = match import_layer(alloc, project, who, name, layer, steps) {
        Ok(revision) => revision,
        Err(why) => return Err(why),
    };
    let line = revision_line(alloc, revision)?;
    Ok(line)
}

/// `import BOOK WHO NAME ANN`: opens the project of a file, reads an .ann file for a document of it, commits the layer that
/// the file spells in place of the annotator's, and gives the line that tells its revision.
///
/// The .ann file is judged before the layer is checked out, so that its fault changes nothing. Where the layer is refused
/// it is given back all the same; a layer that is out is not taken over. Cost: opening the project, the file, and the
/// layers before and behind.
pub fn import_file<F: Folder, D: Disks, G: Ledger>(
    alloc: Global,
    book: &str,
    who: Slug,
    name: Slug,
    ann: &str,
    folder: &mut F,
    disks: &mut D,
    steps: &mut Steps<G>,
) -> Result<Bytes, Trouble>
    requires { IsIn (D.out disks.old) book.now }
    ensures told { MatchResult result (Imports (reads_as (D.stored disks.old) book.now) (reads_as (D.stored disks.new) book.now) who name (F.file folder.old ann.now)) (NotImported (reads_as (D.stored disks.old) book.now) who name (F.file folder.old ann.now) (F.folder_faults folder.old) (F.folder_faults folder.new)) }
    ensures taken_back { IsIn (D.out disks.new) book.now }
    ensures others { KeepsOthers book.now (D.stored disks.old) (D.out disks.old) (D.stored disks.new) (D.out disks.new) }
    ensures none_made { is_there (D.stored disks.new) book.now ≡ is_there (D.stored disks.old) book.now }
    ensures stays { D.faultless disks.old → D.faultless disks.new }
    ensures never { D.faultless disks.old → IsErrOf result Trouble.DiskFailed → ⊥ }
    ensures free { D.faultless disks.old → IsErrOf result Trouble.DiskInUse → ⊥ }
    ensures later { F.folder_faults folder.old ≤ F.folder_faults folder.new }
    ensures cause { TellsFault (IsErrOf result Trouble.FileFailed) (F.folder_faults folder.old) (F.folder_faults folder.new) }
    ensures no_read { IfErr result (λ trouble. trouble ≢ Trouble.ReadFault) }
    ensures no_write { IfErr result (λ trouble. trouble ≢ Trouble.WriteFault) }
{
    let mut project = open_project(alloc, disks, book)?;
    let found = import_here(alloc, &mut project, who, name, ann, folder, steps);
    give_project_back(disks, book, project);
    match found {
        Ok(line) => Ok(line),
        Err(why) => Err(why),
    }
}
