//! The command `scores`: the exact-match scores of each two annotators of the project of a file.
ghost use Rattle.std.specs.Prelude.{◌≡◌, ◌≢◌, ◌++◌, ◌∷◌, ◌<◌, ◌≤◌, [], None, Some, IfErr, IfOk, IfSome, IsErrOf, MatchResult, OnOk, filter, length, map, not, option_map, true};
ghost use Rattle.std.specs.Arc.{arc_value};
ghost use Rattle.layer_model.specs.Coherent.{IsCoherent};
ghost use Rattle.named_disks.specs.NamedDisks.{IsIn, KeepsAll, reads_as};
ghost use Rattle.project_machine.specs.History.{after};
ghost use Rattle.project_machine.specs.Machine.{line_of};
ghost use Rattle.project_machine.specs.ProjectState.{annotators, is_annotator, is_curator, is_there, row_in};
ghost use Rattle.project_book.specs.Keeping.{TellsKeeper};
ghost use Rattle.project_commands.specs.Scoring.{NotScored, PrintsScores, ShowsScores, committed_in, committed_layers, layers_on, posted_if};

use crate::commands::{ask, ask_granted, trouble_of};
use crate::showing::curator_in;
use entry_bytes::Person;
use layer_model::Layer;
use layer_rules::well_formed_layers_cohere;
use mark_base::{Bytes, Memory, Slug, Steps};
use match_scores::{Scores, scores_csv};
use named_disks::Disks;
use program_inputs::{Trouble, look_at_project};
use project_book::{Book, BookRefusal, DocLine, DocList, Reply, Request};
use project_journal::Keeper;
use project_machine::states_can_be_restored;
use std::alloc::Global;
use std::sync::Arc;
use std::sync::ledger::Ledger;

/// The names of the annotators among people, in their order.
#[tactic(auto, using(crate::proofs::PostingLemmas::behind_annotator, crate::proofs::PostingLemmas::behind_curator))]
fn annotator_names(alloc: Global, people: &[Person]) -> Result<Vec<Slug>, Memory>
    ensures { IfOk result (λ names. names.items ≡ map (λ person. person.name) (filter (λ person. not person.curator) people.now)) }
{
    let mut names = Vec::new(alloc);
    for person in people {
        if !person.curator {
            names.push(person.name.copy()?)?;
        }
    }
    Ok(names)
}

/// The documents of a project, as a caller reads them.
fn list_documents<K: Keeper, G: Ledger>(
    project: &mut Book<K>,
    caller: &Slug,
    steps: &mut Steps<G>,
) -> Result<DocList, Trouble>
    requires { is_curator (after project.old.log) caller.now ≡ true }
    ensures listed { IfOk result (λ lines. lines ≡ map line_of (after project.old.log).documents) }
    ensures still { OnOk result (project.new.log ≡ project.old.log) }
    ensures refused { IfErr result (λ trouble. trouble ≡ Trouble.Memory) }
    ensures keeper { TellsKeeper K.faults K.faultless project.old.keeper project.new.keeper (IsErrOf result Trouble.DiskFailed) }
    ensures certain { K.doubt project.old.keeper ≡ None → OnOk result (K.doubt project.new.keeper ≡ None) }
    ensures no_file { IfErr result (λ trouble. trouble ≢ Trouble.FileFailed) }
    ensures no_read { IfErr result (λ trouble. trouble ≢ Trouble.ReadFault) }
    ensures no_write { IfErr result (λ trouble. trouble ≢ Trouble.WriteFault) }
    ensures no_use { IfErr result (λ trouble. trouble ≢ Trouble.DiskInUse) }
{
    match ask_granted(project, caller, Request::ListDocs, steps)? {
        Reply::Docs(lines) => Ok(lines),
        _ => unreachable!(),
    }
}

/// The committed layer of an annotator on a document, as a caller reads it, or none where nothing was committed.
fn committed_layer<K: Keeper, G: Ledger>(
    project: &mut Book<K>,
    caller: &Slug,
    doc: Slug,
    who: Slug,
    steps: &mut Steps<G>,
) -> Result<Option<Arc<Layer>>, Trouble>
    requires curates { is_curator (after project.old.log) caller.now ≡ true }
    requires there { is_there (after project.old.log) doc ≡ true }
    requires annotates { is_annotator (after project.old.log) who ≡ true }
    ensures committed { IfOk result (λ layer. option_map arc_value layer ≡ committed_in (row_in (after project.old.log) doc who)) }
    ensures whole { IfOk result (λ layer. IfSome layer (λ it. IsCoherent (arc_value it))) }
    ensures still { OnOk result (project.new.log ≡ project.old.log) }
    ensures refused { IfErr result (λ trouble. trouble ≡ Trouble.Memory) }
    ensures keeper { TellsKeeper K.faults K.faultless project.old.keeper project.new.keeper (IsErrOf result Trouble.DiskFailed) }
    ensures certain { K.doubt project.old.keeper ≡ None → OnOk result (K.doubt project.new.keeper ≡ None) }
    ensures no_file { IfErr result (λ trouble. trouble ≢ Trouble.FileFailed) }
    ensures no_read { IfErr result (λ trouble. trouble ≢ Trouble.ReadFault) }
    ensures no_write { IfErr result (λ trouble. trouble ≢ Trouble.WriteFault) }
    ensures no_use { IfErr result (λ trouble. trouble ≢ Trouble.DiskInUse) }
{
    well_formed_layers_cohere();
    match ask(project, caller, Request::ReadLayer { doc, who }, steps) {
        Reply::Layer(layer, _doc, _conf) => {
            layer.keeps();
            Ok(Some(layer))
        }
        Reply::Refused(refusal, named) => match refusal {
            BookRefusal::NoLayer => Ok(None),
            refusal => Err(trouble_of(refusal, named)),
        },
        _ => unreachable!(),
    }
}

/// Posts the committed layer of an annotator on a document, if there is one, where none stands.
fn post_layer<K: Keeper, G: Ledger>(
    project: &mut Book<K>,
    caller: &Slug,
    name: &Slug,
    who: &Slug,
    scores: &mut Scores,
    doc: u32,
    rater: u8,
    steps: &mut Steps<G>,
) -> Result<(), Trouble>
    requires curates { is_curator (after project.old.log) caller.now ≡ true }
    requires there { is_there (after project.old.log) name.now ≡ true }
    requires annotates { is_annotator (after project.old.log) who.now ≡ true }
    requires doc_in { doc < length scores.old.documents }
    requires rater_in { rater < scores.old.raters }
    ensures posted { OnOk result (scores.new ≡ posted_if scores.old doc rater (committed_in (row_in (after project.old.log) name.now who.now))) }
    ensures still { OnOk result (project.new.log ≡ project.old.log) }
    ensures refused { IfErr result (λ trouble. trouble ≡ Trouble.Memory) }
    ensures keeper { TellsKeeper K.faults K.faultless project.old.keeper project.new.keeper (IsErrOf result Trouble.DiskFailed) }
    ensures certain { K.doubt project.old.keeper ≡ None → OnOk result (K.doubt project.new.keeper ≡ None) }
    ensures no_file { IfErr result (λ trouble. trouble ≢ Trouble.FileFailed) }
    ensures no_read { IfErr result (λ trouble. trouble ≢ Trouble.ReadFault) }
    ensures no_write { IfErr result (λ trouble. trouble ≢ Trouble.WriteFault) }
    ensures no_use { IfErr result (λ trouble. trouble ≢ Trouble.DiskInUse) }
{
    let named = name.copy()?;
    let owner = who.copy()?;
    let found = match committed_layer(project, caller, named, owner, steps) {
        Ok(found) => found,
        Err(why) => return Err(why),
    };
    if let Some(layer) = found {
        scores.post(doc, rater, &layer)?;
    }
    Ok(())
}

/// Posts the committed layers of a document, as a caller reads them, on a document more.
fn post_document<K: Keeper, G: Ledger>(
    project: &mut Book<K>,
    caller: &Slug,
    name: &Slug,
    names: &[Slug],
    scores: &mut Scores,
    steps: &mut Steps<G>,
) -> Result<(), Trouble>
    requires curates { is_curator (after project.old.log) caller.now ≡ true }
    requires there { is_there (after project.old.log) name.now ≡ true }
    requires room { length scores.old.documents < 4096 }
    requires raters { scores.old.raters ≡ length names.now }
    requires named { names.now ≡ annotators (after project.old.log) }
    ensures posted { OnOk result (scores.new ≡ record scores.old { documents = scores.old.documents ++ layers_on (after project.old.log) name.now ∷ [] }) }
    ensures still { OnOk result (project.new.log ≡ project.old.log) }
    ensures refused { IfErr result (λ trouble. trouble ≡ Trouble.Memory) }
    ensures keeper { TellsKeeper K.faults K.faultless project.old.keeper project.new.keeper (IsErrOf result Trouble.DiskFailed) }
    ensures certain { K.doubt project.old.keeper ≡ None → OnOk result (K.doubt project.new.keeper ≡ None) }
    ensures no_file { IfErr result (λ trouble. trouble ≢ Trouble.FileFailed) }
    ensures no_read { IfErr result (λ trouble. trouble ≢ Trouble.ReadFault) }
    ensures no_write { IfErr result (λ trouble. trouble ≢ Trouble.WriteFault) }
    ensures no_use { IfErr result (λ trouble. trouble ≢ Trouble.DiskInUse) }
{
    let doc = scores.admit()?;
    for rater in 0..scores.raters() {
        let who = &names[rater as usize];
        post_layer(project, caller, name, who, scores, doc, rater, steps)?;
    }
    Ok(())
}

/// Posts the committed layers of these documents, as a caller reads them.
fn post_documents<K: Keeper, G: Ledger>(
    alloc: Global,
    project: &mut Book<K>,
    caller: &Slug,
    lines: &[DocLine],
    names: &[Slug],
    steps: &mut Steps<G>,
) -> Result<Scores, Trouble>
    requires curates { is_curator (after project.old.log) caller.now ≡ true }
    requires listed { lines.now ≡ map line_of (after project.old.log).documents }
    requires few { length lines.now ≤ 4096 }
    requires raters { length names.now ≤ 16 }
    requires named { names.now ≡ annotators (after project.old.log) }
    ensures posted { IfOk result (λ scores. scores ≡ record { raters = length names.now; documents = map (λ line. layers_on (after project.old.log) line.name) lines.now }) }
    ensures still { OnOk result (project.new.log ≡ project.old.log) }
    ensures refused { IfErr result (λ trouble. trouble ≡ Trouble.Memory) }
    ensures keeper { TellsKeeper K.faults K.faultless project.old.keeper project.new.keeper (IsErrOf result Trouble.DiskFailed) }
    ensures certain { K.doubt project.old.keeper ≡ None → OnOk result (K.doubt project.new.keeper ≡ None) }
    ensures no_file { IfErr result (λ trouble. trouble ≢ Trouble.FileFailed) }
    ensures no_read { IfErr result (λ trouble. trouble ≢ Trouble.ReadFault) }
    ensures no_write { IfErr result (λ trouble. trouble ≢ Trouble.WriteFault) }
    ensures no_use { IfErr result (λ trouble. trouble ≢ Trouble.DiskInUse) }
{
    let mut scores = Scores::new(alloc, names.len() as u8)?;
    for line in lines {
        post_document(project, caller, &line.name, names, &mut scores, steps)?;
    }
    Ok(scores)
}

/// The scores of a project over its committed layers, as a caller reads them.
fn read_scores<K: Keeper, G: Ledger>(
    alloc: Global,
    project: &mut Book<K>,
    caller: &Slug,
    names: &[Slug],
    steps: &mut Steps<G>,
) -> Result<Scores, Trouble>
    requires curates { is_curator (after project.old.log) caller.now ≡ true }
    requires named { names.now ≡ annotators (after project.old.log) }
    ensures posted { IfOk result (λ scores. scores ≡ committed_layers (after project.old.log)) }
    ensures still { OnOk result (project.new.log ≡ project.old.log) }
    ensures refused { IfErr result (λ trouble. trouble ≡ Trouble.Memory) }
    ensures keeper { TellsKeeper K.faults K.faultless project.old.keeper project.new.keeper (IsErrOf result Trouble.DiskFailed) }
    ensures certain { K.doubt project.old.keeper ≡ None → OnOk result (K.doubt project.new.keeper ≡ None) }
    ensures no_file { IfErr result (λ trouble. trouble ≢ Trouble.FileFailed) }
    ensures no_read { IfErr result (λ trouble. trouble ≢ Trouble.ReadFault) }
    ensures no_write { IfErr result (λ trouble. trouble ≢ Trouble.WriteFault) }
    ensures no_use { IfErr result (λ trouble. trouble ≢ Trouble.DiskInUse) }
{
    states_can_be_restored();
    project.keeps();
    let lines = match list_documents(project, caller, steps) {
        Ok(lines) => lines,
        Err(why) => return Err(why),
    };
    match post_documents(alloc, project, caller, lines.items(), names, steps) {
        Ok(scores) => Ok(scores),
        Err(why) => Err(why),
    }
}

/// The table of scores of a project, as its first curator reads the layers.
fn scores_here<K: Keeper, G: Ledger>(
    alloc: Global,
    project: &mut Book<K>,
    steps: &mut Steps<G>,
) -> Result<Bytes, Trouble>
    ensures shown { IfOk result (λ bytes. ShowsScores project.old.log bytes project.new.log) }
    ensures refused { IfErr result (λ trouble. trouble ≡ Trouble.Memory) }
    ensures keeper { TellsKeeper K.faults K.faultless project.old.keeper project.new.keeper (IsErrOf result Trouble.DiskFailed) }
    ensures certain { K.doubt project.old.keeper ≡ None → OnOk result (K.doubt project.new.keeper ≡ None) }
    ensures no_file { IfErr result (λ trouble. trouble ≢ Trouble.FileFailed) }
    ensures no_read { IfErr result (λ trouble. trouble ≢ Trouble.ReadFault) }
    ensures no_write { IfErr result (λ trouble. trouble ≢ Trouble.WriteFault) }
    ensures no_use { IfErr result (λ trouble. trouble ≢ Trouble.DiskInUse) }
{
    let caller = curator_in(project)?;
    let names = annotator_names(alloc, project.roster().people())?;
    let scores = match read_scores(alloc, project, &caller, &names, steps) {
        Ok(scores) => scores,
        Err(why) => return Err(why),
    };
    let table = scores_csv(alloc, &names, &scores)?;
    Ok(table)
}

/// `scores BOOK`: reads the project of a file as it stands, and gives the scores of each two annotators over all their committed layers,
/// ignored or not, as the first curator by name reads them. Cost: reading the project, and posting each committed layer.
pub fn show_scores<D: Disks, G: Ledger>(
    alloc: Global,
    book: &str,
    disks: &mut D,
    steps: &mut Steps<G>,
) -> Result<Bytes, Trouble>
    requires { IsIn (D.out disks.old) book.now }
    ensures told { MatchResult result (PrintsScores (reads_as (D.stored disks.old) book.now)) (NotScored (reads_as (D.stored disks.old) book.now)) }
    ensures kept { KeepsAll (D.stored disks.old) (D.out disks.old) (D.stored disks.new) (D.out disks.new) }
    ensures stays { D.faultless disks.old → D.faultless disks.new }
    ensures never { D.faultless disks.old → IsErrOf result Trouble.DiskFailed → ⊥ }
    ensures free { D.faultless disks.old → IsErrOf result Trouble.DiskInUse → ⊥ }
    ensures no_file { IfErr result (λ trouble. trouble ≢ Trouble.FileFailed) }
    ensures no_read { IfErr result (λ trouble. trouble ≢ Trouble.ReadFault) }
    ensures no_write { IfErr result (λ trouble. trouble ≢ Trouble.WriteFault) }
{
    let mut project = look_at_project(alloc, disks, book)?;
    match scores_here(alloc, &mut project, steps) {
        Ok(table) => Ok(table),
        Err(why) => Err(why),
    }
}
