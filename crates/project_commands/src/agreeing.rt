//! The command `agree`: both tables of agreement of the project of a file.
ghost use Rattle.std.specs.Prelude.{◌≡◌, ◌≢◌, ◌++◌, None, IfErr, IfOk, IsErrOf, MatchResult, OnOk, codes};
ghost use Rattle.named_disks.specs.NamedDisks.{IsIn, KeepsAll, reads_as};
ghost use Rattle.project_book.specs.Keeping.{TellsKeeper};
ghost use Rattle.project_machine.specs.Requests.{ReadAlpha, ReadPairs};
ghost use Rattle.project_commands.specs.Commands.Requests.{RefusesTo};
ghost use Rattle.project_commands.specs.Showing.{Agrees, NoAgreement, NotAgreed, ShowsAgreement, ShowsAlpha, ShowsPairs, curator_in};

use crate::commands::ask_granted;
use crate::showing::curator_in;
use agreement_report::{alpha_csv, pairs_csv};
use mark_base::{Bytes, Memory, Slug, Steps};
use named_disks::Disks;
use program_inputs::{Trouble, look_at_project};
use project_book::{Book, Reply, Request};
use project_journal::Keeper;
use std::alloc::Global;
use std::sync::ledger::Ledger;

/// The table of each two annotators, as a caller reads it.
fn pairs_here<K: Keeper, G: Ledger>(
    alloc: Global,
    project: &mut Book<K>,
    caller: &Slug,
    steps: &mut Steps<G>,
) -> Result<Bytes, Trouble>
    ensures shown { IfOk result (λ bytes. ShowsPairs project.old.log caller.now bytes project.new.log) }
    ensures refused { IfErr result (RefusesTo project.old.log caller.now ReadPairs) }
    ensures keeper { TellsKeeper K.faults K.faultless project.old.keeper project.new.keeper (IsErrOf result Trouble.DiskFailed) }
    ensures certain { K.doubt project.old.keeper ≡ None → OnOk result (K.doubt project.new.keeper ≡ None) }
    ensures no_file { IfErr result (λ trouble. trouble ≢ Trouble.FileFailed) }
    ensures no_read { IfErr result (λ trouble. trouble ≢ Trouble.ReadFault) }
    ensures no_write { IfErr result (λ trouble. trouble ≢ Trouble.WriteFault) }
    ensures no_use { IfErr result (λ trouble. trouble ≢ Trouble.DiskInUse) }
{
    match ask_granted(project, caller, Request::Pairs, steps)? {
        Reply::Pairs(names, lines) => {
            let table = pairs_csv(alloc, names.items(), lines.items())?;
            Ok(table)
        }
        _ => unreachable!(),
    }
}

/// The table of all annotators, as a caller reads it.
fn alpha_here<K: Keeper, G: Ledger>(
    alloc: Global,
    project: &mut Book<K>,
    caller: &Slug,
    steps: &mut Steps<G>,
) -> Result<Bytes, Trouble>
    ensures shown { IfOk result (λ bytes. ShowsAlpha project.old.log caller.now bytes project.new.log) }
    ensures refused { IfErr result (RefusesTo project.old.log caller.now ReadAlpha) }
    ensures keeper { TellsKeeper K.faults K.faultless project.old.keeper project.new.keeper (IsErrOf result Trouble.DiskFailed) }
    ensures certain { K.doubt project.old.keeper ≡ None → OnOk result (K.doubt project.new.keeper ≡ None) }
    ensures no_file { IfErr result (λ trouble. trouble ≢ Trouble.FileFailed) }
    ensures no_read { IfErr result (λ trouble. trouble ≢ Trouble.ReadFault) }
    ensures no_write { IfErr result (λ trouble. trouble ≢ Trouble.WriteFault) }
    ensures no_use { IfErr result (λ trouble. trouble ≢ Trouble.DiskInUse) }
{
    match ask_granted(project, caller, Request::Alpha, steps)? {
        Reply::Alpha(line) => {
            let table = alpha_csv(alloc, &line)?;
            Ok(table)
        }
        _ => unreachable!(),
    }
}

/// Two tables with an empty line between.
fn join_tables(alloc: Global, first: &Bytes, second: &Bytes) -> Result<Bytes, Memory>
    ensures { IfOk result (λ bytes. bytes ≡ first.now ++ (codes "\n" ++ second.now)) }
{
    let mut bytes = Vec::new(alloc);
    bytes.extend_from_slice(first.items())?;
    bytes.extend_from_slice(b"\n")?;
    bytes.extend_from_slice(second.items())?;
    Ok(Bytes::from_vec(bytes))
}

/// Both tables of agreement of a project, as its first curator reads them.
fn agreement_here<K: Keeper, G: Ledger>(
    alloc: Global,
    project: &mut Book<K>,
    steps: &mut Steps<G>,
) -> Result<Bytes, Trouble>
    ensures shown { IfOk result (λ bytes. ShowsAgreement project.old.log bytes project.new.log) }
    ensures refused { IfErr result (NoAgreement project.old.log) }
    ensures keeper { TellsKeeper K.faults K.faultless project.old.keeper project.new.keeper (IsErrOf result Trouble.DiskFailed) }
    ensures certain { K.doubt project.old.keeper ≡ None → OnOk result (K.doubt project.new.keeper ≡ None) }
    ensures no_file { IfErr result (λ trouble. trouble ≢ Trouble.FileFailed) }
    ensures no_read { IfErr result (λ trouble. trouble ≢ Trouble.ReadFault) }
    ensures no_write { IfErr result (λ trouble. trouble ≢ Trouble.WriteFault) }
    ensures no_use { IfErr result (λ trouble. trouble ≢ Trouble.DiskInUse) }
{
    let caller = curator_in(project)?;
    let pairs = match pairs_here(alloc, project, &caller, steps) {
        Ok(pairs) => pairs,
        Err(why) => return Err(why),
    };
    let alpha = match alpha_here(alloc, project, &caller, steps) {
        Ok(alpha) => alpha,
        Err(why) => return Err(why),
    };
    let tables = join_tables(alloc, &pairs, &alpha)?;
    Ok(tables)
}

/// `agree BOOK`: reads the project of a file as it stands, and gives both tables of agreement with an empty line between, as the first
/// curator by name reads them. Cost: reading the project, and the tables.
pub fn show_agreement<D: Disks, G: Ledger>(
    alloc: Global,
    book: &str,
    disks: &mut D,
    steps: &mut Steps<G>,
) -> Result<Bytes, Trouble>
    requires { IsIn (D.out disks.old) book.now }
    ensures told { MatchResult result (Agrees (reads_as (D.stored disks.old) book.now)) (NotAgreed (reads_as (D.stored disks.old) book.now)) }
    ensures kept { KeepsAll (D.stored disks.old) (D.out disks.old) (D.stored disks.new) (D.out disks.new) }
    ensures stays { D.faultless disks.old → D.faultless disks.new }
    ensures never { D.faultless disks.old → IsErrOf result Trouble.DiskFailed → ⊥ }
    ensures free { D.faultless disks.old → IsErrOf result Trouble.DiskInUse → ⊥ }
    ensures no_file { IfErr result (λ trouble. trouble ≢ Trouble.FileFailed) }
    ensures no_read { IfErr result (λ trouble. trouble ≢ Trouble.ReadFault) }
    ensures no_write { IfErr result (λ trouble. trouble ≢ Trouble.WriteFault) }
{
    let mut project = look_at_project(alloc, disks, book)?;
    match agreement_here(alloc, &mut project, steps) {
        Ok(tables) => Ok(tables),
        Err(why) => Err(why),
    }
}
