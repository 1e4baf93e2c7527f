//! The command `columns-out`: a layer of the project of a file as token and label columns.
ghost use Rattle.std.specs.Prelude.{◌≡◌, ◌≢◌, None, IfErr, IfOk, IsErrOf, MatchResult, OnOk, length};
ghost use Rattle.std.specs.Arc.{arc_value};
ghost use Rattle.named_disks.specs.NamedDisks.{IsIn, KeepsAll, reads_as};
ghost use Rattle.project_book.specs.Keeping.{TellsKeeper};
ghost use Rattle.layer_rules.specs.WellFormed.{IsWellFormed};
ghost use Rattle.token_columns.specs.Columns.{columns};
ghost use Rattle.token_columns.specs.Fits.{Fits};
ghost use Rattle.project_commands.specs.ColumnsOut.{LacksColumns, NoColumns, NotShown, PrintsColumns, ShowsColumns};

use crate::showing::{LayerRead, read_layer};
use mark_base::{Bytes, Slug, Steps};
use named_disks::Disks;
use program_inputs::{Trouble, look_at_project};
use project_book::Book;
use project_journal::Keeper;
use std::alloc::Global;
use std::sync::ledger::Ledger;
use token_columns::{ColumnOut, column_bytes};

/// The columns of a layer, or why they do not show it.
fn columns_of(alloc: Global, read: &LayerRead) -> Result<Bytes, Trouble>
    requires { IsWellFormed (arc_value read.now.conf) (length (arc_value read.now.doc)) (arc_value read.now.layer) }
    ensures columns { IfOk result (λ bytes. bytes ≡ columns (arc_value read.now.conf) (arc_value read.now.doc) (arc_value read.now.layer)) }
    ensures fits { OnOk result (Fits (arc_value read.now.doc) (arc_value read.now.layer)) }
    ensures lacking { IfErr result (LacksColumns (arc_value read.now.doc) (arc_value read.now.layer)) }
    ensures no_disk { IfErr result (λ trouble. trouble ≢ Trouble.DiskFailed) }
    ensures no_file { IfErr result (λ trouble. trouble ≢ Trouble.FileFailed) }
    ensures no_read { IfErr result (λ trouble. trouble ≢ Trouble.ReadFault) }
    ensures no_write { IfErr result (λ trouble. trouble ≢ Trouble.WriteFault) }
    ensures no_use { IfErr result (λ trouble. trouble ≢ Trouble.DiskInUse) }
{
    match column_bytes(alloc, &read.layer, &read.doc, &read.conf) {
        Ok(bytes) => Ok(bytes),
        Err(ColumnOut::Memory) => Err(Trouble::Memory),
        Err(fault) => Err(Trouble::ColumnsOut { fault }),
    }
}

/// The columns of the committed layer of an annotator of a project.
fn columns_here<K: Keeper, G: Ledger>(
    alloc: Global,
    project: &mut Book<K>,
    who: &Slug,
    name: Slug,
    steps: &mut Steps<G>,
) -> Result<Bytes, Trouble>
    ensures shown { IfOk result (λ bytes. ShowsColumns project.old.log who.now name bytes project.new.log) }
    ensures refused { IfErr result (NotShown project.old.log who.now name) }
    ensures keeper { TellsKeeper K.faults K.faultless project.old.keeper project.new.keeper (IsErrOf result Trouble.DiskFailed) }
    ensures certain { K.doubt project.old.keeper ≡ None → OnOk result (K.doubt project.new.keeper ≡ None) }
    ensures no_file { IfErr result (λ trouble. trouble ≢ Trouble.FileFailed) }
    ensures no_read { IfErr result (λ trouble. trouble ≢ Trouble.ReadFault) }
    ensures no_write { IfErr result (λ trouble. trouble ≢ Trouble.WriteFault) }
    ensures no_use { IfErr result (λ trouble. trouble ≢ Trouble.DiskInUse) }
{
    let owner = who.copy()?;
    let read = match read_layer(project, who, name, owner, steps) {
        Ok(read) => read,
        Err(why) => return Err(why),
    };
    match columns_of(alloc, &read) {
        Ok(bytes) => Ok(bytes),
        Err(why) => Err(why),
    }
}

/// `columns-out BOOK WHO NAME`: reads the project of a file as it stands, and gives the token and label columns of the committed layer
/// of an annotator on a document, as the annotator reads it. A layer that columns cannot show is told by its first fault.
/// Cost: reading the project, and the columns.
pub fn show_columns<D: Disks, G: Ledger>(
    alloc: Global,
    book: &str,
    who: &Slug,
    name: Slug,
    disks: &mut D,
    steps: &mut Steps<G>,
) -> Result<Bytes, Trouble>
    requires { IsIn (D.out disks.old) book.now }
    ensures told { MatchResult result (PrintsColumns (reads_as (D.stored disks.old) book.now) who.now name) (NoColumns (reads_as (D.stored disks.old) book.now) who.now name) }
    ensures kept { KeepsAll (D.stored disks.old) (D.out disks.old) (D.stored disks.new) (D.out disks.new) }
    ensures stays { D.faultless disks.old → D.faultless disks.new }
    ensures never { D.faultless disks.old → IsErrOf result Trouble.DiskFailed → ⊥ }
    ensures free { D.faultless disks.old → IsErrOf result Trouble.DiskInUse → ⊥ }
    ensures no_file { IfErr result (λ trouble. trouble ≢ Trouble.FileFailed) }
    ensures no_read { IfErr result (λ trouble. trouble ≢ Trouble.ReadFault) }
    ensures no_write { IfErr result (λ trouble. trouble ≢ Trouble.WriteFault) }
{
    let mut project = look_at_project(alloc, disks, book)?;
    match columns_here(alloc, &mut project, who, name, steps) {
        Ok(lines) => Ok(lines),
        Err(why) => Err(why),
    }
}
