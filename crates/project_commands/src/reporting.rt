//! The commands `progress` and `snapshots`: tables of the state of the project of a file.
ghost use Rattle.std.specs.Prelude.{◌≢◌, IfErr, IsErrOf, MatchResult};
ghost use Rattle.named_disks.specs.NamedDisks.{IsIn, KeepsAll, reads_as};
ghost use Rattle.program_inputs.specs.ProjectFiles.ProjectFiles.{NotOpened};
ghost use Rattle.project_commands.specs.Reporting.{PrintsProgress, PrintsSnapshots};

use mark_base::Bytes;
use named_disks::Disks;
use program_inputs::{Trouble, look_at_project};
use project_reports::{progress_csv, snapshots_csv};
use std::alloc::Global;

/// `progress BOOK`: reads the project of a file as it stands, and gives the table of who is done, as `progress_csv` says. A
/// layer that is out in the file is free in what is read, so no row says `out`. Cost: reading the project, and the table.
pub fn show_progress<D: Disks>(alloc: Global, book: &str, disks: &mut D) -> Result<Bytes, Trouble>
    requires { IsIn (D.out disks.old) book.now }
    ensures told { MatchResult result (PrintsProgress (reads_as (D.stored disks.old) book.now)) (NotOpened (reads_as (D.stored disks.old) book.now)) }
    ensures kept { KeepsAll (D.stored disks.old) (D.out disks.old) (D.stored disks.new) (D.out disks.new) }
    ensures stays { D.faultless disks.old → D.faultless disks.new }
    ensures never { D.faultless disks.old → IsErrOf result Trouble.DiskFailed → ⊥ }
    ensures free { D.faultless disks.old → IsErrOf result Trouble.DiskInUse → ⊥ }
    ensures no_file { IfErr result (λ trouble. trouble ≢ Trouble.FileFailed) }
    ensures no_read { IfErr result (λ trouble. trouble ≢ Trouble.ReadFault) }
    ensures no_write { IfErr result (λ trouble. trouble ≢ Trouble.WriteFault) }
{
    let project = look_at_project(alloc, disks, book)?;
    let table = progress_csv(alloc, project.state())?;
    Ok(table)
}

/// `snapshots BOOK`: reads the project of a file as it stands, and gives the table of how far curation is, as
/// `snapshots_csv` says. Cost: reading the project, and the items of each snapshot.
pub fn show_snapshots<D: Disks>(alloc: Global, book: &str, disks: &mut D) -> Result<Bytes, Trouble>
    requires { IsIn (D.out disks.old) book.now }
    ensures told { MatchResult result (PrintsSnapshots (reads_as (D.stored disks.old) book.now)) (NotOpened (reads_as (D.stored disks.old) book.now)) }
    ensures kept { KeepsAll (D.stored disks.old) (D.out disks.old) (D.stored disks.new) (D.out disks.new) }
    ensures stays { D.faultless disks.old → D.faultless disks.new }
    ensures never { D.faultless disks.old → IsErrOf result Trouble.DiskFailed → ⊥ }
    ensures free { D.faultless disks.old → IsErrOf result Trouble.DiskInUse → ⊥ }
    ensures no_file { IfErr result (λ trouble. trouble ≢ Trouble.FileFailed) }
    ensures no_read { IfErr result (λ trouble. trouble ≢ Trouble.ReadFault) }
    ensures no_write { IfErr result (λ trouble. trouble ≢ Trouble.WriteFault) }
{
    let project = look_at_project(alloc, disks, book)?;
    let table = snapshots_csv(alloc, project.state())?;
    Ok(table)
}
