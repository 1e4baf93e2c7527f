//! The command `compact`: another file that begins with the state of the project of a file.
ghost use Rattle.std.specs.Prelude.{◌≡◌, ◌≢◌, ◌⊎◌, ◌++◌, false, All, IfErr, IfOk, IsErrOf, MatchResult, codes, decimal};
ghost use Rattle.named_disks.specs.NamedDisks.{IsIn, KeepsAll, KeepsOthers, reads_as};
ghost use Rattle.project_journal.specs.Keeper.{IsEntry};
ghost use Rattle.project_machine.specs.ProjectState.{is_some_out};
ghost use Rattle.project_machine.specs.History.{after, encoded, last};
ghost use Rattle.project_machine.specs.Opening.{restored};
ghost use Rattle.program_inputs.specs.ProjectFiles.ProjectFiles.{NotOpened};
ghost use Rattle.project_commands.specs.Compacting.{Compacts, NotCompacted, TellsState, place_line};

use mark_base::{Bytes, Memory};
use named_disks::Disks;
use program_inputs::{Trouble, look_at_project, make_file};
use project_book::Book;
use project_journal::Keeper;
use std::alloc::Global;

/// The state of a project as a run of pieces, and its place.
#[derive(Drop)]
struct Told {
    pieces: Vec<Bytes>,
    place: u64,
}

/// The state of a project of which no layer is out.
fn state_of<K: Keeper>(project: &Book<K>) -> Result<Told, Memory>
    requires { is_some_out (after project.now.log) ≡ false }
    ensures pieces { IfOk result (λ told. told.pieces.items ≡ encoded (restored (after project.now.log))) }
    ensures place { IfOk result (λ told. told.place ≡ last project.now.log) }
    ensures entries { IfOk result (λ told. All IsEntry told.pieces.items) }
{
    let pieces = project.pieces()?;
    Ok(Told {
        pieces,
        place: project.place(),
    })
}

/// The state of the project of a file.
fn state_in<D: Disks>(alloc: Global, book: &str, disks: &mut D) -> Result<Told, Trouble>
    requires { IsIn (D.out disks.old) book.now }
    ensures state { IfOk result (λ told. TellsState (reads_as (D.stored disks.old) book.now) told.pieces.items told.place) }
    ensures entries { IfOk result (λ told. All IsEntry told.pieces.items) }
    ensures refused { IfErr result (NotOpened (reads_as (D.stored disks.old) book.now)) }
    ensures kept { KeepsAll (D.stored disks.old) (D.out disks.old) (D.stored disks.new) (D.out disks.new) }
    ensures stays { D.faultless disks.old → D.faultless disks.new }
    ensures never { D.faultless disks.old → IsErrOf result Trouble.DiskFailed → ⊥ }
    ensures free { D.faultless disks.old → IsErrOf result Trouble.DiskInUse → ⊥ }
{
    let project = look_at_project(alloc, disks, book)?;
    let told = state_of(&project)?;
    Ok(told)
}

/// The line that tells a place.
fn place_line(alloc: Global, place: u64) -> Result<Bytes, Memory>
    ensures { IfOk result (λ bytes. bytes ≡ place_line place) }
{
    let line = format!(in alloc; "place {place}\n")?;
    Ok(Bytes::from_vec(line.into_bytes()))
}

/// `compact BOOK MADE`: reads the project of a file as it stands, makes of another file a journal that begins with the
/// project's state in place of its history, and gives the line that tells its place.
///
/// The other file has to be absent or empty, else `AlreadyThere`. It is as it was behind a refusal, but for `DiskFailed`.
/// The first file stays as it is; a layer that is out there is free in the other. Cost: reading the project, and its state.
pub fn compact<D: Disks>(
    alloc: Global,
    book: &str,
    made: &str,
    disks: &mut D,
) -> Result<Bytes, Trouble>
    requires book_in { IsIn (D.out disks.old) book.now }
    requires made_in { IsIn (D.out disks.old) made.now }
    requires apart { book.now ≢ made.now }
    ensures told { MatchResult result (Compacts (reads_as (D.stored disks.old) book.now) (reads_as (D.stored disks.new) made.now)) (NotCompacted (reads_as (D.stored disks.old) book.now) (reads_as (D.stored disks.old) made.now)) }
    ensures made_back { IsIn (D.out disks.new) made.now }
    ensures others { KeepsOthers made.now (D.stored disks.old) (D.out disks.old) (D.stored disks.new) (D.out disks.new) }
    ensures stays { D.faultless disks.old → D.faultless disks.new }
    ensures never { D.faultless disks.old → IsErrOf result Trouble.DiskFailed → ⊥ }
    ensures free { D.faultless disks.old → IsErrOf result Trouble.DiskInUse → ⊥ }
    ensures no_file { IfErr result (λ trouble. trouble ≢ Trouble.FileFailed) }
    ensures no_read { IfErr result (λ trouble. trouble ≢ Trouble.ReadFault) }
    ensures no_write { IfErr result (λ trouble. trouble ≢ Trouble.WriteFault) }
{
    let told = state_in(alloc, book, disks)?;
    let line = place_line(alloc, told.place)?;
    match make_file(alloc, disks, made, told.pieces.as_slice()) {
        Ok(()) => Ok(line),
        Err(why) => Err(why),
    }
}
