//! The project in the disk of a name.
ghost use Rattle.std.specs.Prelude.{◌≡◌, ◌≢◌, All, None, Some, IfErr, IfOk, IfSome, IsErrOf, OnErr, OnOk};
ghost use Rattle.project_book.specs.Founding.{founded};
ghost use Rattle.named_disks.specs.NamedDisks.{IsIn, IsOut, KeepsAll, KeepsOthers, is_there, reads_as};
ghost use Rattle.project_journal.specs.Keeper.{IsEntry};
ghost use Rattle.program_inputs.specs.ProjectFiles.ProjectFiles.{HasEntries, IsFileOf, NotBegun, NotMade, NotOpened, NotTaken, OpensAs};

use crate::Trouble;
use crate::project_files::files::{close, found_in, make_in, open_in};
use conf_model::Conf;
use mark_base::Bytes;
use named_disks::{Disks, DisksFault};
use project_book::{Book, Roster};
use project_journal::{Disk, Journal, Keeper, MemoryDisk};
use std::alloc::Global;

/// The disk of a name that is there; where nothing is, that is told as no journal.
fn take_disk<D: Disks>(alloc: Global, disks: &mut D, name: &str) -> Result<D::Disk, Trouble>
    requires { IsIn (D.out disks.old) name.now }
    ensures reads { IfOk result (λ disk. IfSome (reads_as (D.stored disks.old) name.now) (λ file. D.Disk.holds disk ≡ Some file)) }
    ensures handed_out { OnOk result (IsOut (D.out disks.new) name.now) }
    ensures stays_in { OnErr result (IsIn (D.out disks.new) name.now) }
    ensures others { KeepsOthers name.now (D.stored disks.old) (D.out disks.old) (D.stored disks.new) (D.out disks.new) }
    ensures none_made { is_there (D.stored disks.new) name.now ≡ is_there (D.stored disks.old) name.now }
    ensures told { IfErr result (NotOpened (reads_as (D.stored disks.old) name.now)) }
    ensures sure { D.faultless disks.old → IfOk result (λ disk. D.Disk.faultless disk) }
    ensures stays { D.faultless disks.old → D.faultless disks.new }
    ensures never { D.faultless disks.old → IsErrOf result Trouble.DiskFailed → ⊥ }
    ensures free { D.faultless disks.old → IsErrOf result Trouble.DiskInUse → ⊥ }
{
    match disks.disk(alloc, name) {
        Ok(disk) => Ok(disk),
        Err(DisksFault::Absent) => Err(Trouble::NotAJournal),
        Err(DisksFault::InUse) => Err(Trouble::DiskInUse),
        Err(DisksFault::Failed) => Err(Trouble::DiskFailed),
        Err(DisksFault::Memory) => Err(Trouble::Memory),
    }
}

/// The disk of a name, of which one is made where nothing is there.
fn make_disk<D: Disks>(alloc: Global, disks: &mut D, name: &str) -> Result<D::Disk, Trouble>
    requires { IsIn (D.out disks.old) name.now }
    ensures reads { IfOk result (λ disk. IfSome (reads_as (D.stored disks.old) name.now) (λ file. D.Disk.holds disk ≡ Some file)) }
    ensures handed_out { OnOk result (IsOut (D.out disks.new) name.now) }
    ensures stays_in { OnErr result (IsIn (D.out disks.new) name.now) }
    ensures others { KeepsOthers name.now (D.stored disks.old) (D.out disks.old) (D.stored disks.new) (D.out disks.new) }
    ensures told { IfErr result NotTaken }
    ensures sure { D.faultless disks.old → IfOk result (λ disk. D.Disk.faultless disk) }
    ensures stays { D.faultless disks.old → D.faultless disks.new }
    ensures never { D.faultless disks.old → IsErrOf result Trouble.DiskFailed → ⊥ }
    ensures free { D.faultless disks.old → IsErrOf result Trouble.DiskInUse → ⊥ }
{
    match disks.make(alloc, name) {
        Ok(disk) => Ok(disk),
        Err(DisksFault::Absent) => unreachable!(),
        Err(DisksFault::InUse) => Err(Trouble::DiskInUse),
        Err(DisksFault::Failed) => Err(Trouble::DiskFailed),
        Err(DisksFault::Memory) => Err(Trouble::Memory),
    }
}

/// A disk in memory that reads as the disk of a name does; where nothing is there, that is told as no journal.
fn look_at_disk<D: Disks>(alloc: Global, disks: &mut D, name: &str) -> Result<MemoryDisk, Trouble>
    requires { IsIn (D.out disks.old) name.now }
    ensures reads { IfOk result (λ disk. IfSome (reads_as (D.stored disks.old) name.now) (λ file. ⟦<MemoryDisk as Disk>⟧.holds disk ≡ Some file)) }
    ensures kept { KeepsAll (D.stored disks.old) (D.out disks.old) (D.stored disks.new) (D.out disks.new) }
    ensures told { IfErr result (NotOpened (reads_as (D.stored disks.old) name.now)) }
    ensures sure { IfOk result (λ disk. ⟦<MemoryDisk as Disk>⟧.faultless disk) }
    ensures stays { D.faultless disks.old → D.faultless disks.new }
    ensures never { D.faultless disks.old → IsErrOf result Trouble.DiskFailed → ⊥ }
    ensures free { D.faultless disks.old → IsErrOf result Trouble.DiskInUse → ⊥ }
{
    match disks.look(alloc, name) {
        Ok(bytes) => Ok(MemoryDisk::new(alloc, bytes, Vec::new(alloc))),
        Err(DisksFault::Absent) => Err(Trouble::NotAJournal),
        Err(DisksFault::InUse) => Err(Trouble::DiskInUse),
        Err(DisksFault::Failed) => Err(Trouble::DiskFailed),
        Err(DisksFault::Memory) => Err(Trouble::Memory),
    }
}

/// Founds a project in the file of a name, at a level of the tree of types, 255 for none. The file has to be absent or
/// empty. The project has the disk of the name until [`give_project_back`]; a refusal gives it back, and leaves the file
/// as it was but for `BookTooLong`, where it is a journal without entries, and `DiskFailed`. Cost: see `Book::found_at`.
pub fn found_project<D: Disks>(
    alloc: Global,
    disks: &mut D,
    name: &str,
    conf: Conf,
    roster: Roster,
    level: u8,
) -> Result<Book<Journal<D::Disk>>, Trouble>
    requires { IsIn (D.out disks.old) name.now }
    ensures founded { IfOk result (λ book. book.log ≡ founded conf level roster) }
    ensures certain { IfOk result (λ book. ⟦<Journal<D::Disk> as Keeper>⟧.doubt book.keeper ≡ None) }
    ensures handed_out { OnOk result (IsOut (D.out disks.new) name.now) }
    ensures stays_in { OnErr result (IsIn (D.out disks.new) name.now) }
    ensures refused { IfErr result (NotMade (reads_as (D.stored disks.old) name.now) conf level roster) }
    ensures others { KeepsOthers name.now (D.stored disks.old) (D.out disks.old) (D.stored disks.new) (D.out disks.new) }
    ensures sure { D.faultless disks.old → IfOk result (λ book. ⟦<Journal<D::Disk> as Keeper>⟧.faultless book.keeper) }
    ensures stays { D.faultless disks.old → D.faultless disks.new }
    ensures never { D.faultless disks.old → IsErrOf result Trouble.DiskFailed → ⊥ }
    ensures free { D.faultless disks.old → IsErrOf result Trouble.DiskInUse → ⊥ }
{
    let disk = make_disk(alloc, disks, name)?;
    match found_in(alloc, disk, conf, roster, level) {
        Ok(book) => Ok(book),
        Err((disk, trouble)) => {
            disks.give_back(name, disk);
            Err(trouble)
        }
    }
}

/// Opens the project in the file of a name, which has to be there. Where some layer was out, all are freed, by one change more. The project has
/// the disk of the name until [`give_project_back`]; a refusal gives it back. Cost: see `Journal::open` and `Book::open`.
pub fn open_project<D: Disks>(
    alloc: Global,
    disks: &mut D,
    name: &str,
) -> Result<Book<Journal<D::Disk>>, Trouble>
    requires { IsIn (D.out disks.old) name.now }
    ensures opened { IfOk result (λ book. OpensAs (reads_as (D.stored disks.old) name.now) book.log) }
    ensures certain { IfOk result (λ book. ⟦<Journal<D::Disk> as Keeper>⟧.doubt book.keeper ≡ None) }
    ensures handed_out { OnOk result (IsOut (D.out disks.new) name.now) }
    ensures stays_in { OnErr result (IsIn (D.out disks.new) name.now) }
    ensures refused { IfErr result (NotOpened (reads_as (D.stored disks.old) name.now)) }
    ensures others { KeepsOthers name.now (D.stored disks.old) (D.out disks.old) (D.stored disks.new) (D.out disks.new) }
    ensures none_made { is_there (D.stored disks.new) name.now ≡ is_there (D.stored disks.old) name.now }
    ensures sure { D.faultless disks.old → IfOk result (λ book. ⟦<Journal<D::Disk> as Keeper>⟧.faultless book.keeper) }
    ensures stays { D.faultless disks.old → D.faultless disks.new }
    ensures never { D.faultless disks.old → IsErrOf result Trouble.DiskFailed → ⊥ }
    ensures free { D.faultless disks.old → IsErrOf result Trouble.DiskInUse → ⊥ }
{
    let disk = take_disk(alloc, disks, name)?;
    match open_in(alloc, disk) {
        Ok(book) => Ok(book),
        Err((disk, trouble)) => {
            disks.give_back(name, disk);
            Err(trouble)
        }
    }
}

/// Reads the project in the file of a name as the file stands, also where another process has it and goes on with it: what was
/// kept before the call is there, and perhaps more. Nothing of the file changes, and nothing is to be given back: where some
/// layer was out, all are freed in the project that is read, and not in the file. Cost: the file, `Journal::open` and
/// `Book::open`; its bytes are held once more while the project is.
pub fn look_at_project<D: Disks>(
    alloc: Global,
    disks: &mut D,
    name: &str,
) -> Result<Book<Journal<MemoryDisk>>, Trouble>
    requires { IsIn (D.out disks.old) name.now }
    ensures opened { IfOk result (λ book. OpensAs (reads_as (D.stored disks.old) name.now) book.log) }
    ensures sure { IfOk result (λ book. ⟦<Journal<MemoryDisk> as Keeper>⟧.faultless book.keeper) }
    ensures refused { IfErr result (NotOpened (reads_as (D.stored disks.old) name.now)) }
    ensures kept { KeepsAll (D.stored disks.old) (D.out disks.old) (D.stored disks.new) (D.out disks.new) }
    ensures stays { D.faultless disks.old → D.faultless disks.new }
    ensures never { D.faultless disks.old → IsErrOf result Trouble.DiskFailed → ⊥ }
    ensures free { D.faultless disks.old → IsErrOf result Trouble.DiskInUse → ⊥ }
{
    let disk = look_at_disk(alloc, disks, name)?;
    match open_in(alloc, disk) {
        Ok(book) => Ok(book),
        Err((_disk, trouble)) => Err(trouble),
    }
}

/// Makes a journal of the file of a name with these entries, each of 1 to 16,777,216 bytes. The file has to be absent or
/// empty. A refusal leaves it as it was but for `DiskFailed`. Cost: the entries.
pub fn make_file<D: Disks>(
    alloc: Global,
    disks: &mut D,
    name: &str,
    entries: &[Bytes],
) -> Result<(), Trouble>
    requires within { IsIn (D.out disks.old) name.now }
    requires entries { All IsEntry entries.now }
    ensures made { OnOk result (HasEntries (reads_as (D.stored disks.new) name.now) entries.now) }
    ensures refused { IfErr result (NotBegun (reads_as (D.stored disks.old) name.now)) }
    ensures taken_back { IsIn (D.out disks.new) name.now }
    ensures others { KeepsOthers name.now (D.stored disks.old) (D.out disks.old) (D.stored disks.new) (D.out disks.new) }
    ensures stays { D.faultless disks.old → D.faultless disks.new }
    ensures never { D.faultless disks.old → IsErrOf result Trouble.DiskFailed → ⊥ }
    ensures free { D.faultless disks.old → IsErrOf result Trouble.DiskInUse → ⊥ }
{
    let disk = make_disk(alloc, disks, name)?;
    match make_in(alloc, disk, entries) {
        Ok(disk) => {
            disks.give_back(name, disk);
            Ok(())
        }
        Err((disk, trouble)) => {
            disks.give_back(name, disk);
            Err(trouble)
        }
    }
}

/// Gives the disk of a project back to its name. Where nothing is in doubt behind the last change, as where no call of the
/// disk can fail, the file of the name is the journal of the project's history.
pub fn give_project_back<D: Disks>(disks: &mut D, name: &str, book: Book<Journal<D::Disk>>)
    requires { IsOut (D.out disks.old) name.now }
    ensures file { ⟦<Journal<D::Disk> as Keeper>⟧.doubt book.keeper ≡ None → IsFileOf (reads_as (D.stored disks.new) name.now) book.log }
    ensures certain { ⟦<Journal<D::Disk> as Keeper>⟧.faultless book.keeper → IsFileOf (reads_as (D.stored disks.new) name.now) book.log }
    ensures taken_back { IsIn (D.out disks.new) name.now }
    ensures others { KeepsOthers name.now (D.stored disks.old) (D.out disks.old) (D.stored disks.new) (D.out disks.new) }
    ensures none_made { is_there (D.stored disks.new) name.now ≡ is_there (D.stored disks.old) name.now }
    ensures stays { D.faultless disks.old → ⟦<Journal<D::Disk> as Keeper>⟧.faultless book.keeper → D.faultless disks.new }
{
    let disk = close(book);
    disks.give_back(name, disk);
}
