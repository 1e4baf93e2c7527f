//! The journal of a project in one disk.
ghost use Rattle.std.specs.Prelude.{◌≡◌, ◌≢◌, None, All, IfErr, IfOk, IsErrOf, MatchResult};
ghost use Rattle.project_book.specs.Founding.{founded};
ghost use Rattle.project_journal.specs.Keeper.{IsEntry};
ghost use Rattle.program_inputs.specs.ProjectFiles.ProjectFiles.{HasEntries, IsFileOf, NotBegun, NotMade, NotOpened, OpensAs, trouble_of};

use crate::Trouble;
use conf_model::Conf;
use mark_base::Bytes;
use project_book::{Book, FoundFault, OpenFault, Roster};
use project_journal::{Disk, Journal, JournalFault, Keeper};
use std::alloc::Global;

/// What a fault of a journal comes to.
fn trouble_of(fault: JournalFault) -> Trouble
    ensures { result ≡ trouble_of fault }
{
    match fault {
        JournalFault::NotAJournal => Trouble::NotAJournal,
        JournalFault::NewerVersion(version) => Trouble::NewerVersion { version },
        JournalFault::Disk => Trouble::DiskFailed,
        JournalFault::Damaged(number) => Trouble::Damaged { number },
        JournalFault::AlreadyThere(length) => Trouble::AlreadyThere { length },
        JournalFault::Memory => Trouble::Memory,
    }
}

/// Founds a project in the journal of a disk. A refusal gives the disk back.
pub(crate) fn found_in<E: Disk + Drop>(
    alloc: Global,
    disk: E,
    conf: Conf,
    roster: Roster,
    level: u8,
) -> Result<Book<Journal<E>>, (E, Trouble)>
    ensures founded { IfOk result (λ book. book.log ≡ founded conf level roster) }
    ensures certain { IfOk result (λ book. ⟦<Journal<E> as Keeper>⟧.doubt book.keeper ≡ None) }
    ensures refused { IfErr result (λ back. NotMade (E.holds disk) conf level roster back.1) }
    ensures sure { E.faultless disk → MatchResult result (λ book. ⟦<Journal<E> as Keeper>⟧.faultless book.keeper) (λ back. E.faultless back.0 × (back.1 ≢ Trouble.DiskFailed) × (back.1 ≢ Trouble.DiskInUse)) }
{
    let journal = match Journal::create(alloc, disk) {
        Ok(journal) => journal,
        Err((disk, fault)) => return Err((disk, trouble_of(fault))),
    };
    match Book::found_at(alloc, journal, conf, roster, level) {
        Ok(book) => Ok(book),
        Err((journal, fault)) => {
            journal.keeps();
            let trouble = match fault {
                FoundFault::EntryTooLong(bytes) => Trouble::BookTooLong { bytes },
                FoundFault::Keeper => Trouble::DiskFailed,
                FoundFault::Memory => Trouble::Memory,
            };
            Err((journal.into_disk(), trouble))
        }
    }
}

/// Opens the project in the journal of a disk. A refusal gives the disk back.
pub(crate) fn open_in<E: Disk + Drop>(
    alloc: Global,
    disk: E,
) -> Result<Book<Journal<E>>, (E, Trouble)>
    ensures opened { IfOk result (λ book. OpensAs (E.holds disk) book.log) }
    ensures certain { IfOk result (λ book. ⟦<Journal<E> as Keeper>⟧.doubt book.keeper ≡ None) }
    ensures refused { IfErr result (λ back. NotOpened (E.holds disk) back.1) }
    ensures sure { E.faultless disk → MatchResult result (λ book. ⟦<Journal<E> as Keeper>⟧.faultless book.keeper) (λ back. E.faultless back.0 × (back.1 ≢ Trouble.DiskFailed) × (back.1 ≢ Trouble.DiskInUse)) }
{
    let (journal, entries) = match Journal::open(alloc, disk) {
        Ok(opened) => opened,
        Err((disk, fault)) => return Err((disk, trouble_of(fault))),
    };
    match Book::open(alloc, journal, entries.as_slice()) {
        Ok(book) => Ok(book),
        Err((journal, fault)) => {
            journal.keeps();
            let trouble = match fault {
                OpenFault::BadEntry(number) => Trouble::BadEntry { number },
                OpenFault::Keeper => Trouble::DiskFailed,
                OpenFault::Memory => Trouble::Memory,
            };
            Err((journal.into_disk(), trouble))
        }
    }
}

/// Makes a journal of a disk with these entries, and gives the disk up, as a refusal does.
pub(crate) fn make_in<E: Disk + Drop>(
    alloc: Global,
    disk: E,
    entries: &[Bytes],
) -> Result<E, (E, Trouble)>
    requires { All IsEntry entries.now }
    ensures made { IfOk result (λ it. HasEntries (E.holds it) entries.now) }
    ensures refused { IfErr result (λ back. NotBegun (E.holds disk) back.1) }
    ensures sure { E.faultless disk → MatchResult result (λ it. E.faultless it) (λ back. E.faultless back.0 × (back.1 ≢ Trouble.DiskFailed) × (back.1 ≢ Trouble.DiskInUse)) }
{
    match Journal::create_with(alloc, disk, entries) {
        Ok(journal) => Ok(journal.into_disk()),
        Err((disk, fault)) => Err((disk, trouble_of(fault))),
    }
}

/// Gives the disk of a project's journal up.
pub(crate) fn close<E: Disk + Drop>(book: Book<Journal<E>>) -> E
    ensures file { ⟦<Journal<E> as Keeper>⟧.doubt book.keeper ≡ None → IsFileOf (E.holds result) book.log }
    ensures certain { ⟦<Journal<E> as Keeper>⟧.faultless book.keeper → IsFileOf (E.holds result) book.log }
    ensures sure { ⟦<Journal<E> as Keeper>⟧.faultless book.keeper → E.faultless result }
{
    book.keeps();
    let journal = book.into_keeper();
    journal.keeps();
    journal.into_disk()
}
