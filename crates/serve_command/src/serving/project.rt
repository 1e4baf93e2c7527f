//! The project in a disk.
ghost use Rattle.std.specs.Prelude.{◌≡◌, ◌≢◌, IfErr, IfOk};
ghost use Rattle.program_inputs.specs.ProjectFiles.ProjectFiles.{IsFileOf, NotOpened, OpensAs, trouble_of};
ghost use Rattle.serve_command.specs.Serving.Serving.{IsFileOrOneMore, open_trouble};

use crate::serving::pledge::{Pledge, Pledged};
use program_inputs::Trouble;
use project_book::{Book, OpenFault};
use project_journal::{Disk, Journal, JournalFault};
use std::alloc::Global;

/// A project over the journal of a disk, which cannot fail where the pledge is given.
pub(crate) type DiskBook<E, P> = Book<Pledged<Journal<E>, P>>;

/// What a fault of a journal comes to.
fn trouble_of(fault: JournalFault) -> Trouble
    ensures { result ≡ trouble_of fault }
{
    match fault {
        JournalFault::NotAJournal => Trouble::NotAJournal,
        JournalFault::NewerVersion(version) => Trouble::NewerVersion { version },
        JournalFault::Disk => Trouble::DiskFailed,
        JournalFault::Damaged(number) => Trouble::Damaged { number },
        JournalFault::AlreadyThere(length) => Trouble::AlreadyThere { length },
        JournalFault::Memory => Trouble::Memory,
    }
}

/// What a refused opening of a project comes to.
fn open_trouble(fault: OpenFault) -> Trouble
    ensures { result ≡ open_trouble fault }
{
    match fault {
        OpenFault::BadEntry(number) => Trouble::BadEntry { number },
        OpenFault::Keeper => Trouble::DiskFailed,
        OpenFault::Memory => Trouble::Memory,
    }
}

/// Opens the project in the journal of a disk. A refusal gives the disk back.
pub(crate) fn open_in<E: Disk + Drop, P: Pledge>(
    alloc: Global,
    disk: E,
) -> Result<DiskBook<E, P>, (E, Trouble)>
    requires { P.given → E.faultless disk }
    ensures opened { IfOk result (λ book. OpensAs (E.holds disk) book.log) }
    ensures refused { IfErr result (λ back. NotOpened (E.holds disk) back.1) }
    ensures sure { P.given → IfErr result (λ back. E.faultless back.0 × (back.1 ≢ Trouble.DiskFailed) × (back.1 ≢ Trouble.DiskInUse)) }
{
    let (journal, entries) = match Journal::open(alloc, disk) {
        Ok(opened) => opened,
        Err((disk, fault)) => return Err((disk, trouble_of(fault))),
    };
    match Book::open(
        alloc,
        Pledged::<Journal<E>, P>::new(journal),
        entries.as_slice(),
    ) {
        Ok(book) => Ok(book),
        Err((keeper, fault)) => {
            let journal = keeper.into_keeper();
            journal.keeps();
            Err((journal.into_disk(), open_trouble(fault)))
        }
    }
}

/// Gives the disk of a project up.
pub(crate) fn close<E: Disk + Drop, P: Pledge>(book: DiskBook<E, P>) -> E
    ensures left { IsFileOrOneMore (E.holds result) book.log }
    ensures certain { P.given → IsFileOf (E.holds result) book.log }
    ensures sure { P.given → E.faultless result }
{
    book.keeps();
    let journal = book.into_keeper().into_keeper();
    journal.keeps();
    journal.into_disk()
}
