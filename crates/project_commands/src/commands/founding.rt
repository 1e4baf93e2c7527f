//! How a command founds a project in memory.
ghost use Rattle.std.specs.Prelude.{◌≡◌, ◌≢◌, IfErr, IfOk};
ghost use Rattle.project_book.specs.Founding.{founded};
ghost use Rattle.project_journal.specs.MemoryKeepers.{fails_of_appends};
ghost use Rattle.mark_base.specs.FailList.{IsFaultless};
ghost use Rattle.project_commands.specs.Commands.Requests.{NotFounded};

use conf_model::Conf;
use entry_bytes::Person;
use mark_base::{Memory, Slug};
use program_inputs::Trouble;
use project_book::{Book, FoundFault, Roster};
use project_journal::MemoryKeeper;
use std::alloc::Global;

/// The slug of a text that is one; of another text want of memory is answered.
pub fn slug_of(alloc: Global, text: &str) -> Result<Slug, Memory>
    ensures { IfOk result (λ slug. slug ≡ text.now) }
{
    match Slug::new(alloc, text) {
        Ok(slug) => Ok(slug),
        Err(_) => Err(Memory),
    }
}

/// A person of a name and a role.
pub(crate) fn person(alloc: Global, name: &str, curator: bool) -> Result<Person, Memory>
    ensures { IfOk result (λ person. person ≡ record { name = name.now; curator = curator }) }
{
    let name = slug_of(alloc, name)?;
    Ok(Person { name, curator })
}

/// A project in memory, whose keeper does not fail.
pub(crate) fn found_in_memory(
    alloc: Global,
    conf: Conf,
    roster: Roster,
) -> Result<Book<MemoryKeeper>, Trouble>
    ensures founded { IfOk result (λ book. book.log ≡ founded conf 255 roster) }
    ensures sure { IfOk result (λ book. IsFaultless (fails_of_appends book.keeper)) }
    ensures refused { IfErr result (NotFounded conf 255 roster) }
    ensures no_disk { IfErr result (λ why. why ≢ Trouble.DiskFailed) }
    ensures no_read { IfErr result (λ why. why ≢ Trouble.ReadFault) }
    ensures no_write { IfErr result (λ why. why ≢ Trouble.WriteFault) }
    ensures no_file { IfErr result (λ why. why ≢ Trouble.FileFailed) }
    ensures no_use { IfErr result (λ why. why ≢ Trouble.DiskInUse) }
{
    let keeper = MemoryKeeper::new(alloc, Vec::new(alloc), Vec::new(alloc));
    match Book::found(alloc, keeper, conf, roster) {
        Ok(book) => Ok(book),
        Err((_, FoundFault::EntryTooLong(bytes))) => Err(Trouble::BookTooLong { bytes }),
        Err((_, FoundFault::Memory)) => Err(Trouble::Memory),
        Err((_, FoundFault::Keeper)) => unreachable!(),
    }
}
