//! The project in memory, as it is founded.
ghost use Rattle.std.specs.Prelude.{◌≡◌, IfOk};
ghost use Rattle.mark_base.specs.FailList.{IsFaultless};
ghost use Rattle.project_journal.specs.MemoryKeepers.{fails_of_appends};
ghost use Rattle.demo_project.specs.Founding.{IsDemoConf, IsFounded, conf_lines, demo_people};

use annotation_conf::read_conf;
use conf_model::Conf;
use entry_bytes::Person;
use mark_base::{Memory, Slug};
use project_book::{Book, Roster};
use project_journal::MemoryKeeper;
use std::alloc::Global;

/// The configuration: eighteen types of spans.
const CONF: &str =
    "[entities]\nK0\nK1\nK2\nK3\nK4\nK5\nK6\nK7\nK8\nK9\nK10\nK11\nK12\nK13\nK14\nK15\nK16\nK17\n";

/// The slug of a text that is one; of another text want of memory is answered.
pub(crate) fn slug_of(alloc: Global, text: &str) -> Result<Slug, Memory>
    ensures { IfOk result (λ slug. slug ≡ text.now) }
{
    match Slug::new(alloc, text) {
        Ok(slug) => Ok(slug),
        Err(_) => Err(Memory),
    }
}

/// A person of a name and a role.
fn person(alloc: Global, name: &str, curator: bool) -> Result<Person, Memory>
    ensures { IfOk result (λ person. person ≡ record { name = name.now; curator = curator }) }
{
    let name = slug_of(alloc, name)?;
    Ok(Person { name, curator })
}

/// The three annotators and the curator.
fn demo_people(alloc: Global) -> Result<Roster, Memory>
    ensures { IfOk result (λ roster. roster ≡ demo_people) }
{
    let mut people = Vec::new(alloc);
    people.push(person(alloc, "ann", false)?)?;
    people.push(person(alloc, "bob", false)?)?;
    people.push(person(alloc, "cid", false)?)?;
    people.push(person(alloc, "cur", true)?)?;
    match Roster::of(alloc, people) {
        Ok(roster) => Ok(roster),
        Err(_) => Err(Memory),
    }
}

/// The configuration of the project.
fn demo_conf(alloc: Global) -> Result<Conf, Memory>
    ensures { IfOk result (λ conf. IsDemoConf conf) }
{
    match read_conf(alloc, CONF.as_bytes()) {
        Ok(conf) => Ok(conf),
        Err(_) => Err(Memory),
    }
}

/// The project in memory as it is founded. Its keeper does not fail.
pub(crate) fn found(alloc: Global) -> Result<Book<MemoryKeeper>, Memory>
    ensures founded { IfOk result (λ book. IsFounded book.log) }
    ensures sure { IfOk result (λ book. IsFaultless (fails_of_appends book.keeper)) }
{
    let conf = demo_conf(alloc)?;
    let roster = demo_people(alloc)?;
    let keeper = MemoryKeeper::new(alloc, Vec::new(alloc), Vec::new(alloc));
    match Book::found(alloc, keeper, conf, roster) {
        Ok(book) => Ok(book),
        Err(_) => Err(Memory),
    }
}
