//! The founding that an entry tells.
ghost use Rattle.std.specs.Prelude.{◌≡◌, ◌≢◌, ◌≤◌, ℕ, List, IfNone, IfOk, IfSome, None, Ok, Some, length, option_map, true, vec_len};
ghost use Rattle.std.specs.Arc.{arc_value};
ghost use Rattle.std.specs.List.{AllByRecursion};
ghost use Rattle.entry_bytes.specs.declared.person.Person.{Person};
ghost use Rattle.entry_bytes.specs.Fields.{IsSlug};
ghost use Rattle.conf_model.specs.ConfOf.{conf_of};
ghost use Rattle.conf_model.specs.ConfText.{conf_text};
ghost use Rattle.conf_model.specs.Configurations.{Configuration};
ghost use Rattle.conf_model.specs.Sound.{IsSound};
ghost use Rattle.project_machine.specs.People.{in_name_order, roster_fault, IsRoster};
ghost use Rattle.project_machine.specs.Requests.{Founded};
ghost use Rattle.project_state.specs.Entries.Founding.{founded, IsFoundingOf, IsReadBack};
ghost use Rattle.project_state.specs.Entries.FoundingReading.{ReadsFields, ReadsFounding};

use crate::limits::LONGEST_CONF;
use crate::{Roster, RosterFault, rosters_can_found};
use annotation_conf::{read_conf, sound_configurations_are_read_back, write_conf};
use conf_model::{Conf, ConfFault};
use entry_bytes::{Entry, Person, PersonList};
use mark_base::{Memory, Text};
use std::alloc::Global;
use std::sync::Arc;

/// What a project is founded with: its configuration, its people, and the level at which types are compared, 255 for
/// none.
#[derive(Drop)]
pub struct Founding {
    pub conf: Arc<Conf>,
    pub roster: Roster,
    pub level: u8,
}

/// The configuration, where the text that it was read from is its canonical one.
fn own_conf(alloc: Global, conf: Conf, text: &Text) -> Result<Option<Conf>, Memory>
    requires { conf_of text.now ≡ Ok conf }
    ensures found { IfOk result (λ found. IfSome found (λ conf. (conf_text conf ≡ text.now) × IsSound conf)) }
    ensures told { IfOk result (λ found. (conf : Configuration) → IsReadBack conf → conf_text conf ≡ text.now → found ≡ Some conf) }
{
    conf.reads_back();
    let written = write_conf(alloc, &conf)?;
    if written.text() == text.text() {
        Ok(Some(conf))
    } else {
        Ok(None)
    }
}

/// The configuration of its canonical text, which has at most 4,194,304 bytes.
fn conf_read(alloc: Global, text: &Text) -> Result<Option<Conf>, Memory>
    ensures found { IfOk result (λ found. IfSome found (λ conf. (conf_text conf ≡ text.now) × IsSound conf × (length (conf_text conf) ≤ 4194304))) }
    ensures told { IfOk result (λ found. (conf : Configuration) → IsReadBack conf → conf_text conf ≡ text.now → length text.now ≤ 4194304 → found ≡ Some conf) }
{
    let bytes = text.text().as_bytes();
    if bytes.len() > LONGEST_CONF {
        return Ok(None);
    }
    match read_conf(alloc, bytes) {
        Ok(conf) => own_conf(alloc, conf, text),
        Err(ConfFault::Memory) => Err(Memory),
        Err(ConfFault::At { .. }) => Ok(None),
    }
}

/// Tells a proof that a name is spelt as one. It does nothing.
fn name_is_spelt(person: &Person)
    ensures { IsSlug person.now.name }
{
    let _name = person.name.text();
}

/// Tells a proof that the name of each of some people is spelt as one. It changes nothing. Cost: their number.
pub fn names_are_spelt(people: &[Person])
    ensures { AllByRecursion (λ (person : Person). IsSlug person.name) people.now }
{
    for person in people {
        name_is_spelt(person);
    }
}

/// Whether these are the same people.
fn are_same(people: &[Person], others: &[Person]) -> bool
    ensures same { result ≡ true → people.now ≡ others.now }
    ensures all { people.now ≡ others.now → result ≡ true }
{
    people == others
}

/// The roster of people without a fault.
fn roster_of(alloc: Global, people: Vec<Person>) -> Result<Option<Roster>, Memory>
    requires { vec_len people ≤ 65536 }
    ensures ordered { IfOk result (λ found. IfSome found (λ roster. roster ≡ in_name_order people.items)) }
    ensures accepted { IfOk result (λ found. IfSome found (λ roster. roster_fault people.items ≡ None)) }
    ensures faulty { IfOk result (λ found. IfNone found (roster_fault people.items ≢ None)) }
{
    match Roster::of(alloc, people) {
        Ok(roster) => Ok(Some(roster)),
        Err(RosterFault::Memory) => Err(Memory),
        Err(RosterFault::NameTwice(_)) => Ok(None),
        Err(RosterFault::TooMany) => Ok(None),
        Err(RosterFault::Lacking) => Ok(None),
    }
}

/// The roster, where these are its people in the same order.
fn in_own_order(roster: Roster, people: &PersonList) -> Option<Roster>
    ensures found { IfSome result (λ found. found ≡ people.now) }
    ensures told { roster ≡ people.now → result ≡ Some people.now }
    ensures own { IfSome result (λ found. found ≡ roster) }
{
    if are_same(roster.people(), people.items()) {
        Some(roster)
    } else {
        None
    }
}

/// The roster of people who stand in the order of their names.
fn roster_read(alloc: Global, people: &PersonList) -> Result<Option<Roster>, Memory>
    ensures found { IfOk result (λ found. IfSome found (λ roster. (roster ≡ people.now) × IsRoster people.now)) }
    ensures told { IfOk result (λ found. IsRoster people.now → found ≡ Some people.now) }
{
    rosters_can_found();
    names_are_spelt(people.items());
    if people.items().len() > 255 {
        return Ok(None);
    }
    match roster_of(alloc, people.copy()?.into_vec())? {
        Some(roster) => Ok(in_own_order(roster, people)),
        None => Ok(None),
    }
}

/// The founding of the text of a configuration, people and a level, 255 for none.
fn founding_with(
    alloc: Global,
    conf: &Text,
    people: &PersonList,
    level: u8,
) -> Result<Option<Founding>, Memory>
    ensures { IfOk result (ReadsFields conf.now people.now level) }
{
    let Some(conf) = conf_read(alloc, conf)? else {
        return Ok(None);
    };
    let Some(roster) = roster_read(alloc, people)? else {
        return Ok(None);
    };
    Ok(Some(Founding {
        conf: Arc::new(alloc, conf)?,
        roster,
        level,
    }))
}

/// The founding at a level, which is not 255.
fn founding_at(
    alloc: Global,
    conf: &Text,
    people: &PersonList,
    level: u8,
) -> Result<Option<Founding>, Memory>
    ensures { IfOk result (ReadsFounding (Entry.FoundAt conf.now people.now level)) }
{
    if level == 255 {
        Ok(None)
    } else {
        founding_with(alloc, conf, people, level)
    }
}

/// What is read of an entry.
fn read_founding(alloc: Global, entry: &Entry) -> Result<Option<Founding>, Memory>
    ensures { IfOk result (ReadsFounding entry.now) }
{
    match entry {
        Entry::Found { conf, people } => founding_with(alloc, conf, people, 255),
        Entry::FoundAt {
            conf,
            people,
            level,
        } => founding_at(alloc, conf, people, *level),
        _ => Ok(None),
    }
}

/// The founding that an entry tells, where it is the entry of one: the text is the canonical one of a configuration,
/// of at most 4,194,304 bytes, and the people are those of a roster in the order of their names. Cost: the bytes of the
/// entry, and what `read_conf` and `write_conf` say.
pub fn founding_of(alloc: Global, entry: &Entry) -> Result<Option<Founding>, Memory>
    // What is told can be founded, and has this entry.
    ensures found { IfOk result (λ told. IfSome told (λ founding. IsFoundingOf entry.now (arc_value founding.conf) founding.level founding.roster)) }
    // Each founding of this entry is told.
    ensures told { IfOk result (λ told. (conf : Configuration) (level : ℕ) (people : List Person) → IsFoundingOf entry.now conf level people → option_map founded told ≡ Some (Founded conf level people)) }
{
    sound_configurations_are_read_back();
    let told = read_founding(alloc, entry)?;
    Ok(told)
}
