//! The people of a file.
ghost use Rattle.std.specs.Prelude.{◌≡◌, ◌⊎◌, ◌≤◌, Ok, true, false, Some, None, ℕ, bytes_eq, codes, is_some, length, map, option_map, IfErr, IfNone, IfOk, IfSome};
ghost use Rattle.std.specs.Str.{is_utf8};
ghost use Rattle.csv.specs.Records.{fields_of};
ghost use Rattle.mark_base.specs.Names.{slug_fault};
ghost use Rattle.roster_file.specs.RosterFiles.{IsRefusal, people_of, person_of, roster_of, row_of, texts_of, two_of};

use crate::roster_read::RosterRead;
use crate::rows::rows_of;
use csv::ByteRecord;
use entry_bytes::Person;
use mark_base::{NameFault, Slug};
use project_machine::{Roster, RosterFault};
use std::alloc::Global;

/// The two fields of a row, its name and its role.
#[derive(Drop)]
struct RowFields<'a> {
    name: &'a [u8],
    role: &'a [u8],
}

/// The name and the role of a row, as it spells them.
#[derive(Drop)]
struct RowTexts<'a> {
    name: &'a str,
    role: &'a str,
}

/// The two fields of a row, where it has exactly two.
fn two_of(row: &ByteRecord) -> Option<RowFields<'_>>
    ensures { option_map (λ fields. (fields.name.now, fields.role.now)) result ≡ two_of (fields_of row.now) }
{
    let Some(name) = row.get(0) else {
        return None;
    };
    let Some(role) = row.get(1) else {
        return None;
    };
    if row.get(2).is_some() {
        return None;
    }
    Some(RowFields { name, role })
}

/// The text of bytes, where they are UTF-8.
fn text_of(bytes: &[u8]) -> Option<&str>
    ensures some { IfSome result (λ text. (text.now ≡ bytes.now) × (is_utf8 bytes.now ≡ true)) }
    ensures none { IfNone result (is_utf8 bytes.now ≡ false) }
{
    match str::from_utf8(bytes) {
        Ok(text) => Some(text),
        Err(_) => None,
    }
}

/// The two fields of a row, where it has exactly two and both are UTF-8.
fn texts_of(row: &ByteRecord) -> Option<RowTexts<'_>>
    ensures { option_map (λ texts. (texts.name.now, texts.role.now)) result ≡ texts_of (two_of (fields_of row.now)) }
{
    let Some(fields) = two_of(row) else {
        return None;
    };
    let Some(name) = text_of(fields.name) else {
        return None;
    };
    let Some(role) = text_of(fields.role) else {
        return None;
    };
    Some(RowTexts { name, role })
}

/// The slug of a text.
fn slug_of(alloc: Global, text: &str, number: u32) -> Result<Slug, RosterRead>
    ensures read { IfOk result (λ slug. (slug ≡ text.now) × (is_some (slug_fault text.now) ≡ false)) }
    ensures refused { IfErr result (λ fault. (fault ≡ RosterRead.Memory) ⊎ ((fault ≡ RosterRead.BadName number) × (is_some (slug_fault text.now) ≡ true))) }
{
    match Slug::new(alloc, text) {
        Ok(slug) => Ok(slug),
        Err(NameFault::Memory) => Err(RosterRead::Memory),
        Err(_) => Err(RosterRead::BadName(number)),
    }
}

/// The person of a name and a role, in the row of this number.
fn person_of(alloc: Global, name: &str, role: &str, number: u32) -> Result<Person, RosterRead>
    ensures read { IfOk result (λ person. person_of number name.now role.now ≡ Ok person) }
    ensures refused { IfErr result (IsRefusal (person_of number name.now role.now)) }
{
    let name = slug_of(alloc, name, number)?;
    if role == "annotator" {
        Ok(Person {
            name,
            curator: false,
        })
    } else if role == "curator" {
        Ok(Person {
            name,
            curator: true,
        })
    } else {
        Err(RosterRead::BadRole(number))
    }
}

/// The person of the row of a number.
fn read_row(alloc: Global, row: &ByteRecord, number: u32) -> Result<Person, RosterRead>
    ensures read { IfOk result (λ person. row_of number (texts_of (two_of (fields_of row.now))) ≡ Ok person) }
    ensures refused { IfErr result (IsRefusal (row_of number (texts_of (two_of (fields_of row.now))))) }
{
    match texts_of(row) {
        Some(texts) => person_of(alloc, texts.name, texts.role, number),
        None => Err(RosterRead::BadRow(number)),
    }
}

/// The people of rows.
fn people_of(alloc: Global, rows: &[ByteRecord]) -> Result<Vec<Person>, RosterRead>
    requires { length rows.now ≤ 65536 }
    ensures read { IfOk result (λ people. people_of 1 (map fields_of rows.now) ≡ Ok people.items) }
    ensures few { IfOk result (λ people. length people.items ≤ length rows.now) }
    ensures refused { IfErr result (IsRefusal (people_of 1 (map fields_of rows.now))) }
{
    let mut people = Vec::new(alloc);
    for (place, row) in rows.iter().enumerate() {
        let person = read_row(alloc, row, place as u32 + 1)?;
        people.push(person)?;
    }
    Ok(people)
}

/// The roster of a file of at most 65,536 bytes: CSV without a header row, each row `name,annotator` or
/// `name,curator`. Cost: the bytes of the file, and for the people their number times its logarithm.
pub fn read_roster(alloc: Global, bytes: &[u8]) -> Result<Roster, RosterRead>
    requires { length bytes.now ≤ 65536 }
    ensures read { IfOk result (λ roster. roster_of bytes.now ≡ Ok roster) }
    // The fault of the first row that has one, or of the people; or want of memory.
    ensures refused { IfErr result (IsRefusal (roster_of bytes.now)) }
{
    let rows = rows_of(alloc, bytes)?;
    let people = people_of(alloc, &rows)?;
    match Roster::of(alloc, people) {
        Ok(roster) => Ok(roster),
        Err(RosterFault::Memory) => Err(RosterRead::Memory),
        Err(fault) => Err(RosterRead::Roster(fault)),
    }
}
