//! Taking the fields of an entry from the front of its bytes.
ghost use Rattle.std.specs.Prelude.{◌≡◌, ◌==◌, [], length, Some, None, is_none, IfOk, option_map, option_and_then, if◌then◌else◌};
ghost use Rattle.std.specs.Str.{is_utf8};
ghost use Rattle.mark_base.specs.Names.{slug_fault};
ghost use Rattle.entry_bytes.specs.Reading.{front_at, byte_at, below_at, flag_at, u32_at, u64_at, is_slug, slug_at, text_at, person_at, people_on, people_at, rest_at};

use crate::person::{Person, PersonList};
use mark_base::{Bytes, Memory, NameFault, Slug, Text};
use std::alloc::Global;
use std::marker::Model;

/// The bytes of an entry that are not read yet. Where a field is not taken, the cursor stands anywhere.
#[derive(Drop)]
pub(crate) struct Cursor<'a> {
    rest: &'a [u8],
}

impl<'a> Model for Cursor<'a> {
    ghost use Rattle.std.specs.Prelude.{List, ℕ};

    ghost Value = { List ℕ };

    ghost view = { λ cursor. cursor.rest.now };
}

/// The slug that a text is.
fn slug_from(alloc: Global, text: &str) -> Result<Option<Slug>, Memory>
    ensures { IfOk result (λ slug. slug ≡ (if is_none (slug_fault text.now) then Some text.now else None)) }
{
    match Slug::new(alloc, text) {
        Ok(slug) => Ok(Some(slug)),
        Err(NameFault::Memory) => Err(Memory),
        Err(NameFault::Empty) => Ok(None),
        Err(NameFault::TooLong) => Ok(None),
        Err(NameFault::BadChar(_)) => Ok(None),
    }
}

/// The slug that bytes spell.
fn slug_of(alloc: Global, bytes: &[u8]) -> Result<Option<Slug>, Memory>
    ensures { IfOk result (λ slug. slug ≡ (if is_slug bytes.now then Some bytes.now else None)) }
{
    match str::from_utf8(bytes) {
        Ok(text) => slug_from(alloc, text),
        Err(_) => Ok(None),
    }
}

/// The text that bytes are in UTF-8.
fn text_of(alloc: Global, bytes: &[u8]) -> Result<Option<Text>, Memory>
    ensures { IfOk result (λ text. text ≡ (if is_utf8 bytes.now then Some bytes.now else None)) }
{
    match str::from_utf8(bytes) {
        Ok(text) => Ok(Some(Text::of(alloc, text)?)),
        Err(_) => Ok(None),
    }
}

impl<'a> Cursor<'a> {
    /// All bytes of an entry.
    pub(crate) fn new(rest: &'a [u8]) -> Self
        ensures { result ≡ rest.now }
    {
        Cursor { rest }
    }

    /// Whether all bytes are read.
    pub(crate) fn is_at_end(&self) -> bool
        ensures { result ≡ (length self.now == 0) }
    {
        self.rest.is_empty()
    }

    /// Takes so many bytes.
    fn take_front(&mut self, count: usize) -> Option<&'a [u8]>
        ensures { front_at count self.old ≡ option_map (λ front. (front.now, self.new)) result }
    {
        if self.rest.len() < count {
            return None;
        }
        let (front, rest) = self.rest.split_at(count);
        self.rest = rest;
        Some(front)
    }

    /// Takes one byte.
    pub(crate) fn take_u8(&mut self) -> Option<u8>
        ensures { byte_at self.old ≡ option_map (λ byte. (byte, self.new)) result }
    {
        match self.rest {
            [] => None,
            [byte, rest @ ..] => {
                self.rest = rest;
                Some(*byte)
            }
        }
    }

    /// Takes one byte that is below a limit.
    #[tactic(auto, unfolding(crate::specs::Reading::below_at))]
    pub(crate) fn take_below(&mut self, limit: u8) -> Option<u8>
        ensures { below_at limit self.old ≡ option_map (λ byte. (byte, self.new)) result }
    {
        let byte = self.take_u8()?;
        if byte < limit { Some(byte) } else { None }
    }

    /// Takes a byte that is 1 for yes and 0 for no.
    #[tactic(auto, unfolding(crate::specs::Reading::flag_at))]
    pub(crate) fn take_flag(&mut self) -> Option<bool>
        ensures { flag_at self.old ≡ option_map (λ flag. (flag, self.new)) result }
    {
        let byte = self.take_below(2)?;
        Some(byte == 1)
    }

    /// Takes a number of four bytes.
    #[tactic(auto, unfolding(crate::specs::Reading::u32_at))]
    pub(crate) fn take_u32(&mut self) -> Option<u32>
        ensures { u32_at self.old ≡ option_map (λ number. (number, self.new)) result }
    {
        let bytes = self.take_front(4)?;
        Some(u32::from_le_bytes([bytes[0], bytes[1], bytes[2], bytes[3]]))
    }

    /// Takes a number of eight bytes.
    #[tactic(auto, unfolding(crate::specs::Reading::u64_at))]
    pub(crate) fn take_u64(&mut self) -> Option<u64>
        ensures { u64_at self.old ≡ option_map (λ number. (number, self.new)) result }
    {
        let bytes = self.take_front(8)?;
        Some(u64::from_le_bytes([
            bytes[0], bytes[1], bytes[2], bytes[3], bytes[4], bytes[5], bytes[6], bytes[7],
        ]))
    }

    /// Takes a slug behind the byte of its length.
    #[tactic(auto, unfolding(crate::specs::Reading::slug_at))]
    pub(crate) fn take_slug(&mut self, alloc: Global) -> Result<Option<Slug>, Memory>
        ensures { IfOk result (λ found. slug_at self.old ≡ option_map (λ slug. (slug, self.new)) found) }
    {
        let Some(count) = self.take_u8() else {
            return Ok(None);
        };
        match self.take_front(count as usize) {
            Some(bytes) => slug_of(alloc, bytes),
            None => Ok(None),
        }
    }

    /// Takes a text behind the four bytes of its length.
    #[tactic(auto, unfolding(crate::specs::Reading::text_at))]
    pub(crate) fn take_text(&mut self, alloc: Global) -> Result<Option<Text>, Memory>
        ensures { IfOk result (λ found. text_at self.old ≡ option_map (λ text. (text, self.new)) found) }
    {
        let Some(count) = self.take_u32() else {
            return Ok(None);
        };
        match self.take_front(count as usize) {
            Some(bytes) => text_of(alloc, bytes),
            None => Ok(None),
        }
    }

    /// Takes a person: a role and a name.
    #[tactic(auto, unfolding(crate::specs::Reading::person_at))]
    fn take_person(&mut self, alloc: Global) -> Result<Option<Person>, Memory>
        ensures { IfOk result (λ found. person_at self.old ≡ option_map (λ person. (person, self.new)) found) }
    {
        let Some(curator) = self.take_flag() else {
            return Ok(None);
        };
        let Some(name) = self.take_slug(alloc)? else {
            return Ok(None);
        };
        Ok(Some(Person { name, curator }))
    }

    /// Takes so many people.
    fn take_persons(&mut self, alloc: Global, count: u8) -> Result<Option<Vec<Person>>, Memory>
        ensures { IfOk result (λ found. people_on count self.old ≡ option_map (λ people. (people.items, self.new)) found) }
    {
        let mut people = Vec::new(alloc);
        for _ in 0..count {
            match self.take_person(alloc)? {
                Some(person) => people.push(person)?,
                None => return Ok(None),
            }
        }
        Ok(Some(people))
    }

    /// Takes people behind the byte of their number.
    #[tactic(auto, unfolding(crate::specs::Reading::people_at))]
    pub(crate) fn take_people(&mut self, alloc: Global) -> Result<Option<PersonList>, Memory>
        ensures { IfOk result (λ found. people_at self.old ≡ option_map (λ people. (people, self.new)) found) }
    {
        let Some(count) = self.take_u8() else {
            return Ok(None);
        };
        match self.take_persons(alloc, count)? {
            Some(people) => Ok(Some(PersonList::from_vec(people))),
            None => Ok(None),
        }
    }

    /// Takes all bytes that are left.
    pub(crate) fn take_rest(&mut self, alloc: Global) -> Result<Bytes, Memory>
        ensures { IfOk result (λ bytes. rest_at self.old ≡ Some (bytes, self.new)) }
    {
        let bytes = Bytes::of(alloc, self.rest)?;
        self.rest = &[];
        Ok(bytes)
    }
}
