//! Taking the fields of commands from the front of bytes.
ghost use Rattle.std.specs.Prelude.{◌≡◌, ◌==◌, length, Some, None, is_none, IfOk, option_map, if◌then◌else◌};
ghost use Rattle.std.specs.Str.{is_utf8};
ghost use Rattle.mark_base.specs.Names.{name_fault};
ghost use Rattle.entry_bytes.specs.Reading.{front_at, byte_at, flag_at, u32_at, text_at};
ghost use Rattle.command_bytes.specs.CommandReading.{is_name, long_at, spelling_at, name_at, ann_id_at, frag_at, arg_at, list_on, list_at, value_at};

use crate::id_bytes::id_of;
use mark_base::{
    AnnId, Frag, FragList, IdList, Memory, Name, NameFault, NamedArg, NamedArgs, Text,
};
use std::alloc::Global;
use std::marker::Model;

/// Bytes that are not read yet. Where a field is not taken, the cursor stands anywhere.
#[derive(Drop)]
pub(crate) struct Cursor<'a> {
    rest: &'a [u8],
}

impl<'a> Model for Cursor<'a> {
    ghost use Rattle.std.specs.Prelude.{List, ℕ};

    ghost Value = { List ℕ };

    ghost view = { λ cursor. cursor.rest.now };
}

/// The name that a text is.
fn name_from(alloc: Global, text: &str) -> Result<Option<Name>, Memory>
    ensures { IfOk result (λ name. name ≡ (if is_none (name_fault text.now) then Some text.now else None)) }
{
    match Name::new(alloc, text) {
        Ok(name) => Ok(Some(name)),
        Err(NameFault::Memory) => Err(Memory),
        Err(NameFault::Empty) => Ok(None),
        Err(NameFault::TooLong) => Ok(None),
        Err(NameFault::BadChar(_)) => Ok(None),
    }
}

/// The name that bytes spell.
fn name_of(alloc: Global, bytes: &[u8]) -> Result<Option<Name>, Memory>
    ensures { IfOk result (λ name. name ≡ (if is_name bytes.now then Some bytes.now else None)) }
{
    match str::from_utf8(bytes) {
        Ok(text) => name_from(alloc, text),
        Err(_) => Ok(None),
    }
}

/// The text that bytes are in UTF-8.
fn text_of(alloc: Global, bytes: &[u8]) -> Result<Option<Text>, Memory>
    ensures { IfOk result (λ text. text ≡ (if is_utf8 bytes.now then Some bytes.now else None)) }
{
    match str::from_utf8(bytes) {
        Ok(text) => Ok(Some(Text::of(alloc, text)?)),
        Err(_) => Ok(None),
    }
}

impl<'a> Cursor<'a> {
    /// All bytes.
    pub(crate) fn new(rest: &'a [u8]) -> Self
        ensures { result ≡ rest.now }
    {
        Cursor { rest }
    }

    /// Whether all bytes are read.
    pub(crate) fn is_at_end(&self) -> bool
        ensures { result ≡ (length self.now == 0) }
    {
        self.rest.is_empty()
    }

    /// Takes so many bytes.
    fn take_front(&mut self, count: usize) -> Option<&'a [u8]>
        ensures { front_at count self.old ≡ option_map (λ front. (front.now, self.new)) result }
    {
        if self.rest.len() < count {
            return None;
        }
        let (front, rest) = self.rest.split_at(count);
        self.rest = rest;
        Some(front)
    }

    /// Takes one byte.
    pub(crate) fn take_u8(&mut self) -> Option<u8>
        ensures { byte_at self.old ≡ option_map (λ byte. (byte, self.new)) result }
    {
        match self.rest {
            [] => None,
            [byte, rest @ ..] => {
                self.rest = rest;
                Some(*byte)
            }
        }
    }

    /// Takes a byte that is 1 for yes and 0 for no.
    #[tactic(auto, unfolding(entry_bytes::specs::Reading::flag_at, entry_bytes::specs::Reading::below_at))]
    fn take_flag(&mut self) -> Option<bool>
        ensures { flag_at self.old ≡ option_map (λ flag. (flag, self.new)) result }
    {
        let byte = self.take_u8()?;
        if byte < 2 { Some(byte == 1) } else { None }
    }

    /// Takes a number of four bytes.
    #[tactic(auto, unfolding(entry_bytes::specs::Reading::u32_at))]
    pub(crate) fn take_u32(&mut self) -> Option<u32>
        ensures { u32_at self.old ≡ option_map (λ number. (number, self.new)) result }
    {
        let bytes = self.take_front(4)?;
        Some(u32::from_le_bytes([bytes[0], bytes[1], bytes[2], bytes[3]]))
    }

    /// Takes a text behind the four bytes of its length.
    #[tactic(auto, unfolding(entry_bytes::specs::Reading::text_at))]
    pub(crate) fn take_text(&mut self, alloc: Global) -> Result<Option<Text>, Memory>
        ensures { IfOk result (λ found. text_at self.old ≡ option_map (λ text. (text, self.new)) found) }
    {
        let Some(count) = self.take_u32() else {
            return Ok(None);
        };
        match self.take_front(count as usize) {
            Some(bytes) => text_of(alloc, bytes),
            None => Ok(None),
        }
    }

    /// Takes bytes behind the four bytes of their number, which is 255 or more.
    #[tactic(auto, unfolding(crate::specs::CommandReading::long_at))]
    fn take_long(&mut self) -> Option<&'a [u8]>
        ensures { long_at self.old ≡ option_map (λ front. (front.now, self.new)) result }
    {
        let count = self.take_u32()?;
        if count > 254 {
            self.take_front(count as usize)
        } else {
            None
        }
    }

    /// Takes so many bytes; 255 says that their number follows.
    #[tactic(auto, unfolding(crate::specs::CommandReading::spelling_at))]
    fn take_spelling(&mut self, count: u8) -> Option<&'a [u8]>
        ensures { spelling_at count self.old ≡ option_map (λ front. (front.now, self.new)) result }
    {
        if count == 255 {
            self.take_long()
        } else {
            self.take_front(count as usize)
        }
    }

    /// Takes a name behind the byte of its length.
    #[tactic(auto, unfolding(crate::specs::CommandReading::name_at))]
    pub(crate) fn take_name(&mut self, alloc: Global) -> Result<Option<Name>, Memory>
        ensures { IfOk result (λ found. name_at self.old ≡ option_map (λ name. (name, self.new)) found) }
    {
        let Some(count) = self.take_u8() else {
            return Ok(None);
        };
        match self.take_spelling(count) {
            Some(bytes) => name_of(alloc, bytes),
            None => Ok(None),
        }
    }

    /// Takes an ID: the place of its letter, and its number.
    #[tactic(auto, unfolding(crate::specs::CommandReading::ann_id_at))]
    pub(crate) fn take_id(&mut self) -> Option<AnnId>
        ensures { ann_id_at self.old ≡ option_map (λ id. (id, self.new)) result }
    {
        let place = self.take_u8()?;
        let number = self.take_u32()?;
        id_of(place, number)
    }

    /// Takes a fragment: its start and its end.
    #[tactic(auto, unfolding(crate::specs::CommandReading::frag_at))]
    fn take_frag(&mut self) -> Option<Frag>
        ensures { frag_at self.old ≡ option_map (λ frag. (frag, self.new)) result }
    {
        let start = self.take_u32()?;
        let end = self.take_u32()?;
        Some(Frag { start, end })
    }

    /// Takes an argument: its role and its target.
    #[tactic(auto, unfolding(crate::specs::CommandReading::arg_at))]
    pub(crate) fn take_arg(&mut self, alloc: Global) -> Result<Option<NamedArg>, Memory>
        ensures { IfOk result (λ found. arg_at self.old ≡ option_map (λ arg. (arg, self.new)) found) }
    {
        let Some(role) = self.take_name(alloc)? else {
            return Ok(None);
        };
        match self.take_id() {
            Some(target) => Ok(Some(NamedArg { role, target })),
            None => Ok(None),
        }
    }

    /// Takes so many fragments.
    fn take_frags_on(&mut self, alloc: Global, count: u32) -> Result<Option<Vec<Frag>>, Memory>
        ensures { IfOk result (λ found. list_on frag_at count self.old ≡ option_map (λ frags. (frags.items, self.new)) found) }
    {
        let mut frags = Vec::new(alloc);
        for _ in 0..count {
            match self.take_frag() {
                Some(frag) => frags.push(frag)?,
                None => return Ok(None),
            }
        }
        Ok(Some(frags))
    }

    /// Takes fragments behind their number.
    #[tactic(auto, unfolding(crate::specs::CommandReading::list_at))]
    pub(crate) fn take_frags(&mut self, alloc: Global) -> Result<Option<FragList>, Memory>
        ensures { IfOk result (λ found. list_at frag_at self.old ≡ option_map (λ frags. (frags, self.new)) found) }
    {
        let Some(count) = self.take_u32() else {
            return Ok(None);
        };
        match self.take_frags_on(alloc, count)? {
            Some(frags) => Ok(Some(FragList::from_vec(frags))),
            None => Ok(None),
        }
    }

    /// Takes so many IDs.
    fn take_ids_on(&mut self, alloc: Global, count: u32) -> Result<Option<Vec<AnnId>>, Memory>
        ensures { IfOk result (λ found. list_on ann_id_at count self.old ≡ option_map (λ ids. (ids.items, self.new)) found) }
    {
        let mut ids = Vec::new(alloc);
        for _ in 0..count {
            match self.take_id() {
                Some(id) => ids.push(id)?,
                None => return Ok(None),
            }
        }
        Ok(Some(ids))
    }

    /// Takes IDs behind their number.
    #[tactic(auto, unfolding(crate::specs::CommandReading::list_at))]
    pub(crate) fn take_ids(&mut self, alloc: Global) -> Result<Option<IdList>, Memory>
        ensures { IfOk result (λ found. list_at ann_id_at self.old ≡ option_map (λ ids. (ids, self.new)) found) }
    {
        let Some(count) = self.take_u32() else {
            return Ok(None);
        };
        match self.take_ids_on(alloc, count)? {
            Some(ids) => Ok(Some(IdList::from_vec(ids))),
            None => Ok(None),
        }
    }

    /// Takes so many arguments.
    fn take_args_on(&mut self, alloc: Global, count: u32) -> Result<Option<Vec<NamedArg>>, Memory>
        ensures { IfOk result (λ found. list_on arg_at count self.old ≡ option_map (λ args. (args.items, self.new)) found) }
    {
        let mut args = Vec::new(alloc);
        for _ in 0..count {
            match self.take_arg(alloc)? {
                Some(arg) => args.push(arg)?,
                None => return Ok(None),
            }
        }
        Ok(Some(args))
    }

    /// Takes arguments behind their number.
    #[tactic(auto, unfolding(crate::specs::CommandReading::list_at))]
    pub(crate) fn take_args(&mut self, alloc: Global) -> Result<Option<NamedArgs>, Memory>
        ensures { IfOk result (λ found. list_at arg_at self.old ≡ option_map (λ args. (args, self.new)) found) }
    {
        let Some(count) = self.take_u32() else {
            return Ok(None);
        };
        match self.take_args_on(alloc, count)? {
            Some(args) => Ok(Some(NamedArgs::from_vec(args))),
            None => Ok(None),
        }
    }

    /// Takes a value behind 1, and none behind 0.
    #[tactic(auto, unfolding(crate::specs::CommandReading::value_at))]
    pub(crate) fn take_value(&mut self, alloc: Global) -> Result<Option<Option<Name>>, Memory>
        ensures { IfOk result (λ found. value_at self.old ≡ option_map (λ value. (value, self.new)) found) }
    {
        let Some(given) = self.take_flag() else {
            return Ok(None);
        };
        if !given {
            return Ok(Some(None));
        }
        match self.take_name(alloc)? {
            Some(name) => Ok(Some(Some(name))),
            None => Ok(None),
        }
    }
}
