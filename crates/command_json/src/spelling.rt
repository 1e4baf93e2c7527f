//! How numbers, IDs, fragments, names, arguments and entries of stores are spelt in the texts of a command.
ghost use Rattle.std.specs.Prelude.{◌≡◌, map, IfOk, option_map};
ghost use Rattle.mark_base.specs.AnnIds.{number_read};
ghost use Rattle.mark_base.specs.ReadIds.{id_read};
ghost use Rattle.command_json.specs.Spellings.{of_two, all_of, frag_of, frag_read, frags_read, name_read, argument_of, argument_read, entry_read};

use mark_base::{
    AnnId, Frag, FragList, Memory, Name, NameFault, NamedArg, Text, number_read, split_fragments,
};
use std::alloc::Global;

/// The fragment of a start and an end.
fn frag_between(start: &str, end: &str) -> Option<Frag>
    ensures { result ≡ of_two frag_of (number_read start.now) (number_read end.now) }
{
    let start = number_read(start.as_bytes())?;
    let end = number_read(end.as_bytes())?;
    Some(Frag { start, end })
}

/// The fragment that a text spells: its start, one space and its end.
#[tactic(auto, unfolding(crate::specs::Spellings::frag_read))]
fn frag_read(text: &str) -> Option<Frag>
    ensures { result ≡ frag_read text.now }
{
    match text.split_once(' ') {
        Some((start, end)) => frag_between(start, end),
        None => None,
    }
}

/// The fragments that pieces spell, where each spells one.
fn all_frags(alloc: Global, pieces: &[&str]) -> Result<Option<Vec<Frag>>, Memory>
    ensures { IfOk result (λ frags. option_map (λ list. list.items) frags ≡ all_of (map frag_read (map (λ piece. piece.now) pieces.now))) }
{
    let mut frags = Vec::new(alloc);
    for piece in pieces {
        match frag_read(piece) {
            Some(frag) => frags.push(frag)?,
            None => return Ok(None),
        }
    }
    Ok(Some(frags))
}

/// The fragments that a text spells, joined by `;`.
pub(crate) fn frags_read(alloc: Global, text: &str) -> Result<Option<FragList>, Memory>
    ensures { IfOk result (λ frags. frags ≡ frags_read text.now) }
{
    let pieces = split_fragments(alloc, text)?;
    match all_frags(alloc, &pieces)? {
        Some(frags) => Ok(Some(FragList::from_vec(frags))),
        None => Ok(None),
    }
}

/// The name that a text is.
pub(crate) fn name_read(alloc: Global, text: &str) -> Result<Option<Name>, Memory>
    ensures { IfOk result (λ name. name ≡ name_read text.now) }
{
    match Name::new(alloc, text) {
        Ok(name) => Ok(Some(name)),
        Err(NameFault::Memory) => Err(Memory),
        Err(NameFault::Empty) => Ok(None),
        Err(NameFault::TooLong) => Ok(None),
        Err(NameFault::BadChar(_)) => Ok(None),
    }
}

/// The argument of a role and a target.
fn argument_of(alloc: Global, role: &str, target: &str) -> Result<Option<NamedArg>, Memory>
    ensures { IfOk result (λ arg. arg ≡ of_two argument_of (name_read role.now) (id_read target.now)) }
{
    let Some(role) = name_read(alloc, role)? else {
        return Ok(None);
    };
    let Some(target) = AnnId::read(target.as_bytes()) else {
        return Ok(None);
    };
    Ok(Some(NamedArg { role, target }))
}

/// The argument that a text spells: its role, `:` and the ID of its target.
#[tactic(auto, unfolding(crate::specs::Spellings::argument_read))]
pub(crate) fn argument_read(alloc: Global, text: &str) -> Result<Option<NamedArg>, Memory>
    ensures { IfOk result (λ arg. arg ≡ argument_read text.now) }
{
    match text.split_once(':') {
        Some((role, target)) => argument_of(alloc, role, target),
        None => Ok(None),
    }
}

/// An entry of a store.
#[derive(Drop)]
pub(crate) struct StoreEntry {
    pub store: Text,
    pub entry: Text,
}

/// The entry that a text spells: its store, `:` and the entry, in which `:` may stand too.
pub(crate) fn entry_read(alloc: Global, named: &str) -> Result<Option<StoreEntry>, Memory>
    ensures { IfOk result (λ entry. entry ≡ entry_read named.now) }
{
    match named.split_once(':') {
        Some((store, entry)) => {
            let store = Text::of(alloc, store)?;
            let entry = Text::of(alloc, entry)?;
            Ok(Some(StoreEntry { store, entry }))
        }
        None => Ok(None),
    }
}
