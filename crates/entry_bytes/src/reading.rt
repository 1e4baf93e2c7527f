//! Entries read from their bytes.
ghost use Rattle.std.specs.Prelude.{◌≡◌, IfOk, IfSome, IfNone};
ghost use Rattle.entry_bytes.specs.declared.entry.Entry.{Entry};
ghost use Rattle.entry_bytes.specs.Entries.{entry_bytes, IsEntry};
ghost use Rattle.entry_bytes.specs.EntryReading.{Reads, piece_at, fields_at, entry_of};

use crate::change_fields::{
    add_text, checkout, commit, decide, finish, found, found_at_level, ignore, park, readmit,
    reopen, snap, take_over, undecide,
};
use crate::cursor::Cursor;
use crate::entry::Entry;
use crate::piece_fields::{decided, document, draft, held_layer, layer, restored, row, snapshot};
use mark_base::Memory;
use std::alloc::Global;

/// The fields behind a tag from 16 on.
#[tactic(auto, unfolding(crate::specs::EntryReading::piece_at))]
fn piece(alloc: Global, tag: u8, cursor: &mut Cursor<'_>) -> Result<Option<Entry>, Memory>
    ensures { Reads (piece_at tag) cursor.old cursor.new result }
{
    match tag {
        16 => restored(alloc, cursor),
        17 => document(alloc, cursor),
        18 => row(alloc, cursor),
        19 => layer(alloc, cursor),
        20 => draft(alloc, cursor),
        21 => Ok(snapshot(cursor)),
        22 => held_layer(alloc, cursor),
        23 => decided(alloc, cursor),
        24 => Ok(Some(Entry::End)),
        _ => Ok(None),
    }
}

/// The fields behind a tag.
#[tactic(auto, unfolding(crate::specs::EntryReading::fields_at))]
fn fields(alloc: Global, tag: u8, cursor: &mut Cursor<'_>) -> Result<Option<Entry>, Memory>
    ensures { Reads (fields_at tag) cursor.old cursor.new result }
{
    match tag {
        1 => found(alloc, cursor),
        2 => add_text(alloc, cursor),
        3 => checkout(alloc, cursor),
        4 => take_over(alloc, cursor),
        5 => commit(alloc, cursor),
        6 => park(alloc, cursor),
        7 => finish(alloc, cursor),
        8 => reopen(alloc, cursor),
        9 => snap(alloc, cursor),
        10 => decide(alloc, cursor),
        11 => undecide(alloc, cursor),
        12 => Ok(Some(Entry::FreeAll)),
        13 => ignore(alloc, cursor),
        14 => readmit(alloc, cursor),
        15 => found_at_level(alloc, cursor),
        _ => piece(alloc, tag, cursor),
    }
}

/// The entry that bytes are.
#[tactic(auto, unfolding(crate::specs::EntryReading::entry_of))]
fn entry_in(alloc: Global, bytes: &[u8]) -> Result<Option<Entry>, Memory>
    ensures { IfOk result (λ found. found ≡ entry_of bytes.now) }
{
    let mut cursor = Cursor::new(bytes);
    let Some(tag) = cursor.take_u8() else {
        return Ok(None);
    };
    match fields(alloc, tag, &mut cursor)? {
        Some(entry) => {
            if cursor.is_at_end() {
                Ok(Some(entry))
            } else {
                Ok(None)
            }
        }
        None => Ok(None),
    }
}

/// The entry that bytes are, and `None` where they are none: where the tag is not 1 to 24; where a field is
/// not whole; where a slug is no slug, or a text is not UTF-8; where a byte for yes or no is neither 1 nor 0;
/// where the level of a founding is 255, or a row has flags other than 1 and 2; and where bytes stand behind
/// the last field. Not tested are the order of people, the range of a kind, and what texts, commands and
/// decisions say. Cost: the number of the bytes.
pub fn read_entry(alloc: Global, bytes: &[u8]) -> Result<Option<Entry>, Memory>
    // What is read is an entry, and these are its bytes.
    ensures found { IfOk result (λ found. IfSome found (λ e. IsEntry e × (entry_bytes e ≡ bytes.now))) }
    // Nothing is read only where the bytes are those of no entry.
    ensures none { IfOk result (λ found. IfNone found ((e : Entry) → IsEntry e → entry_bytes e ≡ bytes.now → ⊥)) }
    // It is the entry that reading from left to right finds.
    ensures exact { IfOk result (λ found. found ≡ entry_of bytes.now) }
{
    entry_in(alloc, bytes)
}
