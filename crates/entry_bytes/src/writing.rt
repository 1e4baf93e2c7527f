//! Entries written as bytes.
ghost use Rattle.std.specs.Prelude.{◌≡◌, ◌++◌, ◌||◌, true, OnOk, IfOk, Some};
ghost use Rattle.entry_bytes.specs.Entries.{entry_bytes, HasSizes, HasNamedValues, IsEntry};
ghost use Rattle.entry_bytes.specs.EntryKinds.{is_piece, is_curation};
ghost use Rattle.entry_bytes.specs.EntryReading.{entry_of};

use crate::entry::Entry;
use crate::write_shapes::{
    put_add_text, put_all, put_byte, put_commit, put_founding, put_lines, put_named_text,
    put_on_document, put_on_item, put_on_layer, put_park, put_restored, put_row, put_snapshot,
};
use mark_base::{Bytes, Memory};
use std::alloc::Global;

/// Writes a piece of a state.
#[tactic(auto, unfolding(crate::specs::Entries::entry_bytes))]
fn put_piece(out: &mut Vec<u8>, entry: &Entry) -> Result<(), Memory>
    requires piece { is_piece entry.now ≡ true }
    requires sizes { HasSizes entry.now }
    ensures bytes { OnOk result (out.new.items ≡ out.old.items ++ entry_bytes entry.now) }
    ensures is { OnOk result (HasNamedValues entry.now → IsEntry entry.now) }
{
    match entry {
        Entry::Restored {
            place,
            level,
            documents,
            snapshots,
            conf,
            people,
        } => put_restored(out, *place, *level, *documents, *snapshots, conf, people),
        Entry::Document { name, text } => put_named_text(out, 17, name, text),
        Entry::Row {
            doc,
            who,
            revision,
            flags,
        } => put_row(out, *doc, who, *revision, *flags),
        Entry::Layer { lines } => put_lines(out, 19, lines),
        Entry::Draft { commands } => put_all(out, 20, commands),
        Entry::Snapshot { doc, layers } => put_snapshot(out, *doc, *layers),
        Entry::HeldLayer { who, lines } => put_named_text(out, 22, who, lines),
        Entry::Decided { pairs } => put_all(out, 23, pairs),
        Entry::End => put_byte(out, 24),
        _ => unreachable!(),
    }
}

/// Writes an act of a curator, or a piece of a state.
#[tactic(auto, unfolding(crate::specs::Entries::entry_bytes))]
fn put_curation(out: &mut Vec<u8>, entry: &Entry) -> Result<(), Memory>
    requires kind { (is_curation entry.now || is_piece entry.now) ≡ true }
    requires sizes { HasSizes entry.now }
    ensures bytes { OnOk result (out.new.items ≡ out.old.items ++ entry_bytes entry.now) }
    ensures is { OnOk result (HasNamedValues entry.now → IsEntry entry.now) }
{
    match entry {
        Entry::Reopen { by, doc, who } => put_on_layer(out, 8, by, *doc, who),
        Entry::Snap { by, doc } => put_on_document(out, 9, by, *doc),
        Entry::Decide {
            by,
            snapshot,
            holder,
            kind,
            number,
            accept,
        } => {
            put_on_item(out, 10, by, *snapshot, *holder, *kind, *number)?;
            put_byte(out, *accept as u8)
        }
        Entry::Undecide {
            by,
            snapshot,
            holder,
            kind,
            number,
        } => put_on_item(out, 11, by, *snapshot, *holder, *kind, *number),
        Entry::Ignore { by, doc, who } => put_on_layer(out, 13, by, *doc, who),
        Entry::Readmit { by, doc, who } => put_on_layer(out, 14, by, *doc, who),
        _ => put_piece(out, entry),
    }
}

/// Writes an entry.
#[tactic(auto, unfolding(crate::specs::Entries::entry_bytes))]
fn put_entry(out: &mut Vec<u8>, entry: &Entry) -> Result<(), Memory>
    requires { HasSizes entry.now }
    ensures bytes { OnOk result (out.new.items ≡ out.old.items ++ entry_bytes entry.now) }
    ensures is { OnOk result (HasNamedValues entry.now → IsEntry entry.now) }
{
    match entry {
        Entry::Found { conf, people } => put_founding(out, 1, conf, people),
        Entry::AddText { by, name, text } => put_add_text(out, by, name, text),
        Entry::Checkout { by, doc } => put_on_document(out, 3, by, *doc),
        Entry::TakeOver { by, doc } => put_on_document(out, 4, by, *doc),
        Entry::Commit {
            by,
            doc,
            hold,
            lines,
        } => put_commit(out, by, *doc, *hold, lines),
        Entry::Park {
            by,
            doc,
            hold,
            commands,
        } => put_park(out, by, *doc, *hold, commands),
        Entry::Finish { by, doc } => put_on_document(out, 7, by, *doc),
        Entry::FreeAll => put_byte(out, 12),
        Entry::FoundAt {
            conf,
            people,
            level,
        } => {
            put_founding(out, 15, conf, people)?;
            put_byte(out, *level)
        }
        _ => put_curation(out, entry),
    }
}

/// The bytes of an entry: its tag, and its fields in order. Numbers have their low byte first; a slug stands
/// behind one byte of its length, a text behind four, and people behind one byte of their number; `commands`
/// and `pairs` go to the end. Cost: the number of the bytes.
pub fn write_entry(alloc: Global, entry: &Entry) -> Result<Bytes, Memory>
    requires { HasSizes entry.now }
    ensures bytes { IfOk result (λ bytes. bytes ≡ entry_bytes entry.now) }
    // What is written is read as the entry.
    ensures decodes { IfOk result (λ bytes. HasNamedValues entry.now → entry_of bytes ≡ Some entry.now) }
    // What the types of its fields say, so that the laws on entries speak of it.
    ensures is_entry { OnOk result (HasNamedValues entry.now → IsEntry entry.now) }
{
    let mut out = Vec::new(alloc);
    put_entry(&mut out, entry)?;
    Ok(Bytes::from_vec(out))
}
