//! Entries as bytes, where a journal takes them.
ghost use Rattle.std.specs.Prelude.{◌≡◌, ◌<◌, length, IfOk};
ghost use Rattle.entry_bytes.specs.Entries.{entry_bytes, HasSizes};
ghost use Rattle.project_machine.specs.Entries.{entry_of};
ghost use Rattle.project_state.specs.Values.{happened_of};
ghost use Rattle.project_state.specs.Entries.Writing.{text_in, without_text, written_of, CanBeEntered, HasFewPeople};

use crate::entries::change_entry::entry_for;
use crate::{BookState, Change};
use entry_bytes::{Entry, write_entry};
use mark_base::{Bytes, Memory, Text};
use std::alloc::Global;

/// The bytes of an entry, or how many they would be.
#[derive(Debug, Drop)]
pub enum Written {
    /// The bytes, at most 16,777,216.
    Bytes(Bytes),
    /// There would be so many bytes, which are more than the 16,777,216 that a journal takes.
    TooLong(u64),
}

/// The greatest number of bytes of an entry that a journal takes.
const LONGEST: usize = 16_777_216;

/// How long the text of an entry is, 0 where it has none.
fn text_length(entry: &Entry) -> usize
    ensures { result ≡ length (text_in entry.now) }
{
    match entry {
        Entry::Found { conf, .. } => conf.text().len(),
        Entry::AddText { text, .. } => text.text().len(),
        Entry::Commit { lines, .. } => lines.text().len(),
        Entry::FoundAt { conf, .. } => conf.text().len(),
        Entry::Restored { conf, .. } => conf.text().len(),
        Entry::Document { text, .. } => text.text().len(),
        Entry::Layer { lines } => lines.text().len(),
        Entry::HeldLayer { lines, .. } => lines.text().len(),
        _ => 0,
    }
}

/// An entry with no character of its text.
fn without_text(alloc: Global, entry: &Entry) -> Result<Entry, Memory>
    requires { 0 < length (text_in entry.now) }
    ensures { IfOk result (λ bare. bare ≡ without_text entry.now) }
{
    let empty = Text::from_string(String::new(alloc));
    match entry {
        Entry::Found { people, .. } => Ok(Entry::Found {
            conf: empty,
            people: people.copy()?,
        }),
        Entry::AddText { by, name, .. } => Ok(Entry::AddText {
            by: by.copy()?,
            name: name.copy()?,
            text: empty,
        }),
        Entry::Commit { by, doc, hold, .. } => Ok(Entry::Commit {
            by: by.copy()?,
            doc: *doc,
            hold: *hold,
            lines: empty,
        }),
        Entry::FoundAt { people, level, .. } => Ok(Entry::FoundAt {
            conf: empty,
            people: people.copy()?,
            level: *level,
        }),
        Entry::Restored {
            place,
            level,
            documents,
            snapshots,
            people,
            ..
        } => Ok(Entry::Restored {
            place: *place,
            level: *level,
            documents: *documents,
            snapshots: *snapshots,
            conf: empty,
            people: people.copy()?,
        }),
        Entry::Document { name, .. } => Ok(Entry::Document {
            name: name.copy()?,
            text: empty,
        }),
        Entry::Layer { .. } => Ok(Entry::Layer { lines: empty }),
        Entry::HeldLayer { who, .. } => Ok(Entry::HeldLayer {
            who: who.copy()?,
            lines: empty,
        }),
        _ => unreachable!(),
    }
}

/// How many bytes an entry with a text has.
fn size_with_text(alloc: Global, entry: &Entry) -> Result<u64, Memory>
    requires few { HasFewPeople entry.now }
    requires some { 0 < length (text_in entry.now) }
    ensures { IfOk result (λ size. size ≡ length (entry_bytes entry.now)) }
{
    let bare = without_text(alloc, entry)?;
    let front = write_entry(alloc, &bare)?;
    match front.items().len().checked_add(text_length(entry)) {
        Some(size) => Ok(size as u64),
        None => Err(Memory),
    }
}

/// The bytes of an entry, where a journal takes them. Cost: the number of the bytes; those of an entry whose text
/// alone is too long are not written.
pub fn entry_written(alloc: Global, entry: &Entry) -> Result<Written, Memory>
    requires { HasFewPeople entry.now }
    ensures { IfOk result (λ written. written ≡ written_of (entry_bytes entry.now)) }
{
    if text_length(entry) > LONGEST {
        return Ok(Written::TooLong(size_with_text(alloc, entry)?));
    }
    let bytes = write_entry(alloc, entry)?;
    let size = bytes.items().len();
    if size > LONGEST {
        Ok(Written::TooLong(size as u64))
    } else {
        Ok(Written::Bytes(bytes))
    }
}

/// The bytes of the entry of a change, where a journal takes them, and how many they would be where it does not. What
/// must be of the change is as for `entry_for`. Cost: as `entry_for`.
pub fn change_bytes(alloc: Global, state: &BookState, change: &Change) -> Result<Written, Memory>
    requires { CanBeEntered state.now.state (happened_of change.now) }
    ensures { IfOk result (λ written. written ≡ written_of (entry_bytes (entry_of state.now.state (happened_of change.now)))) }
{
    let entry = entry_for(alloc, state, change)?;
    entry_written(alloc, &entry)
}
