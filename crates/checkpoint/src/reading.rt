//! One piece, read behind those before it.
ghost use Rattle.std.specs.Prelude.{◌≡◌, IfOk};
ghost use Rattle.checkpoint.specs.Runs.{IsReadAs, IsReadBy};

use crate::row_pieces::{read_draft, read_layer, read_row};
use crate::shot_pieces::{read_decided, read_end, read_held, read_shot};
use crate::so_far::SoFar;
use crate::text_pieces::read_text;
use entry_bytes::{Entry, entries_are_told_apart, read_entry};
use mark_base::{Bytes, Memory};
use std::alloc::Global;

/// Reads a piece behind those before it; `None` where it cannot follow.
fn read_piece(alloc: Global, so_far: SoFar, entry: &Entry) -> Result<Option<SoFar>, Memory>
    ensures { IfOk result (IsReadAs so_far entry.now) }
{
    match entry {
        Entry::Document { name, text } => read_text(alloc, so_far, name, text),
        Entry::Row {
            doc,
            who,
            revision,
            flags,
        } => read_row(alloc, so_far, *doc, who, *revision, *flags),
        Entry::Layer { lines } => read_layer(alloc, so_far, lines),
        Entry::Draft { commands } => read_draft(alloc, so_far, commands),
        Entry::Snapshot { doc, layers } => read_shot(alloc, so_far, *doc, *layers),
        Entry::HeldLayer { who, lines } => read_held(alloc, so_far, who, lines),
        Entry::Decided { pairs } => read_decided(alloc, so_far, pairs),
        Entry::End => Ok(read_end(so_far)),
        _ => Ok(None),
    }
}

/// What bytes leave as the next piece; `None` where they are none that can follow.
pub(crate) fn read_by(alloc: Global, so_far: SoFar, bytes: &Bytes) -> Result<Option<SoFar>, Memory>
    ensures { IfOk result (IsReadBy so_far bytes.now) }
{
    entries_are_told_apart();
    match read_entry(alloc, bytes.items())? {
        Some(entry) => {
            let read = read_piece(alloc, so_far, &entry)?;
            Ok(read)
        }
        None => Ok(None),
    }
}
