//! The fields of the entries that are pieces of a state.
ghost use Rattle.std.specs.Prelude.{◌≡◌, option_map};
ghost use Rattle.entry_bytes.specs.EntryReading.{Reads, restored_at, document_at, row_at, layer_at, draft_at, snapshot_at, held_layer_at, decided_at};

use crate::cursor::Cursor;
use crate::entry::Entry;
use mark_base::Memory;
use std::alloc::Global;

/// The first piece.
#[tactic(auto, unfolding(crate::specs::EntryReading::restored_at))]
pub(crate) fn restored(alloc: Global, cursor: &mut Cursor<'_>) -> Result<Option<Entry>, Memory>
    ensures { Reads restored_at cursor.old cursor.new result }
{
    let Some(place) = cursor.take_u64() else {
        return Ok(None);
    };
    let Some(level) = cursor.take_u8() else {
        return Ok(None);
    };
    let Some(documents) = cursor.take_u32() else {
        return Ok(None);
    };
    let Some(snapshots) = cursor.take_u64() else {
        return Ok(None);
    };
    let Some(conf) = cursor.take_text(alloc)? else {
        return Ok(None);
    };
    let Some(people) = cursor.take_people(alloc)? else {
        return Ok(None);
    };
    Ok(Some(Entry::Restored {
        place,
        level,
        documents,
        snapshots,
        conf,
        people,
    }))
}

/// A document.
#[tactic(auto, unfolding(crate::specs::EntryReading::document_at))]
pub(crate) fn document(alloc: Global, cursor: &mut Cursor<'_>) -> Result<Option<Entry>, Memory>
    ensures { Reads document_at cursor.old cursor.new result }
{
    let Some(name) = cursor.take_slug(alloc)? else {
        return Ok(None);
    };
    let Some(text) = cursor.take_text(alloc)? else {
        return Ok(None);
    };
    Ok(Some(Entry::Document { name, text }))
}

/// A row.
#[tactic(auto, unfolding(crate::specs::EntryReading::row_at))]
pub(crate) fn row(alloc: Global, cursor: &mut Cursor<'_>) -> Result<Option<Entry>, Memory>
    ensures { Reads row_at cursor.old cursor.new result }
{
    let Some(doc) = cursor.take_u32() else {
        return Ok(None);
    };
    let Some(who) = cursor.take_slug(alloc)? else {
        return Ok(None);
    };
    let Some(revision) = cursor.take_u64() else {
        return Ok(None);
    };
    let Some(flags) = cursor.take_below(4) else {
        return Ok(None);
    };
    Ok(Some(Entry::Row {
        doc,
        who,
        revision,
        flags,
    }))
}

/// A committed layer.
#[tactic(auto, unfolding(crate::specs::EntryReading::layer_at))]
pub(crate) fn layer(alloc: Global, cursor: &mut Cursor<'_>) -> Result<Option<Entry>, Memory>
    ensures { Reads layer_at cursor.old cursor.new result }
{
    match cursor.take_text(alloc)? {
        Some(lines) => Ok(Some(Entry::Layer { lines })),
        None => Ok(None),
    }
}

/// Parked commands, to the end.
#[tactic(auto, unfolding(crate::specs::EntryReading::draft_at))]
pub(crate) fn draft(alloc: Global, cursor: &mut Cursor<'_>) -> Result<Option<Entry>, Memory>
    ensures { Reads draft_at cursor.old cursor.new result }
{
    let commands = cursor.take_rest(alloc)?;
    Ok(Some(Entry::Draft { commands }))
}

/// A snapshot.
#[tactic(auto, unfolding(crate::specs::EntryReading::snapshot_at))]
pub(crate) fn snapshot(cursor: &mut Cursor<'_>) -> Option<Entry>
    ensures { snapshot_at cursor.old ≡ option_map (λ e. (e, cursor.new)) result }
{
    let doc = cursor.take_u32()?;
    let layers = cursor.take_u8()?;
    Some(Entry::Snapshot { doc, layers })
}

/// A layer of a snapshot.
#[tactic(auto, unfolding(crate::specs::EntryReading::held_layer_at))]
pub(crate) fn held_layer(alloc: Global, cursor: &mut Cursor<'_>) -> Result<Option<Entry>, Memory>
    ensures { Reads held_layer_at cursor.old cursor.new result }
{
    let Some(who) = cursor.take_slug(alloc)? else {
        return Ok(None);
    };
    let Some(lines) = cursor.take_text(alloc)? else {
        return Ok(None);
    };
    Ok(Some(Entry::HeldLayer { who, lines }))
}

/// Decisions, to the end.
#[tactic(auto, unfolding(crate::specs::EntryReading::decided_at))]
pub(crate) fn decided(alloc: Global, cursor: &mut Cursor<'_>) -> Result<Option<Entry>, Memory>
    ensures { Reads decided_at cursor.old cursor.new result }
{
    let pairs = cursor.take_rest(alloc)?;
    Ok(Some(Entry::Decided { pairs }))
}
