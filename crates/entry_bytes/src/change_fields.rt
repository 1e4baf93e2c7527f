//! The fields of the entries that are changes.
ghost use Rattle.entry_bytes.specs.EntryReading.{Reads, found_at, add_text_at, checkout_at, take_over_at, commit_at, park_at, finish_at, reopen_at, snap_at, decide_at, undecide_at, ignore_at, readmit_at, found_at_level_at};

use crate::cursor::Cursor;
use crate::entry::Entry;
use crate::shared_fields::{
    Founding, OnDocument, OnItem, OnLayer, take_founding, take_on_document, take_on_item,
    take_on_layer,
};
use mark_base::Memory;
use std::alloc::Global;

/// A founding.
#[tactic(auto, unfolding(crate::specs::EntryReading::found_at))]
pub(crate) fn found(alloc: Global, cursor: &mut Cursor<'_>) -> Result<Option<Entry>, Memory>
    ensures { Reads found_at cursor.old cursor.new result }
{
    match take_founding(alloc, cursor)? {
        Some(Founding { conf, people }) => Ok(Some(Entry::Found { conf, people })),
        None => Ok(None),
    }
}

/// A document that is added.
#[tactic(auto, unfolding(crate::specs::EntryReading::add_text_at))]
pub(crate) fn add_text(alloc: Global, cursor: &mut Cursor<'_>) -> Result<Option<Entry>, Memory>
    ensures { Reads add_text_at cursor.old cursor.new result }
{
    let Some(by) = cursor.take_slug(alloc)? else {
        return Ok(None);
    };
    let Some(name) = cursor.take_slug(alloc)? else {
        return Ok(None);
    };
    let Some(text) = cursor.take_text(alloc)? else {
        return Ok(None);
    };
    Ok(Some(Entry::AddText { by, name, text }))
}

/// A checkout.
#[tactic(auto, unfolding(crate::specs::EntryReading::checkout_at))]
pub(crate) fn checkout(alloc: Global, cursor: &mut Cursor<'_>) -> Result<Option<Entry>, Memory>
    ensures { Reads checkout_at cursor.old cursor.new result }
{
    match take_on_document(alloc, cursor)? {
        Some(OnDocument { by, doc }) => Ok(Some(Entry::Checkout { by, doc })),
        None => Ok(None),
    }
}

/// A checkout of a layer that is out.
#[tactic(auto, unfolding(crate::specs::EntryReading::take_over_at))]
pub(crate) fn take_over(alloc: Global, cursor: &mut Cursor<'_>) -> Result<Option<Entry>, Memory>
    ensures { Reads take_over_at cursor.old cursor.new result }
{
    match take_on_document(alloc, cursor)? {
        Some(OnDocument { by, doc }) => Ok(Some(Entry::TakeOver { by, doc })),
        None => Ok(None),
    }
}

/// A commit.
#[tactic(auto, unfolding(crate::specs::EntryReading::commit_at))]
pub(crate) fn commit(alloc: Global, cursor: &mut Cursor<'_>) -> Result<Option<Entry>, Memory>
    ensures { Reads commit_at cursor.old cursor.new result }
{
    let Some(OnDocument { by, doc }) = take_on_document(alloc, cursor)? else {
        return Ok(None);
    };
    let Some(hold) = cursor.take_u64() else {
        return Ok(None);
    };
    let Some(lines) = cursor.take_text(alloc)? else {
        return Ok(None);
    };
    Ok(Some(Entry::Commit {
        by,
        doc,
        hold,
        lines,
    }))
}

/// A parked layer; its commands go to the end.
#[tactic(auto, unfolding(crate::specs::EntryReading::park_at))]
pub(crate) fn park(alloc: Global, cursor: &mut Cursor<'_>) -> Result<Option<Entry>, Memory>
    ensures { Reads park_at cursor.old cursor.new result }
{
    let Some(OnDocument { by, doc }) = take_on_document(alloc, cursor)? else {
        return Ok(None);
    };
    let Some(hold) = cursor.take_u64() else {
        return Ok(None);
    };
    let commands = cursor.take_rest(alloc)?;
    Ok(Some(Entry::Park {
        by,
        doc,
        hold,
        commands,
    }))
}

/// A finished layer.
#[tactic(auto, unfolding(crate::specs::EntryReading::finish_at))]
pub(crate) fn finish(alloc: Global, cursor: &mut Cursor<'_>) -> Result<Option<Entry>, Memory>
    ensures { Reads finish_at cursor.old cursor.new result }
{
    match take_on_document(alloc, cursor)? {
        Some(OnDocument { by, doc }) => Ok(Some(Entry::Finish { by, doc })),
        None => Ok(None),
    }
}

/// A snapshot that is taken.
#[tactic(auto, unfolding(crate::specs::EntryReading::snap_at))]
pub(crate) fn snap(alloc: Global, cursor: &mut Cursor<'_>) -> Result<Option<Entry>, Memory>
    ensures { Reads snap_at cursor.old cursor.new result }
{
    match take_on_document(alloc, cursor)? {
        Some(OnDocument { by, doc }) => Ok(Some(Entry::Snap { by, doc })),
        None => Ok(None),
    }
}

/// A layer that is opened again.
#[tactic(auto, unfolding(crate::specs::EntryReading::reopen_at))]
pub(crate) fn reopen(alloc: Global, cursor: &mut Cursor<'_>) -> Result<Option<Entry>, Memory>
    ensures { Reads reopen_at cursor.old cursor.new result }
{
    match take_on_layer(alloc, cursor)? {
        Some(OnLayer { by, doc, who }) => Ok(Some(Entry::Reopen { by, doc, who })),
        None => Ok(None),
    }
}

/// A layer that is taken out of the tables.
#[tactic(auto, unfolding(crate::specs::EntryReading::ignore_at))]
pub(crate) fn ignore(alloc: Global, cursor: &mut Cursor<'_>) -> Result<Option<Entry>, Memory>
    ensures { Reads ignore_at cursor.old cursor.new result }
{
    match take_on_layer(alloc, cursor)? {
        Some(OnLayer { by, doc, who }) => Ok(Some(Entry::Ignore { by, doc, who })),
        None => Ok(None),
    }
}

/// A layer that is put back into the tables.
#[tactic(auto, unfolding(crate::specs::EntryReading::readmit_at))]
pub(crate) fn readmit(alloc: Global, cursor: &mut Cursor<'_>) -> Result<Option<Entry>, Memory>
    ensures { Reads readmit_at cursor.old cursor.new result }
{
    match take_on_layer(alloc, cursor)? {
        Some(OnLayer { by, doc, who }) => Ok(Some(Entry::Readmit { by, doc, who })),
        None => Ok(None),
    }
}

/// A decision.
#[tactic(auto, unfolding(crate::specs::EntryReading::decide_at))]
pub(crate) fn decide(alloc: Global, cursor: &mut Cursor<'_>) -> Result<Option<Entry>, Memory>
    ensures { Reads decide_at cursor.old cursor.new result }
{
    let Some(item) = take_on_item(alloc, cursor)? else {
        return Ok(None);
    };
    let Some(accept) = cursor.take_flag() else {
        return Ok(None);
    };
    let OnItem {
        by,
        snapshot,
        holder,
        kind,
        number,
    } = item;
    Ok(Some(Entry::Decide {
        by,
        snapshot,
        holder,
        kind,
        number,
        accept,
    }))
}

/// A decision that is taken back.
#[tactic(auto, unfolding(crate::specs::EntryReading::undecide_at))]
pub(crate) fn undecide(alloc: Global, cursor: &mut Cursor<'_>) -> Result<Option<Entry>, Memory>
    ensures { Reads undecide_at cursor.old cursor.new result }
{
    match take_on_item(alloc, cursor)? {
        Some(
            OnItem {
                by,
                snapshot,
                holder,
                kind,
                number,
            },
        ) => Ok(Some(Entry::Undecide {
            by,
            snapshot,
            holder,
            kind,
            number,
        })),
        None => Ok(None),
    }
}

/// A founding at a level.
#[tactic(auto, unfolding(crate::specs::EntryReading::found_at_level_at))]
pub(crate) fn found_at_level(
    alloc: Global,
    cursor: &mut Cursor<'_>,
) -> Result<Option<Entry>, Memory>
    ensures { Reads found_at_level_at cursor.old cursor.new result }
{
    let Some(Founding { conf, people }) = take_founding(alloc, cursor)? else {
        return Ok(None);
    };
    let Some(level) = cursor.take_below(255) else {
        return Ok(None);
    };
    Ok(Some(Entry::FoundAt {
        conf,
        people,
        level,
    }))
}
