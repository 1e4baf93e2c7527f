//! The annotations of all holders, by the places of their contents.
ghost use Rattle.std.specs.Prelude.{◌≡◌, ◌≤◌, ◌<◌, ◌++◌, length, map, All, IfOk, OnOk};
ghost use Rattle.content_keys.specs.declared.placed_layer.PlacedLayer.{PlacedLayer};
ghost use Rattle.unanimous_merge.specs.Rows.{entries_by, entries_from, firsts_at};

use crate::item::ItemId;
use content_keys::{Placed, PlacedLayer};
use mark_base::Memory;
use std::alloc::Global;

/// An annotation of a holder, and the place of its content.
#[derive(Clone, Copy)]
pub struct Entry {
    pub item: ItemId,
    pub place: u32,
}

/// Appends the annotations of a holder.
fn push_entries(entries: &mut Vec<Entry>, holder: u8, placed: &[Placed]) -> Result<(), Memory>
    ensures { OnOk result (entries.new.items ≡ entries.old.items ++ entries_by holder placed.now) }
{
    for one in placed {
        let item = ItemId { holder, id: one.id };
        entries.push(Entry {
            item,
            place: one.place,
        })?;
    }
    Ok(())
}

/// The annotations of all holders, by holder, then by ID. Cost: their number.
pub(crate) fn entries_of(alloc: Global, rows: &[PlacedLayer]) -> Result<Vec<Entry>, Memory>
    requires { length rows.now ≤ 16 }
    ensures { IfOk result (λ entries. entries.items ≡ entries_from 0 (map (λ row. row.marks.items) rows.now)) }
{
    let mut entries = Vec::new(alloc);
    for holder in 0..rows.len() {
        push_entries(&mut entries, holder as u8, rows[holder].marks.as_slice())?;
    }
    Ok(entries)
}

/// The first annotation of each place. Cost: their number.
pub(crate) fn first_entries(
    alloc: Global,
    entries: &[Entry],
    count: usize,
) -> Result<Vec<Entry>, Memory>
    requires { All (λ entry. entry.place < count) entries.now }
    ensures { IfOk result (λ firsts. firsts.items ≡ firsts_at entries.now) }
{
    let mut seen: Vec<bool> = vec![in alloc; false; count]?;
    let mut firsts = Vec::new(alloc);
    for entry in entries {
        let place = entry.place as usize;
        if !seen[place] {
            seen[place] = true;
            firsts.push(*entry)?;
        }
    }
    Ok(firsts)
}
