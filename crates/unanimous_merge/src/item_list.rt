//! The items of a snapshot.
ghost use Rattle.std.specs.Prelude.{◌≡◌, ◌≤◌, length, map, IfOk};
ghost use Rattle.unanimous_merge.specs.Items.{items};
ghost use Rattle.unanimous_merge.specs.Rows.{AreCoherent, item_at};

use crate::entry::Entry;
use crate::item::Item;
use crate::merged::Merged;
use crate::standing::holders_of;
use layer_model::Snapshot;
use mark_base::Memory;
use std::alloc::Global;

/// The items of annotations.
fn listed(alloc: Global, firsts: &[Entry], standing: &[Vec<bool>]) -> Result<Vec<Item>, Memory>
    requires { length standing.now ≤ 16 }
    ensures { IfOk result (λ listed. listed.items ≡ map (item_at (map (λ row. row.items) standing.now)) firsts.now) }
{
    let mut listed = Vec::new(alloc);
    for entry in firsts {
        let holders = holders_of(standing, entry.place);
        listed.push(Item {
            id: entry.item,
            holders,
        })?;
    }
    Ok(listed)
}

/// The items of a snapshot of well-formed layers: every distinct content that stands in it, once, by
/// holder, then by ID, with all its holders (WebAnno user guide, "Curation"). Notes have no content, and so
/// are no items. Cost: 20 look-ups for each annotation, and 16 steps for each item.
pub fn items(alloc: Global, snapshot: &Snapshot) -> Result<Vec<Item>, Memory>
    requires { AreCoherent snapshot.now }
    ensures { IfOk result (λ listed. listed.items ≡ items snapshot.now) }
{
    let _holders = snapshot.count();
    let merged = Merged::of(alloc, snapshot)?;
    listed(alloc, merged.firsts.as_slice(), merged.marks.as_slice())
}
