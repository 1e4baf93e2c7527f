//! A snapshot with its contents compared.
ghost use Rattle.std.specs.Prelude.{◌≡◌, ◌<◌, ℕ, ◌==◌, map, All, IfOk};
ghost use Rattle.std.specs.List.{list_any};
ghost use Rattle.unanimous_merge.specs.Merges.{IsMerged};
ghost use Rattle.unanimous_merge.specs.Rows.{AreCoherent, each_has, having};

use crate::entry::{Entry, entries_of, first_entries};
use crate::rows::{layers_keep, placed_rows};
use crate::shared::shared_classes;
use crate::standing::{in_each, standing_classes, standing_marks};
use content_keys::{ContentTable, Placed, PlacedLayer};
use layer_model::{Class, Snapshot};
use mark_base::Memory;
use std::alloc::Global;

/// The layers of a snapshot by the places of their contents in one table, so that whoever asks more than
/// one thing of a snapshot compares its contents once.
#[derive(Drop)]
pub struct Merged {
    /// Each content of the snapshot once, and those of its classes.
    pub table: ContentTable,
    /// The layers in the order of their holders.
    pub rows: Vec<PlacedLayer>,
    /// The annotations that give the items their names, in the order of items.
    pub firsts: Vec<Entry>,
    /// For each layer the places of its annotations.
    pub marks: Vec<Vec<bool>>,
    /// The unanimous classes, as the first layer has them.
    pub classes: Vec<Class>,
}

impl Merged {
    /// The contents of a snapshot of well-formed layers, compared. Cost: 20 look-ups for each annotation.
    pub fn of(alloc: Global, snapshot: &Snapshot) -> Result<Merged, Memory>
        requires { AreCoherent snapshot.now }
        ensures { IfOk result (λ merged. IsMerged merged snapshot.now) }
    {
        let mut table = ContentTable::new(alloc);
        let rows = placed_rows(alloc, snapshot, &mut table)?;
        table.differ();
        let count = table.count();
        layers_keep(snapshot);
        let _holders = snapshot.count();
        let Some(layer) = snapshot.layer(0) else {
            unreachable!()
        };
        let entries = entries_of(alloc, rows.as_slice())?;
        let firsts = first_entries(alloc, entries.as_slice(), count)?;
        let marks = standing_marks(alloc, rows.as_slice(), count)?;
        let sets = standing_classes(alloc, rows.as_slice(), count)?;
        let first = &rows[0];
        let classes = shared_classes(
            alloc,
            layer.classes(),
            first.classes.as_slice(),
            sets.as_slice(),
        )?;
        Ok(Merged {
            table,
            rows,
            firsts,
            marks,
            classes,
        })
    }

    /// Whether each layer has the content of a place. Cost: the layers.
    pub fn in_each(&self, place: u32) -> bool
        ensures { result ≡ each_has (map (λ row. row.items) self.now.marks.items) place }
    {
        in_each(self.marks.as_slice(), place)
    }
}
