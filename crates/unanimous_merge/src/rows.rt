//! The layers of a snapshot, placed in one table of contents.
ghost use Rattle.std.specs.Prelude.{All, IfOk};
ghost use Rattle.layer_model.specs.Layers.{IsLayer};
ghost use Rattle.unanimous_merge.specs.Rows.{AreCoherent, AreRows};

use content_keys::{ContentTable, PlacedLayer};
use layer_model::Snapshot;
use mark_base::Memory;
use std::alloc::Global;

/// The layers of a snapshot by the places of their contents. Cost: 20 look-ups for each annotation.
pub(crate) fn placed_rows(
    alloc: Global,
    snapshot: &Snapshot,
    table: &mut ContentTable,
) -> Result<Vec<PlacedLayer>, Memory>
    requires { AreCoherent snapshot.now }
    ensures { IfOk result (λ rows. AreRows table.new rows.items snapshot.now) }
{
    let mut rows = Vec::new(alloc);
    for i in 0..snapshot.count() {
        if let Some(layer) = snapshot.layer(i) {
            let row = table.place(layer)?;
            rows.push(row)?;
        }
    }
    Ok(rows)
}

/// Tells a proof what each layer of a snapshot keeps. It does nothing.
pub(crate) fn layers_keep(snapshot: &Snapshot)
    ensures { All (λ row. IsLayer row.1) snapshot.now }
{
    for i in 0..snapshot.count() {
        if let Some(layer) = snapshot.layer(i) {
            layer.keeps();
        }
    }
}
