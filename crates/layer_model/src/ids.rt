//! The IDs of a layer.
ghost use Rattle.std.specs.Prelude.{◌≡◌, ◌++◌, map, IfOk, OnOk};
ghost use Rattle.std.specs.Ordering.{nat_cmp};
ghost use Rattle.std.specs.FinMap as finite;
ghost use Rattle.mark_base.specs.ReadIds.{id_at};
ghost use Rattle.layer_model.specs.LayerIds.{ids_of, ids_of_letter};

use crate::layer::Layer;
use mark_base::{AnnId, Kind, Memory};
use std::alloc::Global;
use std::collections::BTreeMap;

/// The ID of a letter and a number, of which one above the greatest stands for the greatest.
pub fn id_at(kind: Kind, number: u32) -> AnnId
    ensures { result ≡ id_at kind number }
{
    AnnId {
        kind,
        number: number.min(AnnId::GREATEST),
    }
}

/// Appends the IDs of a letter and some numbers.
fn push_numbers<V>(ids: &mut Vec<AnnId>, kind: Kind, marks: &BTreeMap<u32, V>) -> Result<(), Memory>
    ensures { OnOk result (ids.new.items ≡ ids.old.items ++ map (id_at kind) (finite.keys (finite.from_entries {R = nat_cmp} marks.now.entries))) }
{
    for (number, _) in marks {
        ids.push(id_at(kind, *number))?;
    }
    Ok(())
}

/// Appends the IDs that a layer has of a letter, ascending. Cost: their number.
pub fn push_ids(ids: &mut Vec<AnnId>, layer: &Layer, kind: Kind) -> Result<(), Memory>
    ensures { OnOk result (ids.new.items ≡ ids.old.items ++ ids_of_letter layer.now kind) }
{
    match kind {
        Kind::Text => push_numbers(ids, kind, layer.spans())?,
        Kind::Event => push_numbers(ids, kind, layer.events())?,
        Kind::Relation => push_numbers(ids, kind, layer.relations())?,
        Kind::Attribute => push_numbers(ids, kind, layer.attributes())?,
        Kind::Legacy => push_numbers(ids, kind, layer.legacy())?,
        Kind::Normal => push_numbers(ids, kind, layer.normals())?,
        Kind::Note => push_numbers(ids, kind, layer.notes())?,
    }
    Ok(())
}

/// The IDs that a layer has of a letter, ascending. Cost: their number.
pub fn ids_of_letter(alloc: Global, layer: &Layer, kind: Kind) -> Result<Vec<AnnId>, Memory>
    ensures { IfOk result (λ ids. ids.items ≡ ids_of_letter layer.now kind) }
{
    let mut ids = Vec::new(alloc);
    push_ids(&mut ids, layer, kind)?;
    Ok(ids)
}

/// The IDs of a layer, by letter, then by number. Cost: their number.
pub fn ids_of(alloc: Global, layer: &Layer) -> Result<Vec<AnnId>, Memory>
    ensures { IfOk result (λ ids. ids.items ≡ ids_of layer.now) }
{
    let mut ids = Vec::new(alloc);
    push_ids(&mut ids, layer, Kind::Text)?;
    push_ids(&mut ids, layer, Kind::Event)?;
    push_ids(&mut ids, layer, Kind::Relation)?;
    push_ids(&mut ids, layer, Kind::Attribute)?;
    push_ids(&mut ids, layer, Kind::Legacy)?;
    push_ids(&mut ids, layer, Kind::Normal)?;
    push_ids(&mut ids, layer, Kind::Note)?;
    Ok(ids)
}
