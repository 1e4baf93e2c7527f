//! The IDs of a layer that have a content.
ghost use Rattle.std.specs.Prelude.{◌≡◌, IfOk};
ghost use Rattle.content_keys.specs.LayerContents.{ids_of};

use layer_model::{Layer, push_ids};
use mark_base::{AnnId, Kind, Memory};
use std::alloc::Global;

/// The IDs of a layer that have a content, by letter, then by number. Cost: their number.
pub(crate) fn ids_of(alloc: Global, layer: &Layer) -> Result<Vec<AnnId>, Memory>
    ensures { IfOk result (λ ids. ids.items ≡ ids_of layer.now) }
{
    let mut ids = Vec::new(alloc);
    push_ids(&mut ids, layer, Kind::Text)?;
    push_ids(&mut ids, layer, Kind::Event)?;
    push_ids(&mut ids, layer, Kind::Relation)?;
    push_ids(&mut ids, layer, Kind::Attribute)?;
    push_ids(&mut ids, layer, Kind::Legacy)?;
    push_ids(&mut ids, layer, Kind::Normal)?;
    Ok(ids)
}
