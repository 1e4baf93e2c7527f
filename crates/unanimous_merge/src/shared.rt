//! What each layer of a snapshot has.
ghost use Rattle.std.specs.Prelude.{◌≡◌, filter, length, map, IfOk};
ghost use Rattle.unanimous_merge.specs.Rows.{classes_at, each_has};

use crate::standing::in_each;
use content_keys::Placed;
use layer_model::Class;
use mark_base::{AnnId, Memory};
use std::alloc::Global;

/// The annotations that each layer has.
pub(crate) fn shared_ids(
    alloc: Global,
    marks: &[Placed],
    standing: &[Vec<bool>],
) -> Result<Vec<AnnId>, Memory>
    ensures { IfOk result (λ ids. ids.items ≡ map (λ p. p.id) (filter (λ p. each_has (map (λ row. row.items) standing.now) p.place) marks.now)) }
{
    let mut ids = Vec::new(alloc);
    for one in marks {
        if in_each(standing, one.place) {
            ids.push(one.id)?;
        }
    }
    Ok(ids)
}

/// The classes that each layer has.
pub(crate) fn shared_classes(
    alloc: Global,
    classes: &[Class],
    places: &[u32],
    standing: &[Vec<bool>],
) -> Result<Vec<Class>, Memory>
    requires { length places.now ≡ length classes.now }
    ensures { IfOk result (λ shared. shared.items ≡ classes_at (each_has (map (λ row. row.items) standing.now)) classes.now places.now) }
{
    let mut shared = Vec::new(alloc);
    for i in 0..classes.len() {
        if in_each(standing, places[i]) {
            let class = &classes[i];
            let members = class.members.copy()?;
            shared.push(Class {
                kind: class.kind,
                members,
            })?;
        }
    }
    Ok(shared)
}
