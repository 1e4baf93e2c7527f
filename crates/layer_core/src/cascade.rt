//! What falls with an annotation that goes.
ghost use Rattle.std.specs.Prelude.{◌≡◌, ◌||◌, false, filter, map, IfOk};
ghost use Rattle.std.specs.Option.{option_map_or};
ghost use Rattle.std.specs.List.{list_any};
ghost use Rattle.layer_model.specs.Layers.{mark_at};
ghost use Rattle.layer_model.specs.declared.mark.Mark.{Mark};
ghost use Rattle.layer_core.specs.MadeLayers.{falls};
ghost use Rattle.layer_core.specs.Cascade.{falls_next, same_ids};
ghost use Rattle.layer_model.specs.LayerIds.{ids_of};
ghost use Rattle.layer_rules.specs.LayerRules.{is_id};
ghost use Rattle.layer_rules.specs.MarkRules.{named_by};

use layer_model::{Event, IdSet, Layer, id_at, ids_of};
use layer_rules::is_id;
use mark_base::{AnnId, Arg, Kind, Memory};
use std::alloc::Global;

/// Whether an ID is among some.
fn has_id(ids: &IdSet, id: AnnId) -> bool
    ensures { result ≡ list_any (is_id id) ids.now }
{
    ids.has(id)
}

/// Whether an ID is the one that goes or is among those that fell.
fn is_fallen(gone: AnnId, fallen: &IdSet, id: AnnId) -> bool
    ensures { result ≡ (is_id gone id || list_any (is_id id) fallen.now) }
{
    is_id(gone, id) || has_id(fallen, id)
}

/// Whether what an annotation names goes or fell.
fn names_fallen(layer: &Layer, gone: AnnId, fallen: &IdSet, id: AnnId) -> bool
    ensures { result ≡ option_map_or (λ mark. list_any (λ named. is_id gone named || list_any (is_id named) fallen.now) (named_by mark)) (mark_at layer.now id) false }
{
    match id.kind {
        Kind::Text => false,
        Kind::Event => match layer.event(id.number) {
            Some(event) => event_names_fallen(event, gone, fallen),
            None => false,
        },
        Kind::Relation => match layer.relation(id.number) {
            Some(relation) => {
                is_fallen(gone, fallen, relation.first) || is_fallen(gone, fallen, relation.second)
            }
            None => false,
        },
        Kind::Attribute | Kind::Legacy => match layer.attribute(id) {
            Some(attribute) => is_fallen(gone, fallen, attribute.target),
            None => false,
        },
        Kind::Normal => match layer.normal(id.number) {
            Some(normal) => is_fallen(gone, fallen, normal.target),
            None => false,
        },
        Kind::Note => match layer.note(id.number) {
            Some(note) => is_fallen(gone, fallen, note.target),
            None => false,
        },
    }
}

/// Whether an argument leads to what goes or fell.
fn leads_to_fallen(args: &[Arg], gone: AnnId, fallen: &IdSet) -> bool
    ensures { result ≡ list_any (λ named. is_id gone named || list_any (is_id named) fallen.now) (map (λ arg. arg.target) args.now) }
{
    for arg in args {
        if is_fallen(gone, fallen, arg.target) {
            return true;
        }
    }
    false
}

/// Whether an event names what goes or fell.
fn event_names_fallen(event: &Event, gone: AnnId, fallen: &IdSet) -> bool
    ensures { result ≡ list_any (λ named. is_id gone named || list_any (is_id named) fallen.now) (named_by (Mark.Event event.now)) }
{
    is_fallen(gone, fallen, id_at(Kind::Text, event.trigger))
        || leads_to_fallen(event.args.items(), gone, fallen)
}

/// Whether an annotation falls in the next round.
fn falls_next(layer: &Layer, gone: AnnId, fallen: &IdSet, id: AnnId) -> bool
    ensures { result ≡ falls_next layer.now gone fallen.now id }
{
    is_id(gone, id) || names_fallen(layer, gone, fallen, id)
}

/// The IDs that fall in the round behind those that fell, of some.
fn fall_behind(
    alloc: Global,
    layer: &Layer,
    gone: AnnId,
    ids: &[AnnId],
    fallen: &IdSet,
) -> Result<Vec<AnnId>, Memory>
    ensures { IfOk result (λ next. next.items ≡ filter (falls_next layer.now gone fallen.now) ids.now) }
{
    let mut next = Vec::new(alloc);
    for id in ids {
        if falls_next(layer, gone, fallen, *id) {
            next.push(*id)?;
        }
    }
    Ok(next)
}

/// The IDs that fall in the next round, of some. Cost: what the IDs name, times the logarithm of the
/// number that fell.
fn fall_next(
    alloc: Global,
    layer: &Layer,
    gone: AnnId,
    ids: &[AnnId],
    fallen: &[AnnId],
) -> Result<Vec<AnnId>, Memory>
    ensures { IfOk result (λ next. next.items ≡ filter (falls_next layer.now gone fallen.now) ids.now) }
{
    let before = IdSet::of(alloc, fallen)?;
    let next = fall_behind(alloc, layer, gone, ids, &before)?;
    Ok(next)
}

/// The IDs that are the one that goes, of some.
fn only(alloc: Global, gone: AnnId, ids: &[AnnId]) -> Result<Vec<AnnId>, Memory>
    ensures { IfOk result (λ found. found.items ≡ filter (is_id gone) ids.now) }
{
    let mut found = Vec::new(alloc);
    for id in ids {
        if is_id(gone, *id) {
            found.push(*id)?;
        }
    }
    Ok(found)
}

/// Whether two lists have the same IDs in the same order.
fn are_same(a: &[AnnId], b: &[AnnId]) -> bool
    ensures { result ≡ same_ids a.now b.now }
{
    let mut left = a;
    let mut right = b;
    while let Some((id, others)) = left.split_first() {
        match right {
            [] => return false,
            [other, rest @ ..] => {
                if !is_id(*id, *other) {
                    return false;
                }
                left = others;
                right = rest;
            }
        }
    }
    right.is_empty()
}

/// What falls with an annotation that goes: it, what names it, what names that, and so on. Cost: for each
/// round, what the annotations name, times the logarithm of the number that fell. There is one round for
/// each step of the longest way from name to name, and one more.
pub(crate) fn falling(alloc: Global, layer: &Layer, gone: AnnId) -> Result<Vec<AnnId>, Memory>
    ensures { IfOk result (λ fallen. fallen.items ≡ filter (falls layer.now gone) (ids_of layer.now)) }
{
    let ids = ids_of(alloc, layer)?;
    let mut fallen = only(alloc, gone, &ids)?;
    for round in 0..ids.len() {
        let next = fall_next(alloc, layer, gone, &ids, &fallen)?;
        if are_same(&next, &fallen) {
            return Ok(fallen);
        }
        fallen = next;
    }
    Ok(fallen)
}
