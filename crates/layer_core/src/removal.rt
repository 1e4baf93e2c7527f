//! Annotations that go, and what leads back to them.
ghost use Rattle.std.specs.Prelude.{◌≡◌, ◌==◌, ◌<◌, ◌≤◌, ◌+◌, ◌++◌, IfOk, OnErr, OnOk, length, map, vec_len};
ghost use Rattle.std.specs.Vec.{vec_capacity};
ghost use Rattle.std.specs.List.{dedup, flat_map};
ghost use Rattle.layer_model.specs.Annotations.{Annotations};
ghost use Rattle.layer_model.specs.Classes.{parted};
ghost use Rattle.layer_model.specs.Layers.{with_classes};
ghost use Rattle.layer_core.specs.Backs.{AreTaken, IsTaken, left_beside, with_left};
ghost use Rattle.layer_core.specs.MadeLayers.{gone, parted_from, without_all};
ghost use Rattle.layer_core.specs.Cascade.{HoldMembers};
ghost use Rattle.layer_core.specs.Regrouped.{beside, first_other};

use crate::taken::{Left, LeftList, Taken, TakenList};
use crate::ways_back::has_rank;
use layer_model::{Class, IdSet, Layer, rank};
use mark_base::{AnnId, Memory, RelId};
use std::alloc::Global;

/// The numbers of the relation types of the classes of a layer, one for each class.
fn each_kind(alloc: Global, layer: &Layer) -> Result<Vec<u16>, Memory>
    ensures { IfOk result (λ kinds. kinds.items ≡ map (λ class. class.kind.n) layer.now.classes) }
{
    let mut kinds = Vec::new(alloc);
    let classes = layer.classes();
    for class in classes {
        kinds.push(class.kind.n)?;
    }
    Ok(kinds)
}

/// The same numbers, each once, since classes of one type stand side by side.
fn class_kinds(alloc: Global, layer: &Layer) -> Result<Vec<u16>, Memory>
    ensures { IfOk result (λ kinds. kinds.items ≡ dedup ◌==◌ (map (λ class. class.kind.n) layer.now.classes)) }
{
    let mut kinds = each_kind(alloc, layer)?;
    kinds.dedup();
    Ok(kinds)
}

/// The first member that is not the one of an ID, or that one where there is no other.
fn first_other(members: &[AnnId], id: AnnId) -> AnnId
    ensures { result ≡ first_other id members.now }
{
    let mut left = members;
    while let Some((member, others)) = left.split_first() {
        if rank(*member) != rank(id) {
            return *member;
        }
        left = others;
    }
    id
}

/// A member that stays in the class of a relation type which the one of an ID leaves, where it is in one.
/// Cost: the members of the classes.
pub(crate) fn beside(classes: &[Class], kind: RelId, id: AnnId) -> Option<AnnId>
    ensures { result ≡ beside kind.n id classes.now }
{
    let mut left = classes;
    while let [class, others @ ..] = left {
        if class.kind == kind && has_rank(class.members.items(), rank(id)) {
            return Some(first_other(class.members.items(), id));
        }
        left = others;
    }
    None
}

/// Writes down that a class was left, where one was.
fn push_left(left: &mut Vec<Left>, kind: RelId, beside: Option<AnnId>)
    requires { vec_len left.old < vec_capacity left.old }
    ensures items { left.new.items ≡ left.old.items ++ left_beside kind beside }
    ensures longer { vec_len left.new ≤ vec_len left.old + 1 }
    ensures room { vec_capacity left.new ≡ vec_capacity left.old }
{
    match beside {
        Some(beside) => left.push_reserved(Left { kind, beside }),
        None => {}
    }
}

/// Takes an ID out of its class of a relation type, and writes down what it left.
fn leave(layer: &mut Layer, id: AnnId, kind: RelId, left: &mut Vec<Left>)
    requires { vec_len left.old < vec_capacity left.old }
    ensures layer { layer.new ≡ with_classes layer.old (parted kind.n id layer.old.classes) }
    ensures back { with_left id left.new.items layer.new.classes ≡ with_left id left.old.items layer.old.classes }
    ensures longer { vec_len left.new ≤ vec_len left.old + 1 }
    ensures room { vec_capacity left.new ≡ vec_capacity left.old }
{
    layer.keeps();
    let stays = beside(layer.classes(), kind, id);
    push_left(left, kind, stays);
    layer.part(kind, id);
}

/// Takes an ID out of the classes of some relation types, and writes down what it left. Cost: the classes
/// for each type, and the members of the classes.
fn part_from(layer: &mut Layer, id: AnnId, kinds: &[u16], left: &mut Vec<Left>)
    requires { vec_len left.old + length kinds.now ≤ vec_capacity left.old }
    ensures layer { layer.new ≡ with_classes layer.old (parted_from id layer.old.classes kinds.now) }
    ensures back { with_left id left.new.items layer.new.classes ≡ with_left id left.old.items layer.old.classes }
{
    for kind in kinds {
        leave(layer, id, RelId { n: *kind }, left);
    }
}

/// Takes an annotation out of a layer, and out of its classes, and tells what leads back. Want of memory
/// leaves the layer as it was. Cost: the classes for each relation type that they have, and their members.
pub(crate) fn take_away(alloc: Global, layer: &mut Layer, id: AnnId) -> Result<Taken, Memory>
    ensures gone { OnOk result (layer.new ≡ gone layer.old id) }
    ensures taken { IfOk result (λ taken. IsTaken taken layer.new layer.old) }
    ensures kept { OnErr result (layer.new ≡ layer.old) }
{
    let kinds = class_kinds(alloc, layer)?;
    let mut left = Vec::with_capacity(alloc, kinds.len())?;
    layer.keeps();
    let mark = layer.take(id);
    part_from(layer, id, &kinds, &mut left);
    let left = LeftList::from_vec(left);
    Ok(Taken { id, mark, left })
}

/// The members of some classes.
fn members_of(alloc: Global, classes: &[Class]) -> Result<Vec<AnnId>, Memory>
    ensures { IfOk result (λ members. members.items ≡ flat_map (λ class. class.members) classes.now) }
{
    let mut members = Vec::new(alloc);
    for class in classes {
        members.extend_from_slice(class.members.items())?;
    }
    Ok(members)
}

/// The IDs that stand in classes.
fn held_ids(alloc: Global, layer: &Layer) -> Result<IdSet, Memory>
    ensures { IfOk result (λ held. HoldMembers held layer.now.classes) }
{
    let members = members_of(alloc, layer.classes())?;
    let held = IdSet::of(alloc, &members)?;
    Ok(held)
}

/// Takes an annotation out of a layer, and out of its classes where it is one of the IDs that stand in
/// some, and tells what leads back. Cost: as the look-up of an ordered map, and for such an ID as
/// `take_away`.
fn take_held(alloc: Global, layer: &mut Layer, id: AnnId, held: &IdSet) -> Result<Taken, Memory>
    requires { HoldMembers held.now layer.old.classes }
    ensures gone { OnOk result (layer.new ≡ gone layer.old id) }
    ensures taken { IfOk result (λ taken. IsTaken taken layer.new layer.old) }
    ensures held { OnOk result (HoldMembers held.now layer.new.classes) }
{
    if held.has(id) {
        let taken = take_away(alloc, layer, id)?;
        return Ok(taken);
    }
    let mark = layer.take(id);
    let left = LeftList::from_vec(Vec::new(alloc));
    Ok(Taken { id, mark, left })
}

/// Takes an annotation out of a layer as `take_held` does, and puts it behind those that were taken before.
fn take_next(
    alloc: Global,
    layer: &mut Layer,
    id: AnnId,
    held: &IdSet,
    all: &mut Vec<Taken>,
) -> Result<(), Memory>
    requires { HoldMembers held.now layer.old.classes }
    ensures gone { OnOk result (layer.new ≡ gone layer.old id) }
    ensures taken { OnOk result ((earlier : Annotations) → AreTaken all.old.items layer.old earlier → AreTaken all.new.items layer.new earlier) }
    ensures held { OnOk result (HoldMembers held.now layer.new.classes) }
{
    all.try_reserve(1)?;
    let taken = take_held(alloc, layer, id, held)?;
    all.push_reserved(taken);
    Ok(())
}

/// Takes some annotations out of a layer, and out of its classes, where these IDs hold all that stand in
/// some, and tells what leads back. Cost: as `take_held` for each.
fn take_each(
    alloc: Global,
    layer: &mut Layer,
    ids: &[AnnId],
    held: &IdSet,
) -> Result<Vec<Taken>, Memory>
    requires { HoldMembers held.now layer.old.classes }
    ensures gone { OnOk result (layer.new ≡ without_all layer.old ids.now) }
    ensures taken { IfOk result (λ taken. AreTaken taken.items layer.new layer.old) }
{
    let mut all = Vec::new(alloc);
    for id in ids {
        take_next(alloc, layer, *id, held, &mut all)?;
    }
    Ok(all)
}

/// Takes some annotations out of a layer, and out of its classes, and tells what leads back. Cost: the
/// members of the classes, and as `take_held` for each ID.
pub(crate) fn take_all_away(
    alloc: Global,
    layer: &mut Layer,
    ids: &[AnnId],
) -> Result<TakenList, Memory>
    ensures gone { OnOk result (layer.new ≡ without_all layer.old ids.now) }
    ensures taken { IfOk result (λ taken. AreTaken taken layer.new layer.old) }
{
    let held = held_ids(alloc, layer)?;
    let taken = take_each(alloc, layer, ids, &held)?;
    Ok(TakenList::from_vec(taken))
}
