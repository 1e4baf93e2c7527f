//! The way from the layer that a command made back to the layer before it.
ghost use Rattle.std.specs.Prelude.{◌≡◌, ◌<◌, ◌∷◌, [], true, IfErr, IfOk, OnErr, OnOk, length};
ghost use Rattle.std.specs.List.{list_all, list_any};
ghost use Rattle.std.specs.Option.{option_map_or};
ghost use Rattle.layer_model.specs.Classes.{has_rank, joined, rank};
ghost use Rattle.layer_model.specs.Layers.{is_of_kind, mark_at, with_classes, with_mark, without};
ghost use Rattle.layer_core.specs.Backs.{fits_back, fits_taken, has_some, led_back, with_all_taken, with_left, with_taken, with_this};
ghost use Rattle.layer_core.specs.Outcomes.{IsIndexed, IsIndexedBut, IsSomeWellFormed, KeepsIndex};
ghost use Rattle.layer_core.specs.Regrouped.{all_joined, all_parted};

use crate::Back;
use crate::index::Index;
use crate::outcome::{set, taken_in};
use crate::taken::{Left, Taken};
use layer_model::{Class, Layer, Mark, rank};
use mark_base::{AnnId, IdList, Memory, RelId};
use std::alloc::Global;

/// How many classes can be numbered.
const MOST_NUMBERED: usize = 4_294_967_295;

/// Whether the ID of this place is one of the members.
pub(crate) fn has_rank(members: &[AnnId], place: u64) -> bool
    ensures { result ≡ has_rank place members.now }
{
    members.iter().any(|member| rank(*member) == place)
}

/// Whether an ID stands in one of the classes. Cost: their members.
pub(crate) fn is_held(classes: &[Class], id: AnnId) -> bool
    ensures { result ≡ list_any (λ class. has_rank (rank id) class.members) classes.now }
{
    let place = rank(id);
    classes
        .iter()
        .any(|class| has_rank(class.members.items(), place))
}

/// The index of a layer in which what stands under an ID changed, as far as one was kept and memory allows
/// one.
fn kept_in(index: Option<Index>, layer: &Layer, id: AnnId, before: &Option<Mark>) -> Option<Index>
    requires well_formed { IsSomeWellFormed layer.now }
    requires index { IsIndexedBut id layer.now index }
    ensures { IsIndexed layer.now result }
{
    layer.keeps();
    taken_in(index?, layer, id, before)
}

/// Takes an annotation away again.
fn take_again(layer: &mut Layer, index: &mut Option<Index>, id: AnnId)
    requires well_formed { IsSomeWellFormed (without layer.old id) }
    requires index { IsIndexed layer.old index.old }
    ensures layer { layer.new ≡ without layer.old id }
    ensures index { IsIndexed layer.new index.new }
{
    let before = layer.take(id);
    *index = kept_in(index.take(), layer, id, &before);
}

/// Puts a copy of an annotation under an ID, in the place of what is there, and answers what was. Want of
/// memory leaves the layer as it was.
fn set_again(layer: &mut Layer, id: AnnId, mark: &Mark) -> Result<Option<Mark>, Memory>
    requires { is_of_kind id.kind mark.now ≡ true }
    ensures before { IfOk result (λ before. before ≡ mark_at layer.old id) }
    ensures done { OnOk result (layer.new ≡ with_mark layer.old id mark.now) }
    ensures kept { OnErr result (layer.new ≡ layer.old) }
{
    let mark = mark.clone()?;
    set(layer, id, mark)
}

/// Puts an annotation under an ID again, in the place of what is there. Want of memory leaves the layer as it
/// was.
fn put_again(
    layer: &mut Layer,
    index: &mut Option<Index>,
    id: AnnId,
    mark: &Mark,
) -> Result<(), Memory>
    requires fits { is_of_kind id.kind mark.now ≡ true }
    requires well_formed { IsSomeWellFormed (with_mark layer.old id mark.now) }
    requires index { IsIndexed layer.old index.old }
    ensures done { OnOk result (layer.new ≡ with_mark layer.old id mark.now) }
    ensures kept { OnErr result (layer.new ≡ layer.old) }
    ensures index { IsIndexed layer.new index.new }
{
    let before = set_again(layer, id, mark)?;
    *index = kept_in(index.take(), layer, id, &before);
    Ok(())
}

/// Puts under an ID what stood there before, or nothing. Want of memory leaves the layer as it was.
fn stand_under(
    layer: &mut Layer,
    index: &mut Option<Index>,
    id: AnnId,
    mark: &Option<Mark>,
) -> Result<(), Memory>
    requires fits { option_map_or (is_of_kind id.kind) mark.now true ≡ true }
    requires well_formed { IsSomeWellFormed (with_this layer.old id.kind id.number mark.now) }
    requires index { IsIndexed layer.old index.old }
    ensures done { OnOk result (layer.new ≡ with_this layer.old id.kind id.number mark.now) }
    ensures kept { OnErr result (layer.new ≡ layer.old) }
    ensures index { IsIndexed layer.new index.new }
{
    match mark {
        Some(mark) => put_again(layer, index, id, mark),
        None => {
            take_again(layer, index, id);
            Ok(())
        }
    }
}

/// Takes members out of the classes of a relation type, one after another. Cost: the members of the classes
/// for each.
fn part_each(layer: &mut Layer, kind: RelId, ids: &[AnnId])
    ensures { layer.new ≡ with_classes layer.old (all_parted kind.n ids.now layer.old.classes) }
{
    for id in ids {
        layer.part(kind, *id);
    }
}

/// Joins members, where there is room for a class more. Want of memory leaves the layer as it was.
fn join(layer: &mut Layer, kind: RelId, members: IdList) -> Result<(), Memory>
    requires { 0 < length members }
    ensures done { OnOk result (layer.new ≡ with_classes layer.old (joined kind members layer.old.classes)) }
    ensures kept { OnErr result (layer.new ≡ layer.old) }
    ensures index { KeepsIndex layer.old layer.new }
{
    if layer.classes().len() >= MOST_NUMBERED {
        return Err(Memory);
    }
    layer.join(kind, members)
}

/// Joins the members of each of some classes, those of the last first.
fn join_each(layer: &mut Layer, classes: &[Class]) -> Result<(), Memory>
    requires { list_all has_some classes.now ≡ true }
    ensures { OnOk result (layer.new ≡ with_classes layer.old (all_joined classes.now layer.old.classes)) }
{
    let mut left = classes;
    while let [others @ .., class] = left {
        join(layer, class.kind, class.members.copy()?)?;
        left = others;
    }
    Ok(())
}

/// Puts a member into the class that has the one beside. Want of memory leaves the layer as it was.
fn join_beside(
    alloc: Global,
    layer: &mut Layer,
    kind: RelId,
    id: AnnId,
    beside: AnnId,
) -> Result<(), Memory>
    ensures done { OnOk result (layer.new ≡ with_classes layer.old (joined kind (id ∷ beside ∷ []) layer.old.classes)) }
    ensures kept { OnErr result (layer.new ≡ layer.old) }
    ensures index { KeepsIndex layer.old layer.new }
{
    let members = IdList::of(alloc, &[id, beside])?;
    join(layer, kind, members)
}

/// A copy of a layer in which members left their classes and others are classes again.
fn regrouped(layer: &Layer, kind: RelId, out: &[AnnId], again: &[Class]) -> Result<Layer, Memory>
    requires { list_all has_some again.now ≡ true }
    ensures { IfOk result (λ made. made ≡ with_classes layer.now (all_joined again.now (all_parted kind.n out.now layer.now.classes))) }
{
    let mut made = layer.copy()?;
    part_each(&mut made, kind, out);
    join_each(&mut made, again)?;
    Ok(made)
}

/// Lets members leave their classes, and makes others classes again. Want of memory leaves the layer as it
/// was. Cost: the members of the classes for each member that leaves, and where there are others a copy of
/// the layer.
fn regroup(layer: &mut Layer, kind: RelId, out: &[AnnId], again: &[Class]) -> Result<(), Memory>
    requires { list_all has_some again.now ≡ true }
    ensures done { OnOk result (layer.new ≡ with_classes layer.old (all_joined again.now (all_parted kind.n out.now layer.old.classes))) }
    ensures kept { OnErr result (layer.new ≡ layer.old) }
    ensures index { KeepsIndex layer.old layer.new }
{
    if again.is_empty() {
        part_each(layer, kind, out);
        return Ok(());
    }
    let made = regrouped(layer, kind, out, again)?;
    *layer = made;
    Ok(())
}

/// Puts an ID into the classes that it left, the last of them first.
fn join_left(alloc: Global, layer: &mut Layer, id: AnnId, left: &[Left]) -> Result<(), Memory>
    ensures { OnOk result (layer.new ≡ with_classes layer.old (with_left id left.now layer.old.classes)) }
{
    let mut more = left;
    while let [others @ .., class] = more {
        join_beside(alloc, layer, class.kind, id, class.beside)?;
        more = others;
    }
    Ok(())
}

/// Puts an annotation that was taken away into its place again, and into the classes that it left.
fn stand_again(alloc: Global, layer: &mut Layer, taken: &Taken) -> Result<(), Memory>
    requires { fits_taken taken.now ≡ true }
    ensures { OnOk result (layer.new ≡ with_taken taken.now layer.old) }
{
    join_left(alloc, layer, taken.id, taken.left.items())?;
    match &taken.mark {
        Some(mark) => {
            set_again(layer, taken.id, mark)?;
        }
        None => {
            layer.take(taken.id);
        }
    }
    Ok(())
}

/// Puts annotations that were taken away into their places again, the one that went last first.
fn stand_each(alloc: Global, layer: &mut Layer, taken: &[Taken]) -> Result<(), Memory>
    requires { list_all fits_taken taken.now ≡ true }
    ensures { OnOk result (layer.new ≡ with_all_taken taken.now layer.old) }
{
    let mut left = taken;
    while let [others @ .., last] = left {
        stand_again(alloc, layer, last)?;
        left = others;
    }
    Ok(())
}

/// Puts annotations that were taken away into their places again. Want of memory leaves the layer as it was.
/// Cost: a copy of the layer, and of the annotations; the index is made anew by the next command.
fn all_stand_again(
    alloc: Global,
    layer: &mut Layer,
    index: &mut Option<Index>,
    taken: &[Taken],
) -> Result<(), Memory>
    requires fits { list_all fits_taken taken.now ≡ true }
    requires index { IsIndexed layer.old index.old }
    ensures done { OnOk result (layer.new ≡ with_all_taken taken.now layer.old) }
    ensures kept { OnErr result (layer.new ≡ layer.old) }
    ensures index { IsIndexed layer.new index.new }
{
    let mut made = layer.copy()?;
    stand_each(alloc, &mut made, taken)?;
    *layer = made;
    *index = None;
    Ok(())
}

/// Goes a way back. Want of memory leaves the layer as it was and gives the way back again.
pub(crate) fn go_back(
    alloc: Global,
    layer: &mut Layer,
    index: &mut Option<Index>,
    back: Back,
) -> Result<(), (Back, Memory)>
    requires fits { fits_back back ≡ true }
    requires well_formed { IsSomeWellFormed (led_back back layer.old) }
    requires index { IsIndexed layer.old index.old }
    ensures done { OnOk result (layer.new ≡ led_back back layer.old) }
    ensures kept { OnErr result (layer.new ≡ layer.old) }
    ensures given { IfErr result (λ stop. stop.0 ≡ back) }
    ensures index { IsIndexed layer.new index.new }
{
    match back {
        Back::Same => Ok(()),
        Back::Whole { layer: before } => {
            *layer = before;
            *index = None;
            Ok(())
        }
        Back::Under { id, mark } => match stand_under(layer, index, id, &mark) {
            Ok(()) => Ok(()),
            Err(memory) => Err((Back::Under { id, mark }, memory)),
        },
        Back::Member { kind, id, beside } => match join_beside(alloc, layer, kind, id, beside) {
            Ok(()) => Ok(()),
            Err(memory) => Err((Back::Member { kind, id, beside }, memory)),
        },
        Back::Classes { kind, out, again } => {
            match regroup(layer, kind, out.items(), again.items()) {
                Ok(()) => Ok(()),
                Err(memory) => Err((Back::Classes { kind, out, again }, memory)),
            }
        }
        Back::Marks { taken } => match all_stand_again(alloc, layer, index, taken.items()) {
            Ok(()) => Ok(()),
            Err(memory) => Err((Back::Marks { taken }, memory)),
        },
    }
}
