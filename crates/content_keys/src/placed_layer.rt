//! The annotations of a layer, placed in a table of contents.
ghost use Rattle.std.specs.Prelude.{◌≡◌, ◌++◌, ℕ, suc, false, ◌<◌, List, length, map, All, IfOk, IfSome, IsSome, OnOk, Some, option_map, slice_index};
ghost use Rattle.layer_model.specs.Coherent.{IsCoherent};
ghost use Rattle.layer_model.specs.Layers.{IsLayer};
ghost use Rattle.mark_base.specs.declared.ann_id.AnnId.{AnnId};
ghost use Rattle.content_keys.specs.Carrying.{all_linked, all_moved, Carries};
ghost use Rattle.content_keys.specs.LayerContents.{class_content, class_contents_of, content_of, contents_of, ids_of, link_of, node_of};
ghost use Rattle.content_keys.specs.Nodes.{IsIn, Names, number};
ghost use Rattle.content_keys.specs.Parts.{made_of};
ghost use Rattle.content_keys.specs.Places.{AreBuilt, ArePlaced, AreRight, HasPlace, IsOfMark, Keeps, contents_at, place_of};
ghost use Rattle.content_keys.specs.Tables.{AddsOnly, MayAdd, Starts, values};

use crate::carrying::order;
use crate::ids::ids_of;
use crate::parts::{Parts, class_parts, parts_of};
use crate::shape::Shape;
use crate::table::Table;
use layer_model::{Class, Layer, rank};
use mark_base::{AnnId, Arg, Memory};
use std::alloc::Global;
use std::collections::BTreeMap;

/// An annotation and the place of its content in a table, counted from 0.
#[derive(Clone, Copy, Debug, PartialEq, Eq)]
pub struct Placed {
    pub id: AnnId,
    pub place: u32,
}

/// A layer by the places of its contents: its annotations that have one, by letter, then by number, and its
/// classes in their order.
#[derive(Debug, Drop)]
pub struct PlacedLayer {
    pub marks: Vec<Placed>,
    pub classes: Vec<u32>,
}

/// The place of an annotation.
fn place_of(places: &BTreeMap<u64, u32>, id: AnnId) -> Option<u32>
    ensures { result ≡ place_of places.now id }
{
    places.get(&rank(id)).copied()
}

/// The places of annotations, if each has one.
fn places_of(
    alloc: Global,
    places: &BTreeMap<u64, u32>,
    ids: &[AnnId],
) -> Result<Option<Vec<u32>>, Memory>
    ensures { IfOk result (λ o. option_map (λ v. v.items) o ≡ all_moved (place_of places.now) ids.now) }
{
    let mut out = Vec::new(alloc);
    for id in ids {
        match place_of(places, *id) {
            Some(place) => out.push(place)?,
            None => return Ok(None),
        }
    }
    Ok(Some(out))
}

/// The roles and places of arguments, if the target of each has one.
fn links_of(
    alloc: Global,
    places: &BTreeMap<u64, u32>,
    args: &[Arg],
) -> Result<Option<Vec<(u32, u32)>>, Memory>
    ensures links { IfOk result (λ o. option_map (λ v. v.items) o ≡ all_linked (place_of places.now) (map link_of args.now)) }
    ensures fit { IfOk result (λ o. IfSome o (λ v. All (λ p. p.1 < 4294967296) v.items)) }
{
    let mut out = Vec::new(alloc);
    for arg in args {
        match place_of(places, arg.target) {
            Some(place) => out.push((u32::from(arg.role), place))?,
            None => return Ok(None),
        }
    }
    Ok(Some(out))
}

/// The content of an annotation by the places of what it names, if each has one.
fn shape_of(
    alloc: Global,
    places: &BTreeMap<u64, u32>,
    parts: Parts,
) -> Result<Option<Shape>, Memory>
    ensures { IfOk result (λ o. Carries (place_of places.now) (made_of parts) o) }
{
    let Parts { own, named, args } = parts;
    let Some(named) = places_of(alloc, places, named.as_slice())? else {
        return Ok(None);
    };
    let Some(mut bag) = links_of(alloc, places, args.as_slice())? else {
        return Ok(None);
    };
    order(&mut bag);
    Ok(Some(Shape { own, named, bag }))
}

/// Gives an annotation the place of its content.
fn enter(
    alloc: Global,
    layer: &Layer,
    id: AnnId,
    shape: Shape,
    table: &mut Table,
    places: &mut BTreeMap<u64, u32>,
) -> Result<(), Memory>
    requires may { MayAdd table.old shape }
    requires right { AreRight layer.now table.old places.old }
    requires number { number (slice_index (values table.old)) shape ≡ content_of layer.now id }
    requires stands { IsSome (node_of layer.now id) }
    ensures right { OnOk result (AreRight layer.now table.new places.new) }
    ensures here { OnOk result (IsSome (place_of places.new id)) }
    ensures keeps { OnOk result (Keeps places.old places.new) }
    ensures grown { Starts table.old table.new }
    ensures only { AddsOnly (IsOfMark layer.now) (values table.old) (values table.new) }
{
    let place = table.add(alloc, shape)?;
    table.is_table();
    places.insert(rank(id), place)?;
    Ok(())
}

/// Gives an annotation a place, if what it names has places, and answers whether it waits for these.
fn try_place(
    alloc: Global,
    layer: &Layer,
    id: AnnId,
    table: &mut Table,
    places: &mut BTreeMap<u64, u32>,
) -> Result<bool, Memory>
    requires right { AreRight layer.now table.old places.old }
    requires built { AreBuilt layer.now }
    ensures right { OnOk result (AreRight layer.now table.new places.new) }
    ensures here { OnOk result ((s : _) → node_of layer.now id ≡ Some s → ((y : _) → Names y s → IsSome (place_of places.old y)) → IsSome (place_of places.new id)) }
    ensures settled { IfOk result (λ waits. waits ≡ false → HasPlace layer.now places.new id) }
    ensures keeps { OnOk result (Keeps places.old places.new) }
    ensures grown { Starts table.old table.new }
    ensures only { AddsOnly (IsOfMark layer.now) (values table.old) (values table.new) }
{
    if place_of(places, id).is_some() {
        return Ok(false);
    }
    let Some(parts) = parts_of(alloc, layer, id)? else {
        return Ok(false);
    };
    let Some(shape) = shape_of(alloc, places, parts)? else {
        return Ok(true);
    };
    if table.is_full() {
        return Err(Memory);
    }
    enter(alloc, layer, id, shape, table, places)?;
    Ok(false)
}

/// Gives a place to each annotation of which all that it names has places, and answers whether another waits.
fn round(
    alloc: Global,
    layer: &Layer,
    ids: &[AnnId],
    table: &mut Table,
    places: &mut BTreeMap<u64, u32>,
) -> Result<bool, Memory>
    requires right { AreRight layer.now table.old places.old }
    requires built { AreBuilt layer.now }
    requires all { ids.now ≡ ids_of layer.now }
    ensures right { OnOk result (AreRight layer.now table.new places.new) }
    ensures deeper { OnOk result ((depth : ℕ) → ArePlaced depth layer.now places.old → ArePlaced (suc depth) layer.now places.new) }
    ensures settled { IfOk result (λ waits. waits ≡ false → (id : AnnId) → HasPlace layer.now places.new id) }
    ensures grown { Starts table.old table.new }
    ensures only { AddsOnly (IsOfMark layer.now) (values table.old) (values table.new) }
{
    let mut waits = false;
    for id in ids {
        let waiting = try_place(alloc, layer, *id, table, places)?;
        if waiting {
            waits = true;
        }
    }
    Ok(waits)
}

/// Gives a place to each annotation that has a content: what names nothing in the first round, and then
/// what names that, until nothing waits.
fn place_all(
    alloc: Global,
    layer: &Layer,
    ids: &[AnnId],
    table: &mut Table,
) -> Result<BTreeMap<u64, u32>, Memory>
    requires built { AreBuilt layer.now }
    requires all { ids.now ≡ ids_of layer.now }
    ensures right { IfOk result (λ places. AreRight layer.now table.new places) }
    ensures all { IfOk result (λ places. ArePlaced 19 layer.now places) }
    ensures grown { Starts table.old table.new }
    ensures only { AddsOnly (IsOfMark layer.now) (values table.old) (values table.new) }
{
    let mut places = BTreeMap::new(alloc);
    for _depth in 0..19u32 {
        let waits = round(alloc, layer, ids, table, &mut places)?;
        if !waits {
            return Ok(places);
        }
    }
    Ok(places)
}

/// The annotations in the order of their IDs, each with its place.
fn listed(
    alloc: Global,
    layer: &Layer,
    ids: &[AnnId],
    places: &BTreeMap<u64, u32>,
    table: &Table,
) -> Result<Vec<Placed>, Memory>
    requires built { AreBuilt layer.now }
    requires keeps { IsLayer layer.now }
    requires all { ids.now ≡ ids_of layer.now }
    requires right { AreRight layer.now table.now places.now }
    requires placed { ArePlaced 19 layer.now places.now }
    ensures contents { IfOk result (λ placed. contents_at (values table.now) placed.items ≡ contents_of layer.now) }
    ensures within { IfOk result (λ placed. All (λ p. p.place < length table.now) placed.items) }
{
    let mut placed = Vec::new(alloc);
    for id in ids {
        if let Some(place) = place_of(places, *id) {
            placed.push(Placed { id: *id, place })?;
        }
    }
    Ok(placed)
}

/// The places of the annotations of a layer that have a content, in their order. The contents that the
/// table lacks are added behind its others. Cost: at most 19 look-ups for each annotation, one where what an
/// annotation names stands before it.
pub(crate) fn placed_in(
    alloc: Global,
    layer: &Layer,
    table: &mut Table,
) -> Result<Vec<Placed>, Memory>
    requires { AreBuilt layer.now }
    ensures contents { IfOk result (λ placed. contents_at (values table.new) placed.items ≡ contents_of layer.now) }
    ensures within { IfOk result (λ placed. All (λ p. p.place < length table.new) placed.items) }
    ensures grown { Starts table.old table.new }
{
    layer.keeps();
    let ids = ids_of(alloc, layer)?;
    let places = place_all(alloc, layer, ids.as_slice(), table)?;
    listed(alloc, layer, ids.as_slice(), &places, table)
}

/// The place of the content of a class.
fn place_class(
    alloc: Global,
    layer: &Layer,
    places: &BTreeMap<u64, u32>,
    class: &Class,
    table: &mut Table,
) -> Result<u32, Memory>
    requires right { AreRight layer.now table.old places.now }
    requires members { (member : AnnId) → IsIn member class.now.members → IsSome (place_of places.now member) }
    ensures right { OnOk result (AreRight layer.now table.new places.now) }
    ensures content { IfOk result (λ place. (place < length table.new) × (slice_index (values table.new) place ≡ class_content (content_of layer.now) class.now)) }
    ensures grown { Starts table.old table.new }
    ensures only { AddsOnly (λ content. content ≡ class_content (content_of layer.now) class.now) (values table.old) (values table.new) }
{
    let parts = class_parts(alloc, class)?;
    let Some(shape) = shape_of(alloc, places, parts)? else {
        unreachable!()
    };
    if table.is_full() {
        return Err(Memory);
    }
    let place = table.add(alloc, shape)?;
    table.is_table();
    Ok(place)
}

/// The places of the classes of a layer, in their order.
fn place_classes(
    alloc: Global,
    layer: &Layer,
    places: &BTreeMap<u64, u32>,
    table: &mut Table,
) -> Result<Vec<u32>, Memory>
    requires whole { IsCoherent layer.now }
    requires right { AreRight layer.now table.old places.now }
    requires placed { ArePlaced 19 layer.now places.now }
    ensures right { OnOk result (AreRight layer.now table.new places.now) }
    ensures contents { IfOk result (λ placed. map (slice_index (values table.new)) placed.items ≡ class_contents_of layer.now) }
    ensures within { IfOk result (λ placed. All (λ place. place < length table.new) placed.items) }
    ensures grown { Starts table.old table.new }
    ensures only { AddsOnly (λ content. IsIn content (class_contents_of layer.now)) (values table.old) (values table.new) }
{
    let mut placed = Vec::new(alloc);
    for class in layer.classes() {
        let place = place_class(alloc, layer, places, class, table)?;
        placed.push(place)?;
    }
    Ok(placed)
}

/// The places of the annotations and classes of a layer. The contents that the table lacks are added behind
/// its others. Cost: as `placed_in`, and a look-up for each class.
pub(crate) fn layer_placed_in(
    alloc: Global,
    layer: &Layer,
    table: &mut Table,
) -> Result<PlacedLayer, Memory>
    requires { IsCoherent layer.now }
    ensures contents { IfOk result (λ placed. contents_at (values table.new) placed.marks.items ≡ contents_of layer.now) }
    ensures classes { IfOk result (λ placed. map (slice_index (values table.new)) placed.classes.items ≡ class_contents_of layer.now) }
    ensures within { IfOk result (λ placed. All (λ p. p.place < length table.new) placed.marks.items) }
    ensures classes_within { IfOk result (λ placed. All (λ place. place < length table.new) placed.classes.items) }
    ensures grown { Starts table.old table.new }
    ensures only { AddsOnly (λ content. IsIn content (map (λ entry. entry.1) (contents_of layer.now) ++ class_contents_of layer.now)) (values table.old) (values table.new) }
{
    layer.keeps();
    let ids = ids_of(alloc, layer)?;
    let places = place_all(alloc, layer, ids.as_slice(), table)?;
    let classes = place_classes(alloc, layer, &places, table)?;
    let marks = listed(alloc, layer, ids.as_slice(), &places, table)?;
    Ok(PlacedLayer { marks, classes })
}
