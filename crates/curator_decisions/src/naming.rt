//! Which items name which.
ghost use Rattle.std.specs.Prelude.{◌≡◌, ◌==◌, ◌<◌, ◌∷◌, ◌++◌, ◌||◌, ◌&&◌, ℕ, List, [], false, length, map, slice_index_or, IfOk};
ghost use Rattle.std.specs.Ordering.{nat_cmp};
ghost use Rattle.std.specs.BTreeMap.{get};
ghost use Rattle.std.specs.BTreeSet.{contains};
ghost use Rattle.std.specs.List.{list_any};
ghost use Rattle.layer_model.specs.Classes.{rank};
ghost use Rattle.layer_model.specs.Coherent.{trigger_id};
ghost use Rattle.unanimous_merge.specs.declared.entry.Entry.{Entry};
ghost use Rattle.curator_decisions.specs.Decisions.{item_rank};
ghost use Rattle.curator_decisions.specs.Naming.{dependent_at, entry_as, has_place, ids_named, is_needed_at, lacked_at, missing_at, named_at, places_of_ids};
ghost use Rattle.curator_decisions.specs.Placing.{AreNames, called, is_in_at};

use crate::decisions::{Decisions, item_rank};
use crate::numbering::is_in;
use content_keys::{Placed, PlacedLayer};
use layer_model::{Event, Layer, Relation, Snapshot, rank};
use mark_base::{AnnId, Kind, Memory};
use std::alloc::Global;
use std::collections::{BTreeMap, BTreeSet};
use unanimous_merge::{Entry, ItemId, Merged};

/// The places of the annotations of a layer, by their ranks.
fn places_of(alloc: Global, marks: &[Placed]) -> Result<BTreeMap<u64, u32>, Memory>
    ensures { IfOk result (λ places. (place : ℕ) → get nat_cmp places place ≡ called (λ at. at) marks.now place) }
{
    let mut places = BTreeMap::new(alloc);
    let mut left = marks.len();
    while left > 0 {
        left -= 1;
        let one = marks[left];
        places.insert(rank(one.id), one.place)?;
    }
    Ok(places)
}

/// The places of the annotations of each layer.
pub(crate) fn all_places(
    alloc: Global,
    rows: &[PlacedLayer],
) -> Result<Vec<BTreeMap<u64, u32>>, Memory>
    ensures { IfOk result (λ all. AreNames (λ at. at) rows.now all.items) }
{
    let mut all = Vec::new(alloc);
    for row in rows {
        let places = places_of(alloc, row.marks.as_slice())?;
        all.push(places)?;
    }
    Ok(all)
}

/// The ID of the span that states an event.
fn trigger_of(event: &Event) -> AnnId
    ensures { result ≡ trigger_id event.now }
{
    AnnId {
        kind: Kind::Text,
        number: event.trigger,
    }
}

/// The IDs that an event names: its trigger, and the targets of its arguments.
fn event_names(alloc: Global, event: &Event) -> Result<Vec<AnnId>, Memory>
    ensures { IfOk result (λ ids. ids.items ≡ trigger_id event.now ∷ map (λ arg. arg.target) event.now.args) }
{
    let mut ids = Vec::new(alloc);
    ids.push(trigger_of(event))?;
    for arg in event.args.items() {
        ids.push(arg.target)?;
    }
    Ok(ids)
}

/// The one ID that an annotation names.
fn one_name(alloc: Global, id: AnnId) -> Result<Vec<AnnId>, Memory>
    ensures { IfOk result (λ ids. ids.items ≡ id ∷ []) }
{
    let mut ids = Vec::new(alloc);
    ids.push(id)?;
    Ok(ids)
}

/// The IDs that a relation names.
fn relation_names(alloc: Global, relation: &Relation) -> Result<Vec<AnnId>, Memory>
    ensures { IfOk result (λ ids. ids.items ≡ relation.now.first ∷ relation.now.second ∷ []) }
{
    let mut ids = Vec::new(alloc);
    ids.push(relation.first)?;
    ids.push(relation.second)?;
    Ok(ids)
}

/// The IDs that the annotation of an ID names. A note names none, since it is no item.
fn named_ids(alloc: Global, layer: &Layer, id: AnnId) -> Result<Vec<AnnId>, Memory>
    ensures { IfOk result (λ ids. ids.items ≡ ids_named layer.now id) }
{
    match id.kind {
        Kind::Event => match layer.event(id.number) {
            Some(event) => event_names(alloc, event),
            None => Ok(Vec::new(alloc)),
        },
        Kind::Relation => match layer.relation(id.number) {
            Some(relation) => relation_names(alloc, relation),
            None => Ok(Vec::new(alloc)),
        },
        Kind::Attribute | Kind::Legacy => match layer.attribute(id) {
            Some(attribute) => one_name(alloc, attribute.target),
            None => Ok(Vec::new(alloc)),
        },
        Kind::Normal => match layer.normal(id.number) {
            Some(normal) => one_name(alloc, normal.target),
            None => Ok(Vec::new(alloc)),
        },
        Kind::Text | Kind::Note => Ok(Vec::new(alloc)),
    }
}

/// The place of an ID.
fn place_of(places: &BTreeMap<u64, u32>, id: AnnId) -> Option<u32>
    ensures { result ≡ get nat_cmp places.now (rank id) }
{
    places.get(&rank(id)).copied()
}

/// The places of IDs, without those that have none.
fn places_of_ids(
    alloc: Global,
    places: &BTreeMap<u64, u32>,
    ids: &[AnnId],
) -> Result<Vec<u32>, Memory>
    ensures { IfOk result (λ out. out.items ≡ places_of_ids places.now ids.now) }
{
    let mut out = Vec::new(alloc);
    for id in ids {
        if let Some(place) = place_of(places, *id) {
            out.push(place)?;
        }
    }
    Ok(out)
}

/// The places that an item names.
pub(crate) fn named_places(
    alloc: Global,
    snapshot: &Snapshot,
    all: &[BTreeMap<u64, u32>],
    entry: Entry,
) -> Result<Vec<u32>, Memory>
    ensures { IfOk result (λ named. named.items ≡ named_at snapshot.now all.now entry) }
{
    let item = entry.item;
    let Some(layer) = snapshot.layer(u32::from(item.holder)) else {
        return Ok(Vec::new(alloc));
    };
    let Some(places) = all.get(item.holder as usize) else {
        return Ok(Vec::new(alloc));
    };
    let ids = named_ids(alloc, layer, item.id)?;
    places_of_ids(alloc, places, ids.as_slice())
}

/// Whether one of the places is this one.
fn has_place(places: &[u32], place: u32) -> bool
    ensures { result ≡ has_place places.now place }
{
    places.iter().any(|one| *one == place)
}

/// The annotation that gives an item its name.
pub(crate) fn entry_as(entries: &[Entry], item: ItemId) -> Option<Entry>
    ensures { result ≡ entry_as entries.now item }
{
    let sought = item_rank(item);
    for entry in entries {
        if item_rank(entry.item) == sought {
            return Some(*entry);
        }
    }
    None
}

/// The places of items among all items.
pub(crate) fn item_ranks(alloc: Global, entries: &[Entry]) -> Result<BTreeSet<u64>, Memory>
    ensures { IfOk result (λ ranks. (rank : ℕ) → contains nat_cmp ranks rank ≡ list_any (λ entry. item_rank entry.item == rank) entries.now) }
{
    let mut ranks = BTreeSet::new(alloc);
    for entry in entries {
        ranks.insert(item_rank(entry.item))?;
    }
    Ok(ranks)
}

/// The lowest item that is named and not in.
pub(crate) fn missing_of(merged: &Merged, decisions: &Decisions, named: &[u32]) -> Option<Entry>
    ensures { result ≡ missing_at (map (λ row. row.items) merged.now.marks.items) decisions.now merged.now.firsts.items named.now }
{
    for other in &merged.firsts {
        if has_place(named, other.place) && !is_in(merged, decisions, *other) {
            return Some(*other);
        }
    }
    None
}

/// The places that each item names.
pub(crate) fn all_named(
    alloc: Global,
    snapshot: &Snapshot,
    all: &[BTreeMap<u64, u32>],
    entries: &[Entry],
) -> Result<Vec<Vec<u32>>, Memory>
    ensures { IfOk result (λ names. map (λ of. of.items) names.items ≡ map (named_at snapshot.now all.now) entries.now) }
{
    let mut names = Vec::new(alloc);
    for entry in entries {
        names.push(named_places(alloc, snapshot, all, *entry)?)?;
    }
    Ok(names)
}

/// Whether an item that names these places is in and names this one.
fn depends(merged: &Merged, named: &[u32], decisions: &Decisions, entry: Entry, place: u32) -> bool
    ensures { result ≡ (is_in_at (map (λ row. row.items) merged.now.marks.items) decisions.now entry && has_place named.now place) }
{
    has_place(named, place) && is_in(merged, decisions, entry)
}

/// The lowest item that is in and names a place, where it is told what each item names.
pub(crate) fn dependent_on(
    merged: &Merged,
    names: &[Vec<u32>],
    decisions: &Decisions,
    place: u32,
) -> Option<Entry>
    requires { length names.now ≡ length merged.now.firsts.items }
    ensures { (named : Entry → List ℕ) → map (λ of. of.items) names.now ≡ map named merged.now.firsts.items → result ≡ dependent_at named (map (λ row. row.items) merged.now.marks.items) decisions.now merged.now.firsts.items place }
{
    for i in 0..merged.firsts.len() {
        let other = merged.firsts[i];
        if depends(merged, names[i].as_slice(), decisions, other, place) {
            return Some(other);
        }
    }
    None
}

/// Flags these places.
fn flag_places(flags: &mut Vec<bool>, places: &[u32])
    ensures long { length flags.new.items ≡ length flags.old.items }
    ensures flagged { (place : ℕ) → place < length flags.old.items → slice_index_or flags.new.items place false ≡ (slice_index_or flags.old.items place false || has_place places.now place) }
{
    for place in places {
        let at = *place as usize;
        if at < flags.len() {
            flags[at] = true;
        }
    }
}

/// Which places the items that are in name.
pub(crate) fn needed_places(
    alloc: Global,
    snapshot: &Snapshot,
    merged: &Merged,
    all: &[BTreeMap<u64, u32>],
    decisions: &Decisions,
) -> Result<Vec<bool>, Memory>
    ensures { IfOk result (λ flags. (place : ℕ) → place < length merged.now.table → slice_index_or flags.items place false ≡ is_needed_at (named_at snapshot.now all.now) (map (λ row. row.items) merged.now.marks.items) decisions.now merged.now.firsts.items place) }
{
    let mut flags: Vec<bool> = vec![in alloc; false; merged.table.count()]?;
    for held in &merged.firsts {
        if is_in(merged, decisions, *held) {
            let named = named_places(alloc, snapshot, all, *held)?;
            flag_places(&mut flags, named.as_slice());
        }
    }
    Ok(flags)
}

/// Whether a place is flagged.
fn is_flagged(flags: &[bool], place: u32) -> bool
    ensures { result ≡ slice_index_or flags.now place false }
{
    let at = place as usize;
    if at < flags.len() { flags[at] } else { false }
}

/// The lowest item that is not in and whose place is flagged.
pub(crate) fn lacked(merged: &Merged, decisions: &Decisions, flags: &[bool]) -> Option<Entry>
    ensures { result ≡ lacked_at flags.now (map (λ row. row.items) merged.now.marks.items) decisions.now merged.now.firsts.items }
{
    for other in &merged.firsts {
        if !is_in(merged, decisions, *other) && is_flagged(flags, other.place) {
            return Some(*other);
        }
    }
    None
}
