//! Annotations with the IDs of the curated layer in place of those that they name.
ghost use Rattle.std.specs.Prelude.{◌≡◌, ℕ, map, None, option_map, slice_index_or, true, IfOk, IfSome};
ghost use Rattle.std.specs.Ordering.{nat_cmp};
ghost use Rattle.std.specs.BTreeMap.{get};
ghost use Rattle.layer_model.specs.Layers.{is_of_kind, mark_at};
ghost use Rattle.curator_decisions.specs.Curated.{all_new, curated_letter, renamed, renamed_arg, renamed_event};
ghost use Rattle.curator_decisions.specs.Placing.{AreNames, called, new_of, rename_by};

use content_keys::{Placed, PlacedLayer};
use layer_model::{Attribute, Event, Layer, Mark, Normal, Note, Relation, rank};
use mark_base::{AnnId, Arg, ArgList, IdList, Kind, Memory};
use std::alloc::Global;
use std::collections::BTreeMap;

/// The new ID of the item of a place.
fn id_at_place(ids: &[Option<AnnId>], place: u32) -> Option<AnnId>
    ensures { result ≡ slice_index_or ids.now place None }
{
    let at = place as usize;
    if at < ids.len() { ids[at] } else { None }
}

/// The new IDs of the annotations of a layer, by their ranks.
fn names_of(
    alloc: Global,
    marks: &[Placed],
    ids: &[Option<AnnId>],
) -> Result<BTreeMap<u64, Option<AnnId>>, Memory>
    ensures { IfOk result (λ names. (place : ℕ) → get nat_cmp names place ≡ called (λ at. slice_index_or ids.now at None) marks.now place) }
{
    let mut names = BTreeMap::new(alloc);
    let mut left = marks.len();
    while left > 0 {
        left -= 1;
        let one = marks[left];
        let new = id_at_place(ids, one.place);
        names.insert(rank(one.id), new)?;
    }
    Ok(names)
}

/// The new IDs of the annotations of each layer.
pub(crate) fn all_names(
    alloc: Global,
    rows: &[PlacedLayer],
    ids: &[Option<AnnId>],
) -> Result<Vec<BTreeMap<u64, Option<AnnId>>>, Memory>
    ensures { IfOk result (λ all. AreNames (λ at. slice_index_or ids.now at None) rows.now all.items) }
{
    let mut all = Vec::new(alloc);
    for row in rows {
        let names = names_of(alloc, row.marks.as_slice(), ids)?;
        all.push(names)?;
    }
    Ok(all)
}

/// The new ID of an ID. Cost: as the look-up of an ordered map.
pub(crate) fn new_of(names: &BTreeMap<u64, Option<AnnId>>, id: AnnId) -> Option<AnnId>
    ensures { result ≡ new_of names.now id }
{
    match names.get(&rank(id)) {
        Some(new) => *new,
        None => None,
    }
}

/// The new ID of an ID, which stays where there is none.
fn rename(names: &BTreeMap<u64, Option<AnnId>>, id: AnnId) -> AnnId
    ensures { result ≡ rename_by names.now id }
{
    match new_of(names, id) {
        Some(new) => new,
        None => id,
    }
}

/// The new IDs of the members of a class, if all have one.
pub(crate) fn all_new(
    alloc: Global,
    names: &BTreeMap<u64, Option<AnnId>>,
    members: &[AnnId],
) -> Result<Option<Vec<AnnId>>, Memory>
    ensures { IfOk result (λ o. option_map (λ v. v.items) o ≡ all_new (new_of names.now) members.now) }
{
    let mut out = Vec::new(alloc);
    for id in members {
        match new_of(names, *id) {
            Some(new) => out.push(new)?,
            None => return Ok(None),
        }
    }
    Ok(Some(out))
}

/// Arguments with the new IDs.
fn renamed_args(
    alloc: Global,
    names: &BTreeMap<u64, Option<AnnId>>,
    args: &[Arg],
) -> Result<Vec<Arg>, Memory>
    ensures { IfOk result (λ out. out.items ≡ map (renamed_arg (rename_by names.now)) args.now) }
{
    let mut out = Vec::new(alloc);
    for arg in args {
        out.push(Arg {
            role: arg.role,
            target: rename(names, arg.target),
        })?;
    }
    Ok(out)
}

/// An event with the new IDs.
fn renamed_event(
    alloc: Global,
    names: &BTreeMap<u64, Option<AnnId>>,
    event: &Event,
) -> Result<Event, Memory>
    ensures { IfOk result (λ out. out ≡ renamed_event (rename_by names.now) event.now) }
{
    let trigger = rename(
        names,
        AnnId {
            kind: Kind::Text,
            number: event.trigger,
        },
    );
    let args = renamed_args(alloc, names, event.args.items())?;
    Ok(Event {
        kind: event.kind,
        trigger: trigger.number,
        args: ArgList::from_vec(args),
    })
}

/// A relation with the new IDs.
fn renamed_relation(names: &BTreeMap<u64, Option<AnnId>>, relation: Relation) -> Relation
    ensures { result ≡ record relation { first = rename_by names.now relation.first; second = rename_by names.now relation.second } }
{
    Relation {
        kind: relation.kind,
        first: rename(names, relation.first),
        second: rename(names, relation.second),
    }
}

/// An attribute with the new ID of its target.
fn renamed_attribute(names: &BTreeMap<u64, Option<AnnId>>, attribute: Attribute) -> Attribute
    ensures { result ≡ record attribute { target = rename_by names.now attribute.target } }
{
    Attribute {
        kind: attribute.kind,
        target: rename(names, attribute.target),
        value: attribute.value,
    }
}

/// A normalization with the new ID of its target.
fn renamed_normal(names: &BTreeMap<u64, Option<AnnId>>, normal: &Normal) -> Result<Normal, Memory>
    ensures { IfOk result (λ out. out ≡ record normal.now { target = rename_by names.now normal.now.target }) }
{
    let mut out = normal.clone()?;
    out.target = rename(names, normal.target);
    Ok(out)
}

/// A note with the new ID of its target.
fn renamed_note(names: &BTreeMap<u64, Option<AnnId>>, note: &Note) -> Result<Note, Memory>
    ensures { IfOk result (λ out. out ≡ record note.now { target = rename_by names.now note.now.target }) }
{
    let mut out = note.clone()?;
    out.target = rename(names, note.target);
    Ok(out)
}

/// The annotation of an ID with the new IDs in place of those that it names.
pub(crate) fn renamed_mark(
    alloc: Global,
    names: &BTreeMap<u64, Option<AnnId>>,
    layer: &Layer,
    id: AnnId,
) -> Result<Option<Mark>, Memory>
    ensures mark { IfOk result (λ mark. mark ≡ option_map (renamed (rename_by names.now)) (mark_at layer.now id)) }
    ensures fits { IfOk result (λ mark. IfSome mark (λ one. is_of_kind (curated_letter id.kind) one ≡ true)) }
{
    let mark = match id.kind {
        Kind::Text => match layer.span(id.number) {
            Some(span) => Mark::Span(span.clone()?),
            None => return Ok(None),
        },
        Kind::Event => match layer.event(id.number) {
            Some(event) => Mark::Event(renamed_event(alloc, names, event)?),
            None => return Ok(None),
        },
        Kind::Relation => match layer.relation(id.number) {
            Some(relation) => Mark::Relation(renamed_relation(names, *relation)),
            None => return Ok(None),
        },
        Kind::Attribute | Kind::Legacy => match layer.attribute(id) {
            Some(attribute) => Mark::Attribute(renamed_attribute(names, *attribute)),
            None => return Ok(None),
        },
        Kind::Normal => match layer.normal(id.number) {
            Some(normal) => Mark::Normal(renamed_normal(names, normal)?),
            None => return Ok(None),
        },
        Kind::Note => match layer.note(id.number) {
            Some(note) => Mark::Note(renamed_note(names, note)?),
            None => return Ok(None),
        },
    };
    Ok(Some(mark))
}
