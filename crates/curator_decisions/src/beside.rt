//! Whether an item can be beside the others that are in.
ghost use Rattle.std.specs.Prelude.{◌≡◌, ◌≤◌, ◌<◌, ◌==◌, ◌&&◌, true, false, count_by, length, map, All};
ghost use Rattle.mark_base.specs.declared.ann_id.Kind.TheVariants as letter;
ghost use Rattle.layer_model.specs.declared.mark.Mark.TheVariants as marked;
ghost use Rattle.layer_model.specs.Classes.{letter_place};
ghost use Rattle.layer_rules.specs.LayerRules.{refused_overlap};
ghost use Rattle.unanimous_merge.specs.Readings.{readings};
ghost use Rattle.unanimous_merge.specs.Rows.{held_at};
ghost use Rattle.curator_decisions.specs.Clashes.{AreApart, StandsBeside, clash};
ghost use Rattle.curator_decisions.specs.Comparisons.{IsComparison};
ghost use Rattle.curator_decisions.specs.Decisions.{items_in};
ghost use Rattle.curator_decisions.specs.Placing.{is_in_at, letter_of_entry, may_be_one, place_in};

use crate::comparison::Comparison;
use crate::decisions::{Decisions, item_rank};
use crate::numbering::{curated_letter, is_in};
use conf_model::Conf;
use layer_model::{Attribute, Snapshot, Span, letter_place, rank};
use mark_base::{AnnId, Kind};
use overlap_rules::{are_ascending, kind_of};
use std::collections::BTreeMap;
use unanimous_merge::{Entry, Merged};

/// Whether the configuration may refuse how a span lies to a later one.
fn may_refuse(conf: &Conf, span: &Span, later: &Span) -> bool
    ensures { result ≡ false → refused_overlap conf.now (marked.Span later.now) (marked.Span span.now) ≡ false }
{
    let (frags, others) = (span.frags.items(), later.frags.items());
    if !are_ascending(frags) || !are_ascending(others) {
        return true;
    }
    !conf.overlap_allowed(span.kind, later.kind, kind_of(frags, others))
}

/// Whether two spans may clash.
fn spans_may_clash(
    snapshot: &Snapshot,
    table: &Merged,
    conf: &Conf,
    one: Entry,
    later: Entry,
) -> bool
    requires span { one.item.id.kind ≡ letter.Text }
    requires other { later.item.id.kind ≡ letter.Text }
    ensures { result ≡ false → clash conf.now (readings snapshot.now) (held_at table.now.table one) (held_at table.now.table later) ≡ false }
{
    let Some(layer) = snapshot.layer(u32::from(one.item.holder)) else {
        return false;
    };
    let Some(others) = snapshot.layer(u32::from(later.item.holder)) else {
        return false;
    };
    let Some(span) = layer.span(one.item.id.number) else {
        return false;
    };
    let Some(other) = others.span(later.item.id.number) else {
        return false;
    };
    may_refuse(conf, span, other)
}

/// The place of the content of an ID of a holder.
fn place_in(places: &[BTreeMap<u64, u32>], holder: u8, id: AnnId) -> Option<u32>
    ensures { result ≡ place_in places.now holder id }
{
    let of = places.get(holder as usize)?;
    of.get(&rank(id)).copied()
}

/// Whether two attributes may be of one type on one annotation.
fn may_be_rivals(
    comparison: &Comparison,
    one: Entry,
    attribute: &Attribute,
    later: Entry,
    other: &Attribute,
) -> bool
    ensures { result ≡ false → (attribute.now.kind.n == other.now.kind.n && may_be_one (place_in comparison.now.places.items one.item.holder attribute.now.target) (place_in comparison.now.places.items later.item.holder other.now.target)) ≡ false }
{
    if attribute.kind != other.kind {
        return false;
    }
    let places = comparison.places.as_slice();
    match (
        place_in(places, one.item.holder, attribute.target),
        place_in(places, later.item.holder, other.target),
    ) {
        (Some(place), Some(at)) => place == at,
        _ => true,
    }
}

/// Whether two items may clash that are not both spans: only attributes can.
fn attributes_may_clash(
    snapshot: &Snapshot,
    comparison: &Comparison,
    conf: &Conf,
    one: Entry,
    later: Entry,
) -> bool
    requires compared { IsComparison comparison.now snapshot.now }
    requires other { one.item.id.kind ≡ letter.Text → later.item.id.kind ≡ letter.Text → ⊥ }
    ensures { result ≡ false → clash conf.now (readings snapshot.now) (held_at comparison.now.merged.table one) (held_at comparison.now.merged.table later) ≡ false }
{
    let Some(layer) = snapshot.layer(u32::from(one.item.holder)) else {
        return false;
    };
    let Some(others) = snapshot.layer(u32::from(later.item.holder)) else {
        return false;
    };
    let Some(attribute) = layer.attribute(one.item.id) else {
        return false;
    };
    let Some(other) = others.attribute(later.item.id) else {
        return false;
    };
    may_be_rivals(comparison, one, attribute, later, other)
}

/// Whether two items may clash, of which the first comes before the other.
fn may_clash(
    snapshot: &Snapshot,
    comparison: &Comparison,
    conf: &Conf,
    one: Entry,
    later: Entry,
) -> bool
    requires { IsComparison comparison.now snapshot.now }
    ensures { result ≡ false → clash conf.now (readings snapshot.now) (held_at comparison.now.merged.table one) (held_at comparison.now.merged.table later) ≡ false }
{
    if one.item.id.kind == Kind::Text && later.item.id.kind == Kind::Text {
        spans_may_clash(snapshot, &comparison.merged, conf, one, later)
    } else {
        attributes_may_clash(snapshot, comparison, conf, one, later)
    }
}

/// Whether it is soon told that two items do not clash, whichever comes first.
fn are_apart(
    snapshot: &Snapshot,
    comparison: &Comparison,
    conf: &Conf,
    one: Entry,
    other: Entry,
) -> bool
    requires { IsComparison comparison.now snapshot.now }
    ensures { result ≡ true → AreApart conf.now (readings snapshot.now) (held_at comparison.now.merged.table one) (held_at comparison.now.merged.table other) }
{
    let (rank, place) = (item_rank(one.item), item_rank(other.item));
    if rank < place {
        !may_clash(snapshot, comparison, conf, one, other)
    } else if place < rank {
        !may_clash(snapshot, comparison, conf, other, one)
    } else {
        true
    }
}

/// Whether it is soon told that an item clashes with none that is in.
fn clashes_with_none(
    snapshot: &Snapshot,
    comparison: &Comparison,
    conf: &Conf,
    decisions: &Decisions,
    entry: Entry,
) -> bool
    requires { IsComparison comparison.now snapshot.now }
    ensures { result ≡ true → All (λ other. is_in_at (map (λ row. row.items) comparison.now.merged.marks.items) decisions.now other ≡ true → AreApart conf.now (readings snapshot.now) (held_at comparison.now.merged.table entry) (held_at comparison.now.merged.table other)) comparison.now.merged.firsts.items }
{
    for other in &comparison.merged.firsts {
        if !are_apart(snapshot, comparison, conf, entry, *other)
            && is_in(&comparison.merged, decisions, *other)
        {
            return false;
        }
    }
    true
}

/// Whether an item is in and of the letter of this place.
fn counts(merged: &Merged, decisions: &Decisions, place: u8, entry: Entry) -> bool
    ensures { result ≡ (letter_place (letter_of_entry entry) == place && is_in_at (map (λ row. row.items) merged.now.marks.items) decisions.now entry) }
{
    letter_place(curated_letter(entry.item.id.kind)) == place && is_in(merged, decisions, entry)
}

/// How many items of the letter of an item are in.
fn count_beside(merged: &Merged, decisions: &Decisions, entry: Entry) -> usize
    ensures { result ≡ count_by (λ other. letter_place (letter_of_entry other) == letter_place (letter_of_entry entry) && is_in_at (map (λ row. row.items) merged.now.marks.items) decisions.now other) merged.now.firsts.items }
{
    let place = letter_place(curated_letter(entry.item.id.kind));
    merged
        .firsts
        .iter()
        .filter(|other| counts(merged, decisions, place, **other))
        .count()
}

/// How many items of the letter of an item there are.
fn count_alike(merged: &Merged, entry: Entry) -> usize
    ensures { result ≡ count_by (λ other. letter_place (letter_of_entry other) == letter_place (letter_of_entry entry)) merged.now.firsts.items }
{
    let place = letter_place(curated_letter(entry.item.id.kind));
    merged
        .firsts
        .iter()
        .filter(|other| letter_place(curated_letter(other.item.id.kind)) == place)
        .count()
}

/// Whether at most 10,000 items of the letter of an item are in. Those that are in are counted only where there are more.
fn has_room(merged: &Merged, decisions: &Decisions, entry: Entry) -> bool
    ensures { result ≡ true → count_by (λ other. letter_place (letter_of_entry other) == letter_place (letter_of_entry entry) && is_in_at (map (λ row. row.items) merged.now.marks.items) decisions.now other) merged.now.firsts.items ≤ 10000 }
{
    count_alike(merged, entry) <= 10_000 || count_beside(merged, decisions, entry) <= 10_000
}

/// Whether it is soon told that an item can be beside the others that are in. Cost: the items, of which spans and
/// attributes are looked up.
pub(crate) fn stands_beside(
    snapshot: &Snapshot,
    comparison: &Comparison,
    conf: &Conf,
    decisions: &Decisions,
    entry: Entry,
) -> bool
    requires { IsComparison comparison.now snapshot.now }
    ensures { result ≡ true → StandsBeside conf.now (readings snapshot.now) (items_in (readings snapshot.now) decisions.now) (held_at comparison.now.merged.table entry) }
{
    clashes_with_none(snapshot, comparison, conf, decisions, entry)
        && has_room(&comparison.merged, decisions, entry)
}
