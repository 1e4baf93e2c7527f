//! Types at a level of their tree.
ghost use Rattle.std.specs.Prelude.{◌≡◌, ◌≤◌, ◌==◌, IfOk, false, length, slice_get};
ghost use Rattle.std.specs.Option.{option_map_or};
ghost use Rattle.std.specs.List.{filter, list_any, range_with_len};
ghost use Rattle.label_tracks.specs.Levels.{ancestor, group_number, heads, rolled, rolled_types};

use mark_base::{Memory, TypeId};
use std::alloc::Global;
use type_hierarchy::{TypeRow, Types};

/// The type that stands so many steps above another, or the topmost where there are fewer. A type out
/// of range stands alone.
fn ancestor(types: &Types, place: u16, steps: u8) -> u16
    ensures { result ≡ ancestor steps types.now place }
{
    if steps == 0 {
        return place;
    }
    match types.row(TypeId { n: place }) {
        Some(row) => match row.parent {
            Some(parent) => ancestor(types, parent.n, steps - 1),
            None => place,
        },
        None => place,
    }
}

/// The type that a type counts as at a level.
#[tactic(auto, unfolding(crate::specs::Levels::rolled))]
pub(crate) fn rolled(types: &Types, place: u16, level: u8) -> u16
    ensures { result ≡ rolled types.now level place }
{
    let depth = types.depth(TypeId { n: place }).unwrap_or(0);
    ancestor(types, place, depth.saturating_sub(level))
}

/// Whether annotations may have a type.
fn is_usable(rows: &[TypeRow], place: u16) -> bool
    ensures { result ≡ option_map_or (λ row. row.usable) (slice_get rows.now place) false }
{
    match rows.get(usize::from(place)) {
        Some(row) => row.usable,
        None => false,
    }
}

/// The types that the usable types count as, in the order of the usable types. There are at most 63.
fn rolled_types(alloc: Global, types: &Types, level: u8) -> Result<Vec<u16>, Memory>
    ensures rolled { IfOk result (λ rolled. rolled.items ≡ rolled_types types.now level) }
    ensures few { IfOk result (λ rolled. length rolled.items ≤ 63) }
{
    let rows = types.rows();
    let mut all = Vec::new(alloc);
    for place in 0..types.count() {
        if is_usable(rows, place) {
            all.push(rolled(types, place, level))?;
        }
    }
    Ok(all)
}

/// The places, of so many, that stand among others.
fn places_among(alloc: Global, count: u16, others: &[u16]) -> Result<Vec<u16>, Memory>
    ensures { IfOk result (λ found. found.items ≡ filter (λ place. list_any (λ other. other == place) others.now) (range_with_len 0 count)) }
{
    let found = (0..count)
        .filter(|place| others.contains(place))
        .collect(alloc)?;
    Ok(found)
}

/// The different types that the usable types count as, in the order of the types. There are at most 63.
pub(crate) fn heads(alloc: Global, types: &Types, level: u8) -> Result<Vec<u16>, Memory>
    ensures heads { IfOk result (λ found. found.items ≡ heads types.now level) }
    ensures few { IfOk result (λ found. length found.items ≤ 63) }
{
    let rolled = rolled_types(alloc, types, level)?;
    let found = places_among(alloc, types.count(), rolled.as_slice())?;
    Ok(found)
}

/// The number of a head, from 1.
pub(crate) fn group_number(heads: &[u16], head: u16) -> u8
    requires { length heads.now ≤ 63 }
    ensures { result ≡ group_number heads.now head }
{
    heads.iter().filter(|other| **other <= head).count() as u8
}
