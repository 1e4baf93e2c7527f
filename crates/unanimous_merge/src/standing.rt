//! Which layer has which content.
ghost use Rattle.std.specs.Prelude.{◌≡◌, ℕ, ◌<◌, ◌≤◌, ◌==◌, Bool, false, length, map, All, IfOk, slice_index_or};
ghost use Rattle.std.specs.List.{list_all, list_any};
ghost use Rattle.unanimous_merge.specs.Items.{number_of_bits};
ghost use Rattle.unanimous_merge.specs.Rows.{having};

use content_keys::{Placed, PlacedLayer};
use mark_base::Memory;
use std::alloc::Global;

/// The places that a layer has, by place.
pub(crate) fn marked_places(
    alloc: Global,
    places: &[u32],
    count: usize,
) -> Result<Vec<bool>, Memory>
    requires { All (λ place. place < count) places.now }
    ensures { IfOk result (λ has. (place : ℕ) → slice_index_or has.items place false ≡ list_any (λ one. one == place) places.now) }
{
    let mut has: Vec<bool> = vec![in alloc; false; count]?;
    for place in places {
        has[*place as usize] = true;
    }
    Ok(has)
}

/// The places of annotations.
fn places_of(alloc: Global, placed: &[Placed]) -> Result<Vec<u32>, Memory>
    ensures { IfOk result (λ places. places.items ≡ map (λ p. p.place) placed.now) }
{
    let mut places = Vec::new(alloc);
    for one in placed {
        places.push(one.place)?;
    }
    Ok(places)
}

/// For each layer the places of its annotations.
pub(crate) fn standing_marks(
    alloc: Global,
    rows: &[PlacedLayer],
    count: usize,
) -> Result<Vec<Vec<bool>>, Memory>
    requires { All (λ row. All (λ p. p.place < count) row.marks.items) rows.now }
    ensures { IfOk result (λ standing. (place : ℕ) → having place (map (λ row. row.items) standing.items) ≡ map (λ row. list_any (λ p. p.place == place) row.marks.items) rows.now) }
{
    let mut standing = Vec::new(alloc);
    for row in rows {
        let places = places_of(alloc, row.marks.as_slice())?;
        let has = marked_places(alloc, places.as_slice(), count)?;
        standing.push(has)?;
    }
    Ok(standing)
}

/// For each layer the places of its classes.
pub(crate) fn standing_classes(
    alloc: Global,
    rows: &[PlacedLayer],
    count: usize,
) -> Result<Vec<Vec<bool>>, Memory>
    requires { All (λ row. All (λ place. place < count) row.classes.items) rows.now }
    ensures { IfOk result (λ standing. (place : ℕ) → having place (map (λ row. row.items) standing.items) ≡ map (λ row. list_any (λ one. one == place) row.classes.items) rows.now) }
{
    let mut standing = Vec::new(alloc);
    for row in rows {
        let has = marked_places(alloc, row.classes.as_slice(), count)?;
        standing.push(has)?;
    }
    Ok(standing)
}

/// Whether a layer has a place.
fn has_place(row: &[bool], place: u32) -> bool
    ensures { result ≡ slice_index_or row.now place false }
{
    let at = place as usize;
    if at < row.len() { row[at] } else { false }
}

/// Whether each layer has a place. Cost: the layers.
pub(crate) fn in_each(rows: &[Vec<bool>], place: u32) -> bool
    ensures { result ≡ list_all (λ one. one) (having place (map (λ row. row.items) rows.now)) }
{
    for row in rows {
        if !has_place(row.as_slice(), place) {
            return false;
        }
    }
    true
}

/// The layers that have a place, a bit each, the lowest for the first. Cost: the layers.
pub(crate) fn holders_of(rows: &[Vec<bool>], place: u32) -> u16
    requires { length rows.now ≤ 16 }
    ensures { result ≡ number_of_bits (having place (map (λ row. row.items) rows.now)) }
{
    let mut holders: u32 = 0;
    let mut left = rows.len();
    while left > 0 {
        left -= 1;
        holders = 2 * holders + u32::from(has_place(rows[left].as_slice(), place));
    }
    holders as u16
}
