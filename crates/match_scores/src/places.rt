//! The annotations of one sort in a layer, by the places of their contents in a table.
ghost use Rattle.std.specs.Prelude.{◌≡◌, ◌<◌, All, IfOk, not, count_by};
ghost use Rattle.match_scores.specs.declared.sort.Sort.{Sort};
ghost use Rattle.match_scores.specs.Matches.{Part};
ghost use Rattle.match_scores.specs.Places.{AreHere, count_places, is_here, places_of};
ghost use Rattle.match_scores.specs.Tallies.{part_of};

use crate::sort::Sort;
use crate::tally::Tally;
use content_keys::Placed;
use mark_base::Memory;
use std::alloc::Global;

/// Places in a table, as a list and as a mark at each.
#[derive(Drop)]
pub(crate) struct Places {
    pub list: Vec<u32>,
    pub here: Vec<bool>,
}

/// Whether a place is marked.
fn is_here(here: &[bool], place: u32) -> bool
    ensures { result ≡ is_here here.now place }
{
    let at = place as usize;
    if at < here.len() { here[at] } else { false }
}

/// The places of the annotations of a sort.
fn listed(alloc: Global, marks: &[Placed], sort: Sort) -> Result<Vec<u32>, Memory>
    ensures { IfOk result (λ places. places.items ≡ places_of sort marks.now) }
{
    let places = marks
        .iter()
        .filter(|mark| sort.has(mark.id.kind))
        .map(|mark| mark.place)
        .collect(alloc)?;
    Ok(places)
}

/// A mark at each of these places.
fn marked(alloc: Global, places: &[u32], count: usize) -> Result<Vec<bool>, Memory>
    requires { All (λ place. place < count) places.now }
    ensures { IfOk result (λ here. AreHere places.now here.items) }
{
    let mut here: Vec<bool> = vec![in alloc; false; count]?;
    for &place in places {
        here[place as usize] = true;
    }
    Ok(here)
}

/// How many of these places are marked.
fn shared(places: &[u32], here: &[bool]) -> u64
    ensures { result ≡ count_by (λ place. is_here here.now place) places.now }
{
    places.iter().filter(|place| is_here(here, **place)).count() as u64
}

/// How many are not.
fn alone(places: &[u32], here: &[bool]) -> u64
    ensures { result ≡ count_by (λ place. not (is_here here.now place)) places.now }
{
    places
        .iter()
        .filter(|place| !is_here(here, **place))
        .count() as u64
}

impl Places {
    /// The places of the annotations of a sort, in a table of so many contents. Cost: the annotations and
    /// the table.
    pub(crate) fn of(
        alloc: Global,
        marks: &[Placed],
        sort: Sort,
        count: usize,
    ) -> Result<Places, Memory>
        requires { All (λ mark. mark.place < count) marks.now }
        ensures list { IfOk result (λ places. places.list.items ≡ places_of sort marks.now) }
        ensures here { IfOk result (λ places. AreHere places.list.items places.here.items) }
    {
        let list = listed(alloc, marks, sort)?;
        let here = marked(alloc, list.as_slice(), count)?;
        Ok(Places { list, here })
    }

    /// What two lists of places have in common. Cost: both lists.
    pub(crate) fn tally(&self, others: &Places) -> Tally
        ensures { (part : Part) → part_of result part ≡ count_places part self.now others.now }
    {
        Tally {
            both: shared(self.list.as_slice(), others.here.as_slice()),
            first_only: alone(self.list.as_slice(), others.here.as_slice()),
            second_only: alone(others.list.as_slice(), self.here.as_slice()),
        }
    }
}
