//! The places of the types and relation types that alternatives hold.
ghost use Rattle.std.specs.Prelude.{◌≡◌, ◌≤◌, ◌<◌, [], length, map, take, IfOk, OnOk};
ghost use Rattle.std.specs.Option.{option_map_or};
ghost use Rattle.conf_model.specs.ConfNames.{all_held, macro_named};
ghost use Rattle.annotation_conf.specs.FileShows.{seen_alternative};
ghost use Rattle.annotation_conf.specs.BuildPlaces.{names_in, place_in, IsTable, places_held, AreFirstPlaces, places_by, inserted};

use crate::faults_macros::built_in;
use crate::names_by_sort::KnownNames;
use crate::pieces::Alternative;
use conf_model::Places;
use mark_base::Memory;
use std::alloc::Global;
use std::collections::BTreeSet;

/// A table of names.
#[derive(Clone, Copy, Debug, PartialEq, Eq)]
pub enum Table {
    /// Of entity and event types.
    Types,
    /// Of relation types.
    Relations,
}

/// The place of a name in a table.
fn find_place(known: &KnownNames, table: Table, name: &str) -> Option<usize>
    requires { length (names_in known.now table) ≤ 256 }
    ensures { result ≡ place_in (names_in known.now table) name.now }
{
    match table {
        Table::Types => known.type_place(name),
        Table::Relations => known.relation_place(name),
    }
}

/// The place of a name in a table.
fn place_in(known: &KnownNames, table: Table, name: &str) -> Option<u16>
    requires { length (names_in known.now table) ≤ 256 }
    ensures { result ≡ place_in (names_in known.now table) name.now }
{
    let place = find_place(known, table, name)?;
    Some(place as u16)
}

/// Puts places into a set.
fn insert_all(set: &mut BTreeSet<u16>, places: &[u16]) -> Result<(), Memory>
    ensures { OnOk result (set.new.keys ≡ inserted set.old.keys places.now) }
{
    for place in places {
        set.insert(*place)?;
    }
    Ok(())
}

/// The places that a macro holds, where it is one of the first whose places these are.
fn macro_places<'b>(known: &KnownNames, table: Table, lists: &'b [Places], name: &str) -> &'b [u16]
    requires { AreFirstPlaces known.now table lists.now }
    ensures { result.now ≡ option_map_or (places_held known.now table) (macro_named (take (length lists.now) known.now.macros) name.now) [] }
{
    if built_in(name).is_some() {
        return &[];
    }
    match known.first_macro(name) {
        Some(place) => {
            if place < lists.len() {
                lists[place].items()
            } else {
                &[]
            }
        }
        None => &[],
    }
}

/// Puts the places that an alternative holds into a set.
fn insert_held(
    known: &KnownNames,
    table: Table,
    lists: &[Places],
    one: &Alternative,
    set: &mut BTreeSet<u16>,
) -> Result<(), Memory>
    requires table { IsTable (names_in known.now table) }
    requires first { AreFirstPlaces known.now table lists.now }
    ensures { OnOk result (set.new.keys ≡ inserted set.old.keys (places_by known.now table (length lists.now) (seen_alternative one.now))) }
{
    match one {
        Alternative::Named(name) => {
            if let Some(place) = place_in(known, table, name.text()) {
                set.insert(place)?;
            }
            Ok(())
        }
        Alternative::Held(name) => {
            insert_all(set, macro_places(known, table, lists, name.text()))
        }
    }
}

/// The places that alternatives hold, in their order. Cost: what they name, times the logarithm of the
/// size of the table.
pub fn gather_places(
    alloc: Global,
    known: &KnownNames,
    table: Table,
    lists: &[Places],
    alternatives: &[Alternative],
) -> Result<Places, Memory>
    requires table { IsTable (names_in known.now table) }
    requires first { AreFirstPlaces known.now table lists.now }
    ensures { IfOk result (λ places. places ≡ places_held known.now table (all_held (take (length lists.now) known.now.macros) (map seen_alternative alternatives.now))) }
{
    let mut set = BTreeSet::new(alloc);
    for one in alternatives {
        insert_held(known, table, lists, one, &mut set)?;
    }
    Ok(Places::from_vec(set.into_iter().collect(alloc)?))
}

/// The places that each macro of a file holds.
pub fn macro_lists(alloc: Global, known: &KnownNames, table: Table) -> Result<Vec<Places>, Memory>
    requires { IsTable (names_in known.now table) }
    ensures { IfOk result (λ lists. lists.items ≡ map (λ macro. places_held known.now table macro.holding) known.now.macros) }
{
    let mut lists = Vec::new(alloc);
    for line in &known.file().macros {
        let places = gather_places(alloc, known, table, &lists, &line.alternatives)?;
        lists.push(places)?;
    }
    Ok(lists)
}
