//! The tree of types.
ghost use Rattle.std.specs.Prelude.{◌≡◌, ◌<◌, ◌≤◌, length, slice_get, vec_len, IfOk, IfErr, OnOk, None, nat_le, false, count_by};
ghost use Rattle.std.specs.Option.{option_copied, option_map_or};
ghost use Rattle.type_hierarchy.specs.TypeTrees.{climbs, depth_by, depth_of, is_under, type_named};
ghost use Rattle.type_hierarchy.specs.TypeFaults.{are_too_many, bad_parent, fault_of, name_twice, IsNameRefusal, IsRefusal};
ghost use Rattle.type_hierarchy.specs.Indexed.{FindsNames, ParentsBefore};

use crate::{TypeRow, TypesFault};
use mark_base::{Name, TypeId};
use std::alloc::Global;
use std::collections::BTreeMap;
use std::marker::Model;

/// The rows of the largest tree.
const MOST_TYPES: usize = 256;

/// The types that annotations may have, in a tree that has the most of them.
pub const MOST_USABLE: usize = 63;

/// A tree of at most 256 types. Contracts see it as the list of its rows.
#[derive(Drop)]
pub struct Types {
    rows: Vec<TypeRow>,
    places: BTreeMap<Name, u16>,
}

impl Model for Types {
    ghost use Rattle.std.specs.Prelude.{List};
    ghost use Rattle.type_hierarchy.specs.declared.type_row.TypeRow.{TypeRow};
    ghost use Rattle.type_hierarchy.specs.Indexed.{IsIndexed};

    ghost Value = { List TypeRow };

    ghost view = { λ types. types.rows.items };

    ghost invariant = { λ types. IsIndexed types.rows.items types.places };
}

/// The places of the names, each of which stands once.
fn gather_names(alloc: Global, rows: &[TypeRow]) -> Result<BTreeMap<Name, u16>, TypesFault>
    requires { length rows.now ≤ 65536 }
    ensures finds { IfOk result (FindsNames rows.now) }
    ensures once { OnOk result (name_twice rows.now ≡ None) }
    ensures refused { IfErr result (IsNameRefusal rows.now) }
{
    let mut places = BTreeMap::new(alloc);
    for (place, row) in rows.iter().enumerate() {
        if places.contains_key(&row.name) {
            return Err(TypesFault::NameTwice(place as u16));
        }
        places.insert(row.name.copy()?, place as u16)?;
    }
    Ok(places)
}

/// Whether the parent of a row does not stand before this place.
fn is_misplaced(row: &TypeRow, place: usize) -> bool
    ensures { result ≡ option_map_or (λ parent. nat_le place parent.n) row.now.parent false }
{
    match row.parent {
        Some(parent) => place <= usize::from(parent.n),
        None => false,
    }
}

/// The first row whose parent does not stand before it.
fn bad_parent(rows: &[TypeRow]) -> Option<u16>
    requires { length rows.now ≤ 65536 }
    ensures { result ≡ bad_parent rows.now }
{
    for (place, row) in rows.iter().enumerate() {
        if is_misplaced(row, place) {
            return Some(place as u16);
        }
    }
    None
}

/// Whether there are more rows than a tree has, or more usable ones.
fn are_too_many(rows: &[TypeRow]) -> bool
    ensures { result ≡ are_too_many rows.now }
{
    rows.len() > MOST_TYPES || rows.iter().filter(|row| row.usable).count() > MOST_USABLE
}

/// Whether a type is another or a descendant of it.
fn climbs(rows: &[TypeRow], low: u16, high: u16) -> bool
    requires parents { ParentsBefore rows.now }
    requires within { low < length rows.now }
    ensures { result ≡ climbs low rows.now low high }
{
    if low == high {
        return true;
    }
    match rows[usize::from(low)].parent {
        Some(parent) => climbs(rows, parent.n, high),
        None => false,
    }
}

/// How many ancestors a type has.
fn ancestors(rows: &[TypeRow], place: u16) -> u16
    requires parents { ParentsBefore rows.now }
    requires within { place < length rows.now }
    ensures value { result ≡ depth_by place rows.now place }
    ensures few { result ≤ place }
{
    match rows[usize::from(place)].parent {
        Some(parent) => ancestors(rows, parent.n) + 1,
        None => 0,
    }
}

impl Types {
    /// The tree of these rows, of which there are at most 65,536. Cost: their number times its
    /// logarithm.
    pub fn new(alloc: Global, rows: Vec<TypeRow>) -> Result<Types, TypesFault>
        requires { vec_len rows ≤ 65536 }
        ensures rows { IfOk result (λ types. types ≡ rows.items) }
        ensures accepted { OnOk result (fault_of rows.items ≡ None) }
        ensures refused { IfErr result (IsRefusal rows.items) }
    {
        let places = gather_names(alloc, &rows)?;
        if let Some(place) = bad_parent(&rows) {
            return Err(TypesFault::BadParent(place));
        }
        if are_too_many(&rows) {
            return Err(TypesFault::TooMany);
        }
        Ok(Types { rows, places })
    }

    /// The type of a name, or `None` where no row has it. Cost: the logarithm of the number of types.
    pub fn find(&self, name: &Name) -> Option<TypeId>
        ensures { result ≡ type_named self.now name.now }
    {
        match self.places.get(name) {
            Some(place) => Some(TypeId { n: *place }),
            None => None,
        }
    }

    /// The row of a type, or `None` where the ID is out of range.
    pub fn row(&self, id: TypeId) -> Option<&TypeRow>
        ensures { option_copied result ≡ slice_get self.now id.n }
    {
        self.rows.get(usize::from(id.n))
    }

    /// The rows of the types, in the order of their IDs.
    #[tactic(auto, using(crate::proofs::FaultLemmas::usable_few))]
    pub fn rows(&self) -> &[TypeRow]
        ensures value { result.now ≡ self.now }
        ensures few_usable { count_by (λ row. row.usable) self.now ≤ 63 }
    {
        self.rows.as_slice()
    }

    /// How many types there are, at most 256.
    pub fn count(&self) -> u16
        ensures value { result ≡ length self.now }
        ensures bound { length self.now ≤ 256 }
        ensures sound { fault_of self.now ≡ None }
    {
        self.rows.len() as u16
    }

    /// Whether the first type is the second or a descendant of it. IDs out of range give false.
    /// Cost: the depth of the tree.
    pub fn under(&self, low: TypeId, high: TypeId) -> bool
        ensures { result ≡ is_under self.now low high }
    {
        let rows = self.rows.as_slice();
        usize::from(low.n) < rows.len() && climbs(rows, low.n, high.n)
    }

    /// How many ancestors a type has, or `None` where the ID is out of range. Cost: the depth of the
    /// tree.
    pub fn depth(&self, id: TypeId) -> Option<u8>
        ensures { result ≡ depth_of self.now id }
    {
        let rows = self.rows.as_slice();
        if usize::from(id.n) < rows.len() {
            Some(ancestors(rows, id.n) as u8)
        } else {
            None
        }
    }
}
