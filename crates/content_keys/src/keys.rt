//! The contents of a layer.
ghost use Rattle.std.specs.Prelude.{◌≡◌, ℕ, ◌<◌, All, IfOk, None, map, slice_index_or};
ghost use Rattle.mark_base.specs.declared.ann_id.AnnId.{AnnId};
ghost use Rattle.layer_model.specs.Coherent.{IsCoherent};
ghost use Rattle.content_keys.specs.Counterparts.{counterpart_among, counterpart_in, counterparts_in};
ghost use Rattle.content_keys.specs.Founds.{first_at, found_at, pair_of};
ghost use Rattle.content_keys.specs.LayerContents.{contents_of};

use crate::carrying::move_at;
use crate::counterparts::{Counterparts, Found};
use crate::placed_layer::{Placed, placed_in};
use crate::table::Table;
use layer_model::Layer;
use mark_base::{AnnId, Memory};
use std::alloc::Global;
use std::marker::Model;

/// The contents of the annotations of a layer. A contract sees the IDs that have a content, by letter,
/// then by number, and behind each its content as a number.
#[derive(Drop)]
pub struct Keys {
    table: Table,
    placed: Vec<Placed>,
}

impl Model for Keys {
    ghost use Rattle.std.specs.Prelude.{List, ℕ, ◌<◌, length, All};
    ghost use Rattle.std.specs.List.Sorted.{IsNonDecreasingBy};
    ghost use Rattle.layer_model.specs.Classes.{rank};
    ghost use Rattle.std.specs.Coded.{coded_list, coded×, coded_ℕ};
    ghost use Rattle.mark_base.specs.declared.ann_id.AnnId.{AnnId};
    ghost use Rattle.mark_base.specs.contracts.ann_id.AnnId as id_row;
    ghost use Rattle.content_keys.specs.Places.{contents_at};
    ghost use Rattle.content_keys.specs.Tables.{values};

    ghost Value = { List (AnnId × ℕ) };

    ghost coded = { coded_list (coded× id_row.the_row.coded coded_ℕ) };

    ghost view = { λ keys. contents_at (values keys.table) keys.placed.items };

    ghost invariant = { λ keys. All (λ p. p.place < length keys.table) keys.placed.items × IsNonDecreasingBy (λ p. rank p.id) keys.placed.items };
}

/// For each place the first annotation there, so far as there is one.
fn first_by_place(
    alloc: Global,
    placed: &[Placed],
    count: usize,
) -> Result<Vec<Option<AnnId>>, Memory>
    requires { All (λ p. p.place < count) placed.now }
    ensures { IfOk result (λ firsts. (place : ℕ) → slice_index_or firsts.items place None ≡ first_at placed.now place) }
{
    let mut firsts: Vec<Option<AnnId>> = vec![in alloc; None; count]?;
    for one in placed {
        let place = one.place as usize;
        if firsts[place].is_none() {
            firsts[place] = Some(one.id);
        }
    }
    Ok(firsts)
}

/// The annotation of a place among these.
fn annotation_at(firsts: &[Option<AnnId>], place: u32) -> Option<AnnId>
    ensures { result ≡ slice_index_or firsts.now place None }
{
    let at = place as usize;
    if at < firsts.len() { firsts[at] } else { None }
}

/// For each annotation the first of the others at the place where its place moves to.
fn found_by(
    alloc: Global,
    placed: &[Placed],
    moves: &[Option<u32>],
    others: &[Placed],
    count: usize,
) -> Result<Vec<Found>, Memory>
    requires { All (λ p. p.place < count) others.now }
    ensures { IfOk result (λ found. map pair_of found.items ≡ map (found_at moves.now others.now) placed.now) }
{
    let firsts = first_by_place(alloc, others, count)?;
    let mut found = Vec::new(alloc);
    for one in placed {
        let there = match move_at(moves, one.place) {
            Some(place) => annotation_at(firsts.as_slice(), place),
            None => None,
        };
        found.push(Found { id: one.id, there })?;
    }
    Ok(found)
}

impl Keys {
    /// The contents of a layer that is well-formed: each name in it stands, is of a letter that fits,
    /// and no chain of events is deeper than 16. Cost: 20 look-ups for each annotation.
    pub fn of(alloc: Global, layer: &Layer) -> Result<Keys, Memory>
        requires { IsCoherent layer.now }
        ensures { IfOk result (λ keys. keys ≡ contents_of layer.now) }
    {
        let mut table = Table::new(alloc);
        let placed = placed_in(alloc, layer, &mut table)?;
        Ok(Keys { table, placed })
    }

    /// The counterparts of these annotations in the other layer. Cost: one look-up for each content of this
    /// layer in the other's, and the annotations of both layers.
    pub fn toward(&self, other: &Keys) -> Result<Counterparts, Memory>
        ensures all { IfOk result (λ found. found ≡ counterparts_in self.now other.now) }
        ensures each { IfOk result (λ found. (id : AnnId) → counterpart_among found id ≡ counterpart_in self.now other.now id) }
    {
        let alloc = *self.placed.allocator();
        let moves = self.table.toward(alloc, &other.table)?;
        let found = found_by(
            alloc,
            self.placed.as_slice(),
            moves.as_slice(),
            other.placed.as_slice(),
            other.table.count(),
        )?;
        other.table.is_table();
        Ok(Counterparts::of(found))
    }
}
