//! Tables of contents.
ghost use Rattle.std.specs.Prelude.{◌≡◌, false, ℕ, ◌<◌, List, [], length, IfOk, OnErr, slice_index};
ghost use Rattle.content_keys.specs.Carrying.{AreMoves};
ghost use Rattle.content_keys.specs.Tables.{IsTable, IsPlace, IsAt, IsAdded, MayAdd, values};

use crate::carrying::carried;
use crate::shape::{Shape, word_of};
use crate::word::Word;
use mark_base::Memory;
use std::alloc::Global;
use std::collections::BTreeMap;
use std::marker::Model;

/// Contents, each once, by their places from 0. A content names those before it by their places.
#[derive(Drop)]
pub(crate) struct Table {
    shapes: Vec<Shape>,
    places: BTreeMap<Word, u32>,
}

impl Model for Table {
    ghost use Rattle.std.specs.Prelude.{List, ℕ};
    ghost use Rattle.std.specs.Coded.{coded_list};
    ghost use Rattle.content_keys.specs.Nodes.{Node, node_code};
    ghost use Rattle.content_keys.specs.Tables.{IsIndexed};

    ghost Value = { List (Node ℕ) };

    ghost coded = { coded_list node_code };

    ghost view = { λ table. table.shapes.items };

    ghost invariant = { λ table. IsIndexed table.shapes.items table.places };
}

impl Table {
    /// A table with no contents.
    pub(crate) fn new(alloc: Global) -> Table
        ensures { result ≡ [] }
    {
        Table {
            shapes: Vec::new(alloc),
            places: BTreeMap::new(alloc),
        }
    }

    /// The allocator of the table.
    pub(crate) fn allocator(&self) -> Global {
        *self.shapes.allocator()
    }

    /// Whether the table has all the contents that places of 32 bits can number.
    pub(crate) fn is_full(&self) -> bool
        ensures { result ≡ false → length self.now < 4294967295 }
    {
        self.shapes.len() >= 4294967295
    }

    /// How many contents there are.
    pub(crate) fn count(&self) -> usize
        ensures { result ≡ length self.now }
    {
        self.shapes.len()
    }

    /// Tells a proof what every table keeps. It does nothing.
    pub(crate) fn is_table(&self)
        ensures { IsTable self.now }
    {
        let _ = &self.shapes;
    }

    /// Where a content stands. Cost: its parts, times the logarithm of the table.
    fn find(&self, alloc: Global, shape: &Shape) -> Result<Option<u32>, Memory>
        ensures { IfOk result (λ o. IsAt self.now shape.now o) }
    {
        let key = word_of(alloc, shape)?;
        Ok(self.places.get(&key).copied())
    }

    /// Adds a content where it is new, and says where it stands. Want of memory leaves the table as it
    /// was. Cost: as `find`.
    pub(crate) fn add(&mut self, alloc: Global, shape: Shape) -> Result<u32, Memory>
        requires { MayAdd self.old shape }
        ensures ok { IfOk result (λ i. IsAdded self.old shape self.new i) }
        ensures err { OnErr result (self.new ≡ self.old) }
    {
        let key = word_of(alloc, &shape)?;
        match self.places.get(&key).copied() {
            Some(place) => Ok(place),
            None => {
                let place = self.shapes.len() as u32;
                self.shapes.push(shape)?;
                match self.places.insert(key, place) {
                    Ok(_) => Ok(place),
                    Err(e) => {
                        self.shapes.pop();
                        Err(Memory::from(e))
                    }
                }
            }
        }
    }

    /// Where the content of a place stands in the other table, from the moves of the places before it.
    fn place_in(
        &self,
        alloc: Global,
        i: usize,
        moves: &[Option<u32>],
        other: &Table,
    ) -> Result<Option<u32>, Memory>
        requires within { i < length self.now }
        requires so_far { length moves.now ≡ i }
        requires right { AreMoves self.now other.now moves.now }
        ensures { IfOk result (λ o. IsPlace (values other.now) (slice_index (values self.now) i) o) }
    {
        let _ = &other.shapes;
        match carried(alloc, &self.shapes[i], moves)? {
            Some(shape) => other.find(alloc, &shape),
            None => Ok(None),
        }
    }

    /// Where the content of each place stands in the other table. Cost: one look-up for each content.
    pub(crate) fn toward(&self, alloc: Global, other: &Table) -> Result<Vec<Option<u32>>, Memory>
        ensures long { IfOk result (λ moves. length moves.items ≡ length self.now) }
        ensures right { IfOk result (λ moves. AreMoves self.now other.now moves.items) }
    {
        let mut moves = Vec::new(alloc);
        for i in 0..self.shapes.len() {
            let next = self.place_in(alloc, i, moves.as_slice(), other)?;
            moves.push(next)?;
        }
        Ok(moves)
    }
}
