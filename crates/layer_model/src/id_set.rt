//! IDs in ascending order.
ghost use Rattle.std.specs.Prelude.{◌≡◌, [], IfOk, OnOk};
ghost use Rattle.layer_model.specs.Classes.{ascending, is_among, rank, with_id};

use crate::letters::letter_place;
use mark_base::{AnnId, Memory};
use std::alloc::Global;
use std::collections::BTreeMap;
use std::marker::Model;

/// The place of an ID among all IDs, which are ordered by letter, then by number.
pub fn rank(id: AnnId) -> u64
    ensures { result ≡ rank id }
{
    u64::from(letter_place(id.kind)) * 1_000_000_000 + u64::from(id.number)
}

/// IDs in ascending order, each once.
#[derive(Debug, Drop)]
pub struct IdSet {
    ids: BTreeMap<u64, AnnId>,
}

impl Model for IdSet {
    ghost use Rattle.std.specs.Prelude.{List};
    ghost use Rattle.std.specs.Map.{values_of};
    ghost use Rattle.mark_base.specs.declared.ann_id.AnnId.{AnnId};
    ghost use Rattle.layer_model.specs.IdSets.{AtOwnRank};

    ghost Value = { List AnnId };

    ghost view = { λ set. values_of set.ids.entries };

    ghost invariant = { λ set. AtOwnRank set.ids.entries };
}

impl IdSet {
    /// No IDs.
    fn new(alloc: Global) -> Self
        ensures { result ≡ [] }
    {
        IdSet {
            ids: BTreeMap::new(alloc),
        }
    }

    /// Puts an ID in its place.
    fn add(&mut self, id: AnnId) -> Result<(), Memory>
        ensures { OnOk result (self.new ≡ with_id self.old id) }
    {
        self.ids.insert(rank(id), id)?;
        Ok(())
    }

    /// These IDs. Cost: their number, times the logarithm of it.
    pub fn of(alloc: Global, ids: &[AnnId]) -> Result<Self, Memory>
        ensures { IfOk result (λ set. set ≡ ascending ids.now) }
    {
        let mut set = IdSet::new(alloc);
        for id in ids {
            set.add(*id)?;
        }
        Ok(set)
    }

    /// Whether the ID is one of these. Cost: the logarithm of their number.
    pub fn has(&self, id: AnnId) -> bool
        ensures { result ≡ is_among id self.now }
    {
        self.ids.contains_key(&rank(id))
    }
}
