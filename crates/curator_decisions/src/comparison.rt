//! A snapshot with its contents compared, for all that is decided on it.
ghost use Rattle.std.specs.Prelude.{IfOk};
ghost use Rattle.unanimous_merge.specs.Rows.{AreCoherent};
ghost use Rattle.curator_decisions.specs.Comparisons.{IsComparison};

use crate::naming::{all_named, all_places};
use layer_model::Snapshot;
use mark_base::Memory;
use std::alloc::Global;
use std::collections::BTreeMap;
use unanimous_merge::Merged;

/// What the calls of a curator ask of a snapshot alone: its contents compared, where each annotation of each layer has
/// its content, and what each item names. Whoever decides more than once on a snapshot keeps it.
#[derive(Drop)]
pub struct Comparison {
    /// The contents, compared.
    pub merged: Merged,
    /// For each layer the places of its annotations, by their ranks.
    pub places: Vec<BTreeMap<u64, u32>>,
    /// For each item the places that it names.
    pub names: Vec<Vec<u32>>,
}

impl Comparison {
    /// The comparison of a snapshot of well-formed layers. Cost: 20 look-ups for each annotation.
    pub fn of(alloc: Global, snapshot: &Snapshot) -> Result<Comparison, Memory>
        requires { AreCoherent snapshot.now }
        ensures { IfOk result (λ comparison. IsComparison comparison snapshot.now) }
    {
        let merged = Merged::of(alloc, snapshot)?;
        let places = all_places(alloc, merged.rows.as_slice())?;
        let firsts = merged.firsts.as_slice();
        let names = all_named(alloc, snapshot, places.as_slice(), firsts)?;
        Ok(Comparison {
            merged,
            places,
            names,
        })
    }
}
