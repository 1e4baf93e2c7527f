//! A snapshot of which the pieces are read.
ghost use Rattle.std.specs.Prelude.{◌≡◌, ◌∷◌, ◌++◌, ◌≤◌, [], OnOk, length, true};
ghost use Rattle.std.specs.Arc.{arc_value};
ghost use Rattle.layer_model.specs.Coherent.{IsCoherent};
ghost use Rattle.unanimous_merge.specs.Rows.{AreCoherent};
ghost use Rattle.std.specs.List.{list_all};
ghost use Rattle.project_machine.specs.People.{comes_before};
ghost use Rattle.checkpoint.specs.HeldSoFar.{follows, with_held};

use crate::ascending::comes_before;
use layer_model::{Layer, Snapshot};
use mark_base::{Memory, Slug};
use std::alloc::Global;
use std::marker::Model;
use std::sync::Arc;

/// A snapshot so far: the number of its document, how many layers it is said to hold, and those that were read.
#[derive(Drop)]
pub struct OpenShot {
    doc: u32,
    layers: u8,
    held: Vec<(Slug, Arc<Layer>)>,
}

impl Model for OpenShot {
    ghost use Rattle.std.specs.Prelude.{map};
    ghost use Rattle.layer_model.specs.Snapshots.{row_of};
    ghost use Rattle.checkpoint.specs.HeldSoFar.{HeldSoFar, IsHeldSoFar, held_code};

    ghost Value = { HeldSoFar };

    ghost coded = { held_code };

    ghost view = { λ shot. record { doc = shot.doc; layers = shot.layers; held = map row_of shot.held.items } };

    ghost invariant = { λ shot. IsHeldSoFar (record { doc = shot.doc; layers = shot.layers; held = map row_of shot.held.items }) };
}

/// Whether each of some holders comes before another.
fn come_before(rows: &[(Slug, Arc<Layer>)], who: &Slug) -> bool
    ensures { result ≡ list_all (λ row. comes_before row.0 who.now) rows.now }
{
    rows.iter().all(|row| comes_before(&row.0, who))
}

impl OpenShot {
    /// A snapshot of which no layer was read, of the document of a number and with so many layers.
    pub(crate) fn new(alloc: Global, doc: u32, layers: u8) -> OpenShot
        requires two { 2 ≤ layers }
        requires few { layers ≤ 16 }
        ensures { result ≡ record { doc = doc; layers = layers; held = [] } }
    {
        OpenShot {
            doc,
            layers,
            held: Vec::new(alloc),
        }
    }

    /// The number of its document, from 0.
    pub(crate) fn doc(&self) -> u32
        ensures { result ≡ self.now.doc }
    {
        self.doc
    }

    /// How many layers it is said to hold.
    pub(crate) fn layers(&self) -> u8
        ensures { result ≡ self.now.layers }
    {
        self.layers
    }

    /// How many layers were read.
    pub(crate) fn count(&self) -> usize
        ensures { result ≡ length self.now.held }
    {
        self.held.len()
    }

    /// Whether a holder follows those before.
    #[tactic(auto, using(crate::proofs::HolderLemmas::followed))]
    pub(crate) fn is_behind(&self, who: &Slug) -> bool
        ensures { result ≡ follows self.now.held who.now }
    {
        come_before(self.held.as_slice(), who)
    }

    /// Adds a layer of a holder who follows those before.
    pub(crate) fn add(&mut self, who: Slug, layer: Arc<Layer>) -> Result<(), Memory>
        requires behind { follows self.old.held who ≡ true }
        requires whole { IsCoherent (arc_value layer) }
        ensures { OnOk result (self.new ≡ with_held self.old who (arc_value layer)) }
    {
        self.held.push((who, layer))?;
        Ok(())
    }

    /// The layers, where as many were read as are said.
    pub(crate) fn into_snapshot(self) -> Snapshot
        requires { length self.held ≡ self.layers }
        ensures held { result ≡ self.held }
        ensures whole { AreCoherent self.held }
    {
        let OpenShot {
            doc: _,
            layers: _,
            held,
        } = self;
        Snapshot::of(held)
    }
}
