//! A snapshot that was taken, and the verdicts on it.
ghost use Rattle.std.specs.Prelude.{◌≡◌};

use curator_decisions::Decisions;
use layer_model::Snapshot;
use std::marker::Model;

/// A snapshot: the number of its document, the layers that were finished, and the verdicts that stand.
#[derive(Drop)]
pub struct StoredSnapshot {
    doc: u32,
    layers: Snapshot,
    decisions: Decisions,
}

impl Model for StoredSnapshot {
    ghost use Rattle.project_machine.specs.ProjectState as project;
    ghost use Rattle.project_state.specs.Codes.{snapshot_code};

    ghost Value = { project.Snapshot };

    ghost coded = { snapshot_code };

    ghost view = { λ snapshot. record { doc = snapshot.doc; holders = snapshot.layers; verdicts = snapshot.decisions } };
}

impl StoredSnapshot {
    /// A snapshot of the document of this number: these layers, and these verdicts.
    pub fn new(doc: u32, layers: Snapshot, decisions: Decisions) -> StoredSnapshot
        ensures { result ≡ record { doc = doc; holders = layers; verdicts = decisions } }
    {
        StoredSnapshot {
            doc,
            layers,
            decisions,
        }
    }

    /// It has other verdicts.
    pub(crate) fn decide(&mut self, decisions: Decisions)
        ensures { self.new ≡ record self.old { verdicts = decisions } }
    {
        self.decisions = decisions;
    }

    /// The number of its document, from 0.
    pub fn doc(&self) -> u32
        ensures { result ≡ self.now.doc }
    {
        self.doc
    }

    /// The layers by their holders.
    pub fn layers(&self) -> &Snapshot
        ensures { result.now ≡ self.now.holders }
    {
        &self.layers
    }

    /// The verdicts.
    pub fn decisions(&self) -> &Decisions
        ensures { result.now ≡ self.now.verdicts }
    {
        &self.decisions
    }
}
