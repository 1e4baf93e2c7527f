//! What is made of a request for a snapshot.
ghost use Rattle.std.specs.Prelude.{◌≡◌, ◌≤◌, IfOk, length, true};
ghost use Rattle.project_machine.specs.Legal.{IsKept};
ghost use Rattle.project_machine.specs.ProjectState.{finished_rows, is_there, number_of};
ghost use Rattle.project_machine.specs.Requests.{Snap};
ghost use Rattle.project_steps.specs.Steps.Accepting.{Accepts, IsOutcome};

use crate::steps::accepted::{Accepted, Made, Outcome};
use crate::steps::parts::doc_number;
use curator_decisions::Decisions;
use layer_model::Snapshot;
use mark_base::{Memory, Slug};
use project_state::{Act, BookRefusal, BookState, Change, Reply, StoredSnapshot};
use std::alloc::Global;

/// A snapshot is taken of these layers, which are shared.
#[tactic(auto, using(crate::proofs::StepsProofs::ActLemmas::snaps))]
fn accept_snap(
    alloc: Global,
    state: &BookState,
    by: &Slug,
    name: &Slug,
    layers: Snapshot,
) -> Result<Accepted, Memory>
    requires { layers ≡ finished_rows state.now.state (number_of state.now.state name.now) }
    ensures { IfOk result (Accepts state.now.state by.now (Snap name.now)) }
{
    let doc = doc_number(state, name)?;
    let change = Change::Snap {
        by: by.copy()?,
        doc,
    };
    let reply = Reply::Snapped {
        number: state.snapshots().len() as u64 + 1,
        layers: layers.count(),
    };
    let taken = StoredSnapshot::new(doc, layers, Decisions::new(alloc));
    Ok(Accepted {
        reply,
        made: Some(Made {
            change,
            act: Act::Snap(taken),
        }),
    })
}

/// A snapshot is taken. Cost: the annotators; no layer is copied.
pub(crate) fn snap(
    alloc: Global,
    state: &BookState,
    by: &Slug,
    name: &Slug,
) -> Result<Outcome, Memory>
    requires { IsKept state.now.state }
    ensures { IfOk result (IsOutcome state.now.state by.now (Snap name.now)) }
{
    if !state.is_there(name) {
        return Ok(Outcome::Refused(BookRefusal::NoDocument));
    }
    let finished = state.finished_layers(alloc, state.number_of(name))?;
    let layers = finished.len();
    if layers < 2 {
        return Ok(Outcome::Refused(BookRefusal::TooFewFinished(layers as u32)));
    }
    let layers = Snapshot::of(finished);
    Ok(Outcome::Accepted(accept_snap(alloc, state, by, name, layers)?))
}
