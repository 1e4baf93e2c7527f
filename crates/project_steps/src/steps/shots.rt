//! What is read of the snapshots of a project.
ghost use Rattle.std.specs.Prelude.{◌≡◌, ◌<◌, [], IfOk, get_or, length, map};
ghost use Rattle.std.specs.Option.{option_copied};
ghost use Rattle.layer_model.specs.Annotations.{no_marks};
ghost use Rattle.layer_model.specs.Snapshots.{row_of};
ghost use Rattle.project_machine.specs.ProjectState.{holder_of, snapshot_of};

use crate::steps::parts::share;
use layer_model::{Layer, Snapshot};
use mark_base::{Memory, Slug};
use project_state::{BookState, StoredSnapshot};
use std::alloc::Global;
use std::sync::Arc;

/// The snapshot of a number that was taken, from 1.
#[tactic(auto, using(crate::proofs::StepsProofs::ShotLemmas::untaken_at_zero, crate::proofs::StepsProofs::ShotLemmas::numbered_at))]
pub(crate) fn snapshot_numbered(state: &BookState, number: u64) -> Option<&StoredSnapshot>
    ensures { option_copied result ≡ snapshot_of state.now.state number }
{
    if number == 0 {
        return None;
    }
    state.snapshots().get((number - 1) as usize)
}

/// The place of a holder in a snapshot, from 0; without one, how many there are. Cost: the holders.
#[tactic(auto, using(crate::proofs::StepsProofs::ShotLemmas::holder_here, crate::proofs::StepsProofs::ShotLemmas::holder_apart, crate::proofs::StepsProofs::ShotLemmas::holder_nowhere))]
pub(crate) fn holder_of(taken: &StoredSnapshot, who: &Slug) -> u32
    ensures { result ≡ holder_of taken.now who.now }
{
    let count = taken.layers().count();
    for place in 0..count {
        match taken.layers().holder(place) {
            Some(holder) => {
                if holder == who {
                    return place;
                }
            }
            None => unreachable!(),
        }
    }
    count
}

/// The holder of a place with the layer, shared.
fn share_row(snapshot: &Snapshot, place: u32) -> Result<(Slug, Arc<Layer>), Memory>
    requires { place < length snapshot.now }
    ensures { IfOk result (λ row. row_of row ≡ get_or snapshot.now place ([], no_marks)) }
{
    let (Some(holder), Some(layer)) = (snapshot.holder(place), snapshot.layer(place)) else {
        unreachable!()
    };
    let holder = holder.copy()?;
    let layer = share(layer)?;
    Ok((holder, layer))
}

/// A second snapshot of the same layers, which are shared. Cost: the holders.
#[tactic(auto, using(crate::proofs::StepsProofs::ShotLemmas::mapped_front, crate::proofs::StepsProofs::ShotLemmas::all_hold))]
pub(crate) fn copy_snapshot(alloc: Global, snapshot: &Snapshot) -> Result<Snapshot, Memory>
    ensures { IfOk result (λ copy. copy ≡ snapshot.now) }
{
    let count = snapshot.count();
    let mut rows = Vec::new(alloc);
    for place in 0..count {
        rows.push(share_row(snapshot, place)?)?;
    }
    Ok(Snapshot::of(rows))
}
