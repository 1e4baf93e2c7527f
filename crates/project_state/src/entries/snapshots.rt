//! Snapshots by their numbers.
ghost use Rattle.std.specs.Prelude.{◌≡◌, [], IfNone, IfOk, IfSome, MatchOption};
ghost use Rattle.project_machine.specs.ProjectState.{holder_name, no_snapshot, snapshot};

use crate::{BookState, StoredSnapshot};
use mark_base::{Memory, Slug};

/// The snapshot of a number, from 1; that of 0 is the first too.
fn snapshot_at(state: &BookState, number: u64) -> Option<&StoredSnapshot>
    ensures here { IfSome result (λ found. found.now ≡ snapshot state.now.state number) }
    ensures nowhere { IfNone result (snapshot state.now.state number ≡ no_snapshot) }
{
    match state.snapshots().get(number.saturating_sub(1) as usize) {
        Some(snapshot) => Some(snapshot),
        None => None,
    }
}

/// The name of the holder of a place in the snapshot of a number.
pub(crate) fn holder_name(
    state: &BookState,
    number: u64,
    holder: u8,
) -> Result<Option<Slug>, Memory>
    ensures { IfOk result (λ found. MatchOption found (holder_name (snapshot state.now.state number) holder ≡ []) (λ name. name ≡ holder_name (snapshot state.now.state number) holder)) }
{
    let Some(snapshot) = snapshot_at(state, number) else {
        return Ok(None);
    };
    match snapshot.layers().holder(holder as u32) {
        Some(name) => Ok(Some(name.copy()?)),
        None => Ok(None),
    }
}
