//! The pieces of snapshots.
ghost use Rattle.std.specs.Prelude.{◌≡◌, ◌∷◌, ◌++◌, ◌<◌, [], IfOk, OnOk, get_or, length, map};
ghost use Rattle.std.specs.List.{All, flat_map};
ghost use Rattle.entry_bytes.specs.Entries.{entry_bytes};
ghost use Rattle.entry_bytes.specs.Fields.{u32_bytes};
ghost use Rattle.layer_model.specs.Annotations.{no_marks};
ghost use Rattle.command_bytes.specs.CommandBytes.{list_bytes};
ghost use Rattle.project_machine.specs.Entries.{held_piece, snapshot_pieces, verdict_bytes};
ghost use Rattle.project_machine.specs.Legal.{IsSnapshotKept};
ghost use Rattle.project_machine.specs.ProjectState.{text_of};
ghost use Rattle.std.specs.Arc.{arc_value};

use crate::state_pieces::lines::{accepts, lines_of};
use crate::state_pieces::rows::document_there;
use crate::state_pieces::run::Run;
use char_documents::Doc;
use curator_decisions::{Decisions, Verdict};
use entry_bytes::Entry;
use layer_model::letter_place;
use mark_base::{Bytes, Memory};
use project_state::{BookState, StoredSnapshot};
use std::alloc::Global;
use std::sync::Arc;
use unanimous_merge::ItemId;

/// Puts the piece of a snapshot itself.
fn put_snapshot_itself(
    alloc: Global,
    snapshot: &StoredSnapshot,
    run: &mut Run,
) -> Result<(), Memory>
    ensures { OnOk result (run.new ≡ run.old ++ map entry_bytes (Entry.Snapshot snapshot.now.doc (length snapshot.now.holders) ∷ [])) }
{
    let piece = Entry::Snapshot {
        doc: snapshot.doc(),
        layers: snapshot.layers().count() as u8,
    };
    run.put(alloc, &piece)
}

/// Puts the piece of the layer of a place in a snapshot, for the text of its document.
fn put_held_at(
    alloc: Global,
    state: &BookState,
    snapshot: &StoredSnapshot,
    text: &Arc<Doc>,
    place: u32,
    run: &mut Run,
) -> Result<(), Memory>
    requires text { arc_value text.now ≡ text_of state.now.state snapshot.now }
    requires kept { IsSnapshotKept state.now.state snapshot.now }
    requires there { place < length snapshot.now.holders }
    ensures { OnOk result (run.new ≡ run.old ++ map entry_bytes (held_piece state.now.state snapshot.now (get_or snapshot.now.holders place ([], no_marks)) ∷ [])) }
{
    match (
        snapshot.layers().holder(place),
        snapshot.layers().layer(place),
    ) {
        (Some(who), Some(layer)) => {
            let piece = Entry::HeldLayer {
                who: who.copy()?,
                lines: lines_of(alloc, layer, text, state.conf())?,
            };
            run.put(alloc, &piece)
        }
        _ => unreachable!(),
    }
}

/// Puts the pieces of the layers that a snapshot holds, for the text of its document.
fn put_held(
    alloc: Global,
    state: &BookState,
    snapshot: &StoredSnapshot,
    text: &Arc<Doc>,
    run: &mut Run,
) -> Result<(), Memory>
    requires text { arc_value text.now ≡ text_of state.now.state snapshot.now }
    requires kept { IsSnapshotKept state.now.state snapshot.now }
    ensures { OnOk result (run.new ≡ run.old ++ map entry_bytes (map (held_piece state.now.state snapshot.now) snapshot.now.holders)) }
{
    for place in 0..snapshot.layers().count() {
        put_held_at(alloc, state, snapshot, text, place, run)?;
    }
    Ok(())
}

/// Writes a number in four bytes.
#[tactic(auto, unfolding(entry_bytes::specs::Fields::u32_bytes))]
fn put_u32(out: &mut Vec<u8>, number: u32) -> Result<(), Memory>
    ensures { OnOk result (out.new.items ≡ out.old.items ++ u32_bytes number) }
{
    out.extend_from_slice(&number.to_le_bytes())?;
    Ok(())
}

/// Writes a verdict and its item.
fn put_verdict(out: &mut Vec<u8>, pair: (ItemId, Verdict)) -> Result<(), Memory>
    ensures { OnOk result (out.new.items ≡ out.old.items ++ verdict_bytes pair) }
{
    out.push(pair.0.holder)?;
    out.push(letter_place(pair.0.id.kind))?;
    put_u32(out, pair.0.id.number)?;
    out.push(accepts(pair.1) as u8)?;
    Ok(())
}

/// The bytes of verdicts: how many there are, and each by item.
fn verdicts_written(alloc: Global, decisions: &Decisions) -> Result<Bytes, Memory>
    ensures { IfOk result (λ bytes. bytes ≡ list_bytes verdict_bytes decisions.now) }
{
    let mut out = Vec::new(alloc);
    put_u32(&mut out, decisions.count())?;
    for place in 0..decisions.count() {
        match decisions.at(place) {
            Some(pair) => put_verdict(&mut out, pair)?,
            None => unreachable!(),
        }
    }
    Ok(Bytes::from_vec(out))
}

/// Puts the piece of the verdicts on a snapshot.
fn put_verdicts(alloc: Global, decisions: &Decisions, run: &mut Run) -> Result<(), Memory>
    ensures { OnOk result (run.new ≡ run.old ++ map entry_bytes (Entry.Decided (list_bytes verdict_bytes decisions.now) ∷ [])) }
{
    let piece = Entry::Decided {
        pairs: verdicts_written(alloc, decisions)?,
    };
    run.put(alloc, &piece)
}

/// Puts the pieces of a snapshot.
fn put_snapshot(
    alloc: Global,
    state: &BookState,
    snapshot: &StoredSnapshot,
    run: &mut Run,
) -> Result<(), Memory>
    requires { IsSnapshotKept state.now.state snapshot.now }
    ensures { OnOk result (run.new ≡ run.old ++ map entry_bytes (snapshot_pieces state.now.state snapshot.now)) }
{
    let document = document_there(state, snapshot.doc() as usize);
    put_snapshot_itself(alloc, snapshot, run)?;
    put_held(alloc, state, snapshot, document.text(), run)?;
    put_verdicts(alloc, snapshot.decisions(), run)
}

/// Puts the pieces of all snapshots.
pub(crate) fn put_snapshots(alloc: Global, state: &BookState, run: &mut Run) -> Result<(), Memory>
    requires { All (IsSnapshotKept state.now.state) state.now.state.snapshots }
    ensures { OnOk result (run.new ≡ run.old ++ map entry_bytes (flat_map (snapshot_pieces state.now.state) state.now.state.snapshots)) }
{
    for snapshot in state.snapshots() {
        put_snapshot(alloc, state, snapshot, run)?;
    }
    Ok(())
}
