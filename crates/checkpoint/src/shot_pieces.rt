//! The pieces of snapshots, and the last piece.
ghost use Rattle.std.specs.Prelude.{◌≡◌, IfNone, IfOk, IfSome, List, false, length, true};
ghost use Rattle.std.specs.Arc.{arc_value};
ghost use Rattle.layer_model.specs.Annotations.{Annotations};
ghost use Rattle.layer_model.specs.Coherent.{IsCoherent};
ghost use Rattle.unanimous_merge.specs.declared.item.ItemId.{ItemId};
ghost use Rattle.curator_decisions.specs.declared.verdict.Verdict.{Verdict};
ghost use Rattle.project_machine.specs.ProjectState.{document};
ghost use Rattle.checkpoint.specs.Reading.{AreVerdicts, TakesHeld, end_fits, holder_fits, shot_fits, with_held_in};
ghost use Rattle.checkpoint.specs.Runs.{IsReadAs};

use crate::lines::{held_fits, layer_of};
use crate::open_shot::OpenShot;
use crate::so_far::{Part, SoFar, closed, is_whole};
use crate::told_state::ToldState;
use crate::verdicts::verdicts_on;
use curator_decisions::Decisions;
use entry_bytes::Entry;
use layer_model::Layer;
use mark_base::{Bytes, Memory, Slug, Text};
use project_state::StoredSnapshot;
use std::alloc::Global;
use std::sync::Arc;

/// Whether a snapshot can follow.
fn shot_fits(so_far: &SoFar, doc: u32, layers: u8) -> bool
    ensures { result ≡ shot_fits so_far.now doc layers }
{
    let wanted = so_far.texts == 0 && is_whole(&so_far.part) && 0 < so_far.shots;
    wanted && (doc as usize) < so_far.state.documents() && 2 <= layers && layers <= 16
}

/// Reads the piece of a snapshot.
pub(crate) fn read_shot(
    alloc: Global,
    so_far: SoFar,
    doc: u32,
    layers: u8,
) -> Result<Option<SoFar>, Memory>
    ensures { IfOk result (IsReadAs so_far (Entry.Snapshot doc layers)) }
{
    if !shot_fits(&so_far, doc, layers) {
        return Ok(None);
    }
    let SoFar {
        state,
        texts,
        room,
        shots,
        part,
    } = so_far;
    let state = closed(state, part);
    let part = Part::Shot(OpenShot::new(alloc, doc, layers));
    Ok(Some(SoFar {
        state,
        texts,
        room,
        shots: shots - 1,
        part,
    }))
}

/// Whether a layer of this holder can follow in a snapshot.
fn holder_fits(state: &ToldState, shot: &OpenShot, who: &Slug) -> bool
    ensures { result ≡ holder_fits state.now shot.now who.now }
{
    let wanted = shot.count() < shot.layers() as usize;
    wanted && state.is_annotator(who) && shot.is_behind(who)
}

/// The layer that can follow in the open snapshot, where one has these lines.
fn held_taken(
    alloc: Global,
    state: &ToldState,
    part: &Part,
    who: &Slug,
    lines: &Text,
) -> Result<Option<Layer>, Memory>
    ensures found { IfOk result (λ found. IfSome found (TakesHeld state.now part.now who.now lines.now)) }
    ensures whole { IfOk result (λ found. IfSome found IsCoherent) }
    ensures none { IfOk result (λ found. IfNone found ((layer : Annotations) → TakesHeld state.now part.now who.now lines.now layer → ⊥)) }
{
    let Part::Shot(shot) = part else {
        return Ok(None);
    };
    if !holder_fits(state, shot, who) || !held_fits(who, lines) {
        return Ok(None);
    }
    let text = state.text_at(alloc, shot.doc())?;
    let layer = layer_of(alloc, lines, &text, state.conf())?;
    Ok(layer)
}

/// What is open behind a layer that can follow in it.
fn with_held(
    part: Part,
    state: &ToldState,
    who: Slug,
    lines: &Text,
    layer: Arc<Layer>,
) -> Result<Part, Memory>
    requires taken { TakesHeld state.now part who lines.now (arc_value layer) }
    requires whole { IsCoherent (arc_value layer) }
    ensures { IfOk result (λ next. next ≡ with_held_in part who (arc_value layer)) }
{
    match part {
        Part::Shot(shot) => {
            let mut shot = shot;
            shot.add(who, layer)?;
            Ok(Part::Shot(shot))
        }
        other => Ok(other),
    }
}

/// Reads the piece of a layer that a snapshot holds.
pub(crate) fn read_held(
    alloc: Global,
    so_far: SoFar,
    who: &Slug,
    lines: &Text,
) -> Result<Option<SoFar>, Memory>
    ensures { IfOk result (IsReadAs so_far (Entry.HeldLayer who.now lines.now)) }
{
    let Some(layer) = held_taken(alloc, &so_far.state, &so_far.part, who, lines)? else {
        return Ok(None);
    };
    let SoFar {
        state,
        texts,
        room,
        shots,
        part,
    } = so_far;
    let layer = Arc::new(alloc, layer)?;
    let part = with_held(part, &state, who.copy()?, lines, layer)?;
    Ok(Some(SoFar {
        state,
        texts,
        room,
        shots,
        part,
    }))
}

/// A snapshot of which all layers were read, with its verdicts, where bytes are those of accepted ones.
fn decided(
    alloc: Global,
    state: &ToldState,
    shot: OpenShot,
    pairs: &Bytes,
) -> Result<Option<StoredSnapshot>, Memory>
    requires { length shot.held ≡ shot.layers }
    ensures found { IfOk result (λ found. IfSome found (λ snapshot. (snapshot.doc ≡ shot.doc) × ((snapshot.holders ≡ shot.held) × AreVerdicts state.now.conf (document state.now shot.doc).text shot.held pairs.now snapshot.verdicts))) }
    ensures none { IfOk result (λ found. IfNone found ((verdicts : List (ItemId × Verdict)) → AreVerdicts state.now.conf (document state.now shot.doc).text shot.held pairs.now verdicts → ⊥)) }
{
    let doc = shot.doc();
    let text = state.text_at(alloc, doc)?;
    let snapshot = shot.into_snapshot();
    match verdicts_on(alloc, &snapshot, &text, state.conf(), pairs)? {
        Some(decisions) => Ok(Some(StoredSnapshot::new(doc, snapshot, decisions))),
        None => Ok(None),
    }
}

/// Reads the piece of the verdicts on the open snapshot.
fn read_verdicts(
    alloc: Global,
    state: ToldState,
    texts: u32,
    room: usize,
    shots: u64,
    shot: OpenShot,
    pairs: &Bytes,
) -> Result<Option<SoFar>, Memory>
    ensures { IfOk result (IsReadAs (record { state = state; texts = texts; room = room; shots = shots; part = Part.Shot shot }) (Entry.Decided pairs.now)) }
{
    if shot.count() != shot.layers() as usize {
        return Ok(None);
    }
    let mut state = state;
    let Some(snapshot) = decided(alloc, &state, shot, pairs)? else {
        return Ok(None);
    };
    state.add_snapshot(snapshot)?;
    Ok(Some(SoFar {
        state,
        texts,
        room,
        shots,
        part: Part::Shots,
    }))
}

/// Reads the piece of the verdicts on a snapshot.
pub(crate) fn read_decided(
    alloc: Global,
    so_far: SoFar,
    pairs: &Bytes,
) -> Result<Option<SoFar>, Memory>
    ensures { IfOk result (IsReadAs so_far (Entry.Decided pairs.now)) }
{
    let SoFar {
        state,
        texts,
        room,
        shots,
        part,
    } = so_far;
    match part {
        Part::Shot(shot) => {
            let read = read_verdicts(alloc, state, texts, room, shots, shot, pairs)?;
            Ok(read)
        }
        _ => Ok(None),
    }
}

/// Whether nothing is lacking before the last piece.
fn end_fits(so_far: &SoFar) -> bool
    ensures { result ≡ end_fits so_far.now }
{
    so_far.texts == 0 && is_whole(&so_far.part) && so_far.shots == 0
}

/// Reads the last piece.
pub(crate) fn read_end(so_far: SoFar) -> Option<SoFar>
    ensures { IsReadAs so_far Entry.End result }
{
    if !end_fits(&so_far) {
        return None;
    }
    let SoFar {
        state,
        texts,
        room,
        shots,
        part,
    } = so_far;
    Some(SoFar {
        state: closed(state, part),
        texts,
        room,
        shots,
        part: Part::Ended,
    })
}
