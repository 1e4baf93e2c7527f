//! The pieces of rows.
ghost use Rattle.std.specs.Prelude.{◌≡◌, ◌<◌, ◌≤◌, ◌+◌, IfNone, IfOk, IfSome, List, None, false, length, true};
ghost use Rattle.std.specs.Arc.{arc_value};
ghost use Rattle.command_bytes.specs.CommandBytes.{scripts_bytes};
ghost use Rattle.command_bytes.specs.CommandValues.{AreCommands};
ghost use Rattle.layer_core.specs.declared.command.Command.{Command};
ghost use Rattle.layer_model.specs.Annotations.{Annotations};
ghost use Rattle.layer_rules.specs.WellFormed.{IsWellFormed};
ghost use Rattle.layer_undo.specs.Replays.{first_refusal};
ghost use Rattle.project_machine.specs.Entries.{IsShort};
ghost use Rattle.project_state.specs.Entries.Reading.{ReadsScripts};
ghost use Rattle.checkpoint.specs.Reading.{AreParked, TakesDraft, TakesLayer, named_row, row_fits, takes_draft, wants_layer, with_draft, with_layer};
ghost use Rattle.checkpoint.specs.Runs.{IsReadAs};

use crate::bounds::LONGEST_ENTRY;
use crate::lines::{commit_fits, layer_of};
use crate::so_far::{OpenRow, Part, SoFar, Stage, closed, comes_next, is_told};
use crate::told_state::ToldState;
use char_documents::Doc;
use command_bytes::{
    Scripts, accepted_scripts_can_be_written, loads_are_read_again, read_scripts,
    scripts_are_told_apart, scripts_are_typed, typed_scripts_are_read_again,
};
use conf_model::Conf;
use entry_bytes::Entry;
use layer_model::Layer;
use layer_rules::unflawed_layers;
use layer_undo::{DeskStart, Script, check_scripts};
use mark_base::{Bytes, Memory, Slug, Text};
use project_state::StoredRow;
use std::alloc::Global;
use std::sync::Arc;

/// Whether a row can follow.
fn row_fits(so_far: &SoFar, doc: u32, who: &Slug, revision: u64, flags: u8) -> bool
    ensures { result ≡ row_fits so_far.now doc who.now revision flags }
{
    let next = comes_next(&so_far.part, doc, so_far.state.rater_of(who));
    let there = (doc as usize) < so_far.state.documents() && so_far.state.is_annotator(who);
    let counted = revision <= so_far.state.place() && (0 < revision || flags == 0);
    so_far.texts == 0 && next && there && counted
}

/// A row without its layer and what is parked in it.
fn named_row(alloc: Global, revision: u64, flags: u8) -> Result<StoredRow, Memory>
    ensures { IfOk result (λ row. row ≡ named_row revision flags) }
{
    let layer = Arc::new(alloc, Layer::new(alloc))?;
    let done = Script::new(alloc);
    let undone = Script::new(alloc);
    let finished = flags == 1 || flags == 3;
    let ignored = flags >= 2;
    Ok(StoredRow::new(revision, layer, done, undone, None, finished, ignored))
}

/// Reads the piece of a row.
pub(crate) fn read_row(
    alloc: Global,
    so_far: SoFar,
    doc: u32,
    who: &Slug,
    revision: u64,
    flags: u8,
) -> Result<Option<SoFar>, Memory>
    ensures { IfOk result (IsReadAs so_far (Entry.Row doc who.now revision flags)) }
{
    if !row_fits(&so_far, doc, who, revision, flags) {
        return Ok(None);
    }
    let SoFar {
        state,
        texts,
        room,
        shots,
        part,
    } = so_far;
    let rater = state.rater_of(who);
    let row = named_row(alloc, revision, flags)?;
    let state = closed(state, part);
    let named = OpenRow {
        doc,
        rater,
        who: who.copy()?,
        row,
        stage: Stage::Named,
    };
    Ok(Some(SoFar {
        state,
        texts,
        room,
        shots,
        part: Part::Row(named),
    }))
}

/// Whether a row wants its layer.
fn wants_layer(row: &OpenRow) -> bool
    ensures { result ≡ wants_layer row.now }
{
    !is_told(row.stage) && 0 < row.row.revision()
}

/// The layer of the open row, where one with these lines can follow.
fn layer_taken(
    alloc: Global,
    state: &ToldState,
    part: &Part,
    lines: &Text,
) -> Result<Option<Layer>, Memory>
    ensures found { IfOk result (λ found. IfSome found (TakesLayer state.now part.now lines.now)) }
    ensures none { IfOk result (λ found. IfNone found ((layer : Annotations) → TakesLayer state.now part.now lines.now layer → ⊥)) }
{
    let Part::Row(row) = part else {
        return Ok(None);
    };
    if !wants_layer(row) || !commit_fits(&row.who, lines) {
        return Ok(None);
    }
    let text = state.text_at(alloc, row.doc)?;
    let layer = layer_of(alloc, lines, &text, state.conf())?;
    Ok(layer)
}

/// The open row with a layer.
fn committed(alloc: Global, part: OpenRow, layer: Arc<Layer>) -> OpenRow
    ensures { Part.Row result ≡ with_layer (Part.Row part) (arc_value layer) }
{
    let OpenRow {
        doc,
        rater,
        who,
        row,
        stage: _,
    } = part;
    let done = Script::new(alloc);
    let undone = Script::new(alloc);
    let finished = row.is_finished();
    let ignored = row.is_ignored();
    OpenRow {
        doc,
        rater,
        who,
        row: StoredRow::new(row.revision(), layer, done, undone, None, finished, ignored),
        stage: Stage::Committed,
    }
}

/// What is open behind the layer of a row.
fn with_layer(alloc: Global, part: Part, layer: Arc<Layer>) -> Part
    ensures { result ≡ with_layer part (arc_value layer) }
{
    match part {
        Part::Row(row) => Part::Row(committed(alloc, row, layer)),
        other => other,
    }
}

/// Reads the piece of the layer of a row.
pub(crate) fn read_layer(
    alloc: Global,
    so_far: SoFar,
    lines: &Text,
) -> Result<Option<SoFar>, Memory>
    ensures { IfOk result (IsReadAs so_far (Entry.Layer lines.now)) }
{
    let Some(layer) = layer_taken(alloc, &so_far.state, &so_far.part, lines)? else {
        return Ok(None);
    };
    let SoFar {
        state,
        texts,
        room,
        shots,
        part,
    } = so_far;
    let layer = Arc::new(alloc, layer)?;
    Ok(Some(SoFar {
        state,
        texts,
        room,
        shots,
        part: with_layer(alloc, part, layer),
    }))
}

/// Whether what is parked can follow, behind so much of a row.
fn takes_draft(stage: Stage, revision: u64) -> bool
    ensures { result ≡ takes_draft stage revision }
{
    match stage {
        Stage::Named => revision == 0,
        Stage::Committed => true,
        Stage::Parked => false,
    }
}

/// Whether commands fit the piece of them.
#[tactic(auto, using(crate::proofs::SizeLemmas::draft_size))]
fn draft_fits(commands: &Bytes) -> bool
    ensures short { result ≡ true → IsShort (Entry.Draft commands.now) }
    ensures long { result ≡ false → IsShort (Entry.Draft commands.now) → ⊥ }
{
    commands.items().len() < LONGEST_ENTRY
}

/// Whether a layer is one of a text, and no command of two scripts is refused from it.
fn are_accepted(
    alloc: Global,
    layer: &Layer,
    text: &Arc<Doc>,
    conf: &Arc<Conf>,
    scripts: &Scripts,
) -> Result<bool, Memory>
    ensures well { IfOk result (λ are. are ≡ true → IsWellFormed (arc_value conf.now) (length (arc_value text.now)) layer.now) }
    ensures accepted { IfOk result (λ are. are ≡ true → first_refusal (arc_value conf.now) (length (arc_value text.now)) layer.now scripts.now.done scripts.now.undone ≡ None) }
    ensures refused { IfOk result (λ are. are ≡ false → IsWellFormed (arc_value conf.now) (length (arc_value text.now)) layer.now → first_refusal (arc_value conf.now) (length (arc_value text.now)) layer.now scripts.now.done scripts.now.undone ≡ None → ⊥) }
{
    unflawed_layers();
    match check_scripts(alloc, layer, text, conf, &scripts.done, &scripts.undone) {
        Ok(()) => Ok(true),
        Err(start) => match start {
            DeskStart::Base(_) => Ok(false),
            DeskStart::At(_, _) => Ok(false),
            DeskStart::Memory => Err(Memory),
        },
    }
}

/// The two scripts of bytes, for a configuration and a text.
fn scripts_said(
    alloc: Global,
    commands: &Bytes,
    doc: &Doc,
    conf: &Conf,
) -> Result<Option<Scripts>, Memory>
    ensures found { IfOk result (λ found. IfSome found (λ scripts. scripts_bytes conf.now doc.now scripts.done scripts.undone ≡ commands.now)) }
    ensures told { IfOk result (ReadsScripts conf.now doc.now commands.now) }
{
    conf.reads_back();
    let _count = doc.char_count();
    let _text = doc.text();
    loads_are_read_again();
    typed_scripts_are_read_again();
    scripts_are_told_apart();
    let found = read_scripts(alloc, commands.items(), doc, conf)?;
    Ok(found)
}

/// Whether two scripts have a command, and each is one of a program.
fn are_some(scripts: &Scripts) -> bool
    ensures some { result ≡ true → 0 < length scripts.now.done + length scripts.now.undone }
    ensures typed { result ≡ true → AreCommands scripts.now.done × AreCommands scripts.now.undone }
    ensures other { result ≡ false → 0 < length scripts.now.done + length scripts.now.undone → AreCommands scripts.now.done × AreCommands scripts.now.undone → ⊥ }
{
    let typed = scripts_are_typed(&scripts.done, &scripts.undone);
    let some = scripts.done.count() != 0 || scripts.undone.count() != 0;
    typed && some
}

/// The commands that are parked on a layer of a text, where bytes are those of such.
fn parked_on(
    alloc: Global,
    commands: &Bytes,
    layer: &Layer,
    text: &Arc<Doc>,
    conf: &Arc<Conf>,
) -> Result<Option<Scripts>, Memory>
    requires { length commands.now ≤ 16777216 }
    ensures found { IfOk result (λ found. IfSome found (λ scripts. AreParked (arc_value conf.now) (arc_value text.now) layer.now commands.now scripts.done scripts.undone)) }
    ensures none { IfOk result (λ found. IfNone found ((done undone : List Command) → AreParked (arc_value conf.now) (arc_value text.now) layer.now commands.now done undone → ⊥)) }
{
    accepted_scripts_can_be_written();
    let Some(scripts) = scripts_said(alloc, commands, text, conf)? else {
        return Ok(None);
    };
    if !are_some(&scripts) {
        return Ok(None);
    }
    if are_accepted(alloc, layer, text, conf, &scripts)? {
        Ok(Some(scripts))
    } else {
        Ok(None)
    }
}

/// The commands that can follow as parked in the open row, where bytes are those of such.
fn draft_taken(
    alloc: Global,
    state: &ToldState,
    part: &Part,
    commands: &Bytes,
) -> Result<Option<Scripts>, Memory>
    ensures found { IfOk result (λ found. IfSome found (λ scripts. TakesDraft state.now part.now commands.now scripts.done scripts.undone)) }
    ensures none { IfOk result (λ found. IfNone found ((done undone : List Command) → TakesDraft state.now part.now commands.now done undone → ⊥)) }
{
    let Part::Row(row) = part else {
        return Ok(None);
    };
    if !takes_draft(row.stage, row.row.revision()) || !draft_fits(commands) {
        return Ok(None);
    }
    let text = state.text_at(alloc, row.doc)?;
    let scripts = parked_on(alloc, commands, row.row.layer(), &text, state.conf())?;
    Ok(scripts)
}

/// The open row with what is parked in it.
fn parked(part: OpenRow, scripts: Scripts) -> Result<OpenRow, Memory>
    ensures { IfOk result (λ row. Part.Row row ≡ with_draft (Part.Row part) scripts.done scripts.undone) }
{
    let OpenRow {
        doc,
        rater,
        who,
        row,
        stage: _,
    } = part;
    let Scripts { done, undone } = scripts;
    let layer = row.layer().clone()?;
    let finished = row.is_finished();
    let ignored = row.is_ignored();
    Ok(OpenRow {
        doc,
        rater,
        who,
        row: StoredRow::new(row.revision(), layer, done, undone, None, finished, ignored),
        stage: Stage::Parked,
    })
}

/// What is open behind what is parked in a row.
fn with_draft(part: Part, scripts: Scripts) -> Result<Part, Memory>
    ensures { IfOk result (λ next. next ≡ with_draft part scripts.done scripts.undone) }
{
    match part {
        Part::Row(row) => Ok(Part::Row(parked(row, scripts)?)),
        other => Ok(other),
    }
}

/// Reads the piece of what is parked in a row.
pub(crate) fn read_draft(
    alloc: Global,
    so_far: SoFar,
    commands: &Bytes,
) -> Result<Option<SoFar>, Memory>
    ensures { IfOk result (IsReadAs so_far (Entry.Draft commands.now)) }
{
    let Some(scripts) = draft_taken(alloc, &so_far.state, &so_far.part, commands)? else {
        return Ok(None);
    };
    let SoFar {
        state,
        texts,
        room,
        shots,
        part,
    } = so_far;
    Ok(Some(SoFar {
        state,
        texts,
        room,
        shots,
        part: with_draft(part, scripts)?,
    }))
}
