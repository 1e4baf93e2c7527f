//! Layers, by the .ann lines that pieces hold.
ghost use Rattle.std.specs.Prelude.{◌≡◌, ◌+◌, ◌≤◌, IfNone, IfOk, IfSome, false, length, true};
ghost use Rattle.layer_model.specs.Annotations.{Annotations};
ghost use Rattle.layer_model.specs.Coherent.{IsCoherent};
ghost use Rattle.layer_rules.specs.WellFormed.{IsWellFormed};
ghost use Rattle.project_machine.specs.Entries.{IsShort};
ghost use Rattle.project_state.specs.Entries.Reading.{ReadsLayer};
ghost use Rattle.checkpoint.specs.Reading.{AreLines};

use crate::bounds::{COMMIT_BYTES, HELD_BYTES, LONGEST_ENTRY};
use crate::same_bytes::are_same;
use ann_reader::{AnnFault, at_most_one_layer, files_of_a_layer, read_ann};
use ann_writer::{ann_bytes, written_layers_are_read_back};
use char_documents::Doc;
use command_bytes::layer_is_typed;
use conf_model::Conf;
use entry_bytes::Entry;
use layer_model::Layer;
use layer_rules::{may_commit, well_formed_layers_cohere};
use mark_base::{Memory, Slug, Text};
use std::alloc::Global;

/// Whether lines leave so much room in an entry.
fn leave_room(lines: &Text, beside: usize) -> bool
    ensures short { result ≡ true → length lines.now + beside ≤ 16777216 }
    ensures long { result ≡ false → length lines.now + beside ≤ 16777216 → ⊥ }
{
    let size = lines.text().len();
    size <= LONGEST_ENTRY && beside <= LONGEST_ENTRY - size
}

/// Whether lines fit the entry of a commit of this annotator.
#[tactic(auto, using(crate::proofs::SizeLemmas::commit_size))]
pub(crate) fn commit_fits(who: &Slug, lines: &Text) -> bool
    ensures short { result ≡ true → IsShort (Entry.Commit who.now 0 0 lines.now) }
    ensures long { result ≡ false → IsShort (Entry.Commit who.now 0 0 lines.now) → ⊥ }
{
    leave_room(lines, who.text().len() + COMMIT_BYTES)
}

/// Whether lines fit the piece of a layer of this holder.
#[tactic(auto, using(crate::proofs::SizeLemmas::held_size))]
pub(crate) fn held_fits(who: &Slug, lines: &Text) -> bool
    ensures short { result ≡ true → IsShort (Entry.HeldLayer who.now lines.now) }
    ensures long { result ≡ false → IsShort (Entry.HeldLayer who.now lines.now) → ⊥ }
{
    leave_room(lines, who.text().len() + HELD_BYTES)
}

/// The layer of .ann lines, where they are those of one.
fn layer_said(alloc: Global, lines: &Text, doc: &Doc, conf: &Conf) -> Result<Option<Layer>, Memory>
    requires { length lines.now ≤ 16777216 }
    ensures told { IfOk result (ReadsLayer conf.now doc.now lines.now) }
    ensures well { IfOk result (λ found. IfSome found (λ layer. IsWellFormed conf.now (length doc.now) layer)) }
{
    conf.reads_back();
    let _count = doc.char_count();
    let _text = doc.text();
    files_of_a_layer();
    at_most_one_layer();
    written_layers_are_read_back();
    match read_ann(alloc, lines.text().as_bytes(), doc, conf) {
        Ok(layer) => {
            layer.keeps();
            Ok(Some(layer))
        }
        Err(AnnFault::Memory) => Err(Memory),
        Err(AnnFault::At { .. }) => Ok(None),
    }
}

/// Whether a well-formed layer obeys and has these lines.
fn has_lines(
    alloc: Global,
    layer: &Layer,
    lines: &Text,
    doc: &Doc,
    conf: &Conf,
) -> Result<bool, Memory>
    requires { IsWellFormed conf.now (length doc.now) layer.now }
    ensures has { IfOk result (λ has. has ≡ true → AreLines conf.now doc.now lines.now layer.now) }
    ensures other { IfOk result (λ has. has ≡ false → AreLines conf.now doc.now lines.now layer.now → ⊥) }
{
    layer_is_typed(layer);
    match may_commit(layer, conf) {
        Some(_) => Ok(false),
        None => {
            let told = ann_bytes(alloc, layer, doc, conf)?;
            Ok(are_same(told.items(), lines.text().as_bytes()))
        }
    }
}

/// The layer that obeys on a text and has these .ann lines, where there is one.
pub(crate) fn layer_of(
    alloc: Global,
    lines: &Text,
    doc: &Doc,
    conf: &Conf,
) -> Result<Option<Layer>, Memory>
    requires { length lines.now ≤ 16777216 }
    ensures found { IfOk result (λ found. IfSome found (AreLines conf.now doc.now lines.now)) }
    ensures whole { IfOk result (λ found. IfSome found IsCoherent) }
    ensures none { IfOk result (λ found. IfNone found ((layer : Annotations) → AreLines conf.now doc.now lines.now layer → ⊥)) }
{
    well_formed_layers_cohere();
    let Some(layer) = layer_said(alloc, lines, doc, conf)? else {
        return Ok(None);
    };
    layer.keeps();
    if has_lines(alloc, &layer, lines, doc, conf)? {
        Ok(Some(layer))
    } else {
        Ok(None)
    }
}
