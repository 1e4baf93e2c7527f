//! A layer that a command loads, read from its .ann lines.
ghost use Rattle.std.specs.Prelude.{◌≡◌, ◌≤◌, length, IfOk};
ghost use Rattle.ann_reader.specs.AnnFiles.{IsAnn};
ghost use Rattle.command_bytes.specs.CommandReading.{ReadsCommand, layer_in, load_at};

use crate::read_fields::Cursor;
use ann_reader::{AnnFault, files_of_a_layer, read_ann};
use ann_writer::ann_bytes;
use char_documents::Doc;
use conf_model::Conf;
use layer_core::Command;
use layer_model::Layer;
use mark_base::Memory;
use std::alloc::Global;

/// The layer, where these are the lines that it is written as.
#[tactic(auto, unfolding(crate::specs::CommandReading::layer_in))]
fn written_so(
    alloc: Global,
    layer: Layer,
    lines: &[u8],
    doc: &Doc,
    conf: &Conf,
) -> Result<Option<Layer>, Memory>
    requires few { length lines.now ≤ 16777216 }
    requires read { IsAnn conf.now doc.now lines.now layer }
    ensures { IfOk result (λ layer. layer ≡ layer_in conf.now doc.now lines.now) }
{
    layer.keeps();
    files_of_a_layer();
    let written = ann_bytes(alloc, &layer, doc, conf)?;
    if written.items() == lines {
        Ok(Some(layer))
    } else {
        Ok(None)
    }
}

/// How many bytes the .ann lines of a layer have at most, as an entry holds them.
const LONGEST_LINES: usize = 16_777_216;

/// The layer of .ann lines, where they are the lines that it is written as. Cost: what `read_ann` and `ann_bytes`
/// say.
#[tactic(auto, unfolding(crate::specs::CommandReading::layer_in))]
fn layer_in(alloc: Global, lines: &[u8], doc: &Doc, conf: &Conf) -> Result<Option<Layer>, Memory>
    ensures { IfOk result (λ layer. layer ≡ layer_in conf.now doc.now lines.now) }
{
    if lines.len() > LONGEST_LINES {
        return Ok(None);
    }
    match read_ann(alloc, lines, doc, conf) {
        Ok(layer) => written_so(alloc, layer, lines, doc, conf),
        Err(AnnFault::Memory) => Err(Memory),
        Err(AnnFault::At { .. }) => Ok(None),
    }
}

/// Takes the fields of a load.
#[tactic(auto, unfolding(crate::specs::CommandReading::load_at))]
pub(crate) fn take_load(
    alloc: Global,
    cursor: &mut Cursor<'_>,
    doc: &Doc,
    conf: &Conf,
) -> Result<Option<Command>, Memory>
    ensures { ReadsCommand (load_at conf.now doc.now) cursor.old cursor.new result }
{
    let Some(lines) = cursor.take_text(alloc)? else {
        return Ok(None);
    };
    match layer_in(alloc, lines.text().as_bytes(), doc, conf)? {
        Some(layer) => Ok(Some(Command::Load { layer })),
        None => Ok(None),
    }
}
