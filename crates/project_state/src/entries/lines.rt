//! The .ann lines and the commands of a document, as entries hold them.
ghost use Rattle.std.specs.Prelude.{◌≡◌, ◌<◌, length, IfOk, IsUtf8};
ghost use Rattle.std.specs.List.{AllByRecursion};
ghost use Rattle.layer_rules.specs.WellFormed.{IsWellFormed};
ghost use Rattle.command_bytes.specs.CommandBytes.{scripts_bytes};
ghost use Rattle.command_bytes.specs.WritableCommands.{CanBeWritten};
ghost use Rattle.project_machine.specs.Entries.{lines_in};
ghost use Rattle.project_machine.specs.ProjectState.{document};
ghost use Rattle.project_state.specs.Entries.Reading.{ReadsLayer, ReadsScripts};

use crate::BookState;
use crate::entries::documents::document_at;
use crate::limits::LONGEST_LINES;
use ann_reader::{AnnFault, at_most_one_layer, files_of_a_layer, read_ann};
use ann_writer::{ann_bytes, written_layers_are_read_back};
use char_documents::Doc;
use command_bytes::{
    Scripts, loads_are_read_again, read_scripts, scripts_are_told_apart,
    typed_scripts_are_read_again, write_scripts,
};
use conf_model::Conf;
use layer_model::Layer;
use layer_undo::Script;
use mark_base::{Bytes, Memory, Text};
use std::alloc::Global;

/// The text that bytes are in UTF-8; they are not copied.
fn text_from(bytes: Bytes) -> Text
    requires { IsUtf8 bytes }
    ensures { result ≡ bytes }
{
    match String::from_utf8(bytes.into_vec()) {
        Ok(text) => Text::from_string(text),
        Err(_) => unreachable!(),
    }
}

/// The .ann lines of a layer of the document of a number.
pub(crate) fn lines_in(
    alloc: Global,
    state: &BookState,
    doc: u32,
    layer: &Layer,
) -> Result<Text, Memory>
    requires there { doc < length state.now.state.documents }
    requires well_formed { IsWellFormed state.now.state.conf (length (document state.now.state doc).text) layer.now }
    ensures { IfOk result (λ lines. lines ≡ lines_in state.now.state doc layer.now) }
{
    match document_at(state, doc) {
        Some(document) => {
            let lines = ann_bytes(alloc, layer, document.text(), state.conf())?;
            Ok(text_from(lines))
        }
        None => unreachable!(),
    }
}

/// The bytes of commands on the document of a number.
pub(crate) fn commands_in(
    alloc: Global,
    state: &BookState,
    doc: u32,
    done: &Script,
    undone: &Script,
) -> Result<Bytes, Memory>
    requires there { doc < length state.now.state.documents }
    requires done { AllByRecursion (CanBeWritten state.now.state.conf (document state.now.state doc).text) done.now }
    requires undone { AllByRecursion (CanBeWritten state.now.state.conf (document state.now.state doc).text) undone.now }
    ensures { IfOk result (λ bytes. bytes ≡ scripts_bytes state.now.state.conf (document state.now.state doc).text done.now undone.now) }
{
    match document_at(state, doc) {
        Some(document) => write_scripts(alloc, done, undone, document.text(), state.conf()),
        None => unreachable!(),
    }
}

/// The layer of .ann lines, where they are those of one and at most 16,777,216 bytes.
pub(crate) fn layer_read(
    alloc: Global,
    lines: &Text,
    doc: &Doc,
    conf: &Conf,
) -> Result<Option<Layer>, Memory>
    ensures { IfOk result (ReadsLayer conf.now doc.now lines.now) }
{
    conf.reads_back();
    let _count = doc.char_count();
    let _text = doc.text();
    files_of_a_layer();
    at_most_one_layer();
    written_layers_are_read_back();
    let bytes = lines.text().as_bytes();
    if bytes.len() > LONGEST_LINES {
        return Ok(None);
    }
    match read_ann(alloc, bytes, doc, conf) {
        Ok(layer) => {
            layer.keeps();
            Ok(Some(layer))
        }
        Err(AnnFault::Memory) => Err(Memory),
        Err(AnnFault::At { .. }) => Ok(None),
    }
}

/// The commands of bytes, where they are those of two scripts.
pub(crate) fn scripts_read(
    alloc: Global,
    commands: &Bytes,
    doc: &Doc,
    conf: &Conf,
) -> Result<Option<Scripts>, Memory>
    ensures { IfOk result (ReadsScripts conf.now doc.now commands.now) }
{
    conf.reads_back();
    let _count = doc.char_count();
    let _text = doc.text();
    loads_are_read_again();
    typed_scripts_are_read_again();
    scripts_are_told_apart();
    let found = read_scripts(alloc, commands.items(), doc, conf)?;
    Ok(found)
}
