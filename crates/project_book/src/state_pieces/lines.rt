//! Lines, commands and verdicts, as pieces hold them.
ghost use Rattle.std.specs.Prelude.{◌≡◌, IfOk, IsUtf8, length};
ghost use Rattle.layer_rules.specs.WellFormed.{IsWellFormed};
ghost use Rattle.ann_writer.specs.AnnOf.{ann_of};
ghost use Rattle.project_machine.specs.Entries.{accepts};

use ann_writer::ann_bytes;
use char_documents::Doc;
use conf_model::Conf;
use curator_decisions::Verdict;
use layer_model::Layer;
use mark_base::{Bytes, Memory, Text};
use std::alloc::Global;

/// The text that bytes are in UTF-8; they are not copied.
fn text_from(bytes: Bytes) -> Text
    requires { IsUtf8 bytes }
    ensures { result ≡ bytes }
{
    match String::from_utf8(bytes.into_vec()) {
        Ok(text) => Text::from_string(text),
        Err(_) => unreachable!(),
    }
}

/// The .ann lines of a layer for a configuration and a text.
pub(crate) fn lines_of(alloc: Global, layer: &Layer, doc: &Doc, conf: &Conf) -> Result<Text, Memory>
    requires { IsWellFormed conf.now (length doc.now) layer.now }
    ensures { IfOk result (λ lines. lines ≡ ann_of conf.now doc.now layer.now) }
{
    let lines = ann_bytes(alloc, layer, doc, conf)?;
    Ok(text_from(lines))
}

/// Whether an item is accepted.
pub(crate) fn accepts(verdict: Verdict) -> bool
    ensures { result ≡ accepts verdict }
{
    match verdict {
        Verdict::Accept => true,
        Verdict::Reject => false,
    }
}
