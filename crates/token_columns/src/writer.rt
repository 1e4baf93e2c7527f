//! Writing columns.
ghost use Rattle.std.specs.Prelude.{◌≡◌, ◌≤◌, None, length, string_bytes, IfOk, IfErr, IsErrOf, OnOk, OnErr};
ghost use Rattle.std.specs.Io.KnownBytes.{Appends};
ghost use Rattle.mark_base.specs.Streams.{AppendsFront, TellsFault};
ghost use Rattle.layer_rules.specs.WellFormed.{IsWellFormed};
ghost use Rattle.token_columns.specs.Columns.{columns};
ghost use Rattle.token_columns.specs.Fits.{Fits};
ghost use Rattle.token_columns.specs.WriteFaults.{IsNamed, TellsLayer, TellsOut, out_fault};

use crate::column_fault::ColumnOut;
use crate::columns::column_text;
use crate::run::{Placed, Run, runs_of, spans_of};
use crate::write_faults::out_fault;
use char_documents::Doc;
use conf_model::Conf;
use layer_model::Layer;
use mark_base::{Bytes, Memory, Sink, write_all};
use std::alloc::Global;

/// The columns of a layer, or the first of six faults for which they do not show it. Cost: see [`write_columns`].
pub fn column_bytes(
    alloc: Global,
    layer: &Layer,
    doc: &Doc,
    conf: &Conf,
) -> Result<Bytes, ColumnOut>
    requires { IsWellFormed conf.now (length doc.now) layer.now }
    ensures bytes { IfOk result (λ bytes. bytes ≡ columns conf.now doc.now layer.now) }
    ensures fits { OnOk result (Fits doc.now layer.now) }
    ensures fault { IfErr result (TellsLayer doc.now layer.now) }
    ensures clean { OnOk result (out_fault doc.now layer.now ≡ None) }
{
    layer.keeps();
    let spans = spans_of(alloc, layer)?;
    if let Some(fault) = out_fault(alloc, layer, doc, conf, &spans)? {
        return Err(fault);
    }
    let runs = runs_of(alloc, &spans)?;
    let text = column_text(alloc, doc, conf, &runs)?;
    let _bytes = text.as_str();
    Ok(Bytes::from_vec(text.into_bytes()))
}

/// Writes the columns of a layer: a line for each token of the document, with the token, a TAB, its label and a line
/// feed. A layer that columns cannot show is refused before any byte is written, by the first of six faults. A fault
/// of the sink leaves a front of the columns written, and so does want of memory. Cost: the text, for each span the
/// logarithm of the tokens, and the writes; of spans that do not follow one another by their numbers, also for each
/// the other spans.
pub fn write_columns<K: Sink>(
    alloc: Global,
    layer: &Layer,
    doc: &Doc,
    conf: &Conf,
    sink: &mut K,
) -> Result<(), ColumnOut>
    requires { IsWellFormed conf.now (length doc.now) layer.now }
    ensures whole { OnOk result (Appends (K.held sink.old) (K.held sink.new) (columns conf.now doc.now layer.now)) }
    ensures fits { OnOk result (Fits doc.now layer.now) }
    ensures fault { IfErr result (TellsOut doc.now layer.now) }
    ensures front { OnErr result (AppendsFront (K.held sink.old) (K.held sink.new) (columns conf.now doc.now layer.now)) }
    ensures untouched { IfErr result (λ fault. IsNamed fault → K.held sink.new ≡ K.held sink.old) }
    ensures later { K.write_faults sink.old ≤ K.write_faults sink.new }
    ensures cause { TellsFault (IsErrOf result ColumnOut.WriteFault) (K.write_faults sink.old) (K.write_faults sink.new) }
    ensures kept { K.kept_by_write sink.new ≡ K.kept_by_write sink.old }
{
    match column_bytes(alloc, layer, doc, conf) {
        Err(fault) => Err(fault),
        Ok(bytes) => match write_all(sink, bytes.items()) {
            Ok(()) => Ok(()),
            Err(_) => Err(ColumnOut::WriteFault),
        },
    }
}
