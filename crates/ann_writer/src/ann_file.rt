//! The file of a layer.
ghost use Rattle.std.specs.Prelude.{◌≡◌, ◌++◌, ◌≤◌, length, string_bytes, IfOk, IsErrOf, OnOk, OnErr};
ghost use Rattle.std.specs.List.{flat_map};
ghost use Rattle.std.specs.Io.KnownBytes.{Appends};
ghost use Rattle.mark_base.specs.Streams.{AppendsFront, TellsFault};
ghost use Rattle.mark_base.specs.declared.ann_id.Kind.TheVariants as letter;
ghost use Rattle.layer_rules.specs.WellFormed.{IsWellFormed};
ghost use Rattle.ann_reader.specs.AnnFiles.{IsAnn};
ghost use Rattle.ann_writer.specs.AnnOf.{ann_of, class_line};
ghost use Rattle.ann_writer.specs.Writable.{HasTexts, IsWritable};

use crate::WriteAnn;
use crate::letter_lines::{Attributes, Page, push_all};
use crate::lines::push_class;
use char_documents::Doc;
use conf_model::Conf;
use layer_model::{Class, Layer};
use mark_base::{Bytes, Kind, Memory, Sink, write_all};
use std::alloc::Global;

/// Appends the lines of classes.
fn push_classes(
    alloc: Global,
    out: &mut String,
    conf: &Conf,
    classes: &[Class],
) -> Result<(), Memory>
    ensures { OnOk result (string_bytes out.new ≡ string_bytes out.old ++ flat_map (class_line conf.now) classes.now) }
{
    for class in classes {
        push_class(alloc, out, conf, class)?;
    }
    Ok(())
}

/// The file of a layer as a text.
#[tactic(auto, unfolding(crate::specs::AnnOf::ann_of))]
fn ann_text(alloc: Global, layer: &Layer, doc: &Doc, conf: &Conf) -> Result<String, Memory>
    requires { IsWritable conf.now doc.now layer.now }
    ensures text { IfOk result (λ text. string_bytes text ≡ ann_of conf.now doc.now layer.now) }
    ensures texts { OnOk result (HasTexts layer.now) }
{
    let page = Page { doc, conf };
    let added = Attributes {
        conf,
        kind: Kind::Attribute,
    };
    let legacy = Attributes {
        conf,
        kind: Kind::Legacy,
    };
    let mut out = String::new(alloc);
    push_all(alloc, &mut out, &page, layer.spans())?;
    push_all(alloc, &mut out, &page, layer.events())?;
    push_all(alloc, &mut out, &page, layer.relations())?;
    push_classes(alloc, &mut out, conf, layer.classes())?;
    push_all(alloc, &mut out, &added, layer.attributes())?;
    push_all(alloc, &mut out, &legacy, layer.legacy())?;
    push_all(alloc, &mut out, &page, layer.normals())?;
    push_all(alloc, &mut out, &page, layer.notes())?;
    Ok(out)
}

/// The .ann file of a layer, one line an annotation or class, in one canonical form: the lines of the
/// letters T, E and R, then those of the equivalence classes, then A, M, N and #, each by number; one
/// space between words, one TAB between fields, a line feed behind each line. A layer with nothing marked
/// is a file of no bytes. Cost: the bytes of the file, and for each argument of an event the number of
/// roles of its type (brat standoff manual).
pub fn ann_bytes(alloc: Global, layer: &Layer, doc: &Doc, conf: &Conf) -> Result<Bytes, Memory>
    requires { IsWellFormed conf.now (length doc.now) layer.now }
    ensures lines { IfOk result (λ bytes. bytes ≡ ann_of conf.now doc.now layer.now) }
    ensures again { OnOk result (IsAnn conf.now doc.now (ann_of conf.now doc.now layer.now) layer.now) }
{
    conf.reads_back();
    layer.keeps();
    let _few = doc.char_count();
    let _characters = doc.text();
    let text = ann_text(alloc, layer, doc, conf)?;
    let _bytes = text.as_str();
    Ok(Bytes::from_vec(text.into_bytes()))
}

/// Writes the .ann file of a layer, as [`ann_bytes`] gives it. A fault of the sink leaves a front of the
/// file written, and so does want of memory. Cost: as `ann_bytes`, and the writes.
pub fn write_ann<K: Sink>(
    alloc: Global,
    layer: &Layer,
    doc: &Doc,
    conf: &Conf,
    sink: &mut K,
) -> Result<(), WriteAnn>
    requires { IsWellFormed conf.now (length doc.now) layer.now }
    ensures whole { OnOk result (Appends (K.held sink.old) (K.held sink.new) (ann_of conf.now doc.now layer.now)) }
    ensures front { OnErr result (AppendsFront (K.held sink.old) (K.held sink.new) (ann_of conf.now doc.now layer.now)) }
    ensures later { K.write_faults sink.old ≤ K.write_faults sink.new }
    ensures fault { TellsFault (IsErrOf result WriteAnn.WriteFault) (K.write_faults sink.old) (K.write_faults sink.new) }
    ensures kept { K.kept_by_write sink.new ≡ K.kept_by_write sink.old }
{
    let Ok(bytes) = ann_bytes(alloc, layer, doc, conf) else {
        return Err(WriteAnn::Memory);
    };
    match write_all(sink, bytes.items()) {
        Ok(()) => Ok(()),
        Err(_) => Err(WriteAnn::WriteFault),
    }
}
