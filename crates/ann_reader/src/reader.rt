//! Reading .ann files.
ghost use Rattle.std.specs.Prelude.{◌≡◌, ◌≤◌, [], None, OnOk, length, map, option_map, IfOk, IfErr, IfSome};
ghost use Rattle.std.specs.Option.{option_map_or, option_or};
ghost use Rattle.std.specs.List.{list_any, find};
ghost use Rattle.layer_model.specs.Classes.{is_among};
ghost use Rattle.ann_reader.specs.Lines.{lines_of};
ghost use Rattle.ann_reader.specs.LineFaults.{first_line_fault};
ghost use Rattle.ann_reader.specs.AnnFaults.{brings, brings_some, first_text_fault, layer_fault, layer_of, line_at, lines_fault, text_fault};
ghost use Rattle.ann_reader.specs.AnnFiles.{IsAnn};
ghost use Rattle.ann_reader.specs.LineShows.{seen_line};
ghost use Rattle.ann_reader.specs.FormShows.{seen_form, seen_said};
ghost use Rattle.ann_reader.specs.LineForms.{form_of};
ghost use Rattle.ann_reader.specs.FaultShows.{seen_fault};
ghost use Rattle.ann_reader.specs.PlainTexts.{IsPlain};
ghost use Rattle.ann_reader.specs.ReadFaults.{IsFault, Tells};

use crate::declared_names::line_types;
use crate::known_lines::KnownLines;
use crate::layer_lines::add_line;
use crate::line::{Line, lines};
use crate::line_counts::{LineCounts, count_line, count_of};
use crate::line_fault::line_fault;
use crate::line_form::{Form, form_of};
use crate::line_ids::own_id;
use crate::line_meaning::{Said, said_of};
use crate::texts::{plain_text, text_differs};
use crate::word::first_byte;
use crate::{AnnFault, AnnWhat};
use char_documents::Doc;
use conf_model::Conf;
use layer_model::{Class, Flaw, FlawPlace, Layer, rank};
use layer_rules::{CheckFault, check};
use mark_base::{AnnId, Memory, count_line_ends};
use std::alloc::Global;
use std::collections::BTreeMap;
use std::str;

/// A fault and the number of its line.
#[derive(Clone, Copy)]
struct Fault {
    line: u32,
    what: AnnWhat,
}

/// Whether an ID is one of these.
fn is_among(id: AnnId, ids: &[AnnId]) -> bool
    ensures { result ≡ is_among id ids.now }
{
    let place = rank(id);
    ids.iter().any(|other| rank(*other) == place)
}

/// Whether some of these IDs are among others.
fn some_among(ids: &[AnnId], others: &[AnnId]) -> bool
    ensures { result ≡ list_any (λ id. is_among id others.now) ids.now }
{
    ids.iter().any(|id| is_among(*id, others))
}

/// Whether members of a class are said to be one.
fn brings_some(class: &Class, said: &Said) -> bool
    ensures { result ≡ brings_some class.now (seen_said said.now) }
{
    said.kind.n == class.kind.n && some_among(said.members.items(), class.members.items())
}

/// Whether a line says that members of a class are one.
fn brings(alloc: Global, conf: &Conf, class: &Class, line: &Line) -> Result<bool, Memory>
    ensures { IfOk result (λ found. found ≡ brings conf.now class.now (seen_line line.now)) }
{
    let form = form_of(alloc, line.text)?;
    let types = line_types(alloc, conf, &form)?;
    match said_of(alloc, conf, &form, &types)? {
        Some(said) => Ok(brings_some(class, &said)),
        None => Ok(false),
    }
}

/// The number of the first line that brings members of a class.
fn class_line(alloc: Global, conf: &Conf, lines: &[Line], class: &Class) -> Result<u32, Memory>
    ensures { IfOk result (λ number. number ≡ option_map_or (λ line. line.number) (find (brings conf.now class.now) (map seen_line lines.now)) 0) }
{
    for line in lines {
        if brings(alloc, conf, class, line)? {
            return Ok(line.number);
        }
    }
    Ok(0)
}

/// The number of the line at which something of a layer stands.
fn line_at(
    alloc: Global,
    conf: &Conf,
    known: &KnownLines,
    layer: &Layer,
    place: FlawPlace,
) -> Result<u32, Memory>
    ensures { IfOk result (λ number. number ≡ option_map_or (λ line. line.number) (line_at conf.now known.now layer.now place) 0) }
{
    match place {
        FlawPlace::Mark(id) => Ok(known.head(id).unwrap_or(0)),
        FlawPlace::Class(index) => match layer.classes().get(index as usize) {
            Some(class) => class_line(alloc, conf, known.lines(), class),
            None => Ok(0),
        },
    }
}

/// The flaw that a check tells.
fn flaw_of(fault: CheckFault) -> Result<Flaw, Memory>
    ensures { IfOk result (λ flaw. fault ≡ CheckFault.Flaw flaw) }
{
    match fault {
        CheckFault::Flaw(flaw) => Ok(flaw),
        CheckFault::Memory => Err(Memory),
    }
}

/// The fault of the layer that lines say.
fn layer_fault(
    alloc: Global,
    doc: &Doc,
    conf: &Conf,
    known: &KnownLines,
    layer: &Layer,
) -> Result<Option<Fault>, Memory>
    requires { layer.now ≡ layer_of conf.now known.now }
    ensures { IfOk result (λ fault. option_map seen_fault fault ≡ layer_fault conf.now (length doc.now) known.now) }
{
    match check(alloc, layer, doc, conf) {
        Ok(()) => Ok(None),
        Err(fault) => {
            let flaw = flaw_of(fault)?;
            let line = line_at(alloc, conf, known, layer, flaw.at)?;
            Ok(Some(Fault {
                line,
                what: AnnWhat::Broken(flaw.rule),
            }))
        }
    }
}

/// The fault of the text of a line.
fn text_fault(
    alloc: Global,
    doc: &Doc,
    plain: Option<&[u8]>,
    line: &Line,
    form: &Form,
) -> Result<Option<Fault>, Memory>
    requires plain { IfSome plain (λ bytes. IsPlain doc.now bytes.now) }
    requires formed { seen_form form.now ≡ form_of line.now.text.now }
    ensures { IfOk result (λ fault. option_map seen_fault fault ≡ text_fault doc.now (seen_line line.now)) }
{
    match text_differs(alloc, doc, plain, form)? {
        Some(place) => Ok(Some(Fault {
            line: line.number,
            what: AnnWhat::WrongText(place),
        })),
        None => Ok(None),
    }
}

/// The first fault of texts, where this is that of the lines before.
fn text_fault_or(
    alloc: Global,
    doc: &Doc,
    plain: Option<&[u8]>,
    before: Option<Fault>,
    line: &Line,
    form: &Form,
) -> Result<Option<Fault>, Memory>
    requires plain { IfSome plain (λ bytes. IsPlain doc.now bytes.now) }
    requires formed { seen_form form.now ≡ form_of line.now.text.now }
    ensures { IfOk result (λ fault. option_map seen_fault fault ≡ option_or (option_map seen_fault before) (text_fault doc.now (seen_line line.now))) }
{
    match before {
        Some(fault) => Ok(Some(fault)),
        None => text_fault(alloc, doc, plain, line, form),
    }
}

/// A fault as the reader tells it.
fn told(fault: Fault) -> AnnFault
    ensures { result ≡ AnnFault.At fault.line fault.what }
{
    AnnFault::At {
        line: fault.line,
        what: fault.what,
    }
}

/// What the lines of a file say, where none of them is at fault by itself.
#[derive(Drop)]
struct Spelt {
    layer: Layer,
    /// The fault of the first line whose text is not the reference text.
    text_fault: Option<Fault>,
}

/// Passes over the lines once: each is read into its form and its type is looked up; where it is not at fault by
/// itself, what it says is added to the layer, and its text is compared.
fn spelt_by(alloc: Global, doc: &Doc, conf: &Conf, known: &KnownLines) -> Result<Spelt, AnnFault>
    requires { length known.now ≤ 16777217 }
    ensures layer { IfOk result (λ spelt. spelt.layer ≡ layer_of conf.now known.now) }
    ensures texts { IfOk result (λ spelt. option_map seen_fault spelt.text_fault ≡ first_text_fault doc.now known.now) }
    ensures clean { OnOk result (first_line_fault conf.now known.now [] known.now ≡ None) }
    ensures fault { IfErr result (Tells (first_line_fault conf.now known.now [] known.now)) }
{
    let plain = plain_text(doc);
    let mut counts: LineCounts = BTreeMap::new(alloc);
    let mut layer = Layer::new(alloc);
    let mut text_fault: Option<Fault> = None;
    for line in known.lines() {
        let byte = first_byte(line.text.as_bytes());
        let form = form_of(alloc, line.text)?;
        let types = line_types(alloc, conf, &form)?;
        let own = own_id(&form);
        let before = count_of(&counts, byte);
        if let Some(what) = line_fault(alloc, conf, known, before, line, &form, own, &types)? {
            return Err(AnnFault::At {
                line: line.number,
                what,
            });
        }
        count_line(&mut counts, byte)?;
        text_fault = text_fault_or(alloc, doc, plain, text_fault, line, &form)?;
        add_line(alloc, conf, &mut layer, form, own, &types)?;
    }
    Ok(Spelt { layer, text_fault })
}

/// The layer that lines say, where neither it nor a text is at fault.
fn layer_read(
    alloc: Global,
    doc: &Doc,
    conf: &Conf,
    known: &KnownLines,
    spelt: Spelt,
) -> Result<Layer, AnnFault>
    requires layer { spelt.layer ≡ layer_of conf.now known.now }
    requires texts { option_map seen_fault spelt.text_fault ≡ first_text_fault doc.now known.now }
    ensures read { IfOk result (λ layer. layer ≡ layer_of conf.now known.now) }
    ensures clean { OnOk result (option_or (layer_fault conf.now (length doc.now) known.now) (first_text_fault doc.now known.now) ≡ None) }
    ensures fault { IfErr result (Tells (option_or (layer_fault conf.now (length doc.now) known.now) (first_text_fault doc.now known.now))) }
{
    if let Some(fault) = layer_fault(alloc, doc, conf, known, &spelt.layer)? {
        return Err(told(fault));
    }
    match spelt.text_fault {
        Some(fault) => Err(told(fault)),
        None => Ok(spelt.layer),
    }
}

/// The layer that a text spells, or its first fault.
fn read_text(alloc: Global, text: &str, doc: &Doc, conf: &Conf) -> Result<Layer, AnnFault>
    requires { length text.now ≤ 16777216 }
    ensures read { IfOk result (λ layer. layer ≡ layer_of conf.now (lines_of text.now)) }
    ensures clean { OnOk result (lines_fault conf.now doc.now (lines_of text.now) ≡ None) }
    ensures fault { IfErr result (Tells (lines_fault conf.now doc.now (lines_of text.now))) }
{
    let known = KnownLines::of(alloc, lines(alloc, text)?)?;
    let spelt = spelt_by(alloc, doc, conf, &known)?;
    layer_read(alloc, doc, conf, &known, spelt)
}

/// Reads an .ann file, of at most 16,777,216 bytes (brat standoff manual). The fault is found in phases: bytes
/// that are not UTF-8; the first line whose form, IDs or single rules are at fault; the least flaw of the layer
/// that the lines say, at the line of its place; the first T line whose text is not that of its fragments.
/// Memory may run out at any time. Each line is read into its form once, and its type is looked up once. Cost: the
/// bytes times the logarithm of the number of annotations, and for each line of a class the members of all classes
/// before it. The text of the document is passed over once; for each fragment only what it covers, and in a text that
/// is not of ASCII alone some 255 characters before each end.
pub fn read_ann(alloc: Global, bytes: &[u8], doc: &Doc, conf: &Conf) -> Result<Layer, AnnFault>
    requires { length bytes.now ≤ 16777216 }
    ensures read { IfOk result (IsAnn conf.now doc.now bytes.now) }
    ensures fault { IfErr result (IsFault conf.now doc.now bytes.now) }
{
    match str::from_utf8(bytes) {
        Ok(text) => read_text(alloc, text, doc, conf),
        Err(error) => {
            let valid = error.valid_up_to();
            Err(AnnFault::At {
                line: count_line_ends(&bytes[..valid]) as u32 + 1,
                what: AnnWhat::NotUtf8,
            })
        }
    }
}
