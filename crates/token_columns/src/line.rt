//! A line of a column file.
ghost use Rattle.std.specs.Prelude.{◌≡◌, ◌≤◌, ◌<◌, ◌==◌, bytes_eq, chars, drop, length, map, slice_index, IfOk, IfErr, IfSome, Some, None, true};
ghost use Rattle.std.specs.List.{common_prefix_len, slice_split};
ghost use Rattle.mark_base.specs.Names.{name_fault};
ghost use Rattle.type_hierarchy.specs.TypeTrees.{type_named};
ghost use Rattle.layer_rules.specs.MarkRules.{is_barred_type};
ghost use Rattle.token_columns.specs.Columns.{token_text};
ghost use Rattle.token_columns.specs.LineShows.{seen_text};
ghost use Rattle.token_columns.specs.ReadColumns.{begin_at, fields_at, first_differing, form_of, inside_at, is_blank, is_typed, judged, label_at, token_at, usable};

use crate::column_fault::ColumnWhat;
use crate::label::{Label, LabelForm};
use crate::run::Run;
use char_documents::Doc;
use conf_model::Conf;
use mark_base::{Frag, Memory, Name, NameFault, TypeId};
use std::alloc::{AllocError, Global};

/// The characters of the longest span.
const LONGEST_SPAN: u32 = 10_000;

/// The most spans of a layer.
const MOST_SPANS: usize = 10_000;

/// What a line comes to: the label of the next token, or a fault.
#[derive(Clone, Copy, Debug, PartialEq, Eq)]
pub(crate) enum Judged {
    Read(Label),
    Fault(ColumnWhat),
}

/// What stands behind the lines before a line: the span of the last token, where it has one, how many spans have
/// begun, and the next token, where one is left.
#[derive(Clone, Copy)]
pub(crate) struct Before {
    pub last: Option<Run>,
    pub begun: usize,
    pub token: Option<Frag>,
}

/// Whether there are only spaces, TABs and carriage returns.
pub(crate) fn is_blank(line: &[u8]) -> bool
    ensures { result ≡ is_blank line.now }
{
    line.iter()
        .all(|byte| *byte == b' ' || *byte == b'\t' || *byte == b'\r')
}

/// What TABs separate.
fn fields(alloc: Global, line: &str) -> Result<Vec<&str>, AllocError>
    ensures { IfOk result (λ fields. map (λ field. field.now) fields.items ≡ slice_split (λ b. b == 9) line.now) }
{
    line.split('\t').collect(alloc)
}

/// What stands behind the letter and the hyphen of a label.
fn name_of(field: &str) -> &str
    requires long { 2 ≤ length field.now }
    requires hyphen { slice_index field.now 1 ≡ 45 }
    ensures { result.now ≡ drop 2 field.now }
{
    &field[2..]
}

/// Whether a label is this letter, a hyphen and a name.
fn is_typed(letter: u8, field: &str) -> bool
    requires { 0 < letter }
    ensures { result ≡ is_typed letter field.now }
{
    let bytes = field.as_bytes();
    if bytes.len() < 2 || bytes[0] != letter || bytes[1] != b'-' {
        return false;
    }
    Name::fault(name_of(field)).is_none()
}

/// The form of a label, where it has one of the three.
fn form_of(field: &str) -> Option<LabelForm>
    ensures form { result ≡ form_of field.now }
{
    if field == "O" {
        Some(LabelForm::Out)
    } else if is_typed(b'B', field) {
        Some(LabelForm::Begin)
    } else if is_typed(b'I', field) {
        Some(LabelForm::Inside)
    } else {
        None
    }
}

/// The type of a name.
fn type_named(alloc: Global, conf: &Conf, name: &str) -> Result<Option<TypeId>, Memory>
    requires { name_fault name.now ≡ None }
    ensures { IfOk result (λ id. id ≡ type_named conf.now.types name.now) }
{
    match Name::new(alloc, name) {
        Ok(name) => Ok(conf.types().find(&name)),
        Err(NameFault::Memory) => Err(Memory),
        Err(_) => Ok(None),
    }
}

/// Whether a type has a name.
fn has_name(conf: &Conf, id: TypeId, name: &str) -> bool
    ensures { result ≡ true → type_named conf.now.types name.now ≡ Some id }
{
    conf.reads_back();
    match conf.types().row(id) {
        Some(row) => row.name.text() == name,
        None => false,
    }
}

/// The type of a name, which is looked up only where it is not that of this span, if there is one.
fn kind_named(
    alloc: Global,
    conf: &Conf,
    last: Option<Run>,
    name: &str,
) -> Result<Option<TypeId>, Memory>
    requires { name_fault name.now ≡ None }
    ensures { IfOk result (λ id. id ≡ type_named conf.now.types name.now) }
{
    if let Some(run) = last {
        if has_name(conf, run.kind, name) {
            return Ok(Some(run.kind));
        }
    }
    type_named(alloc, conf, name)
}

/// The characters of a text.
fn characters(alloc: Global, text: &str) -> Result<Vec<char>, AllocError>
    ensures { IfOk result (λ characters. characters.items ≡ chars text.now) }
{
    text.chars().collect(alloc)
}

/// How many characters two texts begin with in common.
fn common_len(a: &[char], b: &[char]) -> usize
    ensures value { result ≡ common_prefix_len (λ x y. x == y) a.now b.now }
    ensures within { result ≤ length b.now }
{
    let mut place: usize = 0;
    while place < a.len() && place < b.len() && a[place] == b[place] {
        place += 1;
    }
    place
}

/// The first place at which what stands for a token is not the token.
fn first_differing(
    alloc: Global,
    doc: &Doc,
    token: Frag,
    shown: &str,
    text: &str,
) -> Result<u32, Memory>
    requires { text.now ≡ token_text doc.now token }
    ensures { IfOk result (λ place. place ≡ first_differing shown.now (token_text doc.now token)) }
{
    let _few = doc.char_count();
    let _text = doc.text();
    let shown = characters(alloc, shown)?;
    let text = characters(alloc, text)?;
    Ok(common_len(&shown, &text) as u32)
}

/// Whether annotations may not have a type.
fn is_barred(conf: &Conf, id: TypeId) -> bool
    ensures { result ≡ is_barred_type conf.now id }
{
    match conf.types().row(id) {
        Some(row) => !row.usable,
        None => false,
    }
}

/// A span of a type begins at a token, where so many have begun.
fn begin_at(count: usize, token: Frag, kind: TypeId) -> Judged
    ensures { result ≡ begin_at count token kind }
{
    if token.end.saturating_sub(token.start) > LONGEST_SPAN {
        Judged::Fault(ColumnWhat::TooLong)
    } else if count >= MOST_SPANS {
        Judged::Fault(ColumnWhat::Full)
    } else {
        Judged::Read(Label::Begin(kind))
    }
}

/// The open span goes on at a token.
fn goes_on_at(run: Run, token: Frag, kind: TypeId) -> Judged
    ensures { result ≡ inside_at (Some run) token kind }
{
    if run.kind.n != kind.n {
        Judged::Fault(ColumnWhat::Orphan)
    } else if token.end.saturating_sub(run.start) > LONGEST_SPAN {
        Judged::Fault(ColumnWhat::TooLong)
    } else {
        Judged::Read(Label::Inside(kind))
    }
}

/// A span of a type goes on at a token, behind the span that is open.
fn inside_at(last: Option<Run>, token: Frag, kind: TypeId) -> Judged
    ensures { result ≡ inside_at last token kind }
{
    match last {
        Some(run) => goes_on_at(run, token, kind),
        None => Judged::Fault(ColumnWhat::Orphan),
    }
}

/// A type that a label names, where annotations may have it, or its fault.
fn usable(conf: &Conf, kind: Option<TypeId>) -> Result<TypeId, ColumnWhat>
    ensures { result ≡ usable conf.now kind }
{
    match kind {
        None => Err(ColumnWhat::UnknownType),
        Some(id) => {
            if is_barred(conf, id) {
                Err(ColumnWhat::NotForUse)
            } else {
                Ok(id)
            }
        }
    }
}

/// A label that begins a span.
fn begin_label(
    alloc: Global,
    conf: &Conf,
    before: &Before,
    token: Frag,
    name: &str,
) -> Result<Judged, Memory>
    requires { name_fault name.now ≡ None }
    ensures { IfOk result (λ answer. answer ≡ label_at conf.now before.now.last before.now.begun token LabelForm.Begin name.now) }
{
    match usable(conf, type_named(alloc, conf, name)?) {
        Ok(kind) => Ok(begin_at(before.begun, token, kind)),
        Err(what) => Ok(Judged::Fault(what)),
    }
}

/// A label that goes on with a span.
fn inside_label(
    alloc: Global,
    conf: &Conf,
    before: &Before,
    token: Frag,
    name: &str,
) -> Result<Judged, Memory>
    requires { name_fault name.now ≡ None }
    ensures { IfOk result (λ answer. answer ≡ label_at conf.now before.now.last before.now.begun token LabelForm.Inside name.now) }
{
    match usable(conf, kind_named(alloc, conf, before.last, name)?) {
        Ok(kind) => Ok(inside_at(before.last, token, kind)),
        Err(what) => Ok(Judged::Fault(what)),
    }
}

/// A label of a form at a token.
fn label_at(
    alloc: Global,
    conf: &Conf,
    before: &Before,
    token: Frag,
    form: LabelForm,
    field: &str,
) -> Result<Judged, Memory>
    requires { form_of field.now ≡ Some form }
    ensures { IfOk result (λ answer. answer ≡ label_at conf.now before.now.last before.now.begun token form (drop 2 field.now)) }
{
    match form {
        LabelForm::Out => Ok(Judged::Read(Label::Out)),
        LabelForm::Begin => begin_label(alloc, conf, before, token, name_of(field)),
        LabelForm::Inside => inside_label(alloc, conf, before, token, name_of(field)),
    }
}

/// What stands for the next token, and a label of a form.
fn token_at(
    alloc: Global,
    doc: &Doc,
    conf: &Conf,
    before: &Before,
    text: &str,
    shown: &str,
    form: LabelForm,
    field: &str,
) -> Result<Judged, Memory>
    requires form { form_of field.now ≡ Some form }
    requires next { IfSome before.now.token (λ token. text.now ≡ token_text doc.now token) }
    ensures { IfOk result (λ answer. answer ≡ token_at conf.now doc.now before.now.last before.now.begun before.now.token shown.now form (drop 2 field.now)) }
{
    let Some(token) = before.token else {
        return Ok(Judged::Fault(ColumnWhat::TooMany));
    };
    if shown == text {
        label_at(alloc, conf, before, token, form, field)
    } else {
        let place = first_differing(alloc, doc, token, shown, text)?;
        Ok(Judged::Fault(ColumnWhat::WrongToken(place)))
    }
}

/// What TABs separate.
fn fields_at(
    alloc: Global,
    doc: &Doc,
    conf: &Conf,
    before: &Before,
    text: &str,
    fields: &[&str],
) -> Result<Judged, Memory>
    requires { IfSome before.now.token (λ token. text.now ≡ token_text doc.now token) }
    ensures { IfOk result (λ answer. answer ≡ fields_at conf.now doc.now before.now.last before.now.begun before.now.token (map seen_text fields.now)) }
{
    match fields {
        [shown, field] => match form_of(field) {
            Some(form) => token_at(alloc, doc, conf, before, text, shown, form, field),
            None => Ok(Judged::Fault(ColumnWhat::BadLine)),
        },
        _ => Ok(Judged::Fault(ColumnWhat::BadLine)),
    }
}

/// A line as the label of the next token, of which this is the text, or its fault. Cost: the line.
#[tactic(auto, unfolding(crate::specs::ReadColumns::judged))]
pub(crate) fn judge(
    alloc: Global,
    doc: &Doc,
    conf: &Conf,
    before: &Before,
    text: &str,
    line: &str,
) -> Result<Judged, Memory>
    requires { IfSome before.now.token (λ token. text.now ≡ token_text doc.now token) }
    ensures { IfOk result (λ answer. answer ≡ judged conf.now doc.now before.now.last before.now.begun before.now.token line.now) }
{
    let fields = fields(alloc, line)?;
    fields_at(alloc, doc, conf, before, text, &fields)
}
