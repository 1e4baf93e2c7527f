//! The lines of the annotations and classes of a layer.
ghost use Rattle.std.specs.Prelude.{◌≡◌, ◌++◌, ◌∷◌, [], codes, map, string_bytes, encode_utf8_all, IfOk, OnOk, true};
ghost use Rattle.char_documents.specs.Texts.{all_lie_in, reference_text};
ghost use Rattle.std.specs.List.{flat_map};
ghost use Rattle.mark_base.specs.declared.ann_id.Kind.TheVariants as letter;
ghost use Rattle.ann_writer.specs.AnnOf.{attribute_line, class_line, event_line, normal_line, note_line, relation_line, span_line, value_words};
ghost use Rattle.ann_writer.specs.Words.{frags_word, id_word, line_of, line_with_text, words_behind};
ghost use Rattle.ann_writer.specs.Writable.{HasRoles, LiesIn, NormalTexts, NoteTexts};

use crate::arguments::argument_words;
use crate::words::{
    attribute_name, id_word, pair_word, push_frags, push_spelling, relation_name, relation_role,
    spelling, type_name, value_name,
};
use char_documents::{Doc, RefFault};
use conf_model::Conf;
use layer_model::{Attribute, Class, Event, Normal, Note, Relation, Span};
use mark_base::{AnnId, Frag, Kind, Memory, Text};
use std::alloc::Global;

/// Appends words, each behind a space.
fn push_words(out: &mut String, words: &[Text]) -> Result<(), Memory>
    ensures { OnOk result (string_bytes out.new ≡ string_bytes out.old ++ words_behind words.now) }
{
    for word in words {
        out.push_str(" ")?;
        out.push_str(word.text())?;
    }
    Ok(())
}

/// Appends the first field of a line, a TAB, a type and more words.
fn push_fields(out: &mut String, first: &str, kind: &str, words: &[Text]) -> Result<(), Memory>
    ensures { OnOk result (string_bytes out.new ≡ string_bytes out.old ++ (first.now ++ codes "\t" ++ kind.now ++ words_behind words.now)) }
{
    out.push_str(first)?;
    out.push_str("\t")?;
    out.push_str(kind)?;
    push_words(out, words)
}

/// Appends a line.
fn push_line(out: &mut String, first: &str, kind: &str, words: &[Text]) -> Result<(), Memory>
    ensures { OnOk result (string_bytes out.new ≡ string_bytes out.old ++ line_of first.now kind.now words.now) }
{
    push_fields(out, first, kind, words)?;
    out.push_str("\n")?;
    Ok(())
}

/// Appends a line that has a third field.
fn push_with_text(
    out: &mut String,
    first: &str,
    kind: &str,
    words: &[Text],
    text: &str,
) -> Result<(), Memory>
    ensures { OnOk result (string_bytes out.new ≡ string_bytes out.old ++ line_with_text first.now kind.now words.now text.now) }
{
    push_fields(out, first, kind, words)?;
    out.push_str("\t")?;
    out.push_str(text)?;
    out.push_str("\n")?;
    Ok(())
}

/// The reference text of fragments that lie in a text.
fn reference(doc: &Doc, frags: &[Frag]) -> Result<Text, Memory>
    requires { all_lie_in doc.now frags.now ≡ true }
    ensures { IfOk result (λ text. text ≡ encode_utf8_all (reference_text doc.now frags.now)) }
{
    match doc.reference(frags) {
        Ok(text) => Ok(text),
        Err(RefFault::OutOfText) => unreachable!(),
        Err(RefFault::Memory) => Err(Memory),
    }
}

/// Appends the fragments of a span as a word behind a space.
fn push_place(out: &mut String, frags: &[Frag]) -> Result<(), Memory>
    ensures { OnOk result (string_bytes out.new ≡ string_bytes out.old ++ words_behind (frags_word frags.now ∷ [])) }
{
    out.push_str(" ")?;
    push_frags(out, frags)
}

/// Appends the line of a span.
pub(crate) fn push_span(
    out: &mut String,
    doc: &Doc,
    conf: &Conf,
    number: u32,
    span: &Span,
) -> Result<(), Memory>
    requires { LiesIn doc.now span.now }
    ensures { OnOk result (string_bytes out.new ≡ string_bytes out.old ++ span_line conf.now doc.now number span.now) }
{
    push_spelling(out, Kind::Text, number)?;
    out.push_str("\t")?;
    out.push_str(type_name(conf, span.kind))?;
    push_place(out, span.frags.items())?;
    out.push_str("\t")?;
    out.push_str(reference(doc, span.frags.items())?.text())?;
    out.push_str("\n")?;
    Ok(())
}

/// Appends the line of an event.
pub(crate) fn push_event(
    alloc: Global,
    out: &mut String,
    conf: &Conf,
    number: u32,
    event: &Event,
) -> Result<(), Memory>
    requires { HasRoles conf.now event.now }
    ensures { OnOk result (string_bytes out.new ≡ string_bytes out.old ++ event_line conf.now number event.now) }
{
    let first = spelling(alloc, Kind::Event, number)?;
    let by = spelling(alloc, Kind::Text, event.trigger)?;
    let stated = pair_word(alloc, type_name(conf, event.kind), by.text())?;
    let words = argument_words(alloc, conf, event.kind, event.args.items())?;
    push_line(out, first.text(), stated.text(), words.as_slice())
}

/// Appends the line of a relation.
pub(crate) fn push_relation(
    alloc: Global,
    out: &mut String,
    conf: &Conf,
    number: u32,
    relation: &Relation,
) -> Result<(), Memory>
    ensures { OnOk result (string_bytes out.new ≡ string_bytes out.old ++ relation_line conf.now number relation.now) }
{
    let id = spelling(alloc, Kind::Relation, number)?;
    let first = id_word(alloc, relation.first)?;
    let second = id_word(alloc, relation.second)?;
    let kind = relation.kind;
    let mut words = Vec::new(alloc);
    words.push(pair_word(alloc, relation_role(conf, kind, false), first.text())?)?;
    words.push(pair_word(alloc, relation_role(conf, kind, true), second.text())?)?;
    push_line(out, id.text(), relation_name(conf, kind), words.as_slice())
}

/// The IDs of members.
fn id_words(alloc: Global, ids: &[AnnId]) -> Result<Vec<Text>, Memory>
    ensures { IfOk result (λ words. words.items ≡ map id_word ids.now) }
{
    let mut words = Vec::new(alloc);
    for id in ids {
        words.push(id_word(alloc, *id)?)?;
    }
    Ok(words)
}

/// Appends the line of a class.
pub(crate) fn push_class(
    alloc: Global,
    out: &mut String,
    conf: &Conf,
    class: &Class,
) -> Result<(), Memory>
    ensures { OnOk result (string_bytes out.new ≡ string_bytes out.old ++ class_line conf.now class.now) }
{
    let words = id_words(alloc, class.members.items())?;
    push_line(out, "*", relation_name(conf, class.kind), words.as_slice())
}

/// The words of an attribute behind its name.
fn attribute_words(alloc: Global, conf: &Conf, attribute: &Attribute) -> Result<Vec<Text>, Memory>
    ensures { IfOk result (λ words. words.items ≡ id_word attribute.now.target ∷ value_words conf.now attribute.now.kind.n attribute.now.value) }
{
    let mut words = Vec::new(alloc);
    words.push(id_word(alloc, attribute.target)?)?;
    if let Some(value) = attribute.value {
        words.push(Text::of(alloc, value_name(conf, attribute.kind, value))?)?;
    }
    Ok(words)
}

/// Appends the line of an attribute, under the letter `A` or `M`.
pub(crate) fn push_attribute(
    alloc: Global,
    out: &mut String,
    conf: &Conf,
    kind: Kind,
    number: u32,
    attribute: &Attribute,
) -> Result<(), Memory>
    ensures { OnOk result (string_bytes out.new ≡ string_bytes out.old ++ attribute_line conf.now kind number attribute.now) }
{
    let first = spelling(alloc, kind, number)?;
    let words = attribute_words(alloc, conf, attribute)?;
    push_line(
        out,
        first.text(),
        attribute_name(conf, attribute.kind),
        words.as_slice(),
    )
}

/// Appends the line of a normalization.
pub(crate) fn push_normal(
    alloc: Global,
    out: &mut String,
    number: u32,
    normal: &Normal,
) -> Result<(), Memory>
    ensures line { OnOk result (string_bytes out.new ≡ string_bytes out.old ++ normal_line number normal.now) }
    ensures texts { OnOk result (NormalTexts normal.now) }
{
    let first = spelling(alloc, Kind::Normal, number)?;
    let mut words = Vec::new(alloc);
    words.push(id_word(alloc, normal.target)?)?;
    words.push(pair_word(alloc, normal.store.text(), normal.entry.text())?)?;
    push_with_text(
        out,
        first.text(),
        "Reference",
        words.as_slice(),
        normal.text.text(),
    )
}

/// Appends the line of a note.
pub(crate) fn push_note(
    alloc: Global,
    out: &mut String,
    number: u32,
    note: &Note,
) -> Result<(), Memory>
    ensures line { OnOk result (string_bytes out.new ≡ string_bytes out.old ++ note_line number note.now) }
    ensures texts { OnOk result (NoteTexts note.now) }
{
    let first = spelling(alloc, Kind::Note, number)?;
    let mut words = Vec::new(alloc);
    words.push(id_word(alloc, note.target)?)?;
    push_with_text(
        out,
        first.text(),
        note.kind.text(),
        words.as_slice(),
        note.text.text(),
    )
}
