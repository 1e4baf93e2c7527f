//! The forms of lines: the parts of a line as they are spelt, by its first letter.
ghost use Rattle.std.specs.Prelude.{◌≡◌, IfOk};
ghost use Rattle.ann_reader.specs.Lines.{has_tab};
ghost use Rattle.ann_reader.specs.LineForms.{two_form, three_form, of_two, of_three, begins_two, begins_three, form_by, form_of};
ghost use Rattle.ann_reader.specs.FormShows.{seen_form};

use crate::attribute_line::attribute_form;
use crate::class_line::class_form;
use crate::event_line::event_form;
use crate::line::{before, cut, has_byte, without_end, without_return};
use crate::normalization_line::normal_form;
use crate::note_line::note_form;
use crate::relation_line::relation_form;
use crate::text_line::text_form;
use crate::word::first_byte;
use mark_base::{Frag, Memory};
use std::alloc::Global;

/// A pair `Role:ID` by its parts.
#[derive(Clone, Copy)]
pub(crate) struct Pair<'a> {
    pub role: &'a str,
    pub target: &'a str,
}

/// A line by its parts as they are spelt, or `Bad` where it has none of the forms.
#[derive(Drop)]
pub(crate) enum Form<'a> {
    Bad,
    Text {
        first: &'a str,
        kind: &'a str,
        frags: Vec<Frag>,
        text: &'a str,
    },
    Event {
        first: &'a str,
        kind: &'a str,
        trigger: &'a str,
        pairs: Vec<Pair<'a>>,
    },
    Relation {
        first: &'a str,
        kind: &'a str,
        a: Pair<'a>,
        b: Pair<'a>,
    },
    Attribute {
        first: &'a str,
        kind: &'a str,
        target: &'a str,
        value: Option<&'a str>,
    },
    Class {
        kind: &'a str,
        ids: Vec<&'a str>,
    },
    Normal {
        first: &'a str,
        target: &'a str,
        store: &'a str,
        entry: &'a str,
        text: &'a str,
    },
    Note {
        first: &'a str,
        kind: &'a str,
        target: &'a str,
        text: &'a str,
    },
}

/// Whether a TAB stands in a text.
fn has_tab(text: &str) -> bool
    ensures { result ≡ has_tab text.now }
{
    has_byte(text.as_bytes(), b'\t')
}

/// The form of two fields of a line that begins with this byte.
fn two_form<'a>(
    alloc: Global,
    byte: u8,
    first: &'a str,
    second: &'a str,
) -> Result<Form<'a>, Memory>
    ensures { IfOk result (λ form. seen_form form ≡ two_form byte first.now second.now) }
{
    match byte {
        b'E' => event_form(alloc, first, second),
        b'R' => relation_form(alloc, first, second),
        b'*' => class_form(alloc, first, second),
        _ => attribute_form(alloc, first, second),
    }
}

/// The form of a line of two fields. Spaces, TABs and one carriage return at its end are dropped.
fn of_two<'a>(alloc: Global, byte: u8, line: &'a str) -> Result<Form<'a>, Memory>
    ensures { IfOk result (λ form. seen_form form ≡ of_two byte line.now) }
{
    match cut(without_end(line), b'\t') {
        Some((_, second)) => {
            if has_tab(second) {
                Ok(Form::Bad)
            } else {
                two_form(alloc, byte, before(line, b'\t'), second)
            }
        }
        None => Ok(Form::Bad),
    }
}

/// The form of three fields of a line that begins with this byte.
fn three_form<'a>(
    alloc: Global,
    byte: u8,
    first: &'a str,
    second: &'a str,
    text: &'a str,
) -> Result<Form<'a>, Memory>
    ensures { IfOk result (λ form. seen_form form ≡ three_form byte first.now second.now text.now) }
{
    match byte {
        b'T' => text_form(alloc, first, second, text),
        b'N' => normal_form(alloc, first, second, text),
        _ => note_form(alloc, first, second, text),
    }
}

/// The form of a line of three fields, of which the third may be absent on an N line.
fn of_three<'a>(alloc: Global, byte: u8, line: &'a str) -> Result<Form<'a>, Memory>
    ensures { IfOk result (λ form. seen_form form ≡ of_three byte line.now) }
{
    match cut(line, b'\t') {
        Some((first, rest)) => match cut(rest, b'\t') {
            Some((second, text)) => three_form(alloc, byte, first, second, without_return(text)),
            None => {
                if byte == b'N' {
                    three_form(alloc, byte, first, rest, "")
                } else {
                    Ok(Form::Bad)
                }
            }
        },
        None => Ok(Form::Bad),
    }
}

/// Whether a line of two fields begins with this byte.
pub(crate) fn begins_two(byte: u8) -> bool
    ensures { result ≡ begins_two byte }
{
    byte == b'E' || byte == b'R' || byte == b'A' || byte == b'M' || byte == b'*'
}

/// Whether a line of three fields begins with this byte.
fn begins_three(byte: u8) -> bool
    ensures { result ≡ begins_three byte }
{
    byte == b'T' || byte == b'N' || byte == b'#'
}

/// The form of a line that begins with this byte.
fn form_by<'a>(alloc: Global, byte: u8, line: &'a str) -> Result<Form<'a>, Memory>
    ensures { IfOk result (λ form. seen_form form ≡ form_by byte line.now) }
{
    if begins_two(byte) {
        of_two(alloc, byte, line)
    } else if begins_three(byte) {
        of_three(alloc, byte, line)
    } else {
        Ok(Form::Bad)
    }
}

/// The form of a line, by its first byte. Cost: the line.
pub(crate) fn form_of<'a>(alloc: Global, line: &'a str) -> Result<Form<'a>, Memory>
    ensures { IfOk result (λ form. seen_form form ≡ form_of line.now) }
{
    form_by(alloc, first_byte(line.as_bytes()), line)
}
