//! # lines: notes.
ghost use Rattle.std.specs.Prelude.{◌≡◌, map, IfOk};
ghost use Rattle.ann_reader.specs.LineForms.{note_form, note_by};
ghost use Rattle.ann_reader.specs.FormShows.{seen_text, seen_form};

use crate::line_form::Form;
use crate::word::words;
use mark_base::Memory;
use std::alloc::Global;

/// A # line by its words.
fn note_by<'a>(first: &'a str, words: &[&'a str], text: &'a str) -> Form<'a>
    ensures { seen_form result ≡ note_by first.now (map seen_text words.now) text.now }
{
    match words {
        [kind, target] => Form::Note {
            first,
            kind,
            target,
            text,
        },
        _ => Form::Bad,
    }
}

/// A # line: a type, a target and a text.
pub(crate) fn note_form<'a>(
    alloc: Global,
    first: &'a str,
    second: &'a str,
    text: &'a str,
) -> Result<Form<'a>, Memory>
    ensures { IfOk result (λ form. seen_form form ≡ note_form first.now second.now text.now) }
{
    let words = words(alloc, second)?;
    Ok(note_by(first, &words, text))
}
