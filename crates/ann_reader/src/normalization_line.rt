//! N lines: normalizations.
ghost use Rattle.std.specs.Prelude.{◌≡◌, bytes_eq, codes, map, IfOk, if◌then◌else◌};
ghost use Rattle.ann_reader.specs.LineForms.{BadForm, NormalForm, has_byte, before_byte, behind_byte, normal_form, normal_by};
ghost use Rattle.ann_reader.specs.FormShows.{seen_text, seen_form};

use crate::line::{before, behind, has_byte};
use crate::line_form::Form;
use crate::word::words;
use mark_base::Memory;
use std::alloc::Global;

/// Whether a word is the one that each normalization has for its type.
fn is_reference(word: &str) -> bool
    ensures { result ≡ bytes_eq word.now (codes "Reference") }
{
    word == "Reference"
}

/// An N line by its target and an entry of a store, split at its first `:`.
fn entry_form<'a>(first: &'a str, target: &'a str, entry: &'a str, text: &'a str) -> Form<'a>
    ensures { seen_form result ≡ (if has_byte 58 entry.now then NormalForm first.now target.now (before_byte 58 entry.now) (behind_byte 58 entry.now) text.now else BadForm) }
{
    if has_byte(entry.as_bytes(), b':') {
        Form::Normal {
            first,
            target,
            store: before(entry, b':'),
            entry: behind(entry, b':'),
            text,
        }
    } else {
        Form::Bad
    }
}

/// An N line by its words.
fn normal_by<'a>(first: &'a str, words: &[&'a str], text: &'a str) -> Form<'a>
    ensures { seen_form result ≡ normal_by first.now (map seen_text words.now) text.now }
{
    match words {
        [word, target, entry] => {
            if is_reference(word) {
                entry_form(first, target, entry, text)
            } else {
                Form::Bad
            }
        }
        _ => Form::Bad,
    }
}

/// An N line: the word `Reference`, a target, an entry of a store, and a text.
pub(crate) fn normal_form<'a>(
    alloc: Global,
    first: &'a str,
    second: &'a str,
    text: &'a str,
) -> Result<Form<'a>, Memory>
    ensures { IfOk result (λ form. seen_form form ≡ normal_form first.now second.now text.now) }
{
    let words = words(alloc, second)?;
    Ok(normal_by(first, &words, text))
}
