//! `*` lines: equivalence classes.
ghost use Rattle.std.specs.Prelude.{◌≡◌, map, IfOk};
ghost use Rattle.ann_reader.specs.LineForms.{class_form, class_by};
ghost use Rattle.ann_reader.specs.FormShows.{seen_text, seen_form};

use crate::line_form::Form;
use crate::word::words;
use mark_base::Memory;
use std::alloc::Global;

/// Some words.
fn copied<'a>(alloc: Global, words: &[&'a str]) -> Result<Vec<&'a str>, Memory>
    ensures { IfOk result (λ copy. map seen_text copy.items ≡ map seen_text words.now) }
{
    Ok(Vec::from_slice(alloc, words)?)
}

/// A `*` line by its words.
fn class_by<'a>(alloc: Global, first: &'a str, words: &[&'a str]) -> Result<Form<'a>, Memory>
    ensures { IfOk result (λ form. seen_form form ≡ class_by first.now (map seen_text words.now)) }
{
    match words {
        [kind, ids @ ..] => {
            if ids.is_empty() || first != "*" {
                return Ok(Form::Bad);
            }
            let ids = copied(alloc, ids)?;
            Ok(Form::Class { kind, ids })
        }
        [] => Ok(Form::Bad),
    }
}

/// A `*` line: a type and members.
pub(crate) fn class_form<'a>(
    alloc: Global,
    first: &'a str,
    second: &'a str,
) -> Result<Form<'a>, Memory>
    ensures { IfOk result (λ form. seen_form form ≡ class_form first.now second.now) }
{
    let words = words(alloc, second)?;
    class_by(alloc, first, &words)
}
