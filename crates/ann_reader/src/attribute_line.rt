//! A and M lines: attributes.
ghost use Rattle.std.specs.Prelude.{◌≡◌, map, IfOk};
ghost use Rattle.ann_reader.specs.LineForms.{attribute_form, attribute_by};
ghost use Rattle.ann_reader.specs.FormShows.{seen_text, seen_form};

use crate::line_form::Form;
use crate::word::words;
use mark_base::Memory;
use std::alloc::Global;

/// An A or M line by its words.
fn attribute_by<'a>(first: &'a str, words: &[&'a str]) -> Form<'a>
    ensures { seen_form result ≡ attribute_by first.now (map seen_text words.now) }
{
    match words {
        [kind, target] => Form::Attribute {
            first,
            kind,
            target,
            value: None,
        },
        [kind, target, value] => Form::Attribute {
            first,
            kind,
            target,
            value: Some(value),
        },
        _ => Form::Bad,
    }
}

/// An A or M line: a type, a target, and perhaps a value.
pub(crate) fn attribute_form<'a>(
    alloc: Global,
    first: &'a str,
    second: &'a str,
) -> Result<Form<'a>, Memory>
    ensures { IfOk result (λ form. seen_form form ≡ attribute_form first.now second.now) }
{
    let words = words(alloc, second)?;
    Ok(attribute_by(first, &words))
}
