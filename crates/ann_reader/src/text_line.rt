//! T lines: text-bound annotations.
ghost use Rattle.std.specs.Prelude.{◌≡◌, IfOk};
ghost use Rattle.ann_reader.specs.LineForms.{text_form};
ghost use Rattle.ann_reader.specs.FormShows.{seen_form};

use crate::line::cut;
use crate::line_form::Form;
use crate::word::{frags_read, is_padded, without_spaces};
use mark_base::Memory;
use std::alloc::Global;

/// A T line: a type, fragments and a text. Cost: the second field.
pub(crate) fn text_form<'a>(
    alloc: Global,
    first: &'a str,
    second: &'a str,
    text: &'a str,
) -> Result<Form<'a>, Memory>
    ensures { IfOk result (λ form. seen_form form ≡ text_form first.now second.now text.now) }
{
    if is_padded(second.as_bytes()) {
        return Ok(Form::Bad);
    }
    match cut(second, b' ') {
        Some((kind, rest)) => match frags_read(alloc, without_spaces(rest))? {
            Some(frags) => Ok(Form::Text {
                first,
                kind,
                frags,
                text,
            }),
            None => Ok(Form::Bad),
        },
        None => Ok(Form::Bad),
    }
}
