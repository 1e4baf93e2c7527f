//! E lines: events.
ghost use Rattle.std.specs.Prelude.{◌≡◌, map, IfOk, Some};
ghost use Rattle.ann_reader.specs.LineForms.{event_form, event_with};
ghost use Rattle.ann_reader.specs.FormShows.{seen_pair, seen_form};

use crate::line_form::{Form, Pair};
use crate::pairs::pairs_read;
use crate::word::words;
use mark_base::Memory;
use std::alloc::Global;

/// An E line by its pairs.
fn event_of<'a>(first: &'a str, mut pairs: Vec<Pair<'a>>) -> Form<'a>
    ensures { seen_form result ≡ event_with first.now (Some (map seen_pair pairs.entry.items)) }
{
    if pairs.is_empty() {
        return Form::Bad;
    }
    let own = pairs.remove(0);
    Form::Event {
        first,
        kind: own.role,
        trigger: own.target,
        pairs,
    }
}

/// An E line: a type with its trigger, and any number of arguments.
pub(crate) fn event_form<'a>(
    alloc: Global,
    first: &'a str,
    second: &'a str,
) -> Result<Form<'a>, Memory>
    ensures { IfOk result (λ form. seen_form form ≡ event_form first.now second.now) }
{
    let words = words(alloc, second)?;
    match pairs_read(alloc, &words)? {
        Some(pairs) => Ok(event_of(first, pairs)),
        None => Ok(Form::Bad),
    }
}
