//! R lines: relations.
ghost use Rattle.std.specs.Prelude.{◌≡◌, map, IfOk, Some};
ghost use Rattle.ann_reader.specs.LineForms.{relation_form, relation_by, relation_with};
ghost use Rattle.ann_reader.specs.FormShows.{seen_text, seen_pair, seen_form};

use crate::line_form::{Form, Pair};
use crate::pairs::pairs_read;
use crate::word::words;
use mark_base::Memory;
use std::alloc::Global;

/// An R line by its pairs.
fn relation_of<'a>(first: &'a str, kind: &'a str, pairs: &[Pair<'a>]) -> Form<'a>
    ensures { seen_form result ≡ relation_with first.now kind.now (Some (map seen_pair pairs.now)) }
{
    match pairs {
        [a, b] => Form::Relation {
            first,
            kind,
            a: *a,
            b: *b,
        },
        _ => Form::Bad,
    }
}

/// An R line by its words.
fn relation_by<'a>(alloc: Global, first: &'a str, words: &[&'a str]) -> Result<Form<'a>, Memory>
    ensures { IfOk result (λ form. seen_form form ≡ relation_by first.now (map seen_text words.now)) }
{
    match words {
        [] => Ok(Form::Bad),
        [kind, more @ ..] => match pairs_read(alloc, more)? {
            Some(pairs) => Ok(relation_of(first, kind, &pairs)),
            None => Ok(Form::Bad),
        },
    }
}

/// An R line: a type and two arguments.
pub(crate) fn relation_form<'a>(
    alloc: Global,
    first: &'a str,
    second: &'a str,
) -> Result<Form<'a>, Memory>
    ensures { IfOk result (λ form. seen_form form ≡ relation_form first.now second.now) }
{
    let words = words(alloc, second)?;
    relation_by(alloc, first, &words)
}
