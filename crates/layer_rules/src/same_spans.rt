//! Spans that have the type and the fragments of another.
ghost use Rattle.std.specs.Prelude.{◌≡◌, IfOk, map};
ghost use Rattle.std.specs.FinMap as finite;
ghost use Rattle.std.specs.Ordering.{nat_cmp};
ghost use Rattle.mark_base.specs.declared.ann_id.Kind.TheVariants as letter;
ghost use Rattle.layer_rules.specs.Repeats.{keyed, shown, span_key};
ghost use Rattle.layer_rules.specs.FlawPlaces.{first_place, places};
ghost use Rattle.layer_rules.specs.WellFormed.{at_same_span};

use crate::repeats::{KeyedId, first_repeat};
use layer_model::{Flaw, FlawPlace, Layer, Rule, Span, id_at};
use mark_base::{Kind, Memory};
use std::alloc::Global;
use std::collections::BTreeMap;

/// The numbers that stand for a span: its type, and the start and end of each fragment.
fn span_key(alloc: Global, span: &Span) -> Result<Vec<u64>, Memory>
    ensures { IfOk result (λ key. key.items ≡ span_key span.now) }
{
    let mut key = Vec::new(alloc);
    key.push(span.kind.n as u64)?;
    let frags = span.frags.items();
    for frag in frags {
        key.push(frag.start as u64)?;
        key.push(frag.end as u64)?;
    }
    Ok(key)
}

/// The spans by their numbers, each with the numbers that stand for it.
fn keyed_spans(alloc: Global, spans: &BTreeMap<u32, Span>) -> Result<Vec<KeyedId>, Memory>
    ensures { IfOk result (λ all. map shown all.items ≡ keyed letter.Text span_key (finite.entries (finite.from_entries {R = nat_cmp} spans.now.entries))) }
{
    let mut all = Vec::new(alloc);
    for (number, span) in spans {
        let id = id_at(Kind::Text, *number);
        let key = span_key(alloc, span)?;
        all.push(KeyedId { id, key })?;
    }
    Ok(all)
}

/// The flaw at the first span that has the type and the fragments of another. Cost: the fragments of
/// all spans, times the logarithm of their number.
pub(crate) fn same_span_flaw(alloc: Global, layer: &Layer) -> Result<Option<Flaw>, Memory>
    ensures { IfOk result (λ flaw. flaw ≡ first_place (at_same_span layer.now) (places layer.now)) }
{
    layer.keeps();
    let all = keyed_spans(alloc, layer.spans())?;
    let repeat = first_repeat(alloc, all.as_slice())?;
    match repeat {
        Some(repeat) => Ok(Some(Flaw {
            rule: Rule::SameSpan(repeat.first),
            at: FlawPlace::Mark(repeat.again),
        })),
        None => Ok(None),
    }
}
