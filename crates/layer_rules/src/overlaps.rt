//! Spans that overlap as the configuration does not allow.
ghost use Rattle.std.specs.Prelude.{◌≡◌, ◌<◌, ◌≤◌, IfOk, None, IsTrue, length};
ghost use Rattle.overlap_rules.specs.Overlaps.{are_ascending, reach};
ghost use Rattle.overlap_rules.specs.TouchingSpans.{IsFirstTouching};
ghost use Rattle.layer_rules.specs.FlawPlaces.{first_place, places};
ghost use Rattle.layer_rules.specs.WellFormed.{at_overlap_refused};
ghost use Rattle.layer_rules.specs.LowestFlaw.{HasGoodSpans, refuses};

use conf_model::Conf;
use layer_model::{Flaw, FlawPlace, Layer, Rule, Span, id_at};
use mark_base::{Kind, Memory, OvlKind, TypeId};
use overlap_rules::SpanIndex;
use std::alloc::Global;

/// Whether the span of a number may not lie so to one of this type.
fn refuses(conf: &Conf, layer: &Layer, kind: TypeId, number: u32, overlap: OvlKind) -> bool
    ensures { result ≡ refuses conf.now layer.now kind number overlap }
{
    match layer.span(number) {
        Some(lower) => !conf.overlap_allowed(lower.kind, kind, overlap),
        None => false,
    }
}

/// The lowest number of the index whose span overlaps this one as the configuration does not allow.
fn first_refused(conf: &Conf, layer: &Layer, index: &SpanIndex, span: &Span) -> Option<u32>
    requires ascending { IsTrue (are_ascending span.now.frags) }
    requires some { 0 < length span.now.frags }
    requires short { reach span.now.frags ≤ 10000 }
    ensures { IsFirstTouching (λ number overlap answer. answer ≡ refuses conf.now layer.now span.now.kind number overlap) index.now span.now.frags None result }
{
    let kind = span.kind;
    let lower = index.first_touching(span.frags.items(), None, |number, overlap| {
        refuses(conf, layer, kind, number, overlap)
    })?;
    Some(lower)
}

/// The flaw of the first span that overlaps a lower one as the configuration does not allow. Cost: no
/// two spans are compared where every overlap is allowed; else the spans that are touched.
pub(crate) fn overlap_flaw(
    alloc: Global,
    layer: &Layer,
    conf: &Conf,
) -> Result<Option<Flaw>, Memory>
    requires { HasGoodSpans conf.now layer.now }
    ensures { IfOk result (λ flaw. flaw ≡ first_place (at_overlap_refused conf.now layer.now) (places layer.now)) }
{
    layer.keeps();
    if conf.allows_every_overlap() {
        return Ok(None);
    }
    let mut index = SpanIndex::new(alloc);
    for (number, span) in layer.spans() {
        if let Some(lower) = first_refused(conf, layer, &index, span) {
            let rule = Rule::OverlapRefused(id_at(Kind::Text, lower));
            let at = FlawPlace::Mark(id_at(Kind::Text, *number));
            return Ok(Some(Flaw { rule, at }));
        }
        index.put(*number, span.frags.items())?;
    }
    Ok(None)
}
