//! What one annotation can have made faulty in a layer that was well-formed before it was put under its ID.
//!
//! A rule on one place can be broken only at the annotation, at those that name it and at the classes that
//! have it; a rule on pairs only by a pair with it, and such a pair is found among those that name what it
//! names, or among the spans that touch it. Chains of events can have become longer only where it has an
//! event as an argument; only then are all chains walked.
ghost use Rattle.std.specs.Prelude.{◌≡◌, ◌<◌, ◌≤◌, ℕ, false, IfOk, IsTrue, Some, true, length, count_by, option_map};
ghost use Rattle.std.specs.Option.{option_map_or};
ghost use Rattle.std.specs.List.{list_any};
ghost use Rattle.layer_model.specs.Layers.{has, mark_at};
ghost use Rattle.layer_model.specs.declared.rule.Rule.{Rule};
ghost use Rattle.conf_model.specs.Configurations.{Configuration};
ghost use Rattle.overlap_rules.specs.Overlaps.{are_ascending, reach};
ghost use Rattle.overlap_rules.specs.TouchingSpans.{IsFirstTouching};
ghost use Rattle.layer_model.specs.Annotations.{Annotations};
ghost use Rattle.layer_rules.specs.LayerRules.{is_event_id, same_attributes, same_events, same_relations, same_spans};
ghost use Rattle.layer_rules.specs.LowestFlaw.{HasGoodSpans, refuses};
ghost use Rattle.layer_rules.specs.WellFormed.{IsWellFormed, at_layer_full, at_too_deep, first_told};
ghost use Rattle.layer_core.specs.Backs.{DiffersUnder};
ghost use Rattle.layer_core.specs.Changes.{changed_rule};
ghost use Rattle.layer_core.specs.Commands.{lower_rule};
ghost use Rattle.layer_core.specs.Indexes.{IsIndex};
ghost use Rattle.layer_core.specs.Near.{PairsName, WasWellFormed, class_near, is_below, is_same_span, later_near, leads_to_event, lowest_class_rule, lowest_rule, members_near, members_of_near, near_ids, other_pair, overlap_near, pairs_near, rule_of_first, single_near};

use crate::command_rules::has_id;
use crate::first_annotation::{event_of, relation_of, span_of};
use crate::index::Index;
use crate::pairs::{Pairs, SameAttributes, SameEvents, SameRelations, are_same_spans, first_other};
use char_documents::Doc;
use conf_model::Conf;
use layer_model::{Class, Layer, Rule, Span, id_at, rank};
use layer_rules::{
    annotation_rule, class_rule, deep_flaw, equiv_members, full_flaw, is_id, text_rule,
};
use mark_base::{AnnId, Arg, Kind, Memory, OvlKind, TypeId};
use std::alloc::Global;

// ---- the rules on one annotation or class

/// The one of two rules that has the lower number, and the first of two of one number.
pub(crate) fn lower_rule(a: Option<Rule>, b: Option<Rule>) -> Option<Rule>
    ensures { result ≡ lower_rule a b }
{
    match (a, b) {
        (Some(a), Some(b)) => {
            if b.number() < a.number() {
                Some(b)
            } else {
                Some(a)
            }
        }
        (None, b) => b,
        (a, None) => a,
    }
}

/// How many of some IDs stand below another.
fn count_below(id: AnnId, ids: &[AnnId]) -> usize
    ensures count { result ≡ count_by (is_below id) ids.now }
    ensures within { result ≤ length ids.now }
{
    ids.iter().filter(|other| rank(**other) < rank(id)).count()
}

/// The annotation of an ID and those that name it, ascending. Cost: their number and what they name.
fn near_ids(alloc: Global, layer: &Layer, index: &Index, id: AnnId) -> Result<Vec<AnnId>, Memory>
    requires there { has layer.now id ≡ true }
    requires index { IsIndex (Some id) layer.now index.now }
    ensures { IfOk result (λ ids. ids.items ≡ near_ids layer.now id) }
{
    layer.keeps();
    let mut ids = index.namers(alloc, layer, Some(id), id)?;
    let place = count_below(id, &ids);
    ids.insert(place, id)?;
    Ok(ids)
}

/// The rule of the lowest number that some annotations break, each with what it names.
fn lowest_rule(conf: &Conf, characters: u32, layer: &Layer, ids: &[AnnId]) -> Option<Rule>
    ensures { result ≡ lowest_rule conf.now characters layer.now ids.now }
{
    let mut lowest = None;
    for id in ids {
        lowest = lower_rule(lowest, annotation_rule(conf, characters, layer, *id));
    }
    lowest
}

/// The rule that a class which has the annotation of an ID breaks by itself.
fn class_near(conf: &Conf, layer: &Layer, id: AnnId, class: &Class) -> Option<Rule>
    ensures { result ≡ class_near conf.now layer.now id class.now }
{
    if has_id(class.members.items(), id) {
        class_rule(conf, layer, class)
    } else {
        None
    }
}

/// The rule of the lowest number that the classes which have the annotation of an ID break, each by itself.
fn lowest_class_rule(conf: &Conf, layer: &Layer, id: AnnId, classes: &[Class]) -> Option<Rule>
    ensures { result ≡ lowest_class_rule conf.now layer.now id classes.now }
{
    let mut lowest = None;
    for class in classes {
        lowest = lower_rule(lowest, class_near(conf, layer, id, class));
    }
    lowest
}

/// The rule of the lowest number, of those on one annotation or class, that is broken near the annotation
/// of an ID.
fn single_rule(
    alloc: Global,
    conf: &Conf,
    characters: u32,
    layer: &Layer,
    index: &Index,
    id: AnnId,
) -> Result<Option<Rule>, Memory>
    requires there { has layer.now id ≡ true }
    requires index { IsIndex (Some id) layer.now index.now }
    ensures { IfOk result (λ rule. rule ≡ single_near conf.now characters layer.now id) }
{
    let ids = near_ids(alloc, layer, index, id)?;
    let marks = lowest_rule(conf, characters, layer, &ids);
    let classes = lowest_class_rule(conf, layer, id, layer.classes());
    Ok(lower_rule(marks, classes))
}

// ---- the rule on chains of events

/// Whether some argument is an event.
fn some_event(args: &[Arg]) -> bool
    ensures { result ≡ list_any (λ arg. is_event_id arg.target) args.now }
{
    for arg in args {
        if arg.target.kind == Kind::Event {
            return true;
        }
    }
    false
}

/// Whether the annotation of an ID is an event that has an event as an argument.
fn leads_to_event(layer: &Layer, id: AnnId) -> bool
    ensures { result ≡ option_map_or leads_to_event (mark_at layer.now id) false }
{
    match event_of(layer, id) {
        Some(event) => some_event(event.args.items()),
        None => false,
    }
}

/// The rule on chains, where a chain is too deep. Cost: none where the annotation leads to no event.
fn deep_rule(alloc: Global, layer: &Layer, id: AnnId) -> Result<Option<Rule>, Memory>
    requires { (conf : Configuration) × (characters : ℕ) × WasWellFormed conf characters layer.now id }
    ensures { IfOk result (λ rule. rule ≡ rule_of_first (at_too_deep layer.now) layer.now) }
{
    if !leads_to_event(layer, id) {
        return Ok(None);
    }
    match deep_flaw(alloc, layer)? {
        Some(flaw) => Ok(Some(flaw.rule)),
        None => Ok(None),
    }
}

// ---- the rules on pairs

/// Whether the span of a number is the same as another.
fn is_same_span(layer: &Layer, span: &Span, number: u32) -> bool
    ensures { result ≡ is_same_span layer.now span.now number }
{
    match layer.span(number) {
        Some(other) => are_same_spans(span, other),
        None => false,
    }
}

/// The lowest number but one whose span is the same as this.
fn first_same(layer: &Layer, index: &Index, but: u32, span: &Span) -> Option<u32>
    requires ascending { IsTrue (are_ascending span.now.frags) }
    requires some { 0 < length span.now.frags }
    requires short { reach span.now.frags ≤ 10000 }
    ensures { IsFirstTouching (λ number overlap answer. answer ≡ is_same_span layer.now span.now number) index.now.spans span.now.frags (Some but) result }
{
    let number = index
        .spans
        .first_touching(span.frags.items(), Some(but), |number, _| {
            is_same_span(layer, span, number)
        })?;
    Some(number)
}

/// The rule on spans that are the same, where another is the same as that of an ID.
fn same_span(layer: &Layer, index: &Index, id: AnnId) -> Option<Rule>
    requires good { (conf : Configuration) × HasGoodSpans conf layer.now }
    requires index { IsIndex (Some id) layer.now index.now }
    ensures { result ≡ option_map Rule.SameSpan (other_pair same_spans layer.now id) }
{
    layer.keeps();
    match span_of(layer, id) {
        Some(span) => match first_same(layer, index, id.number, span) {
            Some(number) => Some(Rule::SameSpan(id_at(Kind::Text, number))),
            None => None,
        },
        None => None,
    }
}

/// The lowest other annotation that does not go with the one of an ID, where all that do not name a third.
fn other_among<P: Pairs>(
    alloc: Global,
    pairs: &P,
    layer: &Layer,
    index: &Index,
    id: AnnId,
    named: AnnId,
) -> Result<Option<AnnId>, Memory>
    requires index { IsIndex (Some id) layer.now index.now }
    requires all { PairsName (P.told pairs.now) layer.now id named }
    ensures { IfOk result (λ found. found ≡ other_pair (P.told pairs.now) layer.now id) }
{
    let ids = index.namers(alloc, layer, Some(id), named)?;
    Ok(first_other(pairs, layer, id, &ids))
}

/// The rule on events that are the same, where another is the same as that of an ID.
fn same_event(
    alloc: Global,
    layer: &Layer,
    index: &Index,
    id: AnnId,
) -> Result<Option<Rule>, Memory>
    requires { IsIndex (Some id) layer.now index.now }
    ensures { IfOk result (λ rule. rule ≡ option_map Rule.SameEvent (other_pair same_events layer.now id)) }
{
    let Some(event) = event_of(layer, id) else {
        return Ok(None);
    };
    let trigger = id_at(Kind::Text, event.trigger);
    match other_among(alloc, &SameEvents, layer, index, id, trigger)? {
        Some(other) => Ok(Some(Rule::SameEvent(other))),
        None => Ok(None),
    }
}

/// The rule on relations that are the same, where another is the same as that of an ID.
fn same_relation(
    alloc: Global,
    layer: &Layer,
    index: &Index,
    id: AnnId,
) -> Result<Option<Rule>, Memory>
    requires { IsIndex (Some id) layer.now index.now }
    ensures { IfOk result (λ rule. rule ≡ option_map Rule.SameRelation (other_pair same_relations layer.now id)) }
{
    let Some(relation) = relation_of(layer, id) else {
        return Ok(None);
    };
    match other_among(alloc, &SameRelations, layer, index, id, relation.first)? {
        Some(other) => Ok(Some(Rule::SameRelation(other))),
        None => Ok(None),
    }
}

/// The rule on attributes of one type on one target, where there is another than that of an ID.
fn attribute_there(
    alloc: Global,
    layer: &Layer,
    index: &Index,
    id: AnnId,
) -> Result<Option<Rule>, Memory>
    requires { IsIndex (Some id) layer.now index.now }
    ensures { IfOk result (λ rule. rule ≡ option_map Rule.AttributeThere (other_pair same_attributes layer.now id)) }
{
    let Some(attribute) = layer.attribute(id) else {
        return Ok(None);
    };
    match other_among(alloc, &SameAttributes, layer, index, id, attribute.target)? {
        Some(other) => Ok(Some(Rule::AttributeThere(other))),
        None => Ok(None),
    }
}

/// The rule on annotations that are the same, where another is the same as that of an ID.
fn pairs_rule(
    alloc: Global,
    layer: &Layer,
    index: &Index,
    id: AnnId,
) -> Result<Option<Rule>, Memory>
    requires good { (conf : Configuration) × HasGoodSpans conf layer.now }
    requires index { IsIndex (Some id) layer.now index.now }
    ensures { IfOk result (λ rule. rule ≡ pairs_near layer.now id) }
{
    let spans = same_span(layer, index, id);
    let events = same_event(alloc, layer, index, id)?;
    let relations = same_relation(alloc, layer, index, id)?;
    let attributes = attribute_there(alloc, layer, index, id)?;
    Ok(spans.or(events.or(relations.or(attributes))))
}

// ---- the rules on members and on overlaps

/// The rule on members, where a class that has the annotation of an ID breaks it.
fn members_of_near(conf: &Conf, layer: &Layer, id: AnnId, class: &Class) -> Option<Rule>
    ensures { result ≡ members_of_near conf.now layer.now id class.now }
{
    if has_id(class.members.items(), id) {
        equiv_members(conf, layer, class)
    } else {
        None
    }
}

/// The rule on members, where one of some classes has the annotation of an ID and breaks it.
fn first_members(conf: &Conf, layer: &Layer, id: AnnId, classes: &[Class]) -> Option<Rule>
    ensures { result ≡ first_told (members_of_near conf.now layer.now id) classes.now }
{
    for class in classes {
        if let Some(rule) = members_of_near(conf, layer, id, class) {
            return Some(rule);
        }
    }
    None
}

/// The rule on members, where some class that has the annotation of an ID breaks it.
fn members_rule(conf: &Conf, layer: &Layer, id: AnnId) -> Option<Rule>
    ensures { result ≡ members_near conf.now layer.now id }
{
    first_members(conf, layer, id, layer.classes())
}

/// Whether the span of a number may not lie so to one of this type.
fn refuses(conf: &Conf, layer: &Layer, kind: TypeId, number: u32, overlap: OvlKind) -> bool
    ensures { result ≡ refuses conf.now layer.now kind number overlap }
{
    match layer.span(number) {
        Some(other) => !conf.overlap_allowed(other.kind, kind, overlap),
        None => false,
    }
}

/// The lowest number but one whose span overlaps this one as the configuration does not allow.
fn first_refused(conf: &Conf, layer: &Layer, index: &Index, but: u32, span: &Span) -> Option<u32>
    requires ascending { IsTrue (are_ascending span.now.frags) }
    requires some { 0 < length span.now.frags }
    requires short { reach span.now.frags ≤ 10000 }
    ensures { IsFirstTouching (λ number overlap answer. answer ≡ refuses conf.now layer.now span.now.kind number overlap) index.now.spans span.now.frags (Some but) result }
{
    let kind = span.kind;
    let number = index
        .spans
        .first_touching(span.frags.items(), Some(but), |number, overlap| {
            refuses(conf, layer, kind, number, overlap)
        })?;
    Some(number)
}

/// The rule on overlaps, where another span than that of an ID may not lie so to it.
fn overlap_rule(conf: &Conf, layer: &Layer, index: &Index, id: AnnId) -> Option<Rule>
    requires good { HasGoodSpans conf.now layer.now }
    requires index { IsIndex (Some id) layer.now index.now }
    ensures { result ≡ overlap_near conf.now layer.now id }
{
    layer.keeps();
    if conf.allows_every_overlap() {
        return None;
    }
    match span_of(layer, id) {
        Some(span) => match first_refused(conf, layer, index, id.number, span) {
            Some(number) => Some(Rule::OverlapRefused(id_at(Kind::Text, number))),
            None => None,
        },
        None => None,
    }
}

// ---- all rules

/// The rule on how many annotations there are, where there are too many of a sort.
fn full_rule(layer: &Layer) -> Option<Rule>
    ensures { result ≡ rule_of_first (at_layer_full layer.now) layer.now }
{
    match full_flaw(layer) {
        Some(flaw) => Some(flaw.rule),
        None => None,
    }
}

/// The first of the rules behind those on one annotation or class that is broken because of the annotation
/// of an ID.
fn later_rule(
    alloc: Global,
    conf: &Conf,
    layer: &Layer,
    index: &Index,
    id: AnnId,
) -> Result<Option<Rule>, Memory>
    requires was { (characters : ℕ) × WasWellFormed conf.now characters layer.now id }
    requires good { HasGoodSpans conf.now layer.now }
    requires index { IsIndex (Some id) layer.now index.now }
    ensures { IfOk result (λ rule. rule ≡ later_near conf.now layer.now id) }
{
    if let Some(rule) = deep_rule(alloc, layer, id)? {
        return Ok(Some(rule));
    }
    if let Some(rule) = pairs_rule(alloc, layer, index, id)? {
        return Ok(Some(rule));
    }
    if let Some(rule) = members_rule(conf, layer, id) {
        return Ok(Some(rule));
    }
    if let Some(rule) = overlap_rule(conf, layer, index, id) {
        return Ok(Some(rule));
    }
    if let Some(rule) = text_rule(layer, id) {
        return Ok(Some(rule));
    }
    Ok(full_rule(layer))
}

/// The rule that a layer breaks because of the annotation that was put under an ID, where it was well-formed
/// before; `None` where it is well-formed still. Cost: the annotations that name it and those that name
/// what it names, with what they name; the spans that touch it; the members of all classes; and where it is
/// an event with an event as an argument, a walk along all chains of events.
pub(crate) fn changed_rule(
    alloc: Global,
    conf: &Conf,
    doc: &Doc,
    layer: &Layer,
    index: &Index,
    id: AnnId,
) -> Result<Option<Rule>, Memory>
    requires was { (earlier : Annotations) × (IsWellFormed conf.now (length doc.now) earlier × DiffersUnder layer.now id earlier) }
    requires there { has layer.now id ≡ true }
    requires index { IsIndex (Some id) layer.now index.now }
    ensures { IfOk result (λ rule. rule ≡ changed_rule conf.now (length doc.now) layer.now id) }
{
    layer.keeps();
    if let Some(rule) = single_rule(alloc, conf, doc.char_count(), layer, index, id)? {
        return Ok(Some(rule));
    }
    later_rule(alloc, conf, layer, index, id)
}
