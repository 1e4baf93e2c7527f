//! The first annotation of some that passes a test.
ghost use Rattle.std.specs.Prelude.{◌≡◌, ◌&&◌, ◌==◌, false, map, true, IfSome, IsTrue, option_copied};
ghost use Rattle.std.specs.Option.{option_map_or};
ghost use Rattle.std.specs.List.{list_any};
ghost use Rattle.mark_base.specs.declared.ann_id.AnnId.{AnnId};
ghost use Rattle.mark_base.specs.declared.ann_id.Kind.{Kind};
ghost use Rattle.layer_model.specs.declared.mark.Mark.{Mark};
ghost use Rattle.layer_model.specs.Annotations.{Annotations};
ghost use Rattle.layer_model.specs.Layers.{is_of_kind, mark_at};
ghost use Rattle.mark_base.specs.ReadIds.{id_at};
ghost use Rattle.layer_rules.specs.LayerRules.{is_id};
ghost use Rattle.layer_rules.specs.MarkRules.{named_by};
ghost use Rattle.layer_core.specs.MadeLayers.{event_of, is_note_on, is_reference_to, lowest, relation_of, span_of};
ghost use Rattle.layer_core.specs.CommandRules.{attribute_on, in_use, is_attribute_on, is_in_trigger, trigger_in_use};
ghost use Rattle.layer_core.specs.Namers.{AreNamersOf, is_triggered_by};

use layer_model::{Attribute, Event, Layer, Relation, Rule, Span, id_at};
use layer_rules::is_id;
use mark_base::{AnnId, Arg, AttrId, Kind, Name};

/// The span of an ID.
pub(crate) fn span_of(layer: &Layer, id: AnnId) -> Option<&Span>
    ensures { option_copied result ≡ span_of layer.now id }
{
    match id.kind {
        Kind::Text => layer.span(id.number),
        _ => None,
    }
}

/// The event of an ID.
pub(crate) fn event_of(layer: &Layer, id: AnnId) -> Option<&Event>
    ensures { option_copied result ≡ event_of layer.now id }
{
    match id.kind {
        Kind::Event => layer.event(id.number),
        _ => None,
    }
}

/// The relation of an ID.
pub(crate) fn relation_of(layer: &Layer, id: AnnId) -> Option<&Relation>
    ensures { option_copied result ≡ relation_of layer.now id }
{
    match id.kind {
        Kind::Relation => layer.relation(id.number),
        _ => None,
    }
}

/// Whether some argument leads to an annotation.
fn leads_to(args: &[Arg], id: AnnId) -> bool
    ensures { result ≡ list_any (is_id id) (map (λ arg. arg.target) args.now) }
{
    for arg in args {
        if is_id(id, arg.target) {
            return true;
        }
    }
    false
}

/// Whether an event names an annotation.
fn event_names(event: &Event, id: AnnId) -> bool
    ensures { result ≡ list_any (is_id id) (named_by (Mark.Event event.now)) }
{
    is_id(id, id_at(Kind::Text, event.trigger)) || leads_to(event.args.items(), id)
}

/// Whether a relation names an annotation.
fn relation_names(relation: &Relation, id: AnnId) -> bool
    ensures { result ≡ list_any (is_id id) (named_by (Mark.Relation relation.now)) }
{
    is_id(id, relation.first) || is_id(id, relation.second)
}

/// Whether the annotation of an ID is there and names another.
pub(crate) fn names(layer: &Layer, other: AnnId, id: AnnId) -> bool
    ensures { result ≡ option_map_or (λ mark. list_any (is_id id) (named_by mark)) (mark_at layer.now other) false }
{
    match other.kind {
        Kind::Text => false,
        Kind::Event => match layer.event(other.number) {
            Some(event) => event_names(event, id),
            None => false,
        },
        Kind::Relation => match layer.relation(other.number) {
            Some(relation) => relation_names(relation, id),
            None => false,
        },
        Kind::Attribute | Kind::Legacy => match layer.attribute(other) {
            Some(attribute) => is_id(id, attribute.target),
            None => false,
        },
        Kind::Normal => match layer.normal(other.number) {
            Some(normal) => is_id(id, normal.target),
            None => false,
        },
        Kind::Note => match layer.note(other.number) {
            Some(note) => is_id(id, note.target),
            None => false,
        },
    }
}

/// The rule on an annotation that others name: these, ascending.
pub(crate) fn in_use(namers: &[AnnId]) -> Option<Rule>
    ensures { (layer : Annotations) → (id : AnnId) → AreNamersOf layer id namers.now → result ≡ in_use layer id }
{
    match namers.first() {
        Some(other) => Some(Rule::InUse(*other)),
        None => None,
    }
}

/// Whether the annotation of an ID is an event with the trigger of this number.
fn is_triggered_by(layer: &Layer, id: AnnId, trigger: u32) -> bool
    ensures { result ≡ option_map_or (is_triggered_by trigger) (mark_at layer.now id) false }
{
    match id.kind {
        Kind::Event => match layer.event(id.number) {
            Some(event) => event.trigger == trigger,
            None => false,
        },
        _ => false,
    }
}

/// Whether one of some annotations is an event with the trigger of this number.
fn has_trigger(layer: &Layer, ids: &[AnnId], trigger: u32) -> bool
    ensures { result ≡ list_any (λ other. option_map_or (is_triggered_by trigger) (mark_at layer.now other) false) ids.now }
{
    for id in ids {
        if is_triggered_by(layer, *id, trigger) {
            return true;
        }
    }
    false
}

/// Whether a span is the trigger of an event, one of those that name it. Cost: their number.
pub(crate) fn is_in_trigger(layer: &Layer, namers: &[AnnId], id: AnnId) -> bool
    requires { AreNamersOf layer.now id namers.now }
    ensures { result ≡ is_in_trigger layer.now id }
{
    layer.keeps();
    match id.kind {
        Kind::Text => has_trigger(layer, namers, id.number),
        _ => false,
    }
}

/// The rule on a span whose type is that of the event it triggers, one of those that name it. Cost: their
/// number.
pub(crate) fn trigger_in_use(layer: &Layer, namers: &[AnnId], id: AnnId) -> Option<Rule>
    requires { AreNamersOf layer.now id namers.now }
    ensures { result ≡ trigger_in_use layer.now id }
{
    if is_in_trigger(layer, namers, id) {
        in_use(namers)
    } else {
        None
    }
}

/// Whether an attribute is of a type and on a target.
fn is_on(attribute: &Attribute, kind: AttrId, target: AnnId) -> bool
    ensures { result ≡ is_attribute_on kind.n target (Mark.Attribute attribute.now) }
{
    attribute.kind.n == kind.n && is_id(attribute.target, target)
}

/// Whether the annotation of an ID is such an attribute.
fn is_attribute_on(layer: &Layer, id: AnnId, kind: AttrId, target: AnnId) -> bool
    ensures letter { IsTrue result → (attribute : _) → is_of_kind id.kind (Mark.Attribute attribute) ≡ true }
    ensures value { result ≡ option_map_or (is_attribute_on kind.n target) (mark_at layer.now id) false }
{
    match id.kind {
        Kind::Attribute | Kind::Legacy => match layer.attribute(id) {
            Some(attribute) => is_on(attribute, kind, target),
            None => false,
        },
        _ => false,
    }
}

/// The lowest attribute of a type on a target, under either letter, one of those that name the target.
/// Cost: their number.
pub(crate) fn attribute_on(
    layer: &Layer,
    namers: &[AnnId],
    kind: AttrId,
    target: AnnId,
) -> Option<AnnId>
    requires { AreNamersOf layer.now target namers.now }
    ensures letter { IfSome result (λ id. (attribute : _) → is_of_kind id.kind (Mark.Attribute attribute) ≡ true) }
    ensures value { result ≡ attribute_on layer.now kind.n target }
{
    for id in namers {
        if is_attribute_on(layer, *id, kind, target) {
            return Some(*id);
        }
    }
    None
}

/// Whether the annotation of an ID is a note of a type on a target.
fn is_note_on(layer: &Layer, id: AnnId, kind: &Name, target: AnnId) -> bool
    ensures letter { IsTrue result → id.kind ≡ Kind.Note }
    ensures value { result ≡ option_map_or (is_note_on kind.now target) (mark_at layer.now id) false }
{
    match id.kind {
        Kind::Note => match layer.note(id.number) {
            Some(note) => note.kind.text() == kind.text() && is_id(note.target, target),
            None => false,
        },
        _ => false,
    }
}

/// The lowest note of a type on a target, one of those that name the target. Cost: their number.
pub(crate) fn first_note(
    layer: &Layer,
    namers: &[AnnId],
    kind: &Name,
    target: AnnId,
) -> Option<AnnId>
    requires { AreNamersOf layer.now target namers.now }
    ensures letter { IfSome result (λ id. id.kind ≡ Kind.Note) }
    ensures value { result ≡ lowest (is_note_on kind.now target) layer.now Kind.Note }
{
    for id in namers {
        if is_note_on(layer, *id, kind, target) {
            return Some(*id);
        }
    }
    None
}

/// Whether the annotation of an ID is a reference of a target to an entry.
fn is_reference_to(layer: &Layer, id: AnnId, target: AnnId, store: &str, entry: &str) -> bool
    ensures letter { IsTrue result → id.kind ≡ Kind.Normal }
    ensures value { result ≡ option_map_or (is_reference_to target store.now entry.now) (mark_at layer.now id) false }
{
    match id.kind {
        Kind::Normal => match layer.normal(id.number) {
            Some(normal) => {
                is_id(normal.target, target)
                    && normal.store.text() == store
                    && normal.entry.text() == entry
            }
            None => false,
        },
        _ => false,
    }
}

/// The lowest reference of a target to an entry of a store, one of those that name the target. Cost: their
/// number.
pub(crate) fn first_reference(
    layer: &Layer,
    namers: &[AnnId],
    target: AnnId,
    store: &str,
    entry: &str,
) -> Option<AnnId>
    requires { AreNamersOf layer.now target namers.now }
    ensures letter { IfSome result (λ id. id.kind ≡ Kind.Normal) }
    ensures value { result ≡ lowest (is_reference_to target store.now entry.now) layer.now Kind.Normal }
{
    for id in namers {
        if is_reference_to(layer, *id, target, store, entry) {
            return Some(*id);
        }
    }
    None
}
