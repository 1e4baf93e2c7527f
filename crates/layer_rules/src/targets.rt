//! What an ID leads to in a layer, and what each place of an ID wants.
ghost use Rattle.std.specs.Prelude.{◌≡◌};
ghost use Rattle.layer_rules.specs.LayerRules.{is_id};
ghost use Rattle.layer_rules.specs.Targets.{is_argument, is_attribute_target, is_entity_type, is_event_type, is_member, is_normal_target, is_note_target, is_trigger, target_of, type_of};

use conf_model::{AttrTarget, Conf};
use layer_model::{Layer, rank};
use mark_base::{AnnId, Kind, TypeId};

/// Whether two IDs are the same.
pub fn is_id(a: AnnId, b: AnnId) -> bool
    ensures { result ≡ is_id a b }
{
    rank(a) == rank(b)
}

/// The type of a span or of an event.
pub(crate) fn type_of(layer: &Layer, id: AnnId) -> Option<TypeId>
    ensures { result ≡ type_of layer.now id }
{
    match id.kind {
        Kind::Text => Some(layer.span(id.number)?.kind),
        Kind::Event => Some(layer.event(id.number)?.kind),
        _ => None,
    }
}

/// What an attribute on this annotation is set on.
pub fn target_of(layer: &Layer, id: AnnId) -> Option<AttrTarget>
    ensures { result ≡ target_of layer.now id }
{
    match id.kind {
        Kind::Relation => Some(AttrTarget::Between(layer.relation(id.number)?.kind)),
        _ => Some(AttrTarget::Bound(type_of(layer, id)?)),
    }
}

/// Whether a type is an event type.
pub fn is_event_type(conf: &Conf, id: TypeId) -> bool
    ensures { result ≡ is_event_type conf.now id }
{
    match conf.types().row(id) {
        Some(row) => row.event,
        None => false,
    }
}

/// Whether a type is an entity type.
pub(crate) fn is_entity_type(conf: &Conf, id: TypeId) -> bool
    ensures { result ≡ is_entity_type conf.now id }
{
    match conf.types().row(id) {
        Some(row) => !row.event,
        None => false,
    }
}

/// Whether the span that states an event is of the event's type.
pub fn is_trigger(layer: &Layer, event: TypeId, id: AnnId) -> bool
    ensures { result ≡ is_trigger event id.kind (type_of layer.now id) }
{
    if id.kind != Kind::Text {
        return false;
    }
    match type_of(layer, id) {
        Some(kind) => kind.n == event.n,
        None => true,
    }
}

/// Whether an annotation is a span of an entity type, as far as it is there.
pub fn is_member(conf: &Conf, layer: &Layer, id: AnnId) -> bool
    ensures { result ≡ is_member conf.now id.kind (type_of layer.now id) }
{
    if id.kind != Kind::Text {
        return false;
    }
    match type_of(layer, id) {
        Some(kind) => is_entity_type(conf, kind),
        None => true,
    }
}

/// Whether an annotation may be an argument of an event or a relation.
pub fn is_argument(conf: &Conf, layer: &Layer, id: AnnId) -> bool
    ensures { result ≡ is_argument conf.now id.kind (type_of layer.now id) }
{
    id.kind == Kind::Event || is_member(conf, layer, id)
}

/// Whether an attribute may be set on an annotation of this sort.
pub fn is_attribute_target(conf: &Conf, layer: &Layer, id: AnnId) -> bool
    ensures { result ≡ is_attribute_target conf.now id.kind (type_of layer.now id) }
{
    id.kind == Kind::Relation || is_argument(conf, layer, id)
}

/// Whether a normalization may be of an annotation of this letter.
pub(crate) fn is_normal_target(kind: Kind) -> bool
    ensures { result ≡ is_normal_target kind }
{
    match kind {
        Kind::Text | Kind::Event => true,
        _ => false,
    }
}

/// Whether a note may be on an annotation of this letter.
pub(crate) fn is_note_target(kind: Kind) -> bool
    ensures { result ≡ is_note_target kind }
{
    match kind {
        Kind::Note => false,
        _ => true,
    }
}
