//! Annotations that do not go together.
ghost use Rattle.std.specs.Prelude.{◌≡◌, ◌==◌, ◌&&◌, false, not, count_by, find, option_and_then};
ghost use Rattle.std.specs.Option.{option_map_or};
ghost use Rattle.std.specs.List.{list_all};
ghost use Rattle.layer_model.specs.Layers.{mark_at};
ghost use Rattle.layer_model.specs.declared.mark.Mark.{Mark};
ghost use Rattle.layer_core.specs.Commands.{other_than};
ghost use Rattle.layer_rules.specs.LayerRules.{is_arg, is_id, same_attributes, same_bag, same_events, same_relations, same_spans};

use crate::first_annotation::{event_of, relation_of};
use layer_model::{Attribute, Event, Layer, Relation, Span, same_fragments};
use layer_rules::is_id;
use mark_base::{AnnId, Arg};

/// Tells whether two annotations do not go together.
pub(crate) trait Pairs {
    ghost use Rattle.std.specs.Prelude.{Bool, false};
    ghost use Rattle.std.specs.Option.{option_map_or};
    ghost use Rattle.layer_model.specs.Layers.{mark_at};
    ghost use Rattle.layer_model.specs.declared.mark.Mark.{Mark};

    ghost told: { Self → Mark → Mark → Bool };

    fn pair(&self, layer: &Layer, id: AnnId, other: AnnId) -> bool
        ensures { result ≡ option_map_or (λ mark. option_map_or (told self.now mark) (mark_at layer.now other) false) (mark_at layer.now id) false };
}

/// Whether two spans have one type and the same fragments.
pub(crate) fn are_same_spans(a: &Span, b: &Span) -> bool
    ensures { result ≡ same_spans (Mark.Span a.now) (Mark.Span b.now) }
{
    a.kind.n == b.kind.n && same_fragments(a.frags.items(), b.frags.items())
}

/// How often an argument stands among some.
fn times(wanted: Arg, args: &[Arg]) -> usize
    ensures { result ≡ count_by (is_arg wanted) args.now }
{
    args.iter()
        .filter(|arg| wanted.role == arg.role && is_id(wanted.target, arg.target))
        .count()
}

/// Whether an argument stands as often in one list as in another.
fn stands_as_often(arg: Arg, a: &[Arg], b: &[Arg]) -> bool
    ensures { result ≡ (count_by (is_arg arg) a.now == count_by (is_arg arg) b.now) }
{
    times(arg, a) == times(arg, b)
}

/// Whether each of some arguments stands as often in one list as in another.
fn stand_as_often(some: &[Arg], a: &[Arg], b: &[Arg]) -> bool
    ensures { result ≡ list_all (λ arg. count_by (is_arg arg) a.now == count_by (is_arg arg) b.now) some.now }
{
    for arg in some {
        if !stands_as_often(*arg, a, b) {
            return false;
        }
    }
    true
}

/// Whether two lists have the same arguments in any order.
fn same_bag(a: &[Arg], b: &[Arg]) -> bool
    ensures { result ≡ same_bag a.now b.now }
{
    stand_as_often(a, a, b) && stand_as_often(b, a, b)
}

/// Whether two events have one type, one trigger and the same arguments in any order.
fn are_same_events(a: &Event, b: &Event) -> bool
    ensures { result ≡ same_events (Mark.Event a.now) (Mark.Event b.now) }
{
    a.kind.n == b.kind.n && a.trigger == b.trigger && same_bag(a.args.items(), b.args.items())
}

/// Whether two relations have one type and the same arguments.
fn are_same_relations(a: &Relation, b: &Relation) -> bool
    ensures { result ≡ same_relations (Mark.Relation a.now) (Mark.Relation b.now) }
{
    a.kind.n == b.kind.n && is_id(a.first, b.first) && is_id(a.second, b.second)
}

/// Whether two attributes have one type and one target.
fn are_same_attributes(a: &Attribute, b: &Attribute) -> bool
    ensures { result ≡ same_attributes (Mark.Attribute a.now) (Mark.Attribute b.now) }
{
    a.kind.n == b.kind.n && is_id(a.target, b.target)
}

/// Events that are the same.
pub(crate) struct SameEvents;

impl Pairs for SameEvents {
    ghost use Rattle.layer_rules.specs.LayerRules.{same_events};

    ghost told = { λ pairs. same_events };

    fn pair(&self, layer: &Layer, id: AnnId, other: AnnId) -> bool {
        match (event_of(layer, id), event_of(layer, other)) {
            (Some(a), Some(b)) => are_same_events(a, b),
            _ => false,
        }
    }
}

/// Relations that are the same.
pub(crate) struct SameRelations;

impl Pairs for SameRelations {
    ghost use Rattle.layer_rules.specs.LayerRules.{same_relations};

    ghost told = { λ pairs. same_relations };

    fn pair(&self, layer: &Layer, id: AnnId, other: AnnId) -> bool {
        match (relation_of(layer, id), relation_of(layer, other)) {
            (Some(a), Some(b)) => are_same_relations(a, b),
            _ => false,
        }
    }
}

/// Attributes that are the same but for their values.
pub(crate) struct SameAttributes;

impl Pairs for SameAttributes {
    ghost use Rattle.layer_rules.specs.LayerRules.{same_attributes};

    ghost told = { λ pairs. same_attributes };

    fn pair(&self, layer: &Layer, id: AnnId, other: AnnId) -> bool {
        match (layer.attribute(id), layer.attribute(other)) {
            (Some(a), Some(b)) => are_same_attributes(a, b),
            _ => false,
        }
    }
}

/// Whether another annotation does not go with the one of an ID.
fn pairs_other<P: Pairs>(pairs: &P, layer: &Layer, id: AnnId, other: AnnId) -> bool
    ensures { result ≡ (not (is_id id other) && option_map_or (λ mark. option_map_or (P.told pairs.now mark) (mark_at layer.now other) false) (mark_at layer.now id) false) }
{
    !is_id(id, other) && pairs.pair(layer, id, other)
}

/// The lowest of some annotations that does not go with the one of an ID.
pub(crate) fn first_other<P: Pairs>(
    pairs: &P,
    layer: &Layer,
    id: AnnId,
    ids: &[AnnId],
) -> Option<AnnId>
    ensures { result ≡ option_and_then (λ mark. find (other_than (P.told pairs.now) layer.now id mark) ids.now) (mark_at layer.now id) }
{
    for other in ids {
        if pairs_other(pairs, layer, id, *other) {
            return Some(*other);
        }
    }
    None
}
