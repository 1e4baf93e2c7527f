//! The rules that look at one field of an annotation and at what it names.
ghost use Rattle.std.specs.Prelude.{◌≡◌, ◌∷◌, [], not, is_none, nat_le, nat_lt, map, find, option_map, slice_get};
ghost use Rattle.std.specs.List.{list_any};
ghost use Rattle.conf_model.specs.Lookups.{is_equivalence};
ghost use Rattle.layer_model.specs.declared.mark.Mark.{Mark};
ghost use Rattle.layer_model.specs.declared.rule.Rule.{Rule};
ghost use Rattle.layer_model.specs.declared.rule.RoleAt.{RoleAt};
ghost use Rattle.overlap_rules.specs.Overlaps.{last_end};
ghost use Rattle.layer_rules.specs.Targets.{is_event_type};
ghost use Rattle.layer_rules.specs.MarkRules.{argument, argument_type, bad_fragments, filled, first_missing, first_unwanted, is_barred_type, is_refused_argument, member, named_by, out_of_text, span_too_long, too_many, unknown_role, unknown_value, wanted_by, where_so};

use crate::targets::{
    is_argument, is_attribute_target, is_event_type, is_member, is_trigger, target_of, type_of,
};
use conf_model::Conf;
use layer_model::{Attribute, Event, Layer, Relation, RoleAt, Rule, Span, id_at};
use mark_base::{AnnId, Arg, AttrId, Frag, Kind, RelId, TypeId};
use overlap_rules::{are_ascending, reach};

/// The rule where a test is met.
pub fn where_so(so: bool, rule: Rule) -> Option<Rule>
    ensures { result ≡ where_so so rule }
{
    if so { Some(rule) } else { None }
}

/// Whether the table of types lacks the type.
pub(crate) fn unknown_type(conf: &Conf, kind: TypeId) -> Option<Rule>
    ensures { result ≡ where_so (is_none (slice_get conf.now.types kind.n)) Rule.UnknownType }
{
    where_so(conf.types().row(kind).is_none(), Rule::UnknownType)
}

/// Whether the type is no event type.
pub(crate) fn unknown_event_type(conf: &Conf, kind: TypeId) -> Option<Rule>
    ensures { result ≡ where_so (not (is_event_type conf.now kind)) Rule.UnknownType }
{
    where_so(!is_event_type(conf, kind), Rule::UnknownType)
}

/// Whether the table of relation types lacks the type.
pub(crate) fn unknown_relation(conf: &Conf, kind: RelId) -> Option<Rule>
    ensures { result ≡ where_so (is_none (slice_get conf.now.relations kind.n)) Rule.UnknownType }
{
    where_so(conf.relation_name(kind).is_none(), Rule::UnknownType)
}

/// Whether the table of attributes lacks the attribute.
pub(crate) fn unknown_attribute(conf: &Conf, kind: AttrId) -> Option<Rule>
    ensures { result ≡ where_so (is_none (slice_get conf.now.attributes kind.n)) Rule.UnknownType }
{
    where_so(conf.attribute_name(kind).is_none(), Rule::UnknownType)
}

/// Whether the type only orders others.
fn is_barred_type(conf: &Conf, kind: TypeId) -> bool
    ensures { result ≡ is_barred_type conf.now kind }
{
    match conf.types().row(kind) {
        Some(row) => !row.usable,
        None => false,
    }
}

/// The rule on types that only order others.
pub fn barred_type(conf: &Conf, kind: TypeId) -> Option<Rule>
    ensures { result ≡ where_so (is_barred_type conf.now kind) Rule.NotForUse }
{
    where_so(is_barred_type(conf, kind), Rule::NotForUse)
}

/// The rule on relation types whose members form classes.
pub(crate) fn barred_relation(conf: &Conf, kind: RelId) -> Option<Rule>
    ensures { result ≡ where_so (is_equivalence conf.now kind.n) Rule.NotForUse }
{
    where_so(conf.is_equivalence(kind), Rule::NotForUse)
}

/// The rule on classes of a relation type that is no equivalence.
pub fn barred_class(conf: &Conf, kind: RelId) -> Option<Rule>
    ensures { result ≡ where_so (not (is_equivalence conf.now kind.n)) Rule.NotForUse }
{
    where_so(!conf.is_equivalence(kind), Rule::NotForUse)
}

/// The rule on the shape of fragments: at least one, none empty, in order.
pub(crate) fn bad_fragments(span: &Span) -> Option<Rule>
    ensures { result ≡ bad_fragments (Mark.Span span.now) }
{
    let frags = span.frags.items();
    let fits = !frags.is_empty() && are_ascending(frags);
    where_so(!fits, Rule::BadFragments)
}

/// Where the last fragment ends, 0 where there is none.
pub fn last_end(frags: &[Frag]) -> u32
    ensures { result ≡ last_end 0 frags.now }
{
    match frags.last() {
        Some(last) => last.end,
        None => 0,
    }
}

/// The rule on fragments that end behind a text of so many characters.
pub(crate) fn out_of_text(characters: u32, span: &Span) -> Option<Rule>
    ensures { result ≡ out_of_text characters (Mark.Span span.now) }
{
    where_so(characters < last_end(span.frags.items()), Rule::OutOfText)
}

/// The characters that a span reaches over at most, from its start to its end.
pub const LONGEST_REACH: u32 = 10_000;

/// The rule on spans that reach too far.
pub(crate) fn span_too_long(span: &Span) -> Option<Rule>
    ensures { result ≡ span_too_long (Mark.Span span.now) }
{
    where_so(reach(span.frags.items()) > LONGEST_REACH, Rule::SpanTooLong)
}

/// The rule on an ID that is not in the layer.
pub fn missing(layer: &Layer, id: AnnId) -> Option<Rule>
    ensures { result ≡ first_missing layer.now (id ∷ []) }
{
    where_so(!layer.has(id), Rule::NoSuch(id))
}

/// The rule on the first of some IDs that is not in the layer.
pub fn missing_ids(layer: &Layer, ids: &[AnnId]) -> Option<Rule>
    ensures { result ≡ first_missing layer.now ids.now }
{
    for id in ids {
        if !layer.has(*id) {
            return Some(Rule::NoSuch(*id));
        }
    }
    None
}

/// The rule on the first argument whose target is not in the layer.
pub(crate) fn missing_args(layer: &Layer, args: &[Arg]) -> Option<Rule>
    ensures { result ≡ first_missing layer.now (map (λ arg. arg.target) args.now) }
{
    for arg in args {
        if !layer.has(arg.target) {
            return Some(Rule::NoSuch(arg.target));
        }
    }
    None
}

/// The rule on an ID that its place does not want.
pub fn unwanted(id: AnnId, fits: bool) -> Option<Rule>
    ensures { result ≡ first_unwanted (record { id = id; fits = fits } ∷ []) }
{
    where_so(!fits, Rule::WrongKind(id))
}

/// The rule on the first member that a class does not want.
pub fn unwanted_members(conf: &Conf, layer: &Layer, ids: &[AnnId]) -> Option<Rule>
    ensures { result ≡ first_unwanted (map (member conf.now layer.now) ids.now) }
{
    for id in ids {
        if !is_member(conf, layer, *id) {
            return Some(Rule::WrongKind(*id));
        }
    }
    None
}

/// The rule on the first argument whose target is not what an event wants.
pub(crate) fn unwanted_args(conf: &Conf, layer: &Layer, args: &[Arg]) -> Option<Rule>
    ensures { result ≡ first_unwanted (map (λ arg. argument conf.now layer.now arg.target) args.now) }
{
    for arg in args {
        if !is_argument(conf, layer, arg.target) {
            return Some(Rule::WrongKind(arg.target));
        }
    }
    None
}

/// The rule on the first ID that an event names and the layer does not have.
pub(crate) fn missing_in_event(layer: &Layer, event: &Event) -> Option<Rule>
    ensures { result ≡ first_missing layer.now (named_by (Mark.Event event.now)) }
{
    missing(layer, id_at(Kind::Text, event.trigger)).or(missing_args(layer, event.args.items()))
}

/// The rule on the first ID that an event names and does not want.
pub(crate) fn unwanted_in_event(conf: &Conf, layer: &Layer, event: &Event) -> Option<Rule>
    ensures { result ≡ first_unwanted (wanted_by conf.now layer.now (Mark.Event event.now)) }
{
    let trigger = id_at(Kind::Text, event.trigger);
    unwanted(trigger, is_trigger(layer, event.kind, trigger)).or(unwanted_args(
        conf,
        layer,
        event.args.items(),
    ))
}

/// The rule on the first ID that a relation names and the layer does not have.
pub(crate) fn missing_in_relation(layer: &Layer, relation: &Relation) -> Option<Rule>
    ensures { result ≡ first_missing layer.now (named_by (Mark.Relation relation.now)) }
{
    missing(layer, relation.first).or(missing(layer, relation.second))
}

/// The rule on the first ID that a relation names and does not want.
pub(crate) fn unwanted_in_relation(conf: &Conf, layer: &Layer, relation: &Relation) -> Option<Rule>
    ensures { result ≡ first_unwanted (wanted_by conf.now layer.now (Mark.Relation relation.now)) }
{
    unwanted(relation.first, is_argument(conf, layer, relation.first)).or(unwanted(
        relation.second,
        is_argument(conf, layer, relation.second),
    ))
}

/// The rule on what an attribute is set on, where it is not what an attribute wants.
pub(crate) fn unwanted_target(conf: &Conf, layer: &Layer, attribute: &Attribute) -> Option<Rule>
    ensures { result ≡ first_unwanted (wanted_by conf.now layer.now (Mark.Attribute attribute.now)) }
{
    let target = attribute.target;
    unwanted(target, is_attribute_target(conf, layer, target))
}

/// Whether some argument stands in a role past so many.
fn has_role_past(count: u16, args: &[Arg]) -> bool
    ensures { result ≡ list_any (λ arg. nat_le count arg.role) args.now }
{
    args.iter().any(|arg| arg.role >= count)
}

/// The rule on arguments in roles that the event type does not have.
pub(crate) fn unknown_role(conf: &Conf, event: &Event) -> Option<Rule>
    ensures { result ≡ unknown_role conf.now (Mark.Event event.now) }
{
    let count = conf.role_count(event.kind);
    where_so(has_role_past(count, event.args.items()), Rule::UnknownRole)
}

/// Whether the type of an argument is not admitted in its role.
fn is_refused_argument(conf: &Conf, layer: &Layer, kind: TypeId, arg: Arg) -> bool
    ensures { result ≡ is_refused_argument conf.now layer.now kind arg }
{
    match type_of(layer, arg.target) {
        Some(target) => !conf.role_admits(kind, arg.role, target),
        None => false,
    }
}

/// The rule on the first argument whose type is not admitted in its role.
fn refused_in(conf: &Conf, layer: &Layer, kind: TypeId, args: &[Arg]) -> Option<Rule>
    ensures { result ≡ option_map (λ arg. Rule.ArgumentType (RoleAt.Event kind arg.role)) (find (is_refused_argument conf.now layer.now kind) args.now) }
{
    for arg in args {
        if is_refused_argument(conf, layer, kind, *arg) {
            return Some(Rule::ArgumentType(RoleAt::Event(kind, arg.role)));
        }
    }
    None
}

/// The rule on the first argument of an event whose type is not admitted in its role.
pub(crate) fn refused_argument(conf: &Conf, layer: &Layer, event: &Event) -> Option<Rule>
    ensures { result ≡ argument_type conf.now layer.now (Mark.Event event.now) }
{
    refused_in(conf, layer, event.kind, event.args.items())
}

/// The rule on the types of what a relation relates.
pub(crate) fn refused_types(conf: &Conf, layer: &Layer, relation: &Relation) -> Option<Rule>
    ensures { result ≡ argument_type conf.now layer.now (Mark.Relation relation.now) }
{
    let kind = relation.kind;
    let first = type_of(layer, relation.first)?;
    let second = type_of(layer, relation.second)?;
    if conf.relation_admits(kind, first, second) {
        return None;
    }
    Some(Rule::ArgumentType(RoleAt::Relation(kind, conf.relation_admits_first(kind, first))))
}

/// The rule on the type of what an attribute is set on.
pub(crate) fn refused_target(conf: &Conf, layer: &Layer, attribute: &Attribute) -> Option<Rule>
    ensures { result ≡ argument_type conf.now layer.now (Mark.Attribute attribute.now) }
{
    let target = target_of(layer, attribute.target)?;
    where_so(
        !conf.attribute_admits(attribute.kind, target),
        Rule::ArgumentType(RoleAt::Attribute),
    )
}

/// How many arguments of a role there are.
pub(crate) fn filled(role: u16, args: &[Arg]) -> usize
    ensures { result ≡ filled role args.now }
{
    args.iter().filter(|arg| arg.role == role).count()
}

/// The rule on the lowest role of an event that has too many arguments.
pub(crate) fn too_many(conf: &Conf, event: &Event) -> Option<Rule>
    ensures { result ≡ too_many conf.now (Mark.Event event.now) }
{
    let args = event.args.items();
    for role in 0..conf.role_count(event.kind) {
        if filled(role, args) > conf.role_most(event.kind, role) as usize {
            return Some(Rule::TooMany(RoleAt::Event(event.kind, role)));
        }
    }
    None
}

/// The rule on the value of an attribute.
pub(crate) fn unknown_value(conf: &Conf, attribute: &Attribute) -> Option<Rule>
    ensures { result ≡ unknown_value conf.now (Mark.Attribute attribute.now) }
{
    let declared = conf.value_count(attribute.kind);
    let bad = match attribute.value {
        Some(value) => value >= declared,
        None => declared > 0,
    };
    where_so(bad, Rule::UnknownValue)
}
