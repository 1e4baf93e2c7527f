//! What breaks a rule in a command's own fields.
ghost use Rattle.std.specs.Prelude.{◌≡◌, ◌∷◌, [], List, Some, map, option_and_then};
ghost use Rattle.std.specs.List.{list_any};
ghost use Rattle.mark_base.specs.declared.fragments.Frag.{Frag};
ghost use Rattle.conf_model.specs.Lookups.{relation_named};
ghost use Rattle.layer_core.specs.declared.command.Command.{Command};
ghost use Rattle.layer_model.specs.declared.rule.Rule.{Rule};
ghost use Rattle.layer_core.specs.OwnRules.{first_broken, frags_rule, moved_rule, new_used_up, own_rules, value_unknown};
ghost use Rattle.layer_core.specs.CommandRules.{event_type, has_value, is_attribute_letter, is_event_letter, is_in_class, is_span_letter, members_refused, no_such_argument, not_in_class, of_letters, roles_undeclared, target_refused, used_up, value_at};
ghost use Rattle.layer_rules.specs.LayerRules.{is_arg, is_id};
ghost use Rattle.layer_rules.specs.MarkRules.{argument, first_missing, first_unwanted, trigger, where_so};
ghost use Rattle.layer_core.specs.Namers.{AreNamersOf};
ghost use Rattle.layer_core.specs.Changes.{AreNamers};
ghost use Rattle.layer_core.specs.ValueShows.{valued_of};

use crate::Command;
use crate::attribute_value::{Valued, is_had, is_refused, value_of};
use crate::changes::is_arg;
use crate::command_names::{
    arg_named, barred, event_named, no_equivalence, role_unknown, undeclared_attribute,
    undeclared_relation, undeclared_type,
};
use crate::first_annotation::{attribute_on, first_note, first_reference, in_use, trigger_in_use};
use conf_model::Conf;
use layer_model::{Class, Layer, RoleAt, Rule};
use layer_rules::{
    LONGEST_REACH, are_bad_members, is_argument, is_attribute_target, is_id, is_member, is_trigger,
    last_end, missing, missing_ids, target_of, unwanted, unwanted_members, where_so,
};
use mark_base::{AnnId, Arg, AttrId, Frag, Kind, Name, NamedArg, RelId, TypeId};
use overlap_rules::{are_ascending, reach};

/// The rule on a new annotation of a letter whose greatest number is taken.
fn used_up(layer: &Layer, kind: Kind) -> Option<Rule>
    ensures { result ≡ used_up layer.now kind }
{
    match layer.greatest(kind) {
        Some(number) => where_so(number == AnnId::GREATEST, Rule::IdsUsedUp(kind)),
        None => None,
    }
}

/// The rule on an ID that is no span's.
fn no_span(id: AnnId) -> Option<Rule>
    ensures { result ≡ first_unwanted (of_letters is_span_letter id ∷ []) }
{
    unwanted(id, matches!(id.kind, Kind::Text))
}

/// The rule on an ID that is no event's.
fn no_event(id: AnnId) -> Option<Rule>
    ensures { result ≡ first_unwanted (of_letters is_event_letter id ∷ []) }
{
    unwanted(id, matches!(id.kind, Kind::Event))
}

/// The rule on an ID that is no attribute's.
fn no_attribute(id: AnnId) -> Option<Rule>
    ensures { result ≡ first_unwanted (of_letters is_attribute_letter id ∷ []) }
{
    unwanted(id, matches!(id.kind, Kind::Attribute | Kind::Legacy))
}

/// The rules of a new span.
fn add_span(conf: &Conf, layer: &Layer, kind: &Name) -> Option<Rule>
    ensures { (frags : List Frag) → result ≡ first_broken (own_rules conf.now layer.now (Command.AddSpan kind.now frags)) }
{
    undeclared_type(conf.types().find(kind)).or(used_up(layer, Kind::Text))
}

/// The rules of another type.
fn retype_span(conf: &Conf, layer: &Layer, namers: &[AnnId], id: AnnId, kind: &Name) -> Option<Rule>
    requires { AreNamersOf layer.now id namers.now }
    ensures { result ≡ first_broken (own_rules conf.now layer.now (Command.RetypeSpan id kind.now)) }
{
    let found = conf.types().find(kind);
    let named = undeclared_type(found).or(barred(conf, found));
    let there = missing(layer, id).or(no_span(id));
    named.or(there).or(trigger_in_use(layer, namers, id))
}

/// The rules that fragments break by themselves.
fn frags_rule(characters: u32, frags: &[Frag]) -> Option<Rule>
    ensures { result ≡ frags_rule characters frags.now }
{
    let fits = !frags.is_empty() && are_ascending(frags);
    let long = where_so(reach(frags) > LONGEST_REACH, Rule::SpanTooLong);
    let out = where_so(characters < last_end(frags), Rule::OutOfText);
    where_so(!fits, Rule::BadFragments).or(out.or(long))
}

/// The rules that the fragments of a move break, whatever its ID leads to.
pub(crate) fn moved_rule(characters: u32, command: &Command) -> Option<Rule>
    ensures { result ≡ moved_rule characters command.now }
{
    match command {
        Command::MoveSpan { frags, .. } => frags_rule(characters, frags.items()),
        _ => None,
    }
}

/// The rules of other fragments.
fn move_span(layer: &Layer, id: AnnId) -> Option<Rule>
    ensures { (conf : _) → (frags : List Frag) → result ≡ first_broken (own_rules conf layer.now (Command.MoveSpan id frags)) }
{
    missing(layer, id).or(no_span(id))
}

/// The rule on the first named argument whose target is not in the layer.
fn missing_targets(layer: &Layer, args: &[NamedArg]) -> Option<Rule>
    ensures { result ≡ first_missing layer.now (map (λ arg. arg.target) args.now) }
{
    for arg in args {
        if !layer.has(arg.target) {
            return Some(Rule::NoSuch(arg.target));
        }
    }
    None
}

/// The rule on the first named argument whose target is not what an event wants.
fn unwanted_targets(conf: &Conf, layer: &Layer, args: &[NamedArg]) -> Option<Rule>
    ensures { result ≡ first_unwanted (map (λ arg. argument conf.now layer.now arg.target) args.now) }
{
    for arg in args {
        if !is_argument(conf, layer, arg.target) {
            return Some(Rule::WrongKind(arg.target));
        }
    }
    None
}

/// The rule on the first of a trigger and named arguments that is not what an event of a type wants.
fn unwanted_by_event(
    conf: &Conf,
    layer: &Layer,
    found: Option<TypeId>,
    by: AnnId,
    args: &[NamedArg],
) -> Option<Rule>
    ensures { result ≡ option_and_then (λ type_. first_unwanted (trigger layer.now type_ by ∷ map (λ arg. argument conf.now layer.now arg.target) args.now)) found }
{
    let kind = found?;
    unwanted(by, is_trigger(layer, kind, by)).or(unwanted_targets(conf, layer, args))
}

/// The rules of a new event.
fn add_event(conf: &Conf, layer: &Layer, kind: &Name, by: AnnId, args: &[NamedArg]) -> Option<Rule>
    ensures { result ≡ first_broken (own_rules conf.now layer.now (Command.AddEvent kind.now by args.now)) }
{
    let found = event_named(conf, kind);
    let named = undeclared_type(found).or(barred(conf, found));
    let there = missing(layer, by).or(missing_targets(layer, args));
    let fitting = unwanted_by_event(conf, layer, found, by, args);
    let roles = role_unknown(conf, found, args);
    named
        .or(there)
        .or(fitting)
        .or(roles)
        .or(used_up(layer, Kind::Event))
}

/// The type of the event of an ID.
fn event_type(layer: &Layer, id: AnnId) -> Option<TypeId>
    ensures { result ≡ event_type layer.now id }
{
    match id.kind {
        Kind::Event => Some(layer.event(id.number)?.kind),
        _ => None,
    }
}

/// The rule on a role that the event of an ID does not have.
fn event_role_unknown(conf: &Conf, layer: &Layer, id: AnnId, arg: &NamedArg) -> Option<Rule>
    ensures { result ≡ roles_undeclared conf.now (event_type layer.now id) (arg.now ∷ []) }
{
    let kind = event_type(layer, id)?;
    match conf.role(kind, &arg.role) {
        Some(_) => None,
        None => Some(Rule::UnknownRole),
    }
}

/// The rule on the first of an event and an argument that is not in the layer.
fn missing_two(layer: &Layer, id: AnnId, target: AnnId) -> Option<Rule>
    ensures { result ≡ first_missing layer.now (id ∷ target ∷ []) }
{
    missing(layer, id).or(missing(layer, target))
}

/// The rule on the first of an event and an argument that is no event, or is not what an event wants.
fn unwanted_two(conf: &Conf, layer: &Layer, id: AnnId, target: AnnId) -> Option<Rule>
    ensures { result ≡ first_unwanted (of_letters is_event_letter id ∷ argument conf.now layer.now target ∷ []) }
{
    no_event(id).or(unwanted(target, is_argument(conf, layer, target)))
}

/// The rules on an argument of an event that do not ask whether it stands there.
fn on_arg(conf: &Conf, layer: &Layer, id: AnnId, arg: &NamedArg) -> Option<Rule>
    ensures { result ≡ first_broken (own_rules conf.now layer.now (Command.AddArg id arg.now)) }
{
    let target = arg.target;
    missing_two(layer, id, target)
        .or(unwanted_two(conf, layer, id, target))
        .or(event_role_unknown(conf, layer, id, arg))
}

/// Whether an argument stands among some.
fn has_arg(wanted: Arg, args: &[Arg]) -> bool
    ensures { result ≡ list_any (is_arg wanted) args.now }
{
    for arg in args {
        if is_arg(wanted, *arg) {
            return true;
        }
    }
    false
}

/// The rule on an argument that an event does not have.
fn no_such_argument(conf: &Conf, layer: &Layer, id: AnnId, arg: &NamedArg) -> Option<Rule>
    ensures { result ≡ no_such_argument conf.now layer.now id arg.now }
{
    let event = match id.kind {
        Kind::Event => layer.event(id.number)?,
        _ => return None,
    };
    let wanted = arg_named(conf, event.kind, arg)?;
    where_so(!has_arg(wanted, event.args.items()), Rule::NoSuchArgument)
}

/// The rules of an argument that goes.
fn remove_arg(conf: &Conf, layer: &Layer, id: AnnId, arg: &NamedArg) -> Option<Rule>
    ensures { result ≡ first_broken (own_rules conf.now layer.now (Command.RemoveArg id arg.now)) }
{
    on_arg(conf, layer, id, arg).or(no_such_argument(conf, layer, id, arg))
}

/// The rules of a new relation.
fn add_relation(
    conf: &Conf,
    layer: &Layer,
    kind: &Name,
    first: AnnId,
    second: AnnId,
) -> Option<Rule>
    ensures { result ≡ first_broken (own_rules conf.now layer.now (Command.AddRelation kind.now first second)) }
{
    let named = undeclared_relation(conf, kind).or(missing_two(layer, first, second));
    named.or(used_up(layer, Kind::Relation))
}

/// The rule on a target that an attribute does not admit.
fn target_refused(conf: &Conf, layer: &Layer, kind: AttrId, target: AnnId) -> Option<Rule>
    ensures { result ≡ target_refused conf.now layer.now (Some kind.n) target }
{
    let admitted = target_of(layer, target)?;
    where_so(
        !conf.attribute_admits(kind, admitted),
        Rule::ArgumentType(RoleAt::Attribute),
    )
}

/// The rule on a value that an attribute does not have.
fn value_unknown(conf: &Conf, kind: AttrId, value: &Option<Name>) -> Option<Rule>
    ensures { result ≡ value_unknown conf.now (Some kind.n) value.now }
{
    let refused = is_refused(conf.value_count(kind), value_of(conf, kind, value));
    where_so(refused, Rule::UnknownValue)
}

/// The value of the attribute of an ID.
fn value_at(layer: &Layer, id: AnnId) -> Option<u16>
    ensures { result ≡ value_at layer.now id }
{
    layer.attribute(id)?.value
}

/// The rule on an attribute that is there with the same value.
fn same_there(layer: &Layer, there: Option<AnnId>, value: Valued) -> Option<Rule>
    ensures { result ≡ option_and_then (λ id. where_so (has_value (value_at layer.now id) (valued_of value)) (Rule.AttributeThere id)) there }
{
    let id = there?;
    where_so(is_had(value_at(layer, id), value), Rule::AttributeThere(id))
}

/// The rules of an attribute that is set.
fn set_attribute(
    conf: &Conf,
    layer: &Layer,
    namers: &[AnnId],
    kind: &Name,
    target: AnnId,
    value: &Option<Name>,
) -> Option<Rule>
    requires { AreNamersOf layer.now target namers.now }
    ensures { result ≡ first_broken (own_rules conf.now layer.now (Command.SetAttribute kind.now target value.now)) }
{
    let fits = is_attribute_target(conf, layer, target);
    let on_target = missing(layer, target).or(unwanted(target, fits));
    let named = undeclared_attribute(conf, kind).or(on_target);
    let Some(attribute) = conf.attribute(kind) else {
        return named;
    };
    let there = attribute_on(layer, namers, attribute, target);
    let refused = target_refused(conf, layer, attribute, target);
    let unknown = value_unknown(conf, attribute, value);
    let same = same_there(layer, there, value_of(conf, attribute, value));
    let used = new_used_up(layer, Kind::Attribute, there);
    named.or(refused).or(unknown).or(same).or(used)
}

/// The rule on members that make no class.
fn members_refused(conf: &Conf, layer: &Layer, kind: &Name, members: &[AnnId]) -> Option<Rule>
    ensures { result ≡ members_refused conf.now layer.now (relation_named conf.now kind.now) members.now }
{
    let id = conf.relation(kind)?;
    let bad = members.len() < 2 || are_bad_members(conf, layer, id, members);
    where_so(bad, Rule::EquivMembers)
}

/// The rules of members that are to be one. They are compared only where they break no other rule.
fn equate(conf: &Conf, layer: &Layer, kind: &Name, members: &[AnnId]) -> Option<Rule>
    ensures { result ≡ first_broken (own_rules conf.now layer.now (Command.Equate kind.now members.now)) }
{
    let named = undeclared_relation(conf, kind).or(no_equivalence(conf, kind));
    let there = missing_ids(layer, members).or(unwanted_members(conf, layer, members));
    let broken = named.or(there);
    if broken.is_some() {
        return broken;
    }
    members_refused(conf, layer, kind, members)
}

/// Whether some class of a relation type has an ID.
fn is_in_some_class(classes: &[Class], kind: RelId, id: AnnId) -> bool
    ensures { result ≡ list_any (is_in_class kind.n id) classes.now }
{
    for class in classes {
        if class.kind.n == kind.n && has_id(class.members.items(), id) {
            return true;
        }
    }
    false
}

/// Whether an ID is among some.
pub(crate) fn has_id(ids: &[AnnId], id: AnnId) -> bool
    ensures { result ≡ list_any (is_id id) ids.now }
{
    for other in ids {
        if is_id(id, *other) {
            return true;
        }
    }
    false
}

/// The rule on an ID that no class of the relation type has.
fn not_in_class(conf: &Conf, layer: &Layer, kind: &Name, id: AnnId) -> Option<Rule>
    ensures { result ≡ not_in_class layer.now (relation_named conf.now kind.now) id }
{
    let relation = conf.relation(kind)?;
    where_so(
        !is_in_some_class(layer.classes(), relation, id),
        Rule::EquivMembers,
    )
}

/// The rules of a member that leaves its class.
fn unequate(conf: &Conf, layer: &Layer, kind: &Name, id: AnnId) -> Option<Rule>
    ensures { result ≡ first_broken (own_rules conf.now layer.now (Command.Unequate kind.now id)) }
{
    let named = undeclared_relation(conf, kind).or(no_equivalence(conf, kind));
    let there = missing(layer, id).or(unwanted(id, is_member(conf, layer, id)));
    named.or(there).or(not_in_class(conf, layer, kind, id))
}

/// The rule on a new annotation where the greatest number of its letter is taken.
fn new_used_up(layer: &Layer, kind: Kind, there: Option<AnnId>) -> Option<Rule>
    ensures { result ≡ new_used_up layer.now kind there }
{
    match there {
        Some(_) => None,
        None => used_up(layer, kind),
    }
}

/// The rules of a text in a note.
fn set_note(layer: &Layer, namers: &[AnnId], target: AnnId, kind: &Name) -> Option<Rule>
    requires { AreNamersOf layer.now target namers.now }
    ensures { (conf text : _) → result ≡ first_broken (own_rules conf layer.now (Command.SetNote target kind.now text)) }
{
    let there = first_note(layer, namers, kind, target);
    missing(layer, target).or(new_used_up(layer, Kind::Note, there))
}

/// The rules of a text in a reference.
fn set_reference(
    layer: &Layer,
    namers: &[AnnId],
    target: AnnId,
    store: &str,
    entry: &str,
) -> Option<Rule>
    requires { AreNamersOf layer.now target namers.now }
    ensures { (conf text : _) → result ≡ first_broken (own_rules conf layer.now (Command.SetReference target store.now entry.now text)) }
{
    let there = first_reference(layer, namers, target, store, entry);
    missing(layer, target).or(new_used_up(layer, Kind::Normal, there))
}

/// The rules of an attribute that goes.
fn clear_attribute(layer: &Layer, namers: &[AnnId], id: AnnId) -> Option<Rule>
    requires { AreNamersOf layer.now id namers.now }
    ensures { (conf : _) → result ≡ first_broken (own_rules conf layer.now (Command.ClearAttribute id)) }
{
    missing(layer, id).or(no_attribute(id)).or(in_use(namers))
}

/// The rules of an annotation that goes.
fn delete(layer: &Layer, namers: &[AnnId], id: AnnId) -> Option<Rule>
    requires { AreNamersOf layer.now id namers.now }
    ensures { (conf : _) → result ≡ first_broken (own_rules conf layer.now (Command.Delete id)) }
{
    missing(layer, id).or(in_use(namers))
}

/// The first rule by number that a command breaks by its own fields, where these annotations name its
/// subject. Cost: their number, what the command names, the arguments of the event that it changes, and
/// for a command on classes their members.
pub(crate) fn own_rule(
    conf: &Conf,
    layer: &Layer,
    namers: &[AnnId],
    command: &Command,
) -> Option<Rule>
    requires named { AreNamers layer.now command.now namers.now }
    ensures { result ≡ first_broken (own_rules conf.now layer.now command.now) }
{
    match command {
        Command::AddSpan { kind, .. } => add_span(conf, layer, kind),
        Command::RetypeSpan { id, kind } => retype_span(conf, layer, namers, *id, kind),
        Command::MoveSpan { id, .. } => move_span(layer, *id),
        Command::AddEvent {
            kind,
            trigger,
            args,
        } => add_event(conf, layer, kind, *trigger, args.items()),
        Command::AddArg { id, arg } => on_arg(conf, layer, *id, arg),
        Command::RemoveArg { id, arg } => remove_arg(conf, layer, *id, arg),
        Command::AddRelation {
            kind,
            first,
            second,
        } => add_relation(conf, layer, kind, *first, *second),
        Command::SetAttribute {
            kind,
            target,
            value,
        } => set_attribute(conf, layer, namers, kind, *target, value),
        Command::ClearAttribute { id } => clear_attribute(layer, namers, *id),
        Command::Equate { kind, members } => equate(conf, layer, kind, members.items()),
        Command::Unequate { kind, id } => unequate(conf, layer, kind, *id),
        Command::SetNote { target, kind, .. } => set_note(layer, namers, *target, kind),
        Command::SetReference {
            target,
            store,
            entry,
            ..
        } => set_reference(layer, namers, *target, store.text(), entry.text()),
        Command::Delete { id } => delete(layer, namers, *id),
        Command::Purge { id } => missing(layer, *id),
        Command::Load { .. } => None,
    }
}
