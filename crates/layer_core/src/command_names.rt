//! What the names in a command stand for.
ghost use Rattle.std.specs.Prelude.{◌≡◌, IfOk, is_none, option_map};
ghost use Rattle.std.specs.List.{list_any};
ghost use Rattle.conf_model.specs.Lookups.{attribute_named, relation_named};
ghost use Rattle.type_hierarchy.specs.TypeTrees.{type_named};
ghost use Rattle.layer_core.specs.CommandRules.{arg_named, args_named, barred, event_named, no_equivalence, role_undeclared, roles_undeclared, undeclared};

use conf_model::Conf;
use layer_model::Rule;
use layer_rules::{barred_class, barred_type, is_event_type};
use mark_base::{Arg, Memory, Name, NamedArg, TypeId};
use std::alloc::Global;

/// The event type of a name.
pub(crate) fn event_named(conf: &Conf, name: &Name) -> Option<TypeId>
    ensures { result ≡ event_named conf.now name.now }
{
    let id = conf.types().find(name)?;
    if is_event_type(conf, id) {
        Some(id)
    } else {
        None
    }
}

/// The rule on a name that is no type.
pub(crate) fn undeclared_type(found: Option<TypeId>) -> Option<Rule>
    ensures { result ≡ undeclared found }
{
    match found {
        Some(_) => None,
        None => Some(Rule::UnknownType),
    }
}

/// The rule on a name that is no relation type.
pub(crate) fn undeclared_relation(conf: &Conf, name: &Name) -> Option<Rule>
    ensures { result ≡ undeclared (relation_named conf.now name.now) }
{
    match conf.relation(name) {
        Some(_) => None,
        None => Some(Rule::UnknownType),
    }
}

/// The rule on a name that is no attribute.
pub(crate) fn undeclared_attribute(conf: &Conf, name: &Name) -> Option<Rule>
    ensures { result ≡ undeclared (attribute_named conf.now name.now) }
{
    match conf.attribute(name) {
        Some(_) => None,
        None => Some(Rule::UnknownType),
    }
}

/// The rule on a type that annotations may not have.
pub(crate) fn barred(conf: &Conf, found: Option<TypeId>) -> Option<Rule>
    ensures { result ≡ barred conf.now found }
{
    barred_type(conf, found?)
}

/// The rule on the name of a relation type that is no equivalence.
pub(crate) fn no_equivalence(conf: &Conf, name: &Name) -> Option<Rule>
    ensures { result ≡ no_equivalence conf.now (relation_named conf.now name.now) }
{
    barred_class(conf, conf.relation(name)?)
}

/// An argument by the place of its role.
pub(crate) fn arg_named(conf: &Conf, kind: TypeId, arg: &NamedArg) -> Option<Arg>
    ensures { result ≡ arg_named conf.now kind arg.now }
{
    let role = conf.role(kind, &arg.role)?;
    Some(Arg {
        role,
        target: arg.target,
    })
}

/// Arguments by the places of their roles, where the event type has all of them.
pub(crate) fn args_named(
    alloc: Global,
    conf: &Conf,
    kind: TypeId,
    args: &[NamedArg],
) -> Result<Option<Vec<Arg>>, Memory>
    ensures { IfOk result (λ found. option_map (λ placed. placed.items) found ≡ args_named conf.now kind args.now) }
{
    let mut placed = Vec::new(alloc);
    for arg in args {
        match arg_named(conf, kind, arg) {
            Some(arg) => placed.push(arg)?,
            None => return Ok(None),
        }
    }
    Ok(Some(placed))
}

/// Whether the event type lacks the role of an argument.
fn role_undeclared(conf: &Conf, kind: TypeId, arg: &NamedArg) -> bool
    ensures { result ≡ role_undeclared conf.now kind arg.now }
{
    conf.role(kind, &arg.role).is_none()
}

/// Whether the event type lacks the role of some argument.
fn some_role_undeclared(conf: &Conf, kind: TypeId, args: &[NamedArg]) -> bool
    ensures { result ≡ list_any (role_undeclared conf.now kind) args.now }
{
    for arg in args {
        if role_undeclared(conf, kind, arg) {
            return true;
        }
    }
    false
}

/// The rule on a role that the event type does not have.
pub(crate) fn role_unknown(conf: &Conf, found: Option<TypeId>, args: &[NamedArg]) -> Option<Rule>
    ensures { result ≡ roles_undeclared conf.now found args.now }
{
    if some_role_undeclared(conf, found?, args) {
        Some(Rule::UnknownRole)
    } else {
        None
    }
}
