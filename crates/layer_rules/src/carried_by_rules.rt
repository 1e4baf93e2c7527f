//! What a broken rule names, as it is shown.
ghost use Rattle.std.specs.Prelude.{◌≡◌, ◌++◌, IfOk, codes};
ghost use Rattle.layer_rules.specs.CarriedByRule.{id_text, carried_by_rule, role_text};

use conf_model::Conf;
use layer_model::{RoleAt, Rule};
use mark_base::{AnnId, Memory, Text};
use std::alloc::Global;

/// An ID, as it is spelt in an .ann file.
pub fn id_text(alloc: Global, id: AnnId) -> Result<Text, Memory>
    ensures { IfOk result (λ made. made ≡ id_text id) }
{
    let mut out = String::from_str(alloc, id.kind.as_str())?;
    out.push_str(id.number.to_string(alloc)?.as_str())?;
    Ok(Text::from_string(out))
}

/// A role by its name.
fn role_text(conf: &Conf, role: RoleAt) -> &str
    ensures { result.now ≡ role_text conf.now role }
{
    match role {
        RoleAt::Event(kind, place) => match conf.role_name(kind, place) {
            Some(name) => name.text(),
            None => "",
        },
        RoleAt::Relation(relation, second) => match conf.relation_role(relation, second) {
            Some(name) => name.text(),
            None => "",
        },
        RoleAt::Attribute => "Arg",
    }
}

/// An event and a role of it.
fn event_role(alloc: Global, conf: &Conf, event: AnnId, role: RoleAt) -> Result<Text, Memory>
    ensures { IfOk result (λ made. made ≡ id_text event ++ (codes " " ++ role_text conf.now role)) }
{
    let mut out = String::from_str(alloc, event.kind.as_str())?;
    out.push_str(event.number.to_string(alloc)?.as_str())?;
    out.push_str(" ")?;
    out.push_str(role_text(conf, role))?;
    Ok(Text::from_string(out))
}

/// What a rule names, as it is shown: an ID, a role by its name, an event and a role of it, or a letter.
pub fn carried_by_rule(alloc: Global, conf: &Conf, rule: Rule) -> Result<Option<Text>, Memory>
    ensures { IfOk result (λ named. named ≡ carried_by_rule conf.now rule) }
{
    let named = match rule {
        Rule::NoSuch(id)
        | Rule::WrongKind(id)
        | Rule::SameSpan(id)
        | Rule::SameEvent(id)
        | Rule::SameRelation(id)
        | Rule::AttributeThere(id)
        | Rule::OverlapRefused(id)
        | Rule::InUse(id) => id_text(alloc, id),
        Rule::ArgumentType(role) | Rule::TooMany(role) => Text::of(alloc, role_text(conf, role)),
        Rule::LayerFull(kind) | Rule::IdsUsedUp(kind) => Text::of(alloc, kind.as_str()),
        Rule::TooFew(event, role) => event_role(alloc, conf, event, role),
        _ => return Ok(None),
    };
    match named {
        Ok(named) => Ok(Some(named)),
        Err(Memory) => Err(Memory),
    }
}
