//! Which layers may be committed.
ghost use Rattle.std.specs.Prelude.{◌≡◌, option_map};
ghost use Rattle.layer_model.specs.declared.rule.Rule.{Rule};
ghost use Rattle.layer_model.specs.declared.rule.RoleAt.{RoleAt};
ghost use Rattle.mark_base.specs.declared.ann_id.Kind.{Kind};
ghost use Rattle.mark_base.specs.ReadIds.{id_at};
ghost use Rattle.layer_rules.specs.WellFormed.{commit_fault, too_few_of};

use crate::mark_rules::filled;
use conf_model::Conf;
use layer_model::{Event, Layer, RoleAt, Rule, id_at};
use mark_base::Kind;

/// The rule on the first role of an event that has too few arguments.
fn too_few(conf: &Conf, number: u32, event: &Event) -> Option<Rule>
    ensures { result ≡ option_map (λ place. Rule.TooFew (id_at Kind.Event number) (RoleAt.Event event.now.kind place)) (too_few_of conf.now event.now) }
{
    let args = event.args.items();
    for role in 0..conf.role_count(event.kind) {
        if filled(role, args) < conf.role_least(event.kind, role) as usize {
            let id = id_at(Kind::Event, number);
            return Some(Rule::TooFew(id, RoleAt::Event(event.kind, role)));
        }
    }
    None
}

/// What forbids to commit a layer, if anything does: the lowest event that has fewer arguments of a
/// role than the configuration asks, with its first such role (brat configuration manual, "Event
/// definitions"). While a layer is being edited its events may lack arguments, so `check` does not ask
/// for them. Cost: the number of events, each with its roles and arguments.
pub fn may_commit(layer: &Layer, conf: &Conf) -> Option<Rule>
    ensures { result ≡ commit_fault conf.now layer.now }
{
    for (number, event) in layer.events() {
        if let Some(rule) = too_few(conf, *number, event) {
            return Some(rule);
        }
    }
    None
}
