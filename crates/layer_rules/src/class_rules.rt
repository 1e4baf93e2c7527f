//! The rules that look at one class and at what it names.
ghost use Rattle.std.specs.Prelude.{◌≡◌, ◌≤◌, length};
ghost use Rattle.layer_rules.specs.FlawPlaces.{first_place, places};
ghost use Rattle.layer_rules.specs.LayerRules.{are_bad_members, equiv_members};
ghost use Rattle.layer_rules.specs.WellFormed.{at_equiv_members};
ghost use Rattle.layer_rules.specs.LowestFlaw.{class_rule, first_from};

use crate::mark_rules::{barred_class, missing_ids, unknown_relation, unwanted_members, where_so};
use crate::member_types::{has_twins, have_unfit_types};
use conf_model::Conf;
use layer_model::{Class, Flaw, FlawPlace, Layer, Rule};
use mark_base::{AnnId, RelId};

/// The first of the rules on one class, and on what it names, that it breaks: those of the numbers 1, 2, 6
/// and 7. Cost: its members, each a look-up.
pub fn class_rule(conf: &Conf, layer: &Layer, class: &Class) -> Option<Rule>
    ensures { result ≡ class_rule conf.now layer.now class.now }
{
    unknown_relation(conf, class.kind)
        .or(barred_class(conf, class.kind))
        .or(missing_ids(layer, class.members.items()))
        .or(unwanted_members(conf, layer, class.members.items()))
}

/// Whether some ID stands twice, or two may not be in one class. Cost: the IDs where they ascend, each a
/// look-up, and the square of the number of types that they have; else the square of their number besides.
pub fn are_bad_members(conf: &Conf, layer: &Layer, kind: RelId, ids: &[AnnId]) -> bool
    ensures { result ≡ are_bad_members conf.now layer.now kind.n ids.now }
{
    if has_twins(ids) {
        return true;
    }
    have_unfit_types(conf, layer, kind, ids)
}

/// The rule on members that do not make a class. Cost: as `are_bad_members`.
pub fn equiv_members(conf: &Conf, layer: &Layer, class: &Class) -> Option<Rule>
    ensures { result ≡ equiv_members conf.now layer.now class.now }
{
    let ids = class.members.items();
    let bad = ids.len() < 2 || are_bad_members(conf, layer, class.kind, ids);
    where_so(bad, Rule::EquivMembers)
}

/// The flaw of the first class whose members do not make one.
pub(crate) fn member_flaw(conf: &Conf, layer: &Layer) -> Option<Flaw>
    ensures { result ≡ first_place (at_equiv_members conf.now layer.now) (places layer.now) }
{
    layer.keeps();
    first_bad(conf, layer, layer.classes())
}

/// The same among classes.
fn first_bad(conf: &Conf, layer: &Layer, classes: &[Class]) -> Option<Flaw>
    requires { length classes.now ≤ 4294967295 }
    ensures { result ≡ first_from 0 (λ _. equiv_members conf.now layer.now) classes.now }
{
    for (index, class) in classes.iter().enumerate() {
        if let Some(rule) = equiv_members(conf, layer, class) {
            let at = FlawPlace::Class(index as u32);
            return Some(Flaw { rule, at });
        }
    }
    None
}
