//! One walk over a layer: the flaw of the lowest rule, at the first place that breaks it.
ghost use Rattle.std.specs.Prelude.{◌≡◌, ◌≤◌, length};
ghost use Rattle.std.specs.Ordering.{nat_cmp};
ghost use Rattle.std.specs.FinMap as finite;
ghost use Rattle.layer_rules.specs.FlawPlaces.{first_rule, places};
ghost use Rattle.layer_rules.specs.LowestFlaw.{class_rule, flaw_at, lower_flaw, lowest_from, lowest_of, single_rules};

use crate::class_rules::class_rule;
use crate::rules_by_kind::{Judge, Scene};
use layer_model::{Class, Flaw, FlawPlace, Rule, id_at};
use mark_base::Kind;
use std::collections::BTreeMap;

/// The flaw of a place that breaks a rule.
pub(crate) fn flaw_at(at: FlawPlace, rule: Option<Rule>) -> Option<Flaw>
    ensures { result ≡ flaw_at at rule }
{
    match rule {
        Some(rule) => Some(Flaw { rule, at }),
        None => None,
    }
}

/// Of two flaws the one of the lower rule, and the first of two of one rule.
fn lower_flaw(flaw: Option<Flaw>, later: Option<Flaw>) -> Option<Flaw>
    ensures { result ≡ lower_flaw flaw later }
{
    match (flaw, later) {
        (Some(flaw), Some(later)) => {
            if flaw.rule.number() <= later.rule.number() {
                Some(flaw)
            } else {
                Some(later)
            }
        }
        (Some(flaw), None) => Some(flaw),
        (None, later) => later,
    }
}

/// The flaw of the lowest rule among the annotations of a letter, at the first of them that breaks it.
fn lowest<V, J: Judge<V>>(judge: &J, kind: Kind, map: &BTreeMap<u32, V>) -> Option<Flaw>
    ensures { result ≡ lowest_of kind (J.told judge.now) (finite.entries (finite.from_entries {R = nat_cmp} map.now.entries)) }
{
    let mut lowest = None;
    for (number, found) in map {
        let at = FlawPlace::Mark(id_at(kind, *number));
        lowest = lower_flaw(lowest, flaw_at(at, judge.rule(found)));
    }
    lowest
}

/// The flaw of the lowest rule among the classes, at the first of them that breaks it.
fn lowest_class(scene: &Scene, classes: &[Class]) -> Option<Flaw>
    requires { length classes.now ≤ 4294967295 }
    ensures { result ≡ lowest_from 0 (class_rule scene.now.conf.now scene.now.layer.now) classes.now }
{
    let mut lowest = None;
    for (index, class) in classes.iter().enumerate() {
        let at = FlawPlace::Class(index as u32);
        lowest = lower_flaw(
            lowest,
            flaw_at(at, class_rule(scene.conf, scene.layer, class)),
        );
    }
    lowest
}

/// The flaw of the lowest of the rules that look at one annotation or class alone, at the first place
/// that breaks it.
pub(crate) fn single_flaw(scene: &Scene) -> Option<Flaw>
    ensures { result ≡ first_rule (single_rules scene.now.conf.now scene.now.characters scene.now.layer.now) (places scene.now.layer.now) }
{
    let layer = scene.layer;
    layer.keeps();
    let spans = lowest(scene, Kind::Text, layer.spans());
    let events = lowest(scene, Kind::Event, layer.events());
    let relations = lowest(scene, Kind::Relation, layer.relations());
    let attributes = lowest(scene, Kind::Attribute, layer.attributes());
    let legacy = lowest(scene, Kind::Legacy, layer.legacy());
    let normals = lowest(scene, Kind::Normal, layer.normals());
    let notes = lowest(scene, Kind::Note, layer.notes());
    let classes = lowest_class(scene, layer.classes());
    let later = lower_flaw(normals, lower_flaw(notes, classes));
    let marked = lower_flaw(attributes, lower_flaw(legacy, later));
    lower_flaw(spans, lower_flaw(events, lower_flaw(relations, marked)))
}
