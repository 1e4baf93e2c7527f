//! The rule on how many annotations of a sort a layer holds.
ghost use Rattle.std.specs.Prelude.{◌≡◌, ◌≤◌, ◌-◌, length, slice_get};
ghost use Rattle.std.specs.Ordering.{nat_cmp};
ghost use Rattle.std.specs.FinMap as finite;
ghost use Rattle.layer_rules.specs.FlawPlaces.{first_place, places};
ghost use Rattle.layer_rules.specs.LayerRules.{classes_full};
ghost use Rattle.layer_rules.specs.WellFormed.{at_layer_full};
ghost use Rattle.layer_rules.specs.LowestFlaw.{first_from, full_at};

use layer_model::{Class, Flaw, FlawPlace, Layer, Rule, id_at};
use mark_base::Kind;
use std::collections::BTreeMap;

/// The annotations of one sort, and the classes, of the fullest layer.
const MOST: u32 = 10_000;

/// The number of the annotation of this index among those of a letter. Cost: the index, where there are
/// more.
fn number_at<V>(map: &BTreeMap<u32, V>, index: u32) -> Option<u32>
    ensures { result ≡ slice_get (finite.keys (finite.from_entries {R = nat_cmp} map.now.entries)) index }
{
    if map.len() <= index as usize {
        return None;
    }
    let mut left = index;
    for (number, _) in map {
        if left == 0 {
            return Some(*number);
        }
        left -= 1;
    }
    None
}

/// The flaw of the annotation of this index among those of a letter, counted as of another.
fn full<V>(kind: Kind, counted: Kind, map: &BTreeMap<u32, V>, index: u32) -> Option<Flaw>
    ensures { result ≡ full_at kind counted (slice_get (finite.keys (finite.from_entries {R = nat_cmp} map.now.entries)) index) }
{
    let number = number_at(map, index)?;
    Some(Flaw {
        rule: Rule::LayerFull(counted),
        at: FlawPlace::Mark(id_at(kind, number)),
    })
}

/// The flaw of the 10,001st class.
fn full_classes(classes: &[Class]) -> Option<Flaw>
    ensures { result ≡ first_from 0 classes_full classes.now }
{
    if classes.len() <= MOST as usize {
        return None;
    }
    Some(Flaw {
        rule: Rule::LayerFull(Kind::Text),
        at: FlawPlace::Class(MOST),
    })
}

/// The flaw of the first annotation or class that is the 10,001st of its sort. Attributes count under
/// both letters together. Cost: a few counts, where nothing is too much; else the annotations of a sort.
pub fn full_flaw(layer: &Layer) -> Option<Flaw>
    ensures { result ≡ first_place (at_layer_full layer.now) (places layer.now) }
{
    layer.keeps();
    let left = MOST.saturating_sub(layer.count(Kind::Attribute));
    let spans = full(Kind::Text, Kind::Text, layer.spans(), MOST);
    let events = full(Kind::Event, Kind::Event, layer.events(), MOST);
    let relations = full(Kind::Relation, Kind::Relation, layer.relations(), MOST);
    let attributes = full(Kind::Attribute, Kind::Attribute, layer.attributes(), MOST);
    let legacy = full(Kind::Legacy, Kind::Attribute, layer.legacy(), left);
    let normals = full(Kind::Normal, Kind::Normal, layer.normals(), MOST);
    let notes = full(Kind::Note, Kind::Note, layer.notes(), MOST);
    let later = normals.or(notes.or(full_classes(layer.classes())));
    let marked = attributes.or(legacy.or(later));
    spans.or(events.or(relations.or(marked)))
}
