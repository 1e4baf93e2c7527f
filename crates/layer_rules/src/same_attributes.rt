//! Attributes that have the type and the target of another.
ghost use Rattle.std.specs.Prelude.{◌≡◌, ◌++◌, IfOk, OnOk, map};
ghost use Rattle.std.specs.FinMap as finite;
ghost use Rattle.std.specs.Ordering.{nat_cmp};
ghost use Rattle.layer_rules.specs.Repeats.{attribute_key, keyed, shown};
ghost use Rattle.layer_rules.specs.FlawPlaces.{first_place, places};
ghost use Rattle.layer_rules.specs.WellFormed.{at_attribute_there};

use crate::repeats::{KeyedId, first_repeat};
use layer_model::{Attribute, Flaw, FlawPlace, Layer, Rule, id_at, rank};
use mark_base::{Kind, Memory};
use std::alloc::Global;
use std::collections::BTreeMap;

/// The numbers that stand for an attribute: its type and its target.
fn attribute_key(alloc: Global, attribute: &Attribute) -> Result<Vec<u64>, Memory>
    ensures { IfOk result (λ key. key.items ≡ attribute_key attribute.now) }
{
    let mut key = Vec::new(alloc);
    key.push(attribute.kind.n as u64)?;
    key.push(rank(attribute.target))?;
    Ok(key)
}

/// Appends the attributes of a letter, each with the numbers that stand for it.
fn push_attributes(
    alloc: Global,
    all: &mut Vec<KeyedId>,
    kind: Kind,
    attributes: &BTreeMap<u32, Attribute>,
) -> Result<(), Memory>
    ensures { OnOk result (map shown all.new.items ≡ map shown all.old.items ++ keyed kind attribute_key (finite.entries (finite.from_entries {R = nat_cmp} attributes.now.entries))) }
{
    for (number, attribute) in attributes {
        let id = id_at(kind, *number);
        let key = attribute_key(alloc, attribute)?;
        all.push(KeyedId { id, key })?;
    }
    Ok(())
}

/// The flaw at the first attribute that has the type and the target of another, under either letter.
/// Cost: the number of attributes, times its logarithm.
pub(crate) fn attribute_there_flaw(alloc: Global, layer: &Layer) -> Result<Option<Flaw>, Memory>
    ensures { IfOk result (λ flaw. flaw ≡ first_place (at_attribute_there layer.now) (places layer.now)) }
{
    layer.keeps();
    let mut all = Vec::new(alloc);
    push_attributes(alloc, &mut all, Kind::Attribute, layer.attributes())?;
    push_attributes(alloc, &mut all, Kind::Legacy, layer.legacy())?;
    let repeat = first_repeat(alloc, all.as_slice())?;
    match repeat {
        Some(repeat) => Ok(Some(Flaw {
            rule: Rule::AttributeThere(repeat.first),
            at: FlawPlace::Mark(repeat.again),
        })),
        None => Ok(None),
    }
}
