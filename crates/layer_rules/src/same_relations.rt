//! Relations that have the type and both arguments of another.
ghost use Rattle.std.specs.Prelude.{◌≡◌, IfOk, map};
ghost use Rattle.std.specs.FinMap as finite;
ghost use Rattle.std.specs.Ordering.{nat_cmp};
ghost use Rattle.mark_base.specs.declared.ann_id.Kind.TheVariants as letter;
ghost use Rattle.layer_rules.specs.Repeats.{keyed, shown, relation_key};
ghost use Rattle.layer_rules.specs.FlawPlaces.{first_place, places};
ghost use Rattle.layer_rules.specs.WellFormed.{at_same_relation};

use crate::repeats::{KeyedId, first_repeat};
use layer_model::{Flaw, FlawPlace, Layer, Relation, Rule, id_at, rank};
use mark_base::{Kind, Memory};
use std::alloc::Global;
use std::collections::BTreeMap;

/// The numbers that stand for a relation: its type and both arguments.
fn relation_key(alloc: Global, relation: &Relation) -> Result<Vec<u64>, Memory>
    ensures { IfOk result (λ key. key.items ≡ relation_key relation.now) }
{
    let mut key = Vec::new(alloc);
    key.push(relation.kind.n as u64)?;
    key.push(rank(relation.first))?;
    key.push(rank(relation.second))?;
    Ok(key)
}

/// The relations by their numbers, each with the numbers that stand for it.
fn keyed_relations(
    alloc: Global,
    relations: &BTreeMap<u32, Relation>,
) -> Result<Vec<KeyedId>, Memory>
    ensures { IfOk result (λ all. map shown all.items ≡ keyed letter.Relation relation_key (finite.entries (finite.from_entries {R = nat_cmp} relations.now.entries))) }
{
    let mut all = Vec::new(alloc);
    for (number, relation) in relations {
        let id = id_at(Kind::Relation, *number);
        let key = relation_key(alloc, relation)?;
        all.push(KeyedId { id, key })?;
    }
    Ok(all)
}

/// The flaw at the first relation that has the type and both arguments of another. Cost: the number of
/// relations, times its logarithm.
pub(crate) fn same_relation_flaw(alloc: Global, layer: &Layer) -> Result<Option<Flaw>, Memory>
    ensures { IfOk result (λ flaw. flaw ≡ first_place (at_same_relation layer.now) (places layer.now)) }
{
    layer.keeps();
    let all = keyed_relations(alloc, layer.relations())?;
    let repeat = first_repeat(alloc, all.as_slice())?;
    match repeat {
        Some(repeat) => Ok(Some(Flaw {
            rule: Rule::SameRelation(repeat.first),
            at: FlawPlace::Mark(repeat.again),
        })),
        None => Ok(None),
    }
}
