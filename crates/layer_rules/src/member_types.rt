//! The types of the members of a class, of which each two are to fit.
ghost use Rattle.std.specs.Prelude.{◌≡◌, not, Some};
ghost use Rattle.std.specs.List.{list_any};
ghost use Rattle.layer_rules.specs.LayerRules.{is_id, may_be_equal};
ghost use Rattle.layer_rules.specs.MemberTypes.{ascends_from, has_twins, has_unfit, stands_twice};
ghost use Rattle.layer_rules.specs.Targets.{type_of};

use crate::targets::{is_id, type_of};
use conf_model::Conf;
use layer_model::{Layer, rank};
use mark_base::{AnnId, RelId, TypeId};

/// How many types are kept: each of those that annotations may have twice.
const MOST_KEPT: usize = 126;

/// Whether some line of a relation type admits two types in either order.
fn may_be_equal(conf: &Conf, kind: RelId, a: TypeId, b: TypeId) -> bool
    ensures { result ≡ may_be_equal conf.now kind.n (Some a) (Some b) }
{
    conf.relation_admits(kind, a, b) || conf.relation_admits(kind, b, a)
}

/// Whether a type may not be in one class with one of some types.
fn is_unfit(conf: &Conf, kind: RelId, first: TypeId, others: &[TypeId]) -> bool
    ensures { result ≡ list_any (λ other. not (may_be_equal conf.now kind.n (Some first) (Some other))) others.now }
{
    others
        .iter()
        .any(|other| !may_be_equal(conf, kind, first, *other))
}

/// Whether some two of these types may not be in one class.
fn are_unfit(conf: &Conf, kind: RelId, types: &[TypeId]) -> bool
    ensures { result ≡ has_unfit (λ a b. may_be_equal conf.now kind.n (Some a) (Some b)) types.now }
{
    let mut left = types;
    while let Some((first, others)) = left.split_first() {
        if is_unfit(conf, kind, *first, others) {
            return true;
        }
        left = others;
    }
    false
}

/// Whether some line of a relation type admits the types of two annotations in either order.
fn may_be_one(conf: &Conf, layer: &Layer, kind: RelId, a: AnnId, b: AnnId) -> bool
    ensures { result ≡ may_be_equal conf.now kind.n (type_of layer.now a) (type_of layer.now b) }
{
    match (type_of(layer, a), type_of(layer, b)) {
        (Some(a), Some(b)) => may_be_equal(conf, kind, a, b),
        _ => true,
    }
}

/// Whether an annotation may not be in one class with one of some others.
fn clashes(conf: &Conf, layer: &Layer, kind: RelId, id: AnnId, others: &[AnnId]) -> bool
    ensures { result ≡ list_any (λ other. not (may_be_equal conf.now kind.n (type_of layer.now id) (type_of layer.now other))) others.now }
{
    for other in others {
        if !may_be_one(conf, layer, kind, id, *other) {
            return true;
        }
    }
    false
}

/// Whether some two of these annotations are of types that may not be in one class: each is compared with
/// each.
fn clash_in_pairs(conf: &Conf, layer: &Layer, kind: RelId, ids: &[AnnId]) -> bool
    ensures { result ≡ has_unfit (λ a b. may_be_equal conf.now kind.n (type_of layer.now a) (type_of layer.now b)) ids.now }
{
    let mut left = ids;
    while let Some((id, others)) = left.split_first() {
        if clashes(conf, layer, kind, *id, others) {
            return true;
        }
        left = others;
    }
    false
}

/// Whether a type stands twice among some.
fn stands_twice(of: TypeId, types: &[TypeId]) -> bool
    ensures { result ≡ stands_twice of types.now }
{
    types.iter().filter(|other| other.n == of.n).count() >= 2
}

/// Whether some two of these annotations are of types that may not be in one class. Of the annotations of
/// one type two are compared, since a third is as each of them. Cost: the annotations, each a look-up, and
/// the square of the number of types that they have.
pub(crate) fn have_unfit_types(conf: &Conf, layer: &Layer, kind: RelId, ids: &[AnnId]) -> bool
    ensures { result ≡ has_unfit (λ a b. may_be_equal conf.now kind.n (type_of layer.now a) (type_of layer.now b)) ids.now }
{
    let mut kept = [TypeId { n: 0 }; MOST_KEPT];
    let mut count = 0;
    for id in ids {
        if let Some(of) = type_of(layer, *id) {
            if !stands_twice(of, &kept[..count]) {
                if count == MOST_KEPT {
                    return clash_in_pairs(conf, layer, kind, ids);
                }
                kept[count] = of;
                count += 1;
            }
        }
    }
    are_unfit(conf, kind, &kept[..count])
}

/// Whether each ID stands behind the one before it.
fn ascend(ids: &[AnnId]) -> bool
    ensures { result ≡ ascends_from 0 ids.now }
{
    let mut least = 0;
    for id in ids {
        if rank(*id) < least {
            return false;
        }
        least = rank(*id) + 1;
    }
    true
}

/// Whether an ID is among some.
fn is_again(id: AnnId, others: &[AnnId]) -> bool
    ensures { result ≡ list_any (is_id id) others.now }
{
    others.iter().any(|other| is_id(id, *other))
}

/// Whether some ID stands twice. Cost: the IDs where they ascend, as those of a class do, else the square
/// of their number.
pub(crate) fn has_twins(ids: &[AnnId]) -> bool
    ensures { result ≡ has_twins ids.now }
{
    if ascend(ids) {
        return false;
    }
    let mut left = ids;
    while let Some((id, others)) = left.split_first() {
        if is_again(*id, others) {
            return true;
        }
        left = others;
    }
    false
}
