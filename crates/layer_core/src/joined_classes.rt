//! What members that are joined make one class with, and what that class breaks.
ghost use Rattle.std.specs.Prelude.{◌≡◌, ℕ, ◌-◌, ◌++◌, ◌∷◌, [], ◌<◌, ◌≤◌, ◌||◌, ◌&&◌, not, nat_lt, if◌then◌else◌, IfOk, None, Some, length, option_map};
ghost use Rattle.std.specs.List.{filter, flat_map, list_any};
ghost use Rattle.layer_model.specs.Classes.{ascending, has_rank, is_among, joined, rank, shares};
ghost use Rattle.layer_model.specs.Layers.{with_classes};
ghost use Rattle.mark_base.specs.declared.ann_id.Kind.TheVariants as letter;
ghost use Rattle.layer_model.specs.declared.rule.Rule.TheVariants as broken;
ghost use Rattle.layer_core.specs.declared.back.Back.TheVariants as back;
ghost use Rattle.layer_core.specs.Backs.{IsWayBack};
ghost use Rattle.layer_core.specs.Joined.{alone_rule, joined_flaw, too_many_classes};
ghost use Rattle.layer_core.specs.Outcomes.{IsSomeWellFormed};
ghost use Rattle.layer_core.specs.Regrouped.{IsOneOf};

use crate::Back;
use crate::taken::ClassGroups;
use conf_model::Conf;
use layer_model::{Class, IdSet, Layer, Rule};
use layer_rules::{class_rule, equiv_members};
use mark_base::{AnnId, IdList, Kind, Memory, RelId};
use std::alloc::Global;

/// How many classes a layer has at most.
const MOST_CLASSES: usize = 10_000;

/// Whether one of the members is sought.
fn is_some_sought(members: &[AnnId], sought: &IdSet) -> bool
    ensures { result ≡ list_any (λ id. is_among id sought.now) members.now }
{
    members.iter().any(|member| sought.has(*member))
}

/// Whether a class is of the relation type and has one of these members.
fn shares(class: &Class, kind: RelId, sought: &IdSet) -> bool
    ensures { result ≡ shares kind.n sought.now class.now }
{
    class.kind == kind && is_some_sought(class.members.items(), sought)
}

/// Copies of the classes that share one of the sought members.
fn sharing_with(
    alloc: Global,
    classes: &[Class],
    kind: RelId,
    sought: &IdSet,
) -> Result<Vec<Class>, Memory>
    ensures { IfOk result (λ found. found.items ≡ filter (shares kind.n sought.now) classes.now) }
{
    let mut found = Vec::new(alloc);
    for class in classes {
        if shares(class, kind, sought) {
            found.push(class.clone()?)?;
        }
    }
    Ok(found)
}

/// Copies of the classes of a relation type that share one of these members. Cost: the members of the
/// classes, times the logarithm of the number of these.
fn sharing(
    alloc: Global,
    classes: &[Class],
    kind: RelId,
    members: &[AnnId],
) -> Result<Vec<Class>, Memory>
    ensures { IfOk result (λ found. found.items ≡ filter (shares kind.n members.now) classes.now) }
{
    let sought = IdSet::of(alloc, members)?;
    let found = sharing_with(alloc, classes, kind, &sought)?;
    Ok(found)
}

/// Some members, and those of some classes behind them.
fn with_members(alloc: Global, members: &[AnnId], classes: &[Class]) -> Result<Vec<AnnId>, Memory>
    ensures { IfOk result (λ all. all.items ≡ members.now ++ flat_map (λ class. class.members) classes.now) }
{
    let mut all = Vec::from_slice(alloc, members)?;
    for class in classes {
        all.extend_from_slice(class.members.items())?;
    }
    Ok(all)
}

/// The rule that a class breaks, whatever the other classes are.
fn alone_rule(conf: &Conf, layer: &Layer, class: &Class) -> Option<Rule>
    ensures { result ≡ alone_rule conf.now layer.now class.now }
{
    class_rule(conf, layer, class).or(equiv_members(conf, layer, class))
}

/// The rule that the class of these members breaks, whatever the other classes are. It is made in a layer
/// of its own.
fn class_made_rule(
    alloc: Global,
    conf: &Conf,
    layer: &Layer,
    kind: RelId,
    members: Vec<AnnId>,
) -> Result<Option<Rule>, Memory>
    requires { 0 < length members.items }
    ensures { IfOk result (λ rule. rule ≡ alone_rule conf.now layer.now (record { kind = kind; members = ascending members.items })) }
{
    let mut made = Layer::new(alloc);
    made.join(kind, IdList::from_vec(members))?;
    match made.classes() {
        [class] => Ok(alone_rule(conf, layer, class)),
        _ => unreachable!(),
    }
}

/// The rule that is broken where one class takes the place of so many.
fn too_many_rule(classes: usize, sharing: usize) -> Option<Rule>
    requires { sharing ≤ classes }
    ensures { result ≡ (if nat_lt (classes - sharing) 10000 then None else Some (broken.LayerFull letter.Text)) }
{
    if classes - sharing < MOST_CLASSES {
        None
    } else {
        Some(Rule::LayerFull(Kind::Text))
    }
}

/// The members among these that a class does not have.
fn without_those_of(alloc: Global, members: &[AnnId], class: &Class) -> Result<Vec<AnnId>, Memory>
    ensures { IfOk result (λ others. others.items ≡ filter (λ id. not (has_rank (rank id) (ascending class.now.members))) members.now) }
{
    let held = IdSet::of(alloc, class.members.items())?;
    let others = without_held(alloc, members, &held)?;
    Ok(others)
}

/// The members among these that are not held.
fn without_held(alloc: Global, members: &[AnnId], held: &IdSet) -> Result<Vec<AnnId>, Memory>
    ensures { IfOk result (λ others. others.items ≡ filter (λ id. not (has_rank (rank id) held.now)) members.now) }
{
    let mut others = Vec::new(alloc);
    for id in members {
        if !held.has(*id) {
            others.push(*id)?;
        }
    }
    Ok(others)
}

/// The members among these and those of some classes that another class does not have.
fn leaving(
    alloc: Global,
    members: &[AnnId],
    again: &[Class],
    kept: &Class,
) -> Result<Vec<AnnId>, Memory>
    ensures { IfOk result (λ out. (q : ℕ) → has_rank q out.items ≡ ((has_rank q members.now || has_rank q (flat_map (λ class. class.members) again.now)) && not (has_rank q kept.now.members))) }
{
    let all = with_members(alloc, members, again)?;
    let out = without_those_of(alloc, &all, kept)?;
    Ok(out)
}

/// What leads back where these members leave and these classes are made again.
fn back_of(kind: RelId, out: Vec<AnnId>, again: Vec<Class>) -> Back
    ensures { result ≡ back.Classes kind out.items again.items }
{
    let out = IdList::from_vec(out);
    let again = ClassGroups::from_vec(again);
    Back::Classes { kind, out, again }
}

/// What leads back where members are joined with classes that share one: they leave one of these, and the
/// others are classes again.
fn way_back_shared(
    alloc: Global,
    layer: &Layer,
    kind: RelId,
    members: &[AnnId],
    again: Vec<Class>,
    kept: &Class,
) -> Result<Back, Memory>
    requires well_formed { IsSomeWellFormed layer.now }
    requires some { 0 < length members.now }
    requires sharing { IsOneOf kept.now again.items (filter (shares kind.n members.now) layer.now.classes) }
    ensures { IfOk result (λ back. IsWayBack back (with_classes layer.now (joined kind members.now layer.now.classes)) layer.now) }
{
    layer.keeps();
    let out = leaving(alloc, members, &again, kept)?;
    Ok(back_of(kind, out, again))
}

/// What leads back where members are joined that stand in no class: they leave the class that they made.
fn way_back_new(
    alloc: Global,
    layer: &Layer,
    kind: RelId,
    members: &[AnnId],
) -> Result<Back, Memory>
    requires well_formed { IsSomeWellFormed layer.now }
    requires some { 0 < length members.now }
    requires none { filter (shares kind.n members.now) layer.now.classes ≡ [] }
    ensures { IfOk result (λ back. IsWayBack back (with_classes layer.now (joined kind members.now layer.now.classes)) layer.now) }
{
    layer.keeps();
    let out = Vec::from_slice(alloc, members)?;
    Ok(back_of(kind, out, Vec::new(alloc)))
}

/// The place of a class that has the most members.
fn greatest_place(classes: &[Class]) -> usize
    requires { 0 < length classes.now }
    ensures { result < length classes.now }
{
    let mut greatest = 0;
    for place in 1..classes.len() {
        if classes[place].members.items().len() > classes[greatest].members.items().len() {
            greatest = place;
        }
    }
    greatest
}

/// What leads back where members are joined with the classes that share one, which are these. The class that
/// has the most members is not written down, so that what is held is no more than the others have.
fn way_back(
    alloc: Global,
    layer: &Layer,
    kind: RelId,
    members: &[AnnId],
    sharing: Vec<Class>,
) -> Result<Back, Memory>
    requires well_formed { IsSomeWellFormed layer.now }
    requires some { 0 < length members.now }
    requires sharing { sharing.items ≡ filter (shares kind.n members.now) layer.now.classes }
    ensures { IfOk result (λ back. IsWayBack back (with_classes layer.now (joined kind members.now layer.now.classes)) layer.now) }
{
    if sharing.is_empty() {
        return way_back_new(alloc, layer, kind, members);
    }
    let mut again = sharing;
    let greatest = greatest_place(&again);
    let kept = again.remove(greatest);
    way_back_shared(alloc, layer, kind, members, again, &kept)
}

/// The rule that is broken where members are joined with the classes that share one, which are these, and
/// there is one class too many then.
fn one_too_many(layer: &Layer, kind: RelId, members: &[AnnId], sharing: &[Class]) -> Option<Rule>
    requires { sharing.now ≡ filter (shares kind.n members.now) layer.now.classes }
    ensures { result ≡ option_map (λ flaw. flaw.rule) (too_many_classes (joined kind members.now layer.now.classes)) }
{
    let classes = layer.classes().len();
    too_many_rule(classes, sharing.len())
}

/// What joining members comes to: the first rule that the class breaks which they make, or one class too
/// many, and what leads back.
#[derive(Drop)]
pub(crate) struct JoinPlan {
    pub rule: Option<Rule>,
    pub back: Back,
}

/// What joining members with the classes that share one comes to. Cost: a look at the members of the
/// classes, and what `class_rule`, `equiv_members` and a join of the members of those that share one cost.
pub(crate) fn plan_join(
    alloc: Global,
    conf: &Conf,
    layer: &Layer,
    kind: RelId,
    members: &[AnnId],
) -> Result<JoinPlan, Memory>
    requires well_formed { IsSomeWellFormed layer.now }
    requires some { 0 < length members.now }
    ensures rule { IfOk result (λ plan. plan.rule ≡ option_map (λ flaw. flaw.rule) (joined_flaw conf.now layer.now kind members.now)) }
    ensures back { IfOk result (λ plan. IsWayBack plan.back (with_classes layer.now (joined kind members.now layer.now.classes)) layer.now) }
{
    let sharing = sharing(alloc, layer.classes(), kind, members)?;
    let all = with_members(alloc, members, &sharing)?;
    let broken = class_made_rule(alloc, conf, layer, kind, all)?;
    let many = one_too_many(layer, kind, members, &sharing);
    let back = way_back(alloc, layer, kind, members, sharing)?;
    Ok(JoinPlan {
        rule: broken.or(many),
        back,
    })
}
