//! A change of a layer, judged and then done, or taken back.
ghost use Rattle.std.specs.Prelude.{◌≡◌, ◌<◌, ℕ, IfOk, OnErr, OnOk, None, Some, length, option_map, true};
ghost use Rattle.std.specs.Option.{option_map_or};
ghost use Rattle.layer_model.specs.Annotations.{Annotations};
ghost use Rattle.layer_model.specs.Classes.{IsClassList, joined, parted};
ghost use Rattle.layer_model.specs.Layers.{has, is_of_kind, mark_at, with_classes, with_mark, without};
ghost use Rattle.conf_model.specs.Configurations.{Configuration};
ghost use Rattle.layer_rules.specs.CheckFaults.{IsCheckFault};
ghost use Rattle.layer_rules.specs.LowestFlaw.{HasGoodSpans};
ghost use Rattle.layer_rules.specs.WellFormed.{IsWellFormed, least_flaw};
ghost use Rattle.layer_core.specs.declared.change.Change.TheVariants as change;
ghost use Rattle.layer_core.specs.declared.back.Back.TheVariants as back;
ghost use Rattle.layer_core.specs.Backs.{DiffersUnder, IsWayBack, with_this};
ghost use Rattle.layer_core.specs.Changes.{FitsLayer, changed_rule, draft_by};
ghost use Rattle.layer_core.specs.CommandRules.{first_naming};
ghost use Rattle.layer_core.specs.Commands.{lower_rule};
ghost use Rattle.layer_core.specs.Indexes.{IsIndex};
ghost use Rattle.layer_core.specs.Joined.{joined_flaw};
ghost use Rattle.layer_core.specs.MadeLayers.{gone, with_less, without_all};
ghost use Rattle.layer_core.specs.Outcomes.{IsIndexed, IsOutcome, KeepsIndex};
ghost use Rattle.layer_core.specs.Regrouped.{beside};

use crate::change::Change;
use crate::index::Index;
use crate::joined_classes::{JoinPlan, plan_join};
use crate::near::{changed_rule, lower_rule};
use crate::removal::{beside, take_all_away, take_away};
use crate::taken::{Taken, TakenList};
use crate::ways_back::is_held;
use crate::work::Done;
use crate::{Back, Refusal};
use char_documents::Doc;
use conf_model::Conf;
use layer_model::{Layer, Mark, Rule};
use layer_rules::{CheckFault, check};
use mark_base::{AnnId, IdList, Memory, RelId};
use std::alloc::Global;
use std::mem;

/// What a command did and what leads back, or why it is refused.
pub(crate) type Outcome = Result<(Done, Back), Refusal>;

/// Puts an annotation under an ID, in the place of what is there, and answers what was. Want of memory
/// leaves the layer as it was.
pub(crate) fn set(layer: &mut Layer, id: AnnId, mark: Mark) -> Result<Option<Mark>, Memory>
    requires { is_of_kind id.kind mark ≡ true }
    ensures before { IfOk result (λ before. before ≡ mark_at layer.old id) }
    ensures done { OnOk result (layer.new ≡ with_mark layer.old id mark) }
    ensures kept { OnErr result (layer.new ≡ layer.old) }
{
    if layer.has(id) {
        Ok(Some(layer.replace(id, mark)))
    } else {
        layer.put(id, mark)?;
        Ok(None)
    }
}

/// Puts under an ID that has an annotation what was there before, which may be nothing.
fn set_back(layer: &mut Layer, id: AnnId, before: Option<Mark>)
    requires there { has layer.old id ≡ true }
    requires fits { option_map_or (is_of_kind id.kind) before true ≡ true }
    ensures { layer.new ≡ with_this layer.old id.kind id.number before }
{
    match before {
        Some(mark) => {
            layer.replace(id, mark);
        }
        None => {
            layer.take(id);
        }
    }
}

/// The index of a layer in which what stands under an ID changed, as far as memory allows one.
pub(crate) fn taken_in(
    mut index: Index,
    layer: &Layer,
    id: AnnId,
    before: &Option<Mark>,
) -> Option<Index>
    requires good { (conf : Configuration) × HasGoodSpans conf layer.now }
    requires index { IsIndex (Some id) layer.now index }
    ensures { IsIndexed layer.now result }
{
    match index.take_in(layer, id, before) {
        Ok(()) => Some(index),
        Err(_) => None,
    }
}

/// The rule that is broken where an annotation was put under an ID.
fn put_rule(
    alloc: Global,
    conf: &Conf,
    doc: &Doc,
    layer: &Layer,
    index: &Index,
    own: Option<Rule>,
    id: AnnId,
) -> Result<Option<Rule>, Memory>
    requires was { (earlier : Annotations) × (IsWellFormed conf.now (length doc.now) earlier × DiffersUnder layer.now id earlier) }
    requires there { has layer.now id ≡ true }
    requires index { IsIndex (Some id) layer.now index.now }
    ensures { IfOk result (λ rule. rule ≡ lower_rule own (changed_rule conf.now (length doc.now) layer.now id)) }
{
    let broken = changed_rule(alloc, conf, doc, layer, index, id)?;
    Ok(lower_rule(own, broken))
}

/// Puts an annotation under an ID of a layer, where no rule is broken then.
fn put(
    alloc: Global,
    conf: &Conf,
    doc: &Doc,
    layer: &mut Layer,
    index: Index,
    own: Option<Rule>,
    id: AnnId,
    mark: Mark,
    is_new: bool,
) -> (Outcome, Option<Index>)
    requires well_formed { IsWellFormed conf.now (length doc.now) layer.old }
    requires index { IsIndex None layer.old index }
    requires fits { is_of_kind id.kind mark ≡ true }
    ensures outcome { IsOutcome conf.now (length doc.now) own (draft_by layer.old (change.Put id mark is_new)) layer.old layer.new result.0 }
    ensures index { IsIndexed layer.new result.1 }
{
    let before = match set(layer, id, mark) {
        Ok(before) => before,
        Err(_) => return (Err(Refusal::Memory), Some(index)),
    };
    layer.keeps();
    match put_rule(alloc, conf, doc, layer, &index, own, id) {
        Ok(None) => {
            let index = taken_in(index, layer, id, &before);
            let made = if is_new { Some(id) } else { None };
            (Ok((Done { made }, Back::Under { id, mark: before })), index)
        }
        Ok(Some(rule)) => {
            set_back(layer, id, before);
            (Err(Refusal::Rule(rule)), Some(index))
        }
        Err(_) => {
            set_back(layer, id, before);
            (Err(Refusal::Memory), Some(index))
        }
    }
}

/// Takes an annotation away that stands in no class.
fn take_alone(layer: &mut Layer, index: Index, id: AnnId) -> (Back, Option<Index>)
    requires good { (conf : Configuration) × HasGoodSpans conf layer.old }
    requires index { IsIndex None layer.old index }
    ensures layer { layer.new ≡ without layer.old id }
    ensures back { IsWayBack result.0 layer.new layer.old }
    ensures index { IsIndexed layer.new result.1 }
{
    let before = layer.take(id);
    let index = taken_in(index, layer, id, &before);
    (Back::Under { id, mark: before }, index)
}

/// Takes an annotation away that stands in a class, and out of all classes, and tells what leads back. Want
/// of memory leaves the layer as it was.
fn take_one(alloc: Global, layer: &mut Layer, id: AnnId) -> Result<TakenList, Memory>
    ensures gone { OnOk result (layer.new ≡ gone layer.old id) }
    ensures back { IfOk result (λ taken. IsWayBack (back.Marks taken) layer.new layer.old) }
    ensures kept { OnErr result (layer.new ≡ layer.old) }
{
    let mut all = Vec::with_capacity(alloc, 1)?;
    let taken = take_away(alloc, layer, id)?;
    all.push_reserved(taken);
    Ok(TakenList::from_vec(all))
}

/// The index of a layer from which one annotation was taken, as far as memory allows one.
fn taken_out(index: Index, layer: &Layer, id: AnnId, taken: &[Taken]) -> Option<Index>
    requires good { (conf : Configuration) × HasGoodSpans conf layer.now }
    requires index { IsIndex (Some id) layer.now index }
    ensures { IsIndexed layer.now result }
{
    match taken {
        [one] => taken_in(index, layer, id, &one.mark),
        _ => None,
    }
}

/// Takes an annotation away that stands in a class, and out of all classes. Cost: as `take_away`.
fn take_member(
    alloc: Global,
    layer: &mut Layer,
    index: Index,
    id: AnnId,
) -> (Result<Back, Memory>, Option<Index>)
    requires good { (conf : Configuration) × HasGoodSpans conf layer.old }
    requires index { IsIndex None layer.old index }
    ensures done { OnOk result.0 (layer.new ≡ gone layer.old id) }
    ensures back { IfOk result.0 (λ back. IsWayBack back layer.new layer.old) }
    ensures kept { OnErr result.0 (layer.new ≡ layer.old) }
    ensures index { IsIndexed layer.new result.1 }
{
    match take_one(alloc, layer, id) {
        Ok(taken) => {
            let index = taken_out(index, layer, id, taken.items());
            (Ok(Back::Marks { taken }), index)
        }
        Err(memory) => (Err(memory), Some(index)),
    }
}

/// Takes an annotation away that no other names, and out of all classes. Cost: as the look-up of an ordered
/// map, and where it stands in a class what `take_away` costs.
fn take_unnamed(
    alloc: Global,
    layer: &mut Layer,
    index: Index,
    id: AnnId,
) -> (Result<Back, Memory>, Option<Index>)
    requires good { (conf : Configuration) × HasGoodSpans conf layer.old }
    requires index { IsIndex None layer.old index }
    ensures done { OnOk result.0 (layer.new ≡ gone layer.old id) }
    ensures back { IfOk result.0 (λ back. IsWayBack back layer.new layer.old) }
    ensures kept { OnErr result.0 (layer.new ≡ layer.old) }
    ensures index { IsIndexed layer.new result.1 }
{
    if !is_held(layer.classes(), id) {
        let (back, index) = take_alone(layer, index, id);
        return (Ok(back), index);
    }
    take_member(alloc, layer, index, id)
}

/// Takes an annotation away that no other names, where the command's own fields break no rule.
fn take(
    alloc: Global,
    conf: &Conf,
    doc: &Doc,
    layer: &mut Layer,
    index: Index,
    own: Option<Rule>,
    id: AnnId,
) -> (Outcome, Option<Index>)
    requires well_formed { IsWellFormed conf.now (length doc.now) layer.old }
    requires index { IsIndex None layer.old index }
    requires unnamed { first_naming layer.old id ≡ None }
    ensures outcome { IsOutcome conf.now (length doc.now) own (Some (with_less (gone layer.old id))) layer.old layer.new result.0 }
    ensures index { IsIndexed layer.new result.1 }
{
    let _characters = doc.char_count();
    layer.keeps();
    match own {
        Some(rule) => return (Err(Refusal::Rule(rule)), Some(index)),
        None => {}
    }
    let (back, index) = take_unnamed(alloc, layer, index, id);
    match back {
        Ok(back) => (Ok((Done { made: None }, back)), index),
        Err(_) => (Err(Refusal::Memory), index),
    }
}

/// The rule that is broken where a layer has a fault.
fn fault_rule(own: Option<Rule>, fault: CheckFault) -> Result<Option<Rule>, Memory>
    ensures { (conf : Configuration) (characters : ℕ) (layer : Annotations) → IsCheckFault conf characters layer fault → IfOk result (λ rule. rule ≡ lower_rule own (option_map (λ flaw. flaw.rule) (least_flaw conf characters layer))) }
{
    match fault {
        CheckFault::Memory => Err(Memory),
        CheckFault::Flaw(flaw) => Ok(lower_rule(own, Some(flaw.rule))),
    }
}

/// The rule that is broken where a whole layer is put in the place of another.
fn whole_rule(
    alloc: Global,
    conf: &Conf,
    doc: &Doc,
    own: Option<Rule>,
    made: &Layer,
) -> Result<Option<Rule>, Memory>
    ensures { IfOk result (λ rule. rule ≡ lower_rule own (option_map (λ flaw. flaw.rule) (least_flaw conf.now (length doc.now) made.now))) }
{
    match check(alloc, made, doc, conf) {
        Ok(()) => Ok(own),
        Err(fault) => fault_rule(own, fault),
    }
}

/// Puts a whole layer in the place of another, where no rule is broken then. The other leads back.
fn replace(
    alloc: Global,
    conf: &Conf,
    doc: &Doc,
    layer: &mut Layer,
    index: Index,
    own: Option<Rule>,
    made: Layer,
) -> (Outcome, Option<Index>)
    requires index { IsIndex None layer.old index }
    ensures outcome { IsOutcome conf.now (length doc.now) own (Some (with_less made)) layer.old layer.new result.0 }
    ensures index { IsIndexed layer.new result.1 }
{
    match whole_rule(alloc, conf, doc, own, &made) {
        Ok(None) => {
            let earlier = mem::replace(layer, made);
            (
                Ok((Done { made: None }, Back::Whole { layer: earlier })),
                None,
            )
        }
        Ok(Some(rule)) => (Err(Refusal::Rule(rule)), Some(index)),
        Err(_) => (Err(Refusal::Memory), Some(index)),
    }
}

/// A layer without some annotations, in no class either, and the annotations, which lead back.
#[derive(Drop)]
struct Less {
    made: Layer,
    taken: TakenList,
}

/// A layer without some annotations, in no class either.
fn without_these(alloc: Global, layer: &Layer, ids: &[AnnId]) -> Result<Less, Memory>
    ensures made { IfOk result (λ less. less.made ≡ without_all layer.now ids.now) }
    ensures back { IfOk result (λ less. IsWayBack (back.Marks less.taken) less.made layer.now) }
{
    let mut made = layer.copy()?;
    let taken = take_all_away(alloc, &mut made, ids)?;
    Ok(Less { made, taken })
}

/// Puts a layer without some annotations in the place of the one that has them, where no rule is broken then.
fn lessen(
    alloc: Global,
    conf: &Conf,
    doc: &Doc,
    layer: &mut Layer,
    index: Index,
    own: Option<Rule>,
    less: Less,
) -> (Outcome, Option<Index>)
    requires index { IsIndex None layer.old index }
    requires back { IsWayBack (back.Marks less.taken) less.made layer.old }
    ensures outcome { IsOutcome conf.now (length doc.now) own (Some (with_less less.made)) layer.old layer.new result.0 }
    ensures index { IsIndexed layer.new result.1 }
{
    let Less { made, taken } = less;
    match whole_rule(alloc, conf, doc, own, &made) {
        Ok(None) => {
            *layer = made;
            (Ok((Done { made: None }, Back::Marks { taken })), None)
        }
        Ok(Some(rule)) => (Err(Refusal::Rule(rule)), Some(index)),
        Err(_) => (Err(Refusal::Memory), Some(index)),
    }
}

/// Takes some annotations away, and out of all classes, where no rule is broken then. Cost: a copy and a
/// check of the layer, and as `take_all_away`.
fn purge(
    alloc: Global,
    conf: &Conf,
    doc: &Doc,
    layer: &mut Layer,
    index: Index,
    own: Option<Rule>,
    ids: &[AnnId],
) -> (Outcome, Option<Index>)
    requires index { IsIndex None layer.old index }
    ensures outcome { IsOutcome conf.now (length doc.now) own (Some (with_less (without_all layer.old ids.now))) layer.old layer.new result.0 }
    ensures index { IsIndexed layer.new result.1 }
{
    match without_these(alloc, layer, ids) {
        Ok(less) => lessen(alloc, conf, doc, layer, index, own, less),
        Err(_) => (Err(Refusal::Memory), Some(index)),
    }
}

/// What leads back where a member leaves its class of a relation type, and this one stays.
fn member_back(kind: RelId, id: AnnId, stays: Option<AnnId>) -> Back
    ensures { (layer : Annotations) → IsClassList layer.classes → stays ≡ beside kind.n id layer.classes → IsWayBack result (with_classes layer (parted kind.n id layer.classes)) layer }
{
    match stays {
        Some(beside) => Back::Member { kind, id, beside },
        None => Back::Same,
    }
}

/// Takes a member out of its class of a relation type, and tells what leads back. Cost: the members of the
/// classes.
fn part_told(layer: &mut Layer, kind: RelId, id: AnnId) -> Back
    ensures layer { layer.new ≡ with_classes layer.old (parted kind.n id layer.old.classes) }
    ensures back { IsWayBack result layer.new layer.old }
{
    layer.keeps();
    let stays = beside(layer.classes(), kind, id);
    layer.part(kind, id);
    member_back(kind, id, stays)
}

/// Takes a member out of its class of a relation type, where the command's own fields break no rule. Cost:
/// the members of the classes.
fn part(
    conf: &Conf,
    doc: &Doc,
    layer: &mut Layer,
    own: Option<Rule>,
    kind: RelId,
    id: AnnId,
) -> Outcome
    requires { IsWellFormed conf.now (length doc.now) layer.old }
    ensures outcome { IsOutcome conf.now (length doc.now) own (Some (with_less (with_classes layer.old (parted kind.n id layer.old.classes)))) layer.old layer.new result }
    ensures index { KeepsIndex layer.old layer.new }
{
    let _characters = doc.char_count();
    let _types = conf.types();
    match own {
        Some(rule) => Err(Refusal::Rule(rule)),
        None => Ok((Done { made: None }, part_told(layer, kind, id))),
    }
}

/// Joins members that come to this, where no rule is broken then.
fn join_as(
    conf: &Conf,
    doc: &Doc,
    layer: &mut Layer,
    own: Option<Rule>,
    kind: RelId,
    members: IdList,
    plan: JoinPlan,
) -> Outcome
    requires well_formed { IsWellFormed conf.now (length doc.now) layer.old }
    requires some { 0 < length members }
    requires rule { plan.rule ≡ option_map (λ flaw. flaw.rule) (joined_flaw conf.now layer.old kind members) }
    requires back { IsWayBack plan.back (with_classes layer.old (joined kind members layer.old.classes)) layer.old }
    ensures outcome { IsOutcome conf.now (length doc.now) own (Some (with_less (with_classes layer.old (joined kind members layer.old.classes)))) layer.old layer.new result }
    ensures index { KeepsIndex layer.old layer.new }
{
    let _characters = doc.char_count();
    let _types = conf.types();
    let JoinPlan { rule, back } = plan;
    match lower_rule(own, rule) {
        Some(rule) => Err(Refusal::Rule(rule)),
        None => match layer.join(kind, members) {
            Ok(()) => Ok((Done { made: None }, back)),
            Err(_) => Err(Refusal::Memory),
        },
    }
}

/// Joins members, where no rule is broken then. Cost: as `plan_join`.
fn join(
    alloc: Global,
    conf: &Conf,
    doc: &Doc,
    layer: &mut Layer,
    own: Option<Rule>,
    kind: RelId,
    members: IdList,
) -> Outcome
    requires well_formed { IsWellFormed conf.now (length doc.now) layer.old }
    requires some { 0 < length members }
    ensures outcome { IsOutcome conf.now (length doc.now) own (Some (with_less (with_classes layer.old (joined kind members layer.old.classes)))) layer.old layer.new result }
    ensures index { KeepsIndex layer.old layer.new }
{
    match plan_join(alloc, conf, layer, kind, members.items()) {
        Ok(plan) => join_as(conf, doc, layer, own, kind, members, plan),
        Err(_) => Err(Refusal::Memory),
    }
}

/// Changes nothing, where the command's own fields break no rule.
fn stay(own: Option<Rule>) -> Outcome
    ensures { (conf : Configuration) (characters : ℕ) (layer : Annotations) → IsOutcome conf characters own None layer layer result }
{
    match own {
        Some(rule) => Err(Refusal::Rule(rule)),
        None => Ok((Done { made: None }, Back::Same)),
    }
}

/// Does a change of a layer, where neither the command's own fields break a rule nor the layer that it makes.
pub(crate) fn done(
    alloc: Global,
    conf: &Conf,
    doc: &Doc,
    layer: &mut Layer,
    index: Index,
    own: Option<Rule>,
    change: Change,
) -> (Outcome, Option<Index>)
    requires well_formed { IsWellFormed conf.now (length doc.now) layer.old }
    requires index { IsIndex None layer.old index }
    requires fits { FitsLayer layer.old change }
    ensures outcome { IsOutcome conf.now (length doc.now) own (draft_by layer.old change) layer.old layer.new result.0 }
    ensures index { IsIndexed layer.new result.1 }
{
    match change {
        Change::Nothing => (stay(own), Some(index)),
        Change::Put { id, mark, is_new } => {
            put(alloc, conf, doc, layer, index, own, id, mark, is_new)
        }
        Change::Without { id } => take(alloc, conf, doc, layer, index, own, id),
        Change::Join { kind, members } => (
            join(alloc, conf, doc, layer, own, kind, members),
            Some(index),
        ),
        Change::Part { kind, id } => (part(conf, doc, layer, own, kind, id), Some(index)),
        Change::Less { ids } => purge(alloc, conf, doc, layer, index, own, ids.items()),
        Change::Whole { layer: made } => replace(alloc, conf, doc, layer, index, own, made),
    }
}
