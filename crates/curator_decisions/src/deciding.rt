//! Decisions that are accepted and refused.
ghost use Rattle.std.specs.Prelude.{◌≡◌, ◌<◌, ◌≤◌, ℕ, [], length, map, None, option_map, is_some, slice_index, slice_get, All, IfErr, IfOk, OnErr, OnOk};
ghost use Rattle.std.specs.List.{list_all};
ghost use Rattle.layer_rules.specs.declared.check_fault.CheckFault.{CheckFault};
ghost use Rattle.layer_rules.specs.WellFormed.{Obeys};
ghost use Rattle.unanimous_merge.specs.Merges.{IsMerged};
ghost use Rattle.unanimous_merge.specs.Readings.{readings};
ghost use Rattle.unanimous_merge.specs.Rows.{AreCoherent, held_at};
ghost use Rattle.curator_decisions.specs.Clashes.{JudgesItem};
ghost use Rattle.curator_decisions.specs.Comparisons.{IsComparison};
ghost use Rattle.curator_decisions.specs.Curated.{curated};
ghost use Rattle.curator_decisions.specs.Deciding.{IsFirstFault};
ghost use Rattle.curator_decisions.specs.DecisionFaults.{changed_fault, decide_fault, decision_fault, first_broken, lacking, layer_fault, undecide_fault, undecided_fault, verdict_fault};
ghost use Rattle.curator_decisions.specs.Decisions.{Ascend, with_verdict, without_verdict};
ghost use Rattle.curator_decisions.specs.Naming.{entry_as};
ghost use Rattle.curator_decisions.specs.Placing.{AreNames};

use crate::beside::stands_beside;
use crate::building::curated_in;
use crate::comparison::Comparison;
use crate::curated_laws::decisions_are_judged_by_items;
use crate::decision_fault::DecisionFault;
use crate::decisions::{Decisions, item_rank};
use crate::naming::{
    dependent_on, entry_as, item_ranks, lacked, missing_of, named_places, needed_places,
};
use crate::numbering::is_in;
use crate::verdict::Verdict;
use char_documents::Doc;
use conf_model::Conf;
use layer_model::{Flaw, Layer, Rule, Snapshot};
use layer_rules::{CheckFault, check, may_commit, unflawed_layers};
use mark_base::Memory;
use std::alloc::Global;
use std::collections::BTreeMap;
use unanimous_merge::{Entry, ItemId, Merged};

/// The flaw that a check tells.
fn flaw_of(fault: CheckFault) -> Result<Flaw, Memory>
    ensures { IfOk result (λ flaw. fault ≡ CheckFault.Flaw flaw) }
{
    match fault {
        CheckFault::Flaw(flaw) => Ok(flaw),
        CheckFault::Memory => Err(Memory),
    }
}

/// The first rule by which a layer does not obey the configuration.
fn first_broken(
    alloc: Global,
    layer: &Layer,
    doc: &Doc,
    conf: &Conf,
) -> Result<Option<Rule>, Memory>
    ensures rule { IfOk result (λ rule. rule ≡ first_broken conf.now (length doc.now) layer.now) }
    ensures obeys { IfOk result (λ rule. rule ≡ None → Obeys conf.now (length doc.now) layer.now) }
{
    match check(alloc, layer, doc, conf) {
        Ok(()) => Ok(may_commit(layer, conf)),
        Err(fault) => {
            let flaw = flaw_of(fault)?;
            Ok(Some(flaw.rule))
        }
    }
}

/// The fault of the curated layer.
fn layer_fault(
    alloc: Global,
    snapshot: &Snapshot,
    merged: &Merged,
    doc: &Doc,
    conf: &Conf,
    decisions: &Decisions,
) -> Result<Option<DecisionFault>, Memory>
    requires { IsMerged merged.now snapshot.now }
    ensures fault { IfOk result (λ fault. fault ≡ layer_fault conf.now (length doc.now) (readings snapshot.now) decisions.now) }
    ensures obeys { IfOk result (λ fault. fault ≡ None → Obeys conf.now (length doc.now) (curated (readings snapshot.now) decisions.now)) }
{
    let layer = curated_in(alloc, snapshot, merged, decisions)?;
    match first_broken(alloc, &layer, doc, conf)? {
        Some(rule) => Ok(Some(DecisionFault::Broken(rule))),
        None => Ok(None),
    }
}

/// What an item that is in lacks, and what lacks an item that is not.
fn lacking(
    alloc: Global,
    snapshot: &Snapshot,
    comparison: &Comparison,
    decisions: &Decisions,
    entry: Entry,
) -> Result<Option<Entry>, Memory>
    requires compared { IsComparison comparison.now snapshot.now }
    requires entry { (entry.place < length comparison.now.merged.table) × (slice_index comparison.now.merged.table entry.place ≡ 0 → ⊥) }
    ensures { IfOk result (λ found. option_map (held_at comparison.now.merged.table) found ≡ lacking (readings snapshot.now) decisions.now (held_at comparison.now.merged.table entry)) }
{
    let merged = &comparison.merged;
    let places = comparison.places.as_slice();
    if is_in(merged, decisions, entry) {
        let named = named_places(alloc, snapshot, places, entry)?;
        return Ok(missing_of(merged, decisions, named.as_slice()));
    }
    let names = comparison.names.as_slice();
    Ok(dependent_on(merged, names, decisions, entry.place))
}

/// The fault of decisions once they have changed at one item.
fn changed_fault(
    alloc: Global,
    snapshot: &Snapshot,
    comparison: &Comparison,
    doc: &Doc,
    conf: &Conf,
    decisions: &Decisions,
    entry: Entry,
) -> Result<Option<DecisionFault>, Memory>
    requires compared { IsComparison comparison.now snapshot.now }
    requires entry { (entry.place < length comparison.now.merged.table) × (slice_index comparison.now.merged.table entry.place ≡ 0 → ⊥) }
    ensures fault { IfOk result (λ fault. fault ≡ changed_fault conf.now (length doc.now) (readings snapshot.now) decisions.now (held_at comparison.now.merged.table entry)) }
    ensures obeys { IfOk result (λ fault. fault ≡ None → Obeys conf.now (length doc.now) (curated (readings snapshot.now) decisions.now)) }
{
    if let Some(other) = lacking(alloc, snapshot, comparison, decisions, entry)? {
        return Ok(Some(DecisionFault::NeedsItem(other.item)));
    }
    layer_fault(alloc, snapshot, &comparison.merged, doc, conf, decisions)
}

/// The same where the decisions were accepted before: an item that goes out, and one that can be beside the others, need
/// no check of the curated layer.
fn stepped_fault(
    alloc: Global,
    snapshot: &Snapshot,
    comparison: &Comparison,
    doc: &Doc,
    conf: &Conf,
    decisions: &Decisions,
    entry: Entry,
) -> Result<Option<DecisionFault>, Memory>
    requires compared { IsComparison comparison.now snapshot.now }
    requires entry { (entry.place < length comparison.now.merged.table) × (slice_index comparison.now.merged.table entry.place ≡ 0 → ⊥) }
    requires judged { lacking (readings snapshot.now) decisions.now (held_at comparison.now.merged.table entry) ≡ None → JudgesItem conf.now (length doc.now) snapshot.now decisions.now (held_at comparison.now.merged.table entry) }
    ensures fault { IfOk result (λ fault. fault ≡ changed_fault conf.now (length doc.now) (readings snapshot.now) decisions.now (held_at comparison.now.merged.table entry)) }
    ensures obeys { IfOk result (λ fault. fault ≡ None → Obeys conf.now (length doc.now) (curated (readings snapshot.now) decisions.now)) }
{
    unflawed_layers();
    if let Some(other) = lacking(alloc, snapshot, comparison, decisions, entry)? {
        return Ok(Some(DecisionFault::NeedsItem(other.item)));
    }
    if !is_in(&comparison.merged, decisions, entry) {
        return Ok(None);
    }
    if stands_beside(snapshot, comparison, conf, decisions, entry) {
        return Ok(None);
    }
    layer_fault(alloc, snapshot, &comparison.merged, doc, conf, decisions)
}

/// The fault of a verdict on an item that is in, or is not.
fn verdict_fault(is_in: bool, verdict: Verdict) -> Option<DecisionFault>
    ensures { result ≡ verdict_fault is_in verdict }
{
    match verdict {
        Verdict::Accept if is_in => Some(DecisionFault::AlreadyIn),
        Verdict::Reject if !is_in => Some(DecisionFault::NotIn),
        _ => None,
    }
}

/// Whether each decided item is one. Cost: the items and the decisions, each as a look-up in an ordered set.
fn all_items(alloc: Global, entries: &[Entry], pairs: &[(ItemId, Verdict)]) -> Result<bool, Memory>
    ensures { IfOk result (λ all. all ≡ list_all (λ one. is_some (entry_as entries.now one.0)) pairs.now) }
{
    let ranks = item_ranks(alloc, entries)?;
    for one in pairs {
        if !ranks.contains(&item_rank(one.0)) {
            return Ok(false);
        }
    }
    Ok(true)
}

impl Decisions {
    /// Sets the verdict on an item, in place of one that stood. The snapshot's layers are well-formed. A refusal
    /// leaves the decisions as they were: `NoItem`, `AlreadyIn` and `NotIn` of the item, then `NeedsItem`, then
    /// `Broken`. Cost: one curated layer and one check of it, of each item that is in what it names, and for
    /// each item the logarithm of the number of decisions.
    pub fn decide(
        &mut self,
        snapshot: &Snapshot,
        doc: &Doc,
        conf: &Conf,
        item: ItemId,
        verdict: Verdict,
    ) -> Result<(), DecisionFault>
        requires { AreCoherent snapshot.now }
        ensures decided { OnOk result (self.new ≡ with_verdict self.old item verdict) }
        ensures kept { OnErr result (self.new ≡ self.old) }
        ensures accepted { OnOk result (decide_fault conf.now (length doc.now) (readings snapshot.now) self.old item verdict ≡ None) }
        ensures refused { IfErr result (IsFirstFault (decide_fault conf.now (length doc.now) (readings snapshot.now) self.old item verdict)) }
        ensures obeys { OnOk result (Obeys conf.now (length doc.now) (curated (readings snapshot.now) self.new)) }
    {
        let alloc = self.allocator();
        let comparison = Comparison::of(alloc, snapshot)?;
        let Some(entry) = entry_as(comparison.merged.firsts.as_slice(), item) else {
            return Err(DecisionFault::NoItem);
        };
        if let Some(fault) = verdict_fault(is_in(&comparison.merged, self, entry), verdict) {
            return Err(fault);
        }
        let mut changed = self.copy()?;
        changed.set(item, verdict)?;
        if let Some(fault) = changed_fault(
            alloc,
            snapshot,
            &comparison,
            doc,
            conf,
            &changed,
            entry,
        )? {
            return Err(fault);
        }
        *self = changed;
        Ok(())
    }

    /// Takes the verdict on an item away. The snapshot's layers are well-formed. A refusal leaves the decisions
    /// as they were: `NoItem` and `NotDecided` of the item, then `NeedsItem`, then `Broken`. Cost: as `decide`.
    pub fn undecide(
        &mut self,
        snapshot: &Snapshot,
        doc: &Doc,
        conf: &Conf,
        item: ItemId,
    ) -> Result<(), DecisionFault>
        requires { AreCoherent snapshot.now }
        ensures decided { OnOk result (self.new ≡ without_verdict self.old item) }
        ensures kept { OnErr result (self.new ≡ self.old) }
        ensures accepted { OnOk result (undecide_fault conf.now (length doc.now) (readings snapshot.now) self.old item ≡ None) }
        ensures refused { IfErr result (IsFirstFault (undecide_fault conf.now (length doc.now) (readings snapshot.now) self.old item)) }
        ensures obeys { OnOk result (Obeys conf.now (length doc.now) (curated (readings snapshot.now) self.new)) }
    {
        let alloc = self.allocator();
        let comparison = Comparison::of(alloc, snapshot)?;
        let Some(entry) = entry_as(comparison.merged.firsts.as_slice(), item) else {
            return Err(DecisionFault::NoItem);
        };
        if self.verdict(item).is_none() {
            return Err(DecisionFault::NotDecided);
        }
        let mut changed = self.copy()?;
        changed.unset(item);
        if let Some(fault) = changed_fault(
            alloc,
            snapshot,
            &comparison,
            doc,
            conf,
            &changed,
            entry,
        )? {
            return Err(fault);
        }
        *self = changed;
        Ok(())
    }

    /// Sets the verdict on an item, as `decide` does, by a comparison of the snapshot that is kept. The snapshot's layers
    /// obey the configuration, and the decisions were accepted. Cost: a look at each item, and for each that is in the
    /// logarithm of the number of decisions; one curated layer and one check of it only where the item that comes in
    /// clashes with another.
    pub fn decide_by(
        &mut self,
        snapshot: &Snapshot,
        comparison: &Comparison,
        doc: &Doc,
        conf: &Conf,
        item: ItemId,
        verdict: Verdict,
    ) -> Result<(), DecisionFault>
        requires compared { IsComparison comparison.now snapshot.now }
        requires obey { All (λ row. Obeys conf.now (length doc.now) row.1) snapshot.now }
        requires stand { decision_fault conf.now (length doc.now) (readings snapshot.now) self.old ≡ None }
        ensures decided { OnOk result (self.new ≡ with_verdict self.old item verdict) }
        ensures kept { OnErr result (self.new ≡ self.old) }
        ensures accepted { OnOk result (decide_fault conf.now (length doc.now) (readings snapshot.now) self.old item verdict ≡ None) }
        ensures refused { IfErr result (IsFirstFault (decide_fault conf.now (length doc.now) (readings snapshot.now) self.old item verdict)) }
        ensures obeys { OnOk result (Obeys conf.now (length doc.now) (curated (readings snapshot.now) self.new)) }
    {
        decisions_are_judged_by_items();
        let _holders = snapshot.count();
        let alloc = self.allocator();
        let Some(entry) = entry_as(comparison.merged.firsts.as_slice(), item) else {
            return Err(DecisionFault::NoItem);
        };
        if let Some(fault) = verdict_fault(is_in(&comparison.merged, self, entry), verdict) {
            return Err(fault);
        }
        let mut changed = self.copy()?;
        changed.set(item, verdict)?;
        if let Some(fault) = stepped_fault(
            alloc, snapshot, comparison, doc, conf, &changed, entry,
        )? {
            return Err(fault);
        }
        *self = changed;
        Ok(())
    }

    /// Takes the verdict on an item away, as `undecide` does, by a comparison of the snapshot that is kept. Asked and
    /// cost: as of `decide_by`.
    pub fn undecide_by(
        &mut self,
        snapshot: &Snapshot,
        comparison: &Comparison,
        doc: &Doc,
        conf: &Conf,
        item: ItemId,
    ) -> Result<(), DecisionFault>
        requires compared { IsComparison comparison.now snapshot.now }
        requires obey { All (λ row. Obeys conf.now (length doc.now) row.1) snapshot.now }
        requires stand { decision_fault conf.now (length doc.now) (readings snapshot.now) self.old ≡ None }
        ensures decided { OnOk result (self.new ≡ without_verdict self.old item) }
        ensures kept { OnErr result (self.new ≡ self.old) }
        ensures accepted { OnOk result (undecide_fault conf.now (length doc.now) (readings snapshot.now) self.old item ≡ None) }
        ensures refused { IfErr result (IsFirstFault (undecide_fault conf.now (length doc.now) (readings snapshot.now) self.old item)) }
        ensures obeys { OnOk result (Obeys conf.now (length doc.now) (curated (readings snapshot.now) self.new)) }
    {
        decisions_are_judged_by_items();
        let _holders = snapshot.count();
        let alloc = self.allocator();
        let Some(entry) = entry_as(comparison.merged.firsts.as_slice(), item) else {
            return Err(DecisionFault::NoItem);
        };
        if self.verdict(item).is_none() {
            return Err(DecisionFault::NotDecided);
        }
        let mut changed = self.copy()?;
        changed.unset(item);
        if let Some(fault) = stepped_fault(
            alloc, snapshot, comparison, doc, conf, &changed, entry,
        )? {
            return Err(fault);
        }
        *self = changed;
        Ok(())
    }

    /// The decisions of a list in ascending order of items. The snapshot's layers are well-formed. Faults in
    /// order: `NoItem`, then `NeedsItem` with the lowest item that is not in and that an item in names, then
    /// `Broken`. A list of more than 4,294,967,295 decisions answers want of memory. Cost: as `decide`.
    pub fn of(
        alloc: Global,
        snapshot: &Snapshot,
        doc: &Doc,
        conf: &Conf,
        pairs: &[(ItemId, Verdict)],
    ) -> Result<Decisions, DecisionFault>
        requires whole { AreCoherent snapshot.now }
        requires ascending { Ascend pairs.now }
        ensures decided { IfOk result (λ decisions. decisions ≡ pairs.now) }
        ensures accepted { OnOk result (decision_fault conf.now (length doc.now) (readings snapshot.now) pairs.now ≡ None) }
        ensures refused { IfErr result (IsFirstFault (decision_fault conf.now (length doc.now) (readings snapshot.now) pairs.now)) }
        ensures obeys { OnOk result (Obeys conf.now (length doc.now) (curated (readings snapshot.now) pairs.now)) }
    {
        let decisions = Decisions::of_pairs(alloc, pairs)?;
        let comparison = Comparison::of(alloc, snapshot)?;
        let merged = &comparison.merged;
        let whole = all_items(alloc, merged.firsts.as_slice(), pairs)?;
        if !whole {
            return Err(DecisionFault::NoItem);
        }
        let places = comparison.places.as_slice();
        let flags = needed_places(alloc, snapshot, merged, places, &decisions)?;
        if let Some(other) = lacked(merged, &decisions, flags.as_slice()) {
            return Err(DecisionFault::NeedsItem(other.item));
        }
        if let Some(fault) = layer_fault(alloc, snapshot, merged, doc, conf, &decisions)? {
            return Err(fault);
        }
        Ok(decisions)
    }
}
