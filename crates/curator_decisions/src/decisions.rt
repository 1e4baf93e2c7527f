//! A curator's decisions.
ghost use Rattle.std.specs.Prelude.{◌≡◌, ◌≤◌, ◌<◌, ◌*◌, ◌+◌, [], insert, length, slice_get, slice_index_or, slice_set, IfErr, IfOk, None, OnErr, OnOk, Some};
ghost use Rattle.unanimous_merge.specs.declared.item.ItemId.{ItemId};
ghost use Rattle.curator_decisions.specs.declared.verdict.Verdict.{Verdict};
ghost use Rattle.curator_decisions.specs.Decisions.{Ascend, item_rank, verdict_on, with_verdict, without_verdict};
ghost use Rattle.curator_decisions.specs.Placing.{IsEndBefore};

use crate::verdict::Verdict;
use layer_model::rank;
use mark_base::Memory;
use std::alloc::Global;
use std::marker::Model;
use unanimous_merge::ItemId;

/// The place of an item among all items: by its holder, and then by its ID in the order of IDs.
pub fn item_rank(item: ItemId) -> u64
    ensures { result ≡ item_rank item }
{
    u64::from(item.holder) * 7_000_000_000 + rank(item.id)
}

/// Where the decisions end that come before a place among all items. Cost: the logarithm of their number.
fn end_before(decided: &[(ItemId, Verdict)], sought: u64) -> usize
    requires { Ascend decided.now }
    ensures end { IsEndBefore decided.now sought result }
    ensures within { result ≤ length decided.now }
{
    decided.partition_point(|one| item_rank(one.0) < sought)
}

/// Where a verdict on an item goes: in place of the one at the index of `Ok`, or before the one at that of `Err`.
/// Cost: the logarithm of the number of decisions.
fn place_of(decided: &[(ItemId, Verdict)], item: ItemId) -> Result<usize, usize>
    requires { Ascend decided.now }
    ensures here { IfOk result (λ i. i < length decided.now) }
    ensures stands { IfOk result (λ i. (one : ItemId × Verdict) → verdict_on item decided.now ≡ Some (slice_index_or decided.now i one).1) }
    ensures set { IfOk result (λ i. (verdict : Verdict) → with_verdict decided.now item verdict ≡ slice_set decided.now i (item, verdict)) }
    ensures within { IfErr result (λ i. i ≤ length decided.now) }
    ensures none { OnErr result (verdict_on item decided.now ≡ None) }
    ensures inserted { IfErr result (λ i. (verdict : Verdict) → with_verdict decided.now item verdict ≡ insert decided.now i (item, verdict)) }
{
    let sought = item_rank(item);
    let at = end_before(decided, sought);
    match decided.get(at) {
        Some(one) if item_rank(one.0) == sought => Ok(at),
        _ => Err(at),
    }
}

/// The verdicts of a curator on the items of a snapshot, at most one on each.
#[derive(Debug, Drop)]
pub struct Decisions {
    decided: Vec<(ItemId, Verdict)>,
}

impl Model for Decisions {
    ghost use Rattle.std.specs.Prelude.{List, length, ◌≤◌};
    ghost use Rattle.std.specs.Coded.{coded_list, coded×};
    ghost use Rattle.unanimous_merge.specs.contracts.item.ItemId as item_row;
    ghost use Rattle.curator_decisions.specs.contracts.verdict.Verdict as verdict_row;
    ghost use Rattle.curator_decisions.specs.Decisions.{Ascend, Decided};

    ghost Value = { Decided };

    ghost coded = { coded_list (coded× item_row.the_row.coded verdict_row.the_row.coded) };

    ghost view = { λ decisions. decisions.decided.items };

    ghost invariant = { λ decisions. Ascend decisions.decided.items × (length decisions.decided.items ≤ 4294967295) };
}

impl Decisions {
    /// No decisions.
    pub fn new(alloc: Global) -> Decisions
        ensures { result ≡ [] }
    {
        Decisions {
            decided: Vec::new(alloc),
        }
    }

    /// The verdict on an item. Cost: the logarithm of the number of decisions.
    pub fn verdict(&self, item: ItemId) -> Option<Verdict>
        ensures { result ≡ verdict_on item self.now }
    {
        match place_of(self.decided.as_slice(), item) {
            Ok(i) => Some(self.decided[i].1),
            Err(_) => None,
        }
    }

    /// How many items are decided.
    pub fn count(&self) -> u32
        ensures { result ≡ length self.now }
    {
        self.decided.len() as u32
    }

    /// The decision of an index, from 0, in the order of items, and None exactly where the index is not below
    /// `count`.
    pub fn at(&self, i: u32) -> Option<(ItemId, Verdict)>
        ensures { result ≡ slice_get self.now i }
    {
        self.decided.get(i as usize).copied()
    }

    /// A second list of the same decisions. Cost: their number.
    pub fn copy(&self) -> Result<Decisions, Memory>
        ensures { IfOk result (λ decisions. decisions ≡ self.now) }
    {
        let alloc = *self.decided.allocator();
        let decided = Vec::from_slice(alloc, self.decided.as_slice())?;
        Ok(Decisions { decided })
    }

    /// The decisions of a list in ascending order of items, of which there are at most 4,294,967,295.
    pub(crate) fn of_pairs(alloc: Global, pairs: &[(ItemId, Verdict)]) -> Result<Decisions, Memory>
        requires { Ascend pairs.now }
        ensures { IfOk result (λ decisions. decisions ≡ pairs.now) }
    {
        if pairs.len() > 4_294_967_295 {
            return Err(Memory);
        }
        let decided = Vec::from_slice(alloc, pairs)?;
        Ok(Decisions { decided })
    }

    /// The allocator of the list.
    pub(crate) fn allocator(&self) -> Global {
        *self.decided.allocator()
    }

    /// Sets the verdict on an item, in place of one that stood. Want of memory leaves the decisions as they
    /// were; 4,294,967,295 decisions take no more. Cost: the decisions.
    pub(crate) fn set(&mut self, item: ItemId, verdict: Verdict) -> Result<(), Memory>
        ensures ok { OnOk result (self.new ≡ with_verdict self.old item verdict) }
        ensures err { OnErr result (self.new ≡ self.old) }
    {
        match place_of(self.decided.as_slice(), item) {
            Ok(i) => {
                self.decided[i] = (item, verdict);
                Ok(())
            }
            Err(i) => {
                if self.decided.len() >= 4_294_967_295 {
                    return Err(Memory);
                }
                self.decided.insert(i, (item, verdict))?;
                Ok(())
            }
        }
    }

    /// Takes the verdict on an item away. Cost: the decisions.
    pub(crate) fn unset(&mut self, item: ItemId)
        ensures { self.new ≡ without_verdict self.old item }
    {
        let sought = item_rank(item);
        self.decided.retain(|one| item_rank(one.0) != sought);
    }

    /// Tells a proof that the items ascend, each once. It does nothing.
    pub fn ascend(&self)
        ensures { Ascend self.now }
    {
        let _ = &self.decided;
    }
}
