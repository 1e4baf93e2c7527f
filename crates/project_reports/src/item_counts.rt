//! How many items a snapshot has, and how many of these are unanimous or undecided.
ghost use Rattle.std.specs.Prelude.{◌≡◌, ◌==◌, ◌&&◌, ◌-◌, ◌^◌, ◌≤◌, count_by, is_none, length, not, IfOk};
ghost use Rattle.unanimous_merge.specs.Items.{leaders};
ghost use Rattle.unanimous_merge.specs.Readings.{readings};
ghost use Rattle.unanimous_merge.specs.Rows.{AreCoherent};
ghost use Rattle.curator_decisions.specs.Decisions.{verdict_on};
ghost use Rattle.project_machine.specs.SnapshotsTable.{is_unanimous, is_undecided};

use curator_decisions::Decisions;
use mark_base::Memory;
use project_state::StoredSnapshot;
use std::alloc::Global;
use unanimous_merge::{Item, items};

/// How many items there are, how many of these every layer has, and how many wait for a curator.
#[derive(Clone, Copy, Debug, PartialEq, Eq)]
pub(crate) struct ItemCounts {
    pub(crate) items: usize,
    pub(crate) unanimous: usize,
    pub(crate) undecided: usize,
}

/// The bits of so many holders.
fn bits_of_all(count: u32) -> u16
    requires { count ≤ 16 }
    ensures { result ≡ 2 ^ count - 1 }
{
    ((1u32 << count) - 1) as u16
}

/// Whether an item is not held by all, whose bits these are, and has no verdict.
fn waits(item: Item, all: u16, decisions: &Decisions) -> bool
    ensures { result ≡ (not (item.holders == all) && is_none (verdict_on item.id decisions.now)) }
{
    if item.holders == all {
        return false;
    }
    decisions.verdict(item.id).is_none()
}

/// How many items are held by all, whose bits these are.
fn count_unanimous(items: &[Item], all: u16) -> usize
    ensures { result ≡ count_by (λ item. item.holders == all) items.now }
{
    items.iter().filter(|item| item.holders == all).count()
}

/// How many items are not held by all, whose bits these are, and have no verdict.
fn count_undecided(items: &[Item], all: u16, decisions: &Decisions) -> usize
    ensures { result ≡ count_by (λ item. not (item.holders == all) && is_none (verdict_on item.id decisions.now)) items.now }
{
    items
        .iter()
        .filter(|item| waits(**item, all, decisions))
        .count()
}

/// What the items of a snapshot come to. Cost: that of `items`, and for each item the logarithm of the number of verdicts.
pub(crate) fn item_counts(alloc: Global, snapshot: &StoredSnapshot) -> Result<ItemCounts, Memory>
    requires { AreCoherent snapshot.now.holders }
    ensures items { IfOk result (λ counts. counts.items ≡ length (leaders (readings snapshot.now.holders))) }
    ensures unanimous { IfOk result (λ counts. counts.unanimous ≡ count_by (is_unanimous (readings snapshot.now.holders)) (leaders (readings snapshot.now.holders))) }
    ensures undecided { IfOk result (λ counts. counts.undecided ≡ count_by (is_undecided (readings snapshot.now.holders) snapshot.now.verdicts) (leaders (readings snapshot.now.holders))) }
{
    let items = items(alloc, snapshot.layers())?;
    let all = bits_of_all(snapshot.layers().count());
    let unanimous = count_unanimous(&items, all);
    let undecided = count_undecided(&items, all, snapshot.decisions());
    Ok(ItemCounts {
        items: items.len(),
        unanimous,
        undecided,
    })
}
