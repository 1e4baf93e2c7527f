//! The items that are in, numbered anew.
ghost use Rattle.std.specs.Prelude.{◌≡◌, ◌<◌, ℕ, [], filter, length, map, None, slice_index, slice_index_or, All, IfOk};
ghost use Rattle.mark_base.specs.ReadIds.{id_at};
ghost use Rattle.layer_model.specs.Classes.{letter_place};
ghost use Rattle.curator_decisions.specs.Curated.{curated_letter};
ghost use Rattle.content_keys.specs.Founds.{first_at};
ghost use Rattle.curator_decisions.specs.Placing.{is_in_at, numbered_entries, placed_id};

use crate::decisions::Decisions;
use crate::verdict::Verdict;
use content_keys::Placed;
use mark_base::{AnnId, Kind, Memory};
use std::alloc::Global;
use unanimous_merge::{Entry, Merged};

/// An item that is in, and its ID in the curated layer.
#[derive(Clone, Copy)]
pub(crate) struct NumberedEntry {
    pub entry: Entry,
    pub id: AnnId,
}

/// Whether an item is in.
pub(crate) fn is_in(merged: &Merged, decisions: &Decisions, entry: Entry) -> bool
    ensures { result ≡ is_in_at (map (λ row. row.items) merged.now.marks.items) decisions.now entry }
{
    match decisions.verdict(entry.item) {
        Some(Verdict::Accept) => true,
        Some(Verdict::Reject) => false,
        None => merged.in_each(entry.place),
    }
}

/// The items that are in. Cost: the items, each as a look-up among the decisions and the layers.
pub(crate) fn entries_in(
    alloc: Global,
    merged: &Merged,
    decisions: &Decisions,
) -> Result<Vec<Entry>, Memory>
    ensures { IfOk result (λ entries. entries.items ≡ filter (is_in_at (map (λ row. row.items) merged.now.marks.items) decisions.now) merged.now.firsts.items) }
{
    let mut entries = Vec::new(alloc);
    for entry in &merged.firsts {
        if is_in(merged, decisions, *entry) {
            entries.push(*entry)?;
        }
    }
    Ok(entries)
}

/// The place of a letter among T, E, R, A, M, N and #, from 0, as an index.
fn letter_place(kind: Kind) -> usize
    ensures place { result ≡ letter_place kind }
    ensures small { result < 7 }
{
    usize::from(layer_model::letter_place(kind))
}

/// The letter under which a curated layer has an annotation: A stands for M.
pub(crate) fn curated_letter(kind: Kind) -> Kind
    ensures { result ≡ curated_letter kind }
{
    match kind {
        Kind::Legacy => Kind::Attribute,
        _ => kind,
    }
}

/// The ID of a letter and a number, of which one above the greatest stands for the greatest.
fn id_at(kind: Kind, number: u64) -> AnnId
    ensures { result ≡ id_at kind number }
{
    AnnId {
        kind,
        number: number.min(u64::from(AnnId::GREATEST)) as u32,
    }
}

/// A count of 0 for each letter.
fn no_counts(alloc: Global) -> Result<Vec<u64>, Memory>
    ensures long { IfOk result (λ counts. length counts.items ≡ 7) }
    ensures none { IfOk result (λ counts. (place : ℕ) → slice_index counts.items place ≡ 0) }
{
    let counts: Vec<u64> = vec![in alloc; 0; 7]?;
    Ok(counts)
}

/// The items with their IDs: each letter from 1, in the order of the items.
pub(crate) fn numbered(alloc: Global, entries: &[Entry]) -> Result<Vec<NumberedEntry>, Memory>
    ensures { IfOk result (λ numbered. numbered.items ≡ numbered_entries [] entries.now) }
{
    let _count = entries.len();
    let mut counts = no_counts(alloc)?;
    let mut numbered = Vec::new(alloc);
    for entry in entries {
        let kind = curated_letter(entry.item.id.kind);
        let place = letter_place(kind);
        let number = counts[place] + 1;
        counts[place] = number;
        numbered.push(NumberedEntry {
            entry: *entry,
            id: id_at(kind, number),
        })?;
    }
    Ok(numbered)
}

/// The new IDs, each at the place of its content.
fn placed_ids(alloc: Global, numbered: &[NumberedEntry]) -> Result<Vec<Placed>, Memory>
    ensures { IfOk result (λ placed. placed.items ≡ map placed_id numbered.now) }
{
    let mut placed = Vec::new(alloc);
    for one in numbered {
        placed.push(Placed {
            id: one.id,
            place: one.entry.place,
        })?;
    }
    Ok(placed)
}

/// For each place the first ID there, so far as there is one.
fn first_by_place(
    alloc: Global,
    placed: &[Placed],
    count: usize,
) -> Result<Vec<Option<AnnId>>, Memory>
    requires { All (λ p. p.place < count) placed.now }
    ensures { IfOk result (λ firsts. (place : ℕ) → slice_index_or firsts.items place None ≡ first_at placed.now place) }
{
    let mut firsts: Vec<Option<AnnId>> = vec![in alloc; None; count]?;
    for one in placed {
        let place = one.place as usize;
        if firsts[place].is_none() {
            firsts[place] = Some(one.id);
        }
    }
    Ok(firsts)
}

/// For each place the new ID of its item, so far as it is in.
pub(crate) fn ids_by_place(
    alloc: Global,
    numbered: &[NumberedEntry],
    count: usize,
) -> Result<Vec<Option<AnnId>>, Memory>
    requires { All (λ p. p.place < count) (map placed_id numbered.now) }
    ensures { IfOk result (λ ids. (place : ℕ) → slice_index_or ids.items place None ≡ first_at (map placed_id numbered.now) place) }
{
    let placed = placed_ids(alloc, numbered)?;
    first_by_place(alloc, placed.as_slice(), count)
}
