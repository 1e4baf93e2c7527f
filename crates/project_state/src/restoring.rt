//! A project that is made again from its parts.
ghost use Rattle.std.specs.Prelude.{◌≡◌, ◌≤◌, IfNone, IfOk, IfSome, length, map};
ghost use Rattle.std.specs.Arc.{arc_value};
ghost use Rattle.project_machine.specs.Legal.{NamesDiffer};
ghost use Rattle.project_state.specs.Restoring.{AreNumbered, CanBeKept, total_of};

use crate::Roster;
use crate::acting::put_number;
use crate::document::StoredDocument;
use crate::limits::{MOST_CHARACTERS, MOST_DOCUMENTS};
use crate::state::BookState;
use crate::stored_snapshot::StoredSnapshot;
use conf_model::Conf;
use mark_base::{Memory, Slug};
use std::alloc::Global;
use std::collections::BTreeMap;
use std::sync::Arc;

/// How many characters documents have, where they are at most 16,777,216.
#[tactic(auto, using(crate::proofs::RestoringLemmas::total_more, crate::proofs::RestoringLemmas::total_past, crate::proofs::RestoringLemmas::total_there))]
fn total_of(documents: &[StoredDocument]) -> Option<u64>
    ensures { result ≡ total_of documents.now }
{
    let mut total = 0;
    for document in documents {
        total += u64::from(document.text().char_count());
        if MOST_CHARACTERS < total {
            return None;
        }
    }
    Some(total)
}

/// The number of each document under its name, where no two have one name.
fn numbered(
    alloc: Global,
    documents: &[StoredDocument],
) -> Result<Option<BTreeMap<Slug, u32>>, Memory>
    requires { length documents.now ≤ 4096 }
    ensures numbered { IfOk result (λ found. IfSome found (λ numbers. AreNumbered documents.now numbers.entries)) }
    ensures differ { IfOk result (λ found. IfSome found (λ numbers. NamesDiffer (map (λ d. d.name) documents.now))) }
    ensures refused { IfOk result (λ found. IfNone found (NamesDiffer (map (λ d. d.name) documents.now) → ⊥)) }
{
    let mut numbers = BTreeMap::new(alloc);
    for (number, document) in documents.iter().enumerate() {
        let name = document.name();
        if numbers.contains_key(name) {
            return Ok(None);
        }
        put_number(&mut numbers, name, number as u32)?;
    }
    Ok(Some(numbers))
}

impl BookState {
    /// A project of these parts; `level` is 255 for none. It is `None` exactly where the documents cannot be kept:
    /// more than 4,096, or with more than 16,777,216 characters, or two of one name. Cost: a look-up in an ordered
    /// map for each document.
    pub fn restored(
        alloc: Global,
        conf: Arc<Conf>,
        roster: Roster,
        level: u8,
        place: u64,
        documents: Vec<StoredDocument>,
        snapshots: Vec<StoredSnapshot>,
    ) -> Result<Option<BookState>, Memory>
        ensures state { IfOk result (λ found. IfSome found (λ kept. kept.state ≡ record { conf = arc_value conf; level = level; people = roster; place = place; documents = documents.items; snapshots = snapshots.items })) }
        ensures kept { IfOk result (λ found. IfSome found (λ kept. CanBeKept documents.items)) }
        ensures refused { IfOk result (λ found. IfNone found (CanBeKept documents.items → ⊥)) }
    {
        if MOST_DOCUMENTS < documents.len() {
            return Ok(None);
        }
        let Some(total) = total_of(documents.as_slice()) else {
            return Ok(None);
        };
        let Some(numbers) = numbered(alloc, documents.as_slice())? else {
            return Ok(None);
        };
        Ok(Some(BookState {
            conf,
            level,
            roster,
            place,
            documents,
            snapshots,
            numbers,
            total,
        }))
    }
}
