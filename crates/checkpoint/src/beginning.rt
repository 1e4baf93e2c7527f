//! The first piece.
ghost use Rattle.std.specs.Prelude.{◌≡◌, ◌<◌, ℕ, IfNone, IfOk, IfSome};
ghost use Rattle.std.specs.Arc.{arc_value};
ghost use Rattle.conf_model.specs.Configurations.{Configuration};
ghost use Rattle.conf_model.specs.ConfText.{conf_text};
ghost use Rattle.project_machine.specs.Legal.{IsFounding};
ghost use Rattle.checkpoint.specs.Reading.{is_placed};
ghost use Rattle.checkpoint.specs.Runs.{IsBegunBy, IsBegunWith};

use crate::bounds::{GREATEST_PLACE, MOST_CHARACTERS, MOST_DOCUMENTS};
use crate::so_far::{Part, SoFar};
use crate::told_state::ToldState;
use entry_bytes::{Entry, PersonList, entries_are_told_apart, read_entry};
use mark_base::{Bytes, Memory, Text};
use project_state::{Founding, founding_of};
use std::alloc::Global;

/// The founding of the text of a configuration and of people, where a project can be founded so at any level.
fn founded_with(alloc: Global, conf: &Text, people: &PersonList) -> Result<Option<Founding>, Memory>
    ensures found { IfOk result (λ found. IfSome found (λ founding. ((level : ℕ) → level < 256 → IsFounding (arc_value founding.conf) level people.now) × ((founding.roster ≡ people.now) × (conf.now ≡ conf_text (arc_value founding.conf))))) }
    ensures none { IfOk result (λ found. IfNone found ((c : Configuration) (level : ℕ) → IsFounding c level people.now → conf.now ≡ conf_text c → ⊥)) }
{
    let entry = Entry::Found {
        conf: conf.copy()?,
        people: people.copy()?,
    };
    let told = founding_of(alloc, &entry)?;
    Ok(told)
}

/// Whether the numbers of a first piece are within their limits.
fn is_placed(place: u64, documents: u32, snapshots: u64) -> bool
    ensures { result ≡ is_placed place documents snapshots }
{
    0 < place && place <= GREATEST_PLACE && documents <= MOST_DOCUMENTS && snapshots <= place
}

/// What a first piece of these fields leaves.
fn begun_with(
    alloc: Global,
    place: u64,
    level: u8,
    documents: u32,
    snapshots: u64,
    conf: &Text,
    people: &PersonList,
) -> Result<Option<SoFar>, Memory>
    ensures { IfOk result (IsBegunWith (Entry.Restored place level documents snapshots conf.now people.now)) }
{
    if !is_placed(place, documents, snapshots) {
        return Ok(None);
    }
    let Some(founding) = founded_with(alloc, conf, people)? else {
        return Ok(None);
    };
    let Founding {
        conf,
        roster,
        level: _,
    } = founding;
    Ok(Some(SoFar {
        state: ToldState::begun(alloc, conf, roster, level, place),
        texts: documents,
        room: MOST_CHARACTERS,
        shots: snapshots,
        part: Part::Start,
    }))
}

/// What an entry leaves as the first piece.
fn begun_in(alloc: Global, entry: &Entry) -> Result<Option<SoFar>, Memory>
    ensures { IfOk result (IsBegunWith entry.now) }
{
    match entry {
        Entry::Restored {
            place,
            level,
            documents,
            snapshots,
            conf,
            people,
        } => {
            let begun = begun_with(alloc, *place, *level, *documents, *snapshots, conf, people)?;
            Ok(begun)
        }
        _ => Ok(None),
    }
}

/// What bytes leave as the first piece; `None` where they are none.
pub(crate) fn begun_by(alloc: Global, bytes: &Bytes) -> Result<Option<SoFar>, Memory>
    ensures { IfOk result (IsBegunBy bytes.now) }
{
    entries_are_told_apart();
    match read_entry(alloc, bytes.items())? {
        Some(entry) => {
            let begun = begun_in(alloc, &entry)?;
            Ok(begun)
        }
        None => Ok(None),
    }
}
