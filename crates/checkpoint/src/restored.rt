//! A project that is read from the entries of a journal.
ghost use Rattle.std.specs.Prelude.{◌≡◌, ◌<◌, ◌≤◌, IfErr, IfOk, OnOk, length, take, true};
ghost use Rattle.checkpoint.specs.Runs.{IsCheckpoint, IsReadTo, IsRefusal, is_ended};

use crate::beginning::begun_by;
use crate::reading::read_by;
use crate::so_far::{Part, SoFar};
use entry_bytes::entries_have_bytes;
use mark_base::{Bytes, Memory};
use project_state::BookState;
use std::alloc::Global;

/// Why no project is read: the entry of a number, from 1, is the first at fault, or the one past the last where no last
/// piece was read; or memory ran out.
#[derive(Clone, Copy)]
pub enum RestoreFault {
    BadEntry(u64),
    Memory,
}

/// A project, and how many entries its pieces are.
#[derive(Drop)]
pub struct Restored {
    pub state: BookState,
    pub count: usize,
}

impl From<Memory> for RestoreFault {
    ghost use Rattle.std.specs.Prelude.{◌≡◌};
    ghost use Rattle.checkpoint.specs.declared.restored.RestoreFault.{RestoreFault};

    ghost from_gives = { λ _ fault. fault ≡ RestoreFault.Memory };

    fn from(_: Memory) -> RestoreFault {
        RestoreFault::Memory
    }
}

/// Whether the last piece was read.
fn is_ended(so_far: &SoFar) -> bool
    ensures { result ≡ is_ended so_far.now.part }
{
    match so_far.part {
        Part::Ended => true,
        _ => false,
    }
}

/// What the first piece leaves.
#[tactic(auto, using(crate::proofs::FaultLemmas::first_read, crate::proofs::FaultLemmas::first_fault, crate::proofs::FaultLemmas::none_fault))]
fn begun(alloc: Global, entries: &[Bytes]) -> Result<SoFar, RestoreFault>
    ensures begun { IfOk result (IsReadTo (take 1 entries.now)) }
    ensures some { OnOk result (0 < length entries.now) }
    ensures refused { IfErr result (IsRefusal entries.now) }
{
    entries_have_bytes();
    let Some(first) = entries.first() else {
        return Err(RestoreFault::BadEntry(1));
    };
    match begun_by(alloc, first)? {
        Some(so_far) => Ok(so_far),
        None => Err(RestoreFault::BadEntry(1)),
    }
}

/// What pieces leave, and how many they are.
#[derive(Drop)]
struct Read {
    so_far: SoFar,
    count: usize,
}

/// Reads pieces behind the first up to the last one.
#[tactic(auto, using(crate::proofs::FaultLemmas::one_more, crate::proofs::FaultLemmas::next_fault, crate::proofs::FaultLemmas::end_fault, crate::proofs::FaultLemmas::read_whole))]
fn read_all(alloc: Global, entries: &[Bytes], first: SoFar) -> Result<Read, RestoreFault>
    requires begun { IsReadTo (take 1 entries.now) first }
    requires some { 0 < length entries.now }
    ensures within { IfOk result (λ read. read.count ≤ length entries.now) }
    ensures read { IfOk result (λ read. IsReadTo (take read.count entries.now) read.so_far) }
    ensures ended { IfOk result (λ read. is_ended read.so_far.part ≡ true) }
    ensures refused { IfErr result (IsRefusal entries.now) }
{
    let mut so_far = first;
    for place in 1..entries.len() {
        if is_ended(&so_far) {
            return Ok(Read {
                so_far,
                count: place,
            });
        }
        match read_by(alloc, so_far, &entries[place])? {
            Some(next) => so_far = next,
            None => return Err(RestoreFault::BadEntry(place as u64 + 1)),
        }
    }
    if is_ended(&so_far) {
        Ok(Read {
            so_far,
            count: entries.len(),
        })
    } else {
        Err(RestoreFault::BadEntry(entries.len() as u64 + 1))
    }
}

/// The project whose pieces the first of these entries are, up to the last piece. `BadEntry` names the first entry that
/// is not read behind those before it, or the number past the last where the last piece is lacking. Cost, read off the
/// code and not measured: the bytes of the pieces, what `read_ann`, `read_scripts` and `check_scripts` say of layers and
/// commands, and for each snapshot its curated layer.
#[tactic(auto, using(crate::proofs::KeepableLemmas::can_be_kept))]
pub fn restore(alloc: Global, entries: &[Bytes]) -> Result<Restored, RestoreFault>
    ensures within { IfOk result (λ restored. restored.count ≤ length entries.now) }
    // The entries up to there are the pieces of a checkpoint, which tell this project.
    ensures told { IfOk result (λ restored. IsCheckpoint (take restored.count entries.now) restored.state.state) }
    // The first entry that is at fault, or memory ran out.
    ensures refused { IfErr result (IsRefusal entries.now) }
{
    let first = begun(alloc, entries)?;
    let Read { so_far, count } = read_all(alloc, entries, first)?;
    let state = so_far.state.into_state(alloc)?;
    Ok(Restored { state, count })
}
