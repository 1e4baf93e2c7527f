//! The two steps of an append: the record behind the closed gate, and then the gate.
ghost use Rattle.std.specs.Prelude.{◌≡◌, ℕ, ◌+◌, ◌<◌, ◌≤◌, ◌^◌, ◌++◌, [], ◌∷◌, List, Some, length, is_ok, is_some, OnOk, slice_set};
ghost use Rattle.project_journal.specs.Disk.{written, Reaches, Durable, Counts, SpendsUpTo};
ghost use Rattle.project_journal.specs.JournalFile.{record_of};
ghost use Rattle.project_journal.specs.Keeper.{IsEntry};
ghost use Rattle.project_journal.specs.Settled.{Turned, KeepsFront, Longer};
ghost use Rattle.project_journal.specs.Stops.{LeavesOnly};

use crate::Disk;
use mark_base::{Failed, Memory};

/// Fills the buffer with the record of an entry and a closed gate.
#[tactic(auto, unfolding(crate::specs::JournalFile::bytes_of))]
pub fn fill_record(buffer: &mut Vec<u8>, entry: &[u8]) -> Result<(), Memory>
    requires { IsEntry entry.now }
    ensures { OnOk result (buffer.new.items ≡ record_of entry.now ++ 0 ∷ []) }
{
    buffer.clear();
    buffer.extend_from_slice(&(entry.len() as u32).to_le_bytes())?;
    buffer.extend_from_slice(entry)?;
    buffer.push(0)?;
    Ok(())
}

/// Writes the byte at the gate, and syncs it.
pub fn turn_gate<D: Disk>(disk: &mut D, gate: u64, value: u8) -> Result<(), Failed>
    requires spare { 2 ≤ D.spare disk.old }
    requires reach { gate + 1 ≤ D.reach disk.old }
    requires within { Longer gate (D.images disk.old) }

    ensures ok { OnOk result ((file : List ℕ) → D.holds disk.old ≡ Some file → D.holds disk.new ≡ Some (slice_set file gate value)) }
    ensures told { is_some (D.holds disk.new) ≡ is_some (D.holds disk.old) }
    ensures durable { OnOk result (Durable (D.holds disk.new) (D.images disk.new)) }
    ensures any_moment { LeavesOnly D.moment D.left_since disk.old disk.new (Reaches (Turned gate) (D.images disk.old)) }
    ensures spends { SpendsUpTo 2 (D.spare disk.old) (D.spare disk.new) (D.reach disk.old) (D.reach disk.new) }
    ensures counts { Counts (D.faults disk.old) (D.faults disk.new) (D.faultless disk.old) (D.faultless disk.new) (is_ok result) }
{
    disk.write_at(gate, &[value])?;
    disk.sync()?;
    Ok(())
}

/// Writes a piece, a record and a closed gate, behind the gate, and syncs it.
pub fn stage<D: Disk>(disk: &mut D, gate: u64, piece: &[u8]) -> Result<(), Failed>
    requires small { gate < 2 ^ 63 }
    requires spare { 2 ≤ D.spare disk.old }
    requires reach { gate + 1 + length piece.now ≤ D.reach disk.old }
    requires within { Longer gate (D.images disk.old) }

    ensures ok { OnOk result ((file : List ℕ) → D.holds disk.old ≡ Some file → D.holds disk.new ≡ Some (written file (gate + 1) piece.now)) }
    ensures told { is_some (D.holds disk.new) ≡ is_some (D.holds disk.old) }
    ensures durable { OnOk result (Durable (D.holds disk.new) (D.images disk.new)) }
    ensures any_moment { LeavesOnly D.moment D.left_since disk.old disk.new (Reaches (KeepsFront (gate + 1)) (D.images disk.old)) }
    ensures spends { SpendsUpTo 2 (D.spare disk.old) (D.spare disk.new) (D.reach disk.old) (D.reach disk.new) }
    ensures counts { Counts (D.faults disk.old) (D.faults disk.new) (D.faultless disk.old) (D.faultless disk.new) (is_ok result) }
{
    disk.write_at(gate + 1, piece)?;
    disk.sync()?;
    Ok(())
}
