//! Laying out the file of a new journal.
ghost use Rattle.std.specs.Prelude.{◌≡◌, ℕ, ◌+◌, ◌<◌, ◌≤◌, ◌^◌, ◌++◌, [], ◌∷◌, List, Some, length, drop, is_ok, is_some, OnOk, IfOk, IfErr, IsErrOf};
ghost use Rattle.std.specs.List.{All};
ghost use Rattle.mark_base.specs.Streams.{TellsFault};
ghost use Rattle.project_journal.specs.declared.journal_fault.JournalFault.TheVariants;
ghost use Rattle.project_journal.specs.Creation.{IsNoneOrWhole};
ghost use Rattle.project_journal.specs.Disk.{Torn, Reaches, NoMore, Durable, OnlyEmpty, Counts, SpendsUpTo};
ghost use Rattle.project_journal.specs.JournalFile.{mark, version_bytes, record_of, records, new_front, new_file};
ghost use Rattle.project_journal.specs.Keeper.{IsEntry};
ghost use Rattle.project_journal.specs.Opening.{RefusesNew};
ghost use Rattle.project_journal.specs.Stops.{LeavesOnly};

use crate::{Disk, JournalFault};
use mark_base::{Bytes, Failed, Memory};
use std::alloc::Global;

/// What stands behind the mark in a new file of version 1 with no entries.
const EMPTY_BODY: [u8; 9] = [1, 0, 0, 0, 0, 0, 0, 0, 0];

/// Reserves calls and length, and finds that the file is empty.
fn claim<D: Disk>(disk: &mut D, calls: u32, end: u64) -> Result<(), JournalFault>
    requires { 1 ≤ calls }
    ensures empty { OnOk result ((file : List ℕ) → D.holds disk.old ≡ Some file → file ≡ []) }
    ensures err { IfErr result (RefusesNew (D.holds disk.old)) }
    ensures spare { OnOk result (calls ≤ D.spare disk.new + 1) }
    ensures reach { OnOk result (end ≤ D.reach disk.new) }
    ensures below { OnOk result (end < 2 ^ 63) }
    ensures holds { D.holds disk.new ≡ D.holds disk.old }
    ensures images { NoMore (D.images disk.old) (D.images disk.new) }
    ensures any_moment { LeavesOnly D.moment D.left_since disk.old disk.new (D.images disk.old) }
    ensures later { D.faults disk.old ≤ D.faults disk.new }
    ensures cause { TellsFault (IsErrOf result TheVariants.Disk) (D.faults disk.old) (D.faults disk.new) }
    ensures faultless { D.faultless disk.old → D.faultless disk.new × (D.faults disk.new ≡ D.faults disk.old) × (IsErrOf result TheVariants.Disk → ⊥) }
{
    disk.reserve(calls, end)?;
    let len = disk.len()?;
    if len != 0 {
        return Err(JournalFault::AlreadyThere(len));
    }
    Ok(())
}

/// Writes what stands behind the mark, and syncs it.
fn write_body<D: Disk>(disk: &mut D, body: &[u8]) -> Result<(), Failed>
    requires spare { 2 ≤ D.spare disk.old }
    requires reach { 8 + length body.now ≤ D.reach disk.old }
    ensures ok { OnOk result ((file : List ℕ) → D.holds disk.old ≡ Some file → length file ≤ 8
        → (front : List ℕ) × (D.holds disk.new ≡ Some (front ++ body.now)) × (length front ≡ 8)) }
    ensures told { is_some (D.holds disk.new) ≡ is_some (D.holds disk.old) }
    ensures durable { OnOk result (Durable (D.holds disk.new) (D.images disk.new)) }
    ensures any_moment { LeavesOnly D.moment D.left_since disk.old disk.new (Reaches (Torn 8 (length body.now)) (D.images disk.old)) }
    ensures spends { SpendsUpTo 2 (D.spare disk.old) (D.spare disk.new) (D.reach disk.old) (D.reach disk.new) }
    ensures counts { Counts (D.faults disk.old) (D.faults disk.new) (D.faultless disk.old) (D.faultless disk.new) (is_ok result) }
{
    disk.write_at(8, body)?;
    disk.sync()?;
    Ok(())
}

/// Writes the front of the file, and syncs it.
fn write_front<D: Disk>(disk: &mut D, piece: &[u8]) -> Result<(), Failed>
    requires spare { 2 ≤ D.spare disk.old }
    requires reach { length piece.now ≤ D.reach disk.old }
    ensures ok { OnOk result ((file : List ℕ) → D.holds disk.old ≡ Some file → D.holds disk.new ≡ Some (piece.now ++ drop (length piece.now) file)) }
    ensures told { is_some (D.holds disk.new) ≡ is_some (D.holds disk.old) }
    ensures durable { OnOk result (Durable (D.holds disk.new) (D.images disk.new)) }
    ensures any_moment { LeavesOnly D.moment D.left_since disk.old disk.new (Reaches (Torn 0 (length piece.now)) (D.images disk.old)) }
    ensures spends { SpendsUpTo 2 (D.spare disk.old) (D.spare disk.new) (D.reach disk.old) (D.reach disk.new) }
    ensures counts { Counts (D.faults disk.old) (D.faults disk.new) (D.faultless disk.old) (D.faultless disk.new) (is_ok result) }
{
    disk.write_at(0, piece)?;
    disk.sync()?;
    Ok(())
}

/// Lays out a journal of version 1 with no entries in an empty file.
pub fn lay_out_empty<D: Disk>(disk: &mut D) -> Result<(), JournalFault>
    ensures ok { OnOk result ((file : List ℕ) → D.holds disk.old ≡ Some file → D.holds disk.new ≡ Some (new_file 1 [])) }
    ensures durable { OnOk result (Durable (D.holds disk.new) (D.images disk.new)) }
    ensures told { is_some (D.holds disk.new) ≡ is_some (D.holds disk.old) }
    ensures empty { OnOk result ((file : List ℕ) → D.holds disk.old ≡ Some file → file ≡ []) }
    ensures err { IfErr result (RefusesNew (D.holds disk.old)) }
    ensures already { IfErr result (λ e. (n : ℕ) → e ≡ TheVariants.AlreadyThere n → (D.holds disk.new ≡ D.holds disk.old) × NoMore (D.images disk.old) (D.images disk.new)) }
    ensures memory { IsErrOf result TheVariants.Memory → (D.holds disk.new ≡ D.holds disk.old) × NoMore (D.images disk.old) (D.images disk.new) }
    ensures later { D.faults disk.old ≤ D.faults disk.new }
    ensures cause { TellsFault (IsErrOf result TheVariants.Disk) (D.faults disk.old) (D.faults disk.new) }
    ensures faultless { D.faultless disk.old → D.faultless disk.new × (D.faults disk.new ≡ D.faults disk.old) × (IsErrOf result TheVariants.Disk → ⊥) }
{
    claim(disk, 6, 17)?;
    disk.cut(0)?;
    write_body(disk, &EMPTY_BODY)?;
    write_front(disk, b"ANNOBOOK")?;
    Ok(())
}

/// What stands behind the mark in a new file of version 2 with these entries.
fn body_of(alloc: Global, entries: &[Bytes]) -> Result<Vec<u8>, Memory>
    requires { All IsEntry entries.now }
    ensures { IfOk result (λ body. body.items ≡ version_bytes 2 ++ records entries.now ++ 0 ∷ []) }
{
    let mut body = Vec::new(alloc);
    body.extend_from_slice(&[2, 0, 0, 0, 0, 0, 0, 0])?;
    for entry in entries {
        push_record(&mut body, entry.items())?;
    }
    body.push(0)?;
    Ok(body)
}

/// Adds an open gate and the record of an entry.
#[tactic(auto, unfolding(crate::specs::JournalFile::bytes_of))]
fn push_record(body: &mut Vec<u8>, entry: &[u8]) -> Result<(), Memory>
    requires { IsEntry entry.now }
    ensures { OnOk result (body.new.items ≡ body.old.items ++ 1 ∷ record_of entry.now) }
{
    body.push(1)?;
    body.extend_from_slice(&(entry.len() as u32).to_le_bytes())?;
    body.extend_from_slice(entry)?;
    Ok(())
}

/// Lays out a journal of version 2 with these entries in an empty file, and gives the offset of its last
/// gate. Until the last write the file has no mark.
pub fn lay_out_entries<D: Disk>(
    alloc: Global,
    disk: &mut D,
    entries: &[Bytes],
) -> Result<u64, JournalFault>
    requires { All IsEntry entries.now }
    ensures gate { IfOk result (λ gate. gate ≡ length (new_front 2 entries.now)) }
    ensures small { IfOk result (λ gate. gate < 2 ^ 63) }
    ensures ok { OnOk result ((file : List ℕ) → D.holds disk.old ≡ Some file → D.holds disk.new ≡ Some (new_file 2 entries.now)) }
    ensures durable { OnOk result (Durable (D.holds disk.new) (D.images disk.new)) }
    ensures told { is_some (D.holds disk.new) ≡ is_some (D.holds disk.old) }
    ensures empty { OnOk result ((file : List ℕ) → D.holds disk.old ≡ Some file → file ≡ []) }
    ensures err { IfErr result (RefusesNew (D.holds disk.old)) }
    ensures already { IfErr result (λ e. (n : ℕ) → e ≡ TheVariants.AlreadyThere n → (D.holds disk.new ≡ D.holds disk.old) × NoMore (D.images disk.old) (D.images disk.new)) }
    ensures memory { IsErrOf result TheVariants.Memory → (D.holds disk.new ≡ D.holds disk.old) × NoMore (D.images disk.old) (D.images disk.new) }
    ensures any_moment { OnlyEmpty (D.images disk.old) → LeavesOnly D.moment D.left_since disk.old disk.new (IsNoneOrWhole entries.now) }
    ensures later { D.faults disk.old ≤ D.faults disk.new }
    ensures cause { TellsFault (IsErrOf result TheVariants.Disk) (D.faults disk.old) (D.faults disk.new) }
    ensures faultless { D.faultless disk.old → D.faultless disk.new × (D.faults disk.new ≡ D.faults disk.old) × (IsErrOf result TheVariants.Disk → ⊥) }
{
    let body = body_of(alloc, entries)?;
    let end = body.len() as u64 + 8;
    claim(disk, 7, end)?;
    write_front(disk, &[0; 8])?;
    write_body(disk, body.as_slice())?;
    write_front(disk, b"ANNOBOOK")?;
    Ok(end - 1)
}
