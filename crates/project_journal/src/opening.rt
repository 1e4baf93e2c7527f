//! Reading the file of a journal.
ghost use Rattle.std.specs.Prelude.{◌≡◌, ◌⊎◌, ℕ, ◌+◌, ◌<◌, ◌≤◌, ◌^◌, true, false, List, Some, None, length, take, vec_len, OnOk, IfOk, IfErr, IsErrOf, IfSome, IfNone, is_some};
ghost use Rattle.mark_base.specs.Streams.{TellsFault};
ghost use Rattle.project_journal.specs.declared.journal_fault.JournalFault.TheVariants;
ghost use Rattle.project_journal.specs.Disk.{Durable, NoMore};
ghost use Rattle.project_journal.specs.JournalFile.{is_journal, is_known, version, damage, bytes_of, whole_record};
ghost use Rattle.project_journal.specs.Opening.{Reads, Refuses};
ghost use Rattle.project_journal.specs.RecordLaws.{AreEntries};
ghost use Rattle.project_journal.specs.Stops.{LeavesOnly};

use crate::{Disk, JournalFault};
use mark_base::Bytes;
use std::alloc::Global;

/// What a journal's file has: the offset of its last gate, and the entries before it.
#[derive(Drop)]
pub struct Contents {
    pub gate: u64,
    pub entries: Vec<Bytes>,
}

/// Reads one piece more, by way of the room; false at the end of the file.
fn read_more<D: Disk>(
    disk: &mut D,
    bytes: &mut Vec<u8>,
    room: &mut [u8],
) -> Result<bool, JournalFault>
    requires { 0 < length room.old }
    ensures more { IfOk result (λ b. b ≡ true → vec_len bytes.old < vec_len bytes.new) }
    ensures told { IfOk result (λ b. (file : List ℕ) → D.holds disk.old ≡ Some file → bytes.old.items ≡ take (vec_len bytes.old) file
        → (bytes.new.items ≡ take (vec_len bytes.new) file) × (b ≡ false → length file ≤ vec_len bytes.new)) }
    ensures holds { D.holds disk.new ≡ D.holds disk.old }
    ensures images { NoMore (D.images disk.old) (D.images disk.new) }
    ensures any_moment { LeavesOnly D.moment D.left_since disk.old disk.new (D.images disk.old) }
    ensures later { D.faults disk.old ≤ D.faults disk.new }
    ensures which { IfErr result (λ e. (e ≡ TheVariants.Disk) ⊎ (e ≡ TheVariants.Memory)) }
    ensures cause { TellsFault (IsErrOf result TheVariants.Disk) (D.faults disk.old) (D.faults disk.new) }
    ensures faultless { D.faultless disk.old → D.faultless disk.new × (D.faults disk.new ≡ D.faults disk.old) × (IsErrOf result TheVariants.Disk → ⊥) }
{
    disk.reserve(1, 0)?;
    let count = disk.read(bytes.len() as u64, room)?;
    bytes.extend_from_slice(&room[..count])?;
    Ok(count > 0)
}

/// Reads the whole file.
fn read_all<D: Disk>(alloc: Global, disk: &mut D) -> Result<Vec<u8>, JournalFault>
    ensures told { IfOk result (λ bytes. (file : List ℕ) → D.holds disk.old ≡ Some file → bytes.items ≡ file) }
    ensures holds { D.holds disk.new ≡ D.holds disk.old }
    ensures images { NoMore (D.images disk.old) (D.images disk.new) }
    ensures any_moment { LeavesOnly D.moment D.left_since disk.old disk.new (D.images disk.old) }
    ensures later { D.faults disk.old ≤ D.faults disk.new }
    ensures which { IfErr result (λ e. (e ≡ TheVariants.Disk) ⊎ (e ≡ TheVariants.Memory)) }
    ensures cause { TellsFault (IsErrOf result TheVariants.Disk) (D.faults disk.old) (D.faults disk.new) }
    ensures faultless { D.faultless disk.old → D.faultless disk.new × (D.faults disk.new ≡ D.faults disk.old) × (IsErrOf result TheVariants.Disk → ⊥) }
{
    let mut bytes = Vec::new(alloc);
    let mut room = [0u8; 4096];
    'pieces: for _ in 0..u64::MAX {
        if !read_more(disk, &mut bytes, &mut room)? {
            return Ok(bytes);
        }
    }
    // No memory holds so many bytes.
    Err(JournalFault::Memory)
}

/// The size of a whole record's payload; none where the record is not whole.
fn payload_size(bytes: &[u8]) -> Option<usize>
    ensures none { IfNone result (whole_record bytes.now ≡ None) }
    ensures some { IfSome result (λ n. (1 ≤ n) × (n ≤ 16777216) × (n + 4 < length bytes.now) × (bytes_of n ≡ take 4 bytes.now)) }
{
    if bytes.len() < 5 {
        return None;
    }
    let n = u32::from_le_bytes([bytes[0], bytes[1], bytes[2], bytes[3]]) as usize;
    if n < 1 {
        return None;
    }
    if n > 16_777_216 {
        return None;
    }
    if n >= bytes.len() - 4 {
        return None;
    }
    Some(n)
}

/// Reads the records of a file with a good header.
fn read_records(alloc: Global, bytes: &[u8]) -> Result<Contents, JournalFault>
    requires journal { is_journal bytes.now ≡ true }
    requires known { is_known (version bytes.now) ≡ true }
    requires long { 17 ≤ length bytes.now }
    ensures small { IfOk result (λ contents. contents.gate < length bytes.now) }
    ensures ok { IfOk result (λ contents. Reads bytes.now contents.gate contents.entries.items) }
    ensures err { IfErr result (λ e. (e ≡ TheVariants.Memory) ⊎ ((k : ℕ) × (e ≡ TheVariants.Damaged k) × (damage bytes.now ≡ Some k))) }
{
    let mut entries = Vec::new(alloc);
    let mut gate = 16;
    'records: while bytes[gate] == 1 {
        let Some(size) = payload_size(&bytes[gate + 1..]) else {
            return Err(JournalFault::Damaged(entries.len() as u64 + 1));
        };
        let entry = Bytes::of(alloc, &bytes[gate + 5..gate + 5 + size])?;
        entries.push(entry)?;
        gate += size + 5;
    }
    Ok(Contents {
        gate: gate as u64,
        entries,
    })
}

/// Whether a file of that version is read.
fn reads_version(version: u32) -> bool
    ensures { result ≡ is_known version }
{
    version == 1 || version == 2
}

/// Reads the bytes of a file that may be no journal.
fn read_contents(alloc: Global, bytes: &[u8]) -> Result<Contents, JournalFault>
    ensures small { IfOk result (λ contents. contents.gate < length bytes.now) }
    ensures ok { IfOk result (λ contents. Reads bytes.now contents.gate contents.entries.items) }
    ensures err { IfErr result (λ e. Refuses bytes.now e) }
{
    if bytes.len() < 17 {
        return Err(JournalFault::NotAJournal);
    }
    if !bytes.starts_with(b"ANNOBOOK") {
        return Err(JournalFault::NotAJournal);
    }
    let version = u32::from_le_bytes([bytes[8], bytes[9], bytes[10], bytes[11]]);
    if !reads_version(version) {
        return Err(JournalFault::NewerVersion(version));
    }
    read_records(alloc, bytes)
}

/// Syncs the file and reads it whole. A file that is not synced is not trusted: a read may give bytes that
/// the device has never got.
pub fn load<D: Disk>(alloc: Global, disk: &mut D) -> Result<Contents, JournalFault>
    ensures small { IfOk result (λ contents. contents.gate < 2 ^ 63) }
    ensures ok { IfOk result (λ contents. (file : List ℕ) → D.holds disk.old ≡ Some file → Reads file contents.gate contents.entries.items) }
    ensures err { IfErr result (λ e. (file : List ℕ) → D.holds disk.old ≡ Some file → (e ≡ TheVariants.Disk) ⊎ Refuses file e) }
    ensures opens_no_other { IfErr result (λ e. (n : ℕ) → e ≡ TheVariants.AlreadyThere n → ⊥) }
    ensures durable { OnOk result (Durable (D.holds disk.new) (D.images disk.new)) }
    ensures sized { IfOk result (λ contents. AreEntries contents.entries.items) }
    ensures holds { OnOk result (D.holds disk.new ≡ D.holds disk.old) }
    ensures refused { IfErr result (λ e. (e ≡ TheVariants.Disk → ⊥) → D.holds disk.new ≡ D.holds disk.old) }
    ensures told { is_some (D.holds disk.new) ≡ is_some (D.holds disk.old) }
    ensures images { NoMore (D.images disk.old) (D.images disk.new) }
    ensures any_moment { LeavesOnly D.moment D.left_since disk.old disk.new (D.images disk.old) }
    ensures later { D.faults disk.old ≤ D.faults disk.new }
    ensures cause { TellsFault (IsErrOf result TheVariants.Disk) (D.faults disk.old) (D.faults disk.new) }
    ensures faultless { D.faultless disk.old → D.faultless disk.new × (D.faults disk.new ≡ D.faults disk.old) × (IsErrOf result TheVariants.Disk → ⊥) }
{
    disk.reserve(1, 0)?;
    disk.sync()?;
    let bytes = read_all(alloc, disk)?;
    read_contents(alloc, &bytes)
}
