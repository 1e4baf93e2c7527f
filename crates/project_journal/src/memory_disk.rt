//! A disk in memory. It keeps its calls, so that a crash may leave all that the model allows.
ghost use Rattle.std.specs.Prelude.{◌≡◌, ℕ, ◌+◌, ◌-◌, ◌<◌, ◌≤◌, ◌^◌, ◌++◌, [], ◌∷◌, true, List, Some, length, take, drop, map, min, is_ok, is_err, is_some, IfOk, OnOk, refl, vec_len};
ghost use Rattle.std.specs.Vec.{vec_capacity};
ghost use Rattle.project_journal.specs.declared.past_calls.PastCall.{PastCall};
ghost use Rattle.project_journal.specs.Disk.{written, Torn, Resized, Follows, NoMore, Durable, Changes, Counts, Spends};
ghost use Rattle.project_journal.specs.DiskFails.{NoFailLeft};
ghost use Rattle.project_journal.specs.PastCalls.{last, ImageOf, LeftSince, read_is, counts, only};
ghost use Rattle.project_journal.specs.Stops.{Elapses};

use crate::disk_fails::{answer, next_fail};
use crate::memory_file::{copy_out, cut_unless, write_unless};
use crate::past_calls::{Effect, PastCall};
use crate::{Disk, DiskFail};
use mark_base::{Bytes, Failed, Memory};
use std::alloc::Global;
use std::snapshot::Snapshot;

/// A disk in memory, whose calls fail by number; a [`Disk::reserve`] is not counted among them.
///
/// It tells what a read gives, and its images are all that the crash model allows.
#[derive(Drop)]
pub struct MemoryDisk {
    bytes: Vec<u8>,
    fails: Vec<DiskFail>,
    calls: u64,
    faults: u64,
    start: Snapshot<Vec<u8>>,
    past: Vec<PastCall>,
    ghost whole: { last start.value.items past.items ≡ bytes.items },
}

impl MemoryDisk {
    ghost use Rattle.project_journal.specs.MemoryDisks.{fails_of, list_of};

    /// A disk that holds these bytes, and nothing else after a crash. The list names the calls that fail;
    /// nothing else does.
    pub fn new(alloc: Global, bytes: Bytes, fails: Vec<DiskFail>) -> Self
        ensures holds { ⟦<MemoryDisk as Disk>⟧.holds result ≡ Some bytes }
        ensures images { (image : List ℕ) → ⟦<MemoryDisk as Disk>⟧.images result image → image ≡ bytes }
        ensures faults { ⟦<MemoryDisk as Disk>⟧.faults result ≡ 0 }
        ensures list { list_of result ≡ fails.items }
        ensures fails { fails_of result ≡ record { fails = map (λ fail. fail.call) fails.items; calls = 0; faults = 0 } }
        ensures faultless { fails.items ≡ [] → ⟦<MemoryDisk as Disk>⟧.faultless result }
    {
        let bytes = bytes.into_vec();
        let start = Snapshot::of(&bytes);
        MemoryDisk {
            bytes,
            fails,
            calls: 0,
            faults: 0,
            start,
            past: Vec::new(alloc),
        }
    }

    /// What a read gives.
    pub fn bytes(&self) -> &[u8]
        ensures { ⟦<MemoryDisk as Disk>⟧.holds self.now ≡ Some result.now }
    {
        &self.bytes
    }
}

/// Adds a call to the past ones.
fn note(past: &mut Vec<PastCall>, bytes: &Vec<u8>, effect: Effect)
    requires { 1 ≤ vec_capacity past.old - vec_len past.old }
    ensures past { (call : PastCall) × (past.new.items ≡ past.old.items ++ call ∷ []) × (call.effect ≡ effect) × (call.after.value.items ≡ bytes.now.items) }
    ensures spare { vec_capacity past.old - vec_len past.old ≤ vec_capacity past.new - vec_len past.new + 1 }
{
    let after = Snapshot::of(bytes);
    past.push_reserved(PastCall { effect, after });
}

impl Disk for MemoryDisk {
    ghost use Rattle.project_journal.specs.MemoryDisks.{fails_of, list_of, bytes_of, resized, overwritten, GoesOn, CallsOnce, SameFile, ChangesFile, SyncsFile};

    ghost holds = { λ disk. Some disk.bytes.items };

    ghost images = { λ disk. ImageOf disk.start.value.items disk.past.items };

    ghost moment = { λ disk. length disk.past.items };

    ghost left_since = { λ disk. LeftSince disk.start.value.items disk.past.items };

    ghost faults = { λ disk. disk.faults };

    ghost faultless = { λ disk. NoFailLeft disk.calls disk.fails.items × (disk.faults < 2 ^ 64 - 1) };

    ghost spare = { λ disk. vec_capacity disk.past - vec_len disk.past };

    ghost reach = { λ disk. vec_capacity disk.bytes };

    ghost read_is_image = { λ disk file is. read_is disk.start.value.items disk.bytes.items disk.past.items disk.whole file is };

    ghost images_told = { λ disk image is. refl };

    ghost counts_now = { λ disk t image le is. counts disk.start.value.items disk.past.items t image le is };

    ghost only_now = { λ disk image left. only disk.start.value.items disk.past.items image left };

    fn reserve(&mut self, calls: u32, end: u64) -> Result<(), Memory>
        ensures spare { OnOk result (calls ≤ ⟦<MemoryDisk as Disk>⟧.spare self.new) }
        ensures reach { OnOk result (end ≤ ⟦<MemoryDisk as Disk>⟧.reach self.new) }
        ensures below { OnOk result (end < 2 ^ 63) }
        ensures spare_kept { ⟦<MemoryDisk as Disk>⟧.spare self.old ≤ ⟦<MemoryDisk as Disk>⟧.spare self.new }
        ensures reach_kept { ⟦<MemoryDisk as Disk>⟧.reach self.old ≤ ⟦<MemoryDisk as Disk>⟧.reach self.new }
        ensures time { Elapses (⟦<MemoryDisk as Disk>⟧.moment self.old) (⟦<MemoryDisk as Disk>⟧.moment self.new) (⟦<MemoryDisk as Disk>⟧.left_since self.old) (⟦<MemoryDisk as Disk>⟧.left_since self.new) (⟦<MemoryDisk as Disk>⟧.images self.new) }
        ensures uncounted { fails_of self.new ≡ fails_of self.old }
        ensures list { list_of self.new ≡ list_of self.old }
        ensures same { SameFile self.old self.new }
    {
        if end >= 1 << 63 {
            return Err(Memory);
        }
        self.past.try_reserve(calls as usize)?;
        let end = end as usize;
        if end > self.bytes.len() {
            self.bytes.try_reserve(end - self.bytes.len())?;
        }
        Ok(())
    }

    fn len(&mut self) -> Result<u64, Failed>
        requires { 1 ≤ ⟦<MemoryDisk as Disk>⟧.spare self.old }
        ensures length { IfOk result (λ n. n ≡ length (bytes_of self.old)) }
        ensures goes { GoesOn self.old self.new (is_ok result) }
        ensures listed { CallsOnce self.old self.new (is_err result) }
        ensures same { SameFile self.old self.new }
    {
        let fail = next_fail(&self.fails, &mut self.calls);
        answer(fail, &mut self.faults)?;
        Ok(self.bytes.len() as u64)
    }

    fn read(&mut self, at: u64, room: &mut [u8]) -> Result<usize, Failed>
        requires { 1 ≤ ⟦<MemoryDisk as Disk>⟧.spare self.old }
        ensures told { IfOk result (λ n. (file : List ℕ) → ⟦<MemoryDisk as Disk>⟧.holds self.old ≡ Some file
            → (take n room.new ≡ take n (drop at file)) × (n ≤ length (drop at file)) × (at < length file → 0 < length room.old → 0 < n)) }
        ensures goes { GoesOn self.old self.new (is_ok result) }
        ensures listed { CallsOnce self.old self.new (is_err result) }
        ensures same { SameFile self.old self.new }
        ensures count { IfOk result (λ n. n ≡ min (length room.old) (length (drop at (bytes_of self.old)))) }
    {
        let fail = next_fail(&self.fails, &mut self.calls);
        answer(fail, &mut self.faults)?;
        Ok(copy_out(&self.bytes, at as usize, room))
    }

    fn write_at(&mut self, at: u64, piece: &[u8]) -> Result<(), Failed>
        requires spare { 1 ≤ ⟦<MemoryDisk as Disk>⟧.spare self.old }
        requires reach { at + length piece.now ≤ ⟦<MemoryDisk as Disk>⟧.reach self.old }
        ensures written { OnOk result ((file : List ℕ) → ⟦<MemoryDisk as Disk>⟧.holds self.old ≡ Some file → at ≤ length file → ⟦<MemoryDisk as Disk>⟧.holds self.new ≡ Some (written file at piece.now)) }
        ensures gap { OnOk result ((file : List ℕ) → ⟦<MemoryDisk as Disk>⟧.holds self.old ≡ Some file → length file ≤ at
            → (front : List ℕ) × (⟦<MemoryDisk as Disk>⟧.holds self.new ≡ Some (front ++ piece.now)) × (length front ≡ at) × (take (length file) front ≡ file)) }
        ensures changes { Changes (Torn at (length piece.now)) (⟦<MemoryDisk as Disk>⟧.holds self.old) (⟦<MemoryDisk as Disk>⟧.holds self.new) }
        ensures images { Follows (Torn at (length piece.now)) (⟦<MemoryDisk as Disk>⟧.images self.old) (⟦<MemoryDisk as Disk>⟧.images self.new) }
        ensures goes { GoesOn self.old self.new (is_ok result) }
        ensures listed { CallsOnce self.old self.new (is_err result) }
        ensures exact { ChangesFile (overwritten at piece.now) (Torn at (length piece.now)) self.old self.new (is_err result) }
    {
        let fail = next_fail(&self.fails, &mut self.calls);
        write_unless(fail, &mut self.bytes, at as usize, piece);
        note(
            &mut self.past,
            &self.bytes,
            Effect::Wrote(at, piece.len() as u64),
        );
        answer(fail, &mut self.faults)
    }

    fn cut(&mut self, len: u64) -> Result<(), Failed>
        requires spare { 1 ≤ ⟦<MemoryDisk as Disk>⟧.spare self.old }
        requires reach { len ≤ ⟦<MemoryDisk as Disk>⟧.reach self.old }
        ensures length { OnOk result ((file : List ℕ) → ⟦<MemoryDisk as Disk>⟧.holds self.new ≡ Some file → length file ≡ len) }
        ensures resized { OnOk result ((file : List ℕ) → ⟦<MemoryDisk as Disk>⟧.holds self.old ≡ Some file → len ≤ length file → ⟦<MemoryDisk as Disk>⟧.holds self.new ≡ Some (take len file)) }
        ensures changes { Changes (Resized len) (⟦<MemoryDisk as Disk>⟧.holds self.old) (⟦<MemoryDisk as Disk>⟧.holds self.new) }
        ensures images { Follows (Resized len) (⟦<MemoryDisk as Disk>⟧.images self.old) (⟦<MemoryDisk as Disk>⟧.images self.new) }
        ensures goes { GoesOn self.old self.new (is_ok result) }
        ensures listed { CallsOnce self.old self.new (is_err result) }
        ensures exact { ChangesFile (resized len) (Resized len) self.old self.new (is_err result) }
    {
        let fail = next_fail(&self.fails, &mut self.calls);
        cut_unless(fail, &mut self.bytes, len as usize);
        note(&mut self.past, &self.bytes, Effect::Cut(len));
        answer(fail, &mut self.faults)
    }

    fn sync(&mut self) -> Result<(), Failed>
        requires { 1 ≤ ⟦<MemoryDisk as Disk>⟧.spare self.old }
        ensures durable { OnOk result (Durable (⟦<MemoryDisk as Disk>⟧.holds self.new) (⟦<MemoryDisk as Disk>⟧.images self.new)) }
        ensures images { NoMore (⟦<MemoryDisk as Disk>⟧.images self.old) (⟦<MemoryDisk as Disk>⟧.images self.new) }
        ensures goes { GoesOn self.old self.new (is_ok result) }
        ensures listed { CallsOnce self.old self.new (is_err result) }
        ensures exact { SyncsFile self.old self.new (is_err result) }
    {
        let fail = next_fail(&self.fails, &mut self.calls);
        answer(fail, &mut self.faults)?;
        note(&mut self.past, &self.bytes, Effect::Synced);
        Ok(())
    }
}
