//! Named disks in memory.
ghost use Rattle.std.specs.Prelude.{◌≡◌, ◌≢◌, ◌<◌, [], ◌∷◌, ◌++◌, ℕ, List, None, Some, true, false, is_some, length, map, not, option_map, unwrap_or, IfErr, IfOk, IfSome, IsErrOf, OnErr, OnOk, bytes_eq};
ghost use Rattle.std.specs.List.{filter, list_any};
ghost use Rattle.mark_base.specs.FailList.{IsFaultless};
ghost use Rattle.project_journal.specs.MemoryDisks.{bytes_of, FailsNoMore};
ghost use Rattle.named_disks.specs.NamedDisks.{reads_as};
ghost use Rattle.named_disks.specs.MemoryNames.{FailNoMore, HaveNames, first_bytes, has_name, place_of, stored_of};

use crate::disks::{Disks, DisksFault};
use mark_base::{Bytes, FailList, Memory, Text};
use project_journal::{Disk, MemoryDisk};
use std::alloc::Global;
use std::mem;

/// Named disks in memory, whose calls fail by number. They tell what each name stores and which names are out.
#[derive(Drop)]
pub struct MemoryDisks {
    /// In the place of a disk that is out stands one of length 0.
    disks: Vec<(Text, MemoryDisk)>,
    out: Vec<Text>,
    fails: FailList,
    ghost known: { HaveNames disks.items out.items },
}

impl MemoryDisks {
    ghost use Rattle.named_disks.specs.MemoryCalls.{calls_of};

    /// These disks, each with its name; of several disks of one name the first counts. The numbers name the calls of
    /// [`Disks::disk`], [`Disks::make`] and [`Disks::look`] together, from 1, that fail; nothing else does.
    pub fn new(alloc: Global, disks: Vec<(Text, MemoryDisk)>, fails: Vec<u64>) -> Self
        ensures stored { ⟦<MemoryDisks as Disks>⟧.stored result ≡ Some (stored_of disks.items) }
        ensures out { ⟦<MemoryDisks as Disks>⟧.out result ≡ Some [] }
        ensures faults { ⟦<MemoryDisks as Disks>⟧.faults result ≡ 0 }
        ensures fails { calls_of result ≡ record { fails = fails.items; calls = 0; faults = 0 } }
        ensures faultless { fails.items ≡ [] → FailNoMore disks.items → ⟦<MemoryDisks as Disks>⟧.faultless result }
    {
        MemoryDisks {
            disks,
            out: Vec::new(alloc),
            fails: FailList::new(fails),
        }
    }

    /// What a read of the disk of a name gives: 0 bytes where the name is not there. Of a name that is out it gives
    /// nothing of use.
    pub fn bytes(&self, name: &str) -> &[u8]
        ensures { reads_as (⟦<MemoryDisks as Disks>⟧.stored self.now) name.now ≡ Some result.now }
    {
        match place_of(&self.disks, name) {
            Some(place) => self.disks[place].1.bytes(),
            None => &[],
        }
    }
}

/// The place of the first disk of a name.
fn place_of(disks: &[(Text, MemoryDisk)], name: &str) -> Option<usize>
    ensures { result ≡ place_of disks.now name.now }
{
    disks.iter().position(|entry| name == entry.0.text())
}

/// A disk of length 0 that never fails.
fn empty_disk(alloc: Global) -> MemoryDisk
    ensures bytes { bytes_of result ≡ [] }
    ensures faultless { FailsNoMore result }
{
    MemoryDisk::new(alloc, Bytes::from_vec(Vec::new(alloc)), Vec::new(alloc))
}

/// The place of the disk of a name; where there is none, one of length 0 is put there.
fn place_for(
    alloc: Global,
    disks: &mut Vec<(Text, MemoryDisk)>,
    name: &str,
) -> Result<usize, Memory>
    ensures place { IfOk result (λ place. place_of disks.new.items name.now ≡ Some place) }
    ensures same { (other : List ℕ) → first_bytes disks.new.items other ≡ first_bytes disks.old.items other }
    ensures has { (other : List ℕ) → other ≢ name.now → has_name disks.new.items other ≡ has_name disks.old.items other }
    ensures names { (out : List (List ℕ)) → HaveNames disks.old.items out → HaveNames disks.new.items out }
    ensures faultless { FailNoMore disks.old.items → FailNoMore disks.new.items }
{
    if let Some(place) = place_of(disks, name) {
        return Ok(place);
    }
    let place = disks.len();
    let entry = (Text::of(alloc, name)?, empty_disk(alloc));
    disks.push(entry)?;
    Ok(place)
}

/// Takes the disk of a name from its place, and puts another there.
fn exchange(disks: &mut Vec<(Text, MemoryDisk)>, place: usize, disk: MemoryDisk) -> MemoryDisk
    requires { place < length disks.old.items }
    ensures taken { (name : List ℕ) → place_of disks.old.items name ≡ Some place → bytes_of result ≡ first_bytes disks.old.items name }
    ensures put { (name : List ℕ) → place_of disks.old.items name ≡ Some place → first_bytes disks.new.items name ≡ bytes_of disk }
    ensures others { (name other : List ℕ) → place_of disks.old.items name ≡ Some place → other ≢ name → first_bytes disks.new.items other ≡ first_bytes disks.old.items other }
    ensures has { (name : List ℕ) → has_name disks.new.items name ≡ has_name disks.old.items name }
    ensures names { (out : List (List ℕ)) → HaveNames disks.old.items out → HaveNames disks.new.items out }
    ensures faultless { FailNoMore disks.old.items → FailsNoMore result × (FailsNoMore disk → FailNoMore disks.new.items) }
{
    mem::replace(&mut disks[place].1, disk)
}

/// Notes that the disk of a name is out.
fn note(alloc: Global, out: &mut Vec<Text>, name: &str) -> Result<(), Memory>
    ensures noted { OnOk result (out.new.items ≡ out.old.items ++ name.now ∷ []) }
    ensures same { OnErr result (out.new.items ≡ out.old.items) }
{
    let name = Text::of(alloc, name)?;
    out.push(name)?;
    Ok(())
}

/// Strikes a name off those that are out.
fn strike(out: &mut Vec<Text>, name: &str)
    ensures { out.new.items ≡ filter (λ other. not (bytes_eq name.now other)) out.old.items }
{
    out.retain(|other| name != other.text());
}

impl Disks for MemoryDisks {
    ghost use Rattle.mark_base.specs.FailList.{CountsCall};
    ghost use Rattle.named_disks.specs.MemoryCalls.{calls_of};
    ghost use Rattle.named_disks.specs.DiskFaults.{has_failed};
    ghost use Rattle.named_disks.specs.NamedDisks.{IsIn, IsLacking, IsOut, KeepsAll, KeepsOthers, TellsDisks, is_there, reads_as};

    type Disk = MemoryDisk;

    ghost stored = { λ disks. Some (stored_of disks.disks.items) };

    ghost out = { λ disks. Some disks.out.items };

    ghost faults = { λ disks. disks.fails.faults };

    ghost faultless = { λ disks. IsFaultless disks.fails × FailNoMore disks.disks.items };

    fn disk(&mut self, alloc: Global, name: &str) -> Result<MemoryDisk, DisksFault>
        requires { IsIn (⟦<MemoryDisks as Disks>⟧.out self.old) name.now }
        ensures reads { IfOk result (λ disk. IfSome (reads_as (⟦<MemoryDisks as Disks>⟧.stored self.old) name.now) (λ file. ⟦<MemoryDisk as Disk>⟧.holds disk ≡ Some file)) }
        ensures handed_out { OnOk result (IsOut (⟦<MemoryDisks as Disks>⟧.out self.new) name.now) }
        ensures others { OnOk result (KeepsOthers name.now (⟦<MemoryDisks as Disks>⟧.stored self.old) (⟦<MemoryDisks as Disks>⟧.out self.old) (⟦<MemoryDisks as Disks>⟧.stored self.new) (⟦<MemoryDisks as Disks>⟧.out self.new)) }
        ensures refused { OnErr result (KeepsAll (⟦<MemoryDisks as Disks>⟧.stored self.old) (⟦<MemoryDisks as Disks>⟧.out self.old) (⟦<MemoryDisks as Disks>⟧.stored self.new) (⟦<MemoryDisks as Disks>⟧.out self.new)) }
        ensures absent { IsErrOf result DisksFault.Absent → IsLacking (⟦<MemoryDisks as Disks>⟧.stored self.old) name.now }
        ensures none_made { is_there (⟦<MemoryDisks as Disks>⟧.stored self.new) name.now ≡ is_there (⟦<MemoryDisks as Disks>⟧.stored self.old) name.now }
        ensures faults { TellsDisks (⟦<MemoryDisks as Disks>⟧.faults self.old) (⟦<MemoryDisks as Disks>⟧.faultless self.old) (⟦<MemoryDisks as Disks>⟧.faults self.new) (⟦<MemoryDisks as Disks>⟧.faultless self.new) (has_failed result ≡ true) }
        ensures faultless { ⟦<MemoryDisks as Disks>⟧.faultless self.old → IfOk result (λ disk. ⟦<MemoryDisk as Disk>⟧.faultless disk) }
        // The call is counted once, and fails exactly where the list has its number.
        ensures listed { CountsCall (calls_of self.old) (has_failed result) (calls_of self.new) }
    {
        if self.fails.fails() {
            return Err(DisksFault::Failed);
        }
        let Some(place) = place_of(&self.disks, name) else {
            return Err(DisksFault::Absent);
        };
        note(alloc, &mut self.out, name)?;
        Ok(exchange(&mut self.disks, place, empty_disk(alloc)))
    }

    fn make(&mut self, alloc: Global, name: &str) -> Result<MemoryDisk, DisksFault>
        requires { IsIn (⟦<MemoryDisks as Disks>⟧.out self.old) name.now }
        ensures reads { IfOk result (λ disk. IfSome (reads_as (⟦<MemoryDisks as Disks>⟧.stored self.old) name.now) (λ file. ⟦<MemoryDisk as Disk>⟧.holds disk ≡ Some file)) }
        ensures handed_out { OnOk result (IsOut (⟦<MemoryDisks as Disks>⟧.out self.new) name.now) }
        ensures others { KeepsOthers name.now (⟦<MemoryDisks as Disks>⟧.stored self.old) (⟦<MemoryDisks as Disks>⟧.out self.old) (⟦<MemoryDisks as Disks>⟧.stored self.new) (⟦<MemoryDisks as Disks>⟧.out self.new) }
        ensures refused { OnErr result ((reads_as (⟦<MemoryDisks as Disks>⟧.stored self.new) name.now ≡ reads_as (⟦<MemoryDisks as Disks>⟧.stored self.old) name.now) × IsIn (⟦<MemoryDisks as Disks>⟧.out self.new) name.now) }
        ensures made { IfErr result (λ fault. fault ≢ DisksFault.Absent) }
        ensures faults { TellsDisks (⟦<MemoryDisks as Disks>⟧.faults self.old) (⟦<MemoryDisks as Disks>⟧.faultless self.old) (⟦<MemoryDisks as Disks>⟧.faults self.new) (⟦<MemoryDisks as Disks>⟧.faultless self.new) (has_failed result ≡ true) }
        ensures faultless { ⟦<MemoryDisks as Disks>⟧.faultless self.old → IfOk result (λ disk. ⟦<MemoryDisk as Disk>⟧.faultless disk) }
        // The call is counted once, and fails exactly where the list has its number.
        ensures listed { CountsCall (calls_of self.old) (has_failed result) (calls_of self.new) }
    {
        if self.fails.fails() {
            return Err(DisksFault::Failed);
        }
        let place = place_for(alloc, &mut self.disks, name)?;
        note(alloc, &mut self.out, name)?;
        Ok(exchange(&mut self.disks, place, empty_disk(alloc)))
    }

    fn look(&mut self, alloc: Global, name: &str) -> Result<Bytes, DisksFault>
        requires { IsIn (⟦<MemoryDisks as Disks>⟧.out self.old) name.now }
        ensures reads { IfOk result (λ bytes. IfSome (reads_as (⟦<MemoryDisks as Disks>⟧.stored self.old) name.now) (λ file. bytes ≡ file)) }
        ensures kept { KeepsAll (⟦<MemoryDisks as Disks>⟧.stored self.old) (⟦<MemoryDisks as Disks>⟧.out self.old) (⟦<MemoryDisks as Disks>⟧.stored self.new) (⟦<MemoryDisks as Disks>⟧.out self.new) }
        ensures absent { IsErrOf result DisksFault.Absent → IsLacking (⟦<MemoryDisks as Disks>⟧.stored self.old) name.now }
        ensures faults { TellsDisks (⟦<MemoryDisks as Disks>⟧.faults self.old) (⟦<MemoryDisks as Disks>⟧.faultless self.old) (⟦<MemoryDisks as Disks>⟧.faults self.new) (⟦<MemoryDisks as Disks>⟧.faultless self.new) (has_failed result ≡ true) }
        // The call is counted once, and fails exactly where the list has its number.
        ensures listed { CountsCall (calls_of self.old) (has_failed result) (calls_of self.new) }
    {
        if self.fails.fails() {
            return Err(DisksFault::Failed);
        }
        match place_of(&self.disks, name) {
            Some(place) => {
                let bytes = Bytes::of(alloc, self.disks[place].1.bytes())?;
                Ok(bytes)
            }
            None => Err(DisksFault::Absent),
        }
    }

    fn give_back(&mut self, name: &str, disk: MemoryDisk) {
        strike(&mut self.out, name);
        if let Some(place) = place_of(&self.disks, name) {
            exchange(&mut self.disks, place, disk);
        }
    }
}
