//! A journal: entries in a file, each whole or not at all after a stop at any moment.
ghost use Rattle.std.specs.Prelude.{◌≡◌, ◌⊎◌, ℕ, ◌+◌, ◌<◌, ◌≤◌, ◌^◌, ◌++◌, [], ◌∷◌, true, false, List, Option, Some, None, length, is_ok, is_some, MatchResult, IfOk, IfErr, OnOk, OnErr, option_map};
ghost use Rattle.std.specs.List.{All};
ghost use Rattle.mark_base.specs.Streams.{TellsFault};
ghost use Rattle.project_journal.specs.declared.journal_fault.JournalFault.TheVariants;
ghost use Rattle.project_journal.specs.Creation.{IsNoneOrWhole};
ghost use Rattle.project_journal.specs.Disk.{Counts, NoMore, OnlyEmpty, SpendsUpTo};
ghost use Rattle.project_journal.specs.JournalFile.{record_of, new_file, opened};
ghost use Rattle.project_journal.specs.Keeper.{IsEntry, IsKeptOrDoubt};
ghost use Rattle.project_journal.specs.Opening.{Refuses, RefusesNew};
ghost use Rattle.project_journal.specs.Settled.{IsSettled, kept_in, kept_by, doubt_by};
ghost use Rattle.project_journal.specs.StopLaws.{stop_now};
ghost use Rattle.project_journal.specs.Stops.{LeavesOnly};

use crate::appending::{fill_record, stage, turn_gate};
use crate::creation::{lay_out_empty, lay_out_entries};
use crate::opening::load;
use crate::{Disk, JournalFault, Keeper, KeeperFault};
use mark_base::{Bytes, Failed};
use std::alloc::Global;

/// Entries in the file of a disk. An entry that was acknowledged is found by every later opening; one
/// that was refused is found whole or not at all, and by none after the next append has succeeded.
///
/// Nobody else may write the file.
#[derive(Drop)]
pub struct Journal<D: Disk> {
    disk: D,
    /// The offset of the last gate.
    gate: u64,
    /// The last append has begun to open the gate, and failed.
    mending: bool,
    /// The record that an append writes, and a closed gate.
    buffer: Vec<u8>,
    ghost small: { gate < 2 ^ 63 },
    ghost settled: { (file : List ℕ) → D.holds disk ≡ Some file → IsSettled (D.images disk) gate mending file },
}

impl<D: Disk + Drop> Journal<D> {
    ghost use Rattle.project_journal.specs.Journals.{disk_of};

    /// Makes an empty journal, of version 1, of an empty file. A refusal gives the disk back; after
    /// `AlreadyThere` and `Memory` its file is as it was.
    pub fn create(alloc: Global, disk: D) -> Result<Journal<D>, (D, JournalFault)>
        ensures kept { IfOk result (λ j. ⟦<Journal<D> as Keeper>⟧.kept j ≡ option_map (λ _. []) (D.holds disk)) }
        ensures no_doubt { IfOk result (λ j. ⟦<Journal<D> as Keeper>⟧.doubt j ≡ None) }
        ensures file { IfOk result (λ j. D.holds (disk_of j) ≡ option_map (λ _. new_file 1 []) (D.holds disk)) }
        ensures found { IfOk result (λ j. (image : List ℕ) → D.images (disk_of j) image → opened image ≡ Some []) }

        // The length is 0 exactly where that is no reason to refuse.
        ensures empty { OnOk result ((file : List ℕ) → D.holds disk ≡ Some file → file ≡ []) }
        ensures refused { IfErr result (λ e. RefusesNew (D.holds disk) e.1) }
        ensures already { IfErr result (λ e. (n : ℕ) → e.1 ≡ TheVariants.AlreadyThere n → (D.holds e.0 ≡ D.holds disk) × NoMore (D.images disk) (D.images e.0)) }
        ensures memory { IfErr result (λ e. e.1 ≡ TheVariants.Memory → (D.holds e.0 ≡ D.holds disk) × NoMore (D.images disk) (D.images e.0)) }
        ensures later { MatchResult result (λ j. D.faults disk ≤ D.faults (disk_of j)) (λ e. D.faults disk ≤ D.faults e.0) }
        ensures still { IfOk result (λ j. D.faults (disk_of j) ≡ D.faults disk) }
        ensures cause { IfErr result (λ e. TellsFault (e.1 ≡ TheVariants.Disk) (D.faults disk) (D.faults e.0)) }
        ensures faultless { D.faultless disk → MatchResult result (λ j. ⟦<Journal<D> as Keeper>⟧.faultless j × (D.faults (disk_of j) ≡ D.faults disk)) (λ e. D.faultless e.0 × (D.faults e.0 ≡ D.faults disk) × (e.1 ≡ TheVariants.Disk → ⊥)) }
    {
        let mut disk = disk;
        match lay_out_empty(&mut disk) {
            Ok(()) => Ok(Journal {
                disk,
                gate: 16,
                mending: false,
                buffer: Vec::new(alloc),
            }),
            Err(fault) => Err((disk, fault)),
        }
    }

    /// Makes a journal, of version 2, of an empty file, with these entries, each of 1 to 16,777,216
    /// bytes. A refusal gives the disk back; after `AlreadyThere` and `Memory` its file is as it was. Where a
    /// crash before the call could leave nothing but an empty file, a stop leaves a file that is no journal,
    /// or all the entries.
    pub fn create_with(
        alloc: Global,
        disk: D,
        entries: &[Bytes],
    ) -> Result<Journal<D>, (D, JournalFault)>
        requires { All IsEntry entries.now }
        ensures kept { IfOk result (λ j. ⟦<Journal<D> as Keeper>⟧.kept j ≡ option_map (λ _. entries.now) (D.holds disk)) }
        ensures no_doubt { IfOk result (λ j. ⟦<Journal<D> as Keeper>⟧.doubt j ≡ None) }
        ensures file { IfOk result (λ j. D.holds (disk_of j) ≡ option_map (λ _. new_file 2 entries.now) (D.holds disk)) }
        ensures found { IfOk result (λ j. (image : List ℕ) → D.images (disk_of j) image → opened image ≡ Some entries.now) }

        ensures empty { OnOk result ((file : List ℕ) → D.holds disk ≡ Some file → file ≡ []) }
        ensures refused { IfErr result (λ e. RefusesNew (D.holds disk) e.1) }
        ensures already { IfErr result (λ e. (n : ℕ) → e.1 ≡ TheVariants.AlreadyThere n → (D.holds e.0 ≡ D.holds disk) × NoMore (D.images disk) (D.images e.0)) }
        ensures memory { IfErr result (λ e. e.1 ≡ TheVariants.Memory → (D.holds e.0 ≡ D.holds disk) × NoMore (D.images disk) (D.images e.0)) }
        ensures any_moment { OnlyEmpty (D.images disk) → MatchResult result (λ j. LeavesOnly D.moment D.left_since disk (disk_of j) (IsNoneOrWhole entries.now)) (λ e. LeavesOnly D.moment D.left_since disk e.0 (IsNoneOrWhole entries.now)) }
        ensures later { MatchResult result (λ j. D.faults disk ≤ D.faults (disk_of j)) (λ e. D.faults disk ≤ D.faults e.0) }
        ensures still { IfOk result (λ j. D.faults (disk_of j) ≡ D.faults disk) }
        ensures cause { IfErr result (λ e. TellsFault (e.1 ≡ TheVariants.Disk) (D.faults disk) (D.faults e.0)) }
        ensures faultless { D.faultless disk → MatchResult result (λ j. ⟦<Journal<D> as Keeper>⟧.faultless j × (D.faults (disk_of j) ≡ D.faults disk)) (λ e. D.faultless e.0 × (D.faults e.0 ≡ D.faults disk) × (e.1 ≡ TheVariants.Disk → ⊥)) }
    {
        let mut disk = disk;
        match lay_out_entries(alloc, &mut disk, entries) {
            Ok(gate) => Ok(Journal {
                disk,
                gate,
                mending: false,
                buffer: Vec::new(alloc),
            }),
            Err(fault) => Err((disk, fault)),
        }
    }

    /// Opens a file that a stop may have left, and gives its entries. A refusal gives the disk back, with
    /// its file as it was, but for `Disk`: after a sync that failed a read may give another of the
    /// contents that a crash could have left. Cost: the length of the file, in time and twice in memory.
    pub fn open(alloc: Global, disk: D) -> Result<(Journal<D>, Vec<Bytes>), (D, JournalFault)>
        ensures entries { IfOk result (λ r. (file : List ℕ) → D.holds disk ≡ Some file → opened file ≡ Some r.1.items) }
        ensures kept { IfOk result (λ r. ⟦<Journal<D> as Keeper>⟧.kept r.0 ≡ option_map (λ _. r.1.items) (D.holds disk)) }
        ensures no_doubt { IfOk result (λ r. ⟦<Journal<D> as Keeper>⟧.doubt r.0 ≡ None) }
        ensures found { IfOk result (λ r. (image : List ℕ) → D.images (disk_of r.0) image → opened image ≡ Some r.1.items) }
        ensures refused { IfErr result (λ e. (file : List ℕ) → D.holds disk ≡ Some file → (e.1 ≡ TheVariants.Disk) ⊎ Refuses file e.1) }
        ensures opens_no_other { IfErr result (λ e. (n : ℕ) → e.1 ≡ TheVariants.AlreadyThere n → ⊥) }
        ensures sound { IfErr result (λ e. (file : List ℕ) (entries : List (List ℕ)) → D.holds disk ≡ Some file → opened file ≡ Some entries → (e.1 ≡ TheVariants.Disk) ⊎ (e.1 ≡ TheVariants.Memory)) }

        // Over what a stop left of a journal it gives a list that the journal tells as left.
        ensures after_stop { IfOk result (λ r. (stopped : Self D ⟦<D as Disk>⟧) (t : ℕ) (image : List ℕ) → D.left_since (disk_of stopped) t image → D.holds disk ≡ Some image
            → ⟦<Journal<D> as Keeper>⟧.left_since stopped t (Some r.1.items)) }
        ensures sized { IfOk result (λ r. All IsEntry r.1.items) }
        ensures holds { MatchResult result (λ r. D.holds (disk_of r.0) ≡ D.holds disk) (λ e. (e.1 ≡ TheVariants.Disk → ⊥) → D.holds e.0 ≡ D.holds disk) }
        ensures told { MatchResult result (λ r. is_some (D.holds (disk_of r.0)) ≡ is_some (D.holds disk)) (λ e. is_some (D.holds e.0) ≡ is_some (D.holds disk)) }
        ensures images { MatchResult result (λ r. NoMore (D.images disk) (D.images (disk_of r.0))) (λ e. NoMore (D.images disk) (D.images e.0)) }
        ensures any_moment { MatchResult result (λ r. LeavesOnly D.moment D.left_since disk (disk_of r.0) (D.images disk)) (λ e. LeavesOnly D.moment D.left_since disk e.0 (D.images disk)) }
        ensures later { MatchResult result (λ r. D.faults disk ≤ D.faults (disk_of r.0)) (λ e. D.faults disk ≤ D.faults e.0) }

        // No call of the disk failed: a file whose sync failed is not opened.
        ensures still { IfOk result (λ r. D.faults (disk_of r.0) ≡ D.faults disk) }
        ensures cause { IfErr result (λ e. TellsFault (e.1 ≡ TheVariants.Disk) (D.faults disk) (D.faults e.0)) }
        ensures faultless { D.faultless disk → MatchResult result (λ r. ⟦<Journal<D> as Keeper>⟧.faultless r.0 × (D.faults (disk_of r.0) ≡ D.faults disk)) (λ e. D.faultless e.0 × (D.faults e.0 ≡ D.faults disk) × (e.1 ≡ TheVariants.Disk → ⊥)) }
    {
        let mut disk = disk;
        match load(alloc, &mut disk) {
            Ok(contents) => Ok((
                Journal {
                    disk,
                    gate: contents.gate,
                    mending: false,
                    buffer: Vec::new(alloc),
                },
                contents.entries,
            )),
            Err(fault) => Err((disk, fault)),
        }
    }

    /// States what a journal promises of its disk. It does nothing when it runs.
    pub fn keeps(&self)
        ensures faults { ⟦<Journal<D> as Keeper>⟧.faults self.now ≡ D.faults (disk_of self.now) }
        ensures moment { ⟦<Journal<D> as Keeper>⟧.moment self.now ≡ D.moment (disk_of self.now) }
        ensures faultless { ⟦<Journal<D> as Keeper>⟧.faultless self.now → D.faultless (disk_of self.now) }
        // A journal whose disk cannot fail has nothing to mend.
        ensures certain { ⟦<Journal<D> as Keeper>⟧.faultless self.now → ⟦<Journal<D> as Keeper>⟧.doubt self.now ≡ None }

        // What a stop left of the disk opens to what it left of the journal, also where it does not open.
        ensures stops { (t : ℕ) (image : List ℕ) → D.left_since (disk_of self.now) t image → ⟦<Journal<D> as Keeper>⟧.left_since self.now t (opened image) }
        ensures images { (t : ℕ) (found : Option (List (List ℕ))) → ⟦<Journal<D> as Keeper>⟧.left_since self.now t found
            → (image : List ℕ) × D.left_since (disk_of self.now) t image × (opened image ≡ found) }
    {
        let _ = &self.disk;
    }

    /// Gives the disk up.
    pub fn into_disk(self) -> D
        ensures disk { result ≡ disk_of self }
        ensures opens { (entries : List (List ℕ)) (file : List ℕ) → ⟦<Journal<D> as Keeper>⟧.kept self ≡ Some entries → D.holds result ≡ Some file
            → IsKeptOrDoubt entries (⟦<Journal<D> as Keeper>⟧.doubt self) (opened file) }
    {
        self.disk
    }

    /// Closes the gate for good, where the last append may have opened it.
    fn mend(&mut self) -> Result<(), Failed>
        requires spare { 2 ≤ D.spare self.old.disk }
        requires reach { self.old.gate + 1 ≤ D.reach self.old.disk }

        ensures gate { self.new.gate ≡ self.old.gate }
        ensures buffer { self.new.buffer.items ≡ self.old.buffer.items }
        ensures mended { OnOk result (self.new.mending ≡ false) }
        ensures kept { kept_by (D.holds self.new.disk) self.new.gate ≡ kept_by (D.holds self.old.disk) self.old.gate }
        ensures doubt { OnErr result (doubt_by (D.holds self.new.disk) self.new.gate self.new.mending ≡ doubt_by (D.holds self.old.disk) self.old.gate self.old.mending) }
        ensures any_moment { (file : List ℕ) → D.holds self.old.disk ≡ Some file
            → LeavesOnly D.moment D.left_since self.old.disk self.new.disk
            (λ image. IsKeptOrDoubt (kept_in self.old.gate file) (doubt_by (Some file) self.old.gate self.old.mending) (opened image)) }
        ensures spends { SpendsUpTo 2 (D.spare self.old.disk) (D.spare self.new.disk) (D.reach self.old.disk) (D.reach self.new.disk) }
        ensures counts { Counts (D.faults self.old.disk) (D.faults self.new.disk) (D.faultless self.old.disk) (D.faultless self.new.disk) (is_ok result) }
    {
        if self.mending {
            turn_gate(&mut self.disk, self.gate, 0)?;
            self.mending = false;
        }
        Ok(())
    }

    /// Writes the entry's record behind the closed gate, and then opens the gate.
    fn add(&mut self, entry: &[u8]) -> Result<(), Failed>
        requires entry { IsEntry entry.now }
        requires buffer { self.old.buffer.items ≡ record_of entry.now ++ 0 ∷ [] }
        requires closed { self.old.mending ≡ false }
        requires spare { 4 ≤ D.spare self.old.disk }
        requires reach { self.old.gate + length entry.now + 6 ≤ D.reach self.old.disk }
        requires below { self.old.gate + length entry.now + 6 < 2 ^ 63 }

        ensures added { OnOk result (kept_by (D.holds self.new.disk) self.new.gate ≡ option_map (λ entries. entries ++ entry.now ∷ []) (kept_by (D.holds self.old.disk) self.old.gate)) }
        ensures refused { OnErr result (kept_by (D.holds self.new.disk) self.new.gate ≡ kept_by (D.holds self.old.disk) self.old.gate) }
        ensures closed { OnOk result (self.new.mending ≡ false) }
        ensures doubt { OnErr result ((doubt_by (D.holds self.new.disk) self.new.gate self.new.mending ≡ None) ⊎ (doubt_by (D.holds self.new.disk) self.new.gate self.new.mending ≡ Some entry.now)) }
        ensures any_moment { (file : List ℕ) → D.holds self.old.disk ≡ Some file
            → LeavesOnly D.moment D.left_since self.old.disk self.new.disk
            (λ image. IsKeptOrDoubt (kept_in self.old.gate file) (Some entry.now) (opened image)) }
        ensures counts { Counts (D.faults self.old.disk) (D.faults self.new.disk) (D.faultless self.old.disk) (D.faultless self.new.disk) (is_ok result) }
    {
        stage(&mut self.disk, self.gate, self.buffer.as_slice())?;
        self.mending = true;
        turn_gate(&mut self.disk, self.gate, 1)?;
        self.mending = false;
        self.gate += entry.len() as u64 + 5;
        Ok(())
    }
}

impl<D: Disk + Drop> Keeper for Journal<D> {
    ghost kept = { λ j. kept_by (D.holds j.disk) j.gate };

    ghost doubt = { λ j. doubt_by (D.holds j.disk) j.gate j.mending };

    ghost moment = { λ j. D.moment j.disk };

    ghost left_since = { λ j t found. (image : List ℕ) × D.left_since j.disk t image × (opened image ≡ found) };

    ghost faults = { λ j. D.faults j.disk };

    ghost faultless = { λ j. D.faultless j.disk × (j.mending ≡ false) };

    ghost left_now = { λ j entries found kept left. stop_now (D.images j.disk) (D.holds j.disk) j.gate j.mending j.settled entries found kept
        (left.0, D.only_now j.disk left.0 left.1, left.2) };

    fn append(&mut self, entry: &[u8]) -> Result<(), KeeperFault> {
        fill_record(&mut self.buffer, entry)?;
        self.disk.reserve(6, self.gate + entry.len() as u64 + 6)?;
        self.mend()?;
        self.add(entry)?;
        Ok(())
    }
}
