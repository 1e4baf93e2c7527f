//! Disks by name.
ghost use Rattle.std.specs.Prelude.{◌≡◌, ◌≢◌, ℕ, List, Option, Some, true, IfErr, IfOk, IfSome, IsErrOf, OnErr, OnOk};
ghost use Rattle.named_disks.specs.DiskFaults.{has_failed};
ghost use Rattle.named_disks.specs.NamedDisks.{IsIn, IsLacking, IsOut, KeepsAll, KeepsOthers, Stored, TellsDisks, is_there, reads_as};

use mark_base::{Bytes, Memory};
use project_journal::Disk;
use std::alloc::Global;

/// Why a disk was not handed out, or not looked at.
#[derive(Clone, Copy, Debug, PartialEq, Eq)]
pub enum DisksFault {
    /// Nothing has the name.
    Absent,
    /// Another process has the disk of the name, which the disks counted as a fault.
    InUse,
    /// A fault of the device, which it counted.
    Failed,
    /// Out of memory.
    Memory,
}

impl From<Memory> for DisksFault {
    ghost use Rattle.named_disks.specs.declared.disks.DisksFault.TheVariants;

    ghost from_gives = { λ _ fault. fault ≡ TheVariants.Memory };

    fn from(_: Memory) -> Self {
        DisksFault::Memory
    }
}

/// Disks that are handed out by name, each to one holder at a time.
///
/// A name that is not there reads as a disk of length 0, and only `make` makes a disk of it. A disk that is out counts its
/// faults itself; that none of them will fail is told by `faultless`.
pub trait Disks {
    /// A disk of these.
    type Disk: Disk + Send + Drop;

    /// What a read of the disk of each name gives that is not out, where the disks tell it.
    ghost stored: { Self → Option Stored };

    /// The names whose disks are out, where the disks tell them.
    ghost out: { Self → Option (List (List ℕ)) };

    /// How many calls have failed. The count never falls, and stands still at the type's last value.
    ghost faults: { Self → ℕ };

    /// From here on no call fails, and none of a disk that is handed out.
    ghost faultless: { Self → Type 0 };

    /// Hands out the disk of a name that is there and not out. It reads as the disks had it. A refusal leaves all as it was.
    fn disk(&mut self, alloc: Global, name: &str) -> Result<Self::Disk, DisksFault>
        requires { IsIn (out self.old) name.now }
        ensures reads { IfOk result (λ disk. IfSome (reads_as (stored self.old) name.now) (λ file. Self.Disk.holds disk ≡ Some file)) }
        ensures handed_out { OnOk result (IsOut (out self.new) name.now) }
        ensures others { OnOk result (KeepsOthers name.now (stored self.old) (out self.old) (stored self.new) (out self.new)) }
        ensures refused { OnErr result (KeepsAll (stored self.old) (out self.old) (stored self.new) (out self.new)) }
        ensures absent { IsErrOf result DisksFault.Absent → IsLacking (stored self.old) name.now }
        ensures none_made { is_there (stored self.new) name.now ≡ is_there (stored self.old) name.now }
        ensures faults { TellsDisks (faults self.old) (faultless self.old) (faults self.new) (faultless self.new) (has_failed result ≡ true) }
        ensures faultless { faultless self.old → IfOk result (λ disk. Self.Disk.faultless disk) };

    /// The same for a name that may not be there, of which it makes a disk of length 0. It is never `Absent`.
    fn make(&mut self, alloc: Global, name: &str) -> Result<Self::Disk, DisksFault>
        requires { IsIn (out self.old) name.now }
        ensures reads { IfOk result (λ disk. IfSome (reads_as (stored self.old) name.now) (λ file. Self.Disk.holds disk ≡ Some file)) }
        ensures handed_out { OnOk result (IsOut (out self.new) name.now) }
        ensures others { KeepsOthers name.now (stored self.old) (out self.old) (stored self.new) (out self.new) }
        ensures refused { OnErr result ((reads_as (stored self.new) name.now ≡ reads_as (stored self.old) name.now) × IsIn (out self.new) name.now) }
        ensures made { IfErr result (λ fault. fault ≢ DisksFault.Absent) }
        ensures faults { TellsDisks (faults self.old) (faultless self.old) (faults self.new) (faultless self.new) (has_failed result ≡ true) }
        ensures faultless { faultless self.old → IfOk result (λ disk. Self.Disk.faultless disk) };

    /// What the disk of a name that is there and not out reads, at some moment of the call: the disk may be another
    /// process's, which goes on with it. It is not handed out, and no disk changes. Cost: its bytes.
    fn look(&mut self, alloc: Global, name: &str) -> Result<Bytes, DisksFault>
        requires { IsIn (out self.old) name.now }
        ensures reads { IfOk result (λ bytes. IfSome (reads_as (stored self.old) name.now) (λ file. bytes ≡ file)) }
        ensures kept { KeepsAll (stored self.old) (out self.old) (stored self.new) (out self.new) }
        ensures absent { IsErrOf result DisksFault.Absent → IsLacking (stored self.old) name.now }
        ensures faults { TellsDisks (faults self.old) (faultless self.old) (faults self.new) (faultless self.new) (has_failed result ≡ true) };

    /// Takes back the disk of a name that is out. From then on the name stores what the disk reads.
    fn give_back(&mut self, name: &str, disk: Self::Disk)
        requires { IsOut (out self.old) name.now }
        ensures reads { IfSome (reads_as (stored self.new) name.now) (λ file. Self.Disk.holds disk ≡ Some file) }
        ensures taken_back { IsIn (out self.new) name.now }
        ensures others { KeepsOthers name.now (stored self.old) (out self.old) (stored self.new) (out self.new) }
        ensures none_made { is_there (stored self.new) name.now ≡ is_there (stored self.old) name.now }
        ensures faults { faults self.new ≡ faults self.old }
        ensures faultless { faultless self.old → Self.Disk.faultless disk → faultless self.new };
}
