//! A disk: one file with positioned calls, and what a crash may leave of it.
ghost use Rattle.std.specs.Prelude.{◌≡◌, ℕ, ◌+◌, ◌<◌, ◌≤◌, ◌^◌, ◌++◌, true, List, Option, Some, length, take, drop, is_ok, is_some, IfOk, OnOk};
ghost use Rattle.project_journal.specs.Disk.{written, Torn, Resized, Follows, NoMore, Durable, Changes, Counts, Spends};
ghost use Rattle.project_journal.specs.Stops.{Elapses};

use mark_base::{Failed, Memory};

/// One file, with calls at offsets, which counts its faults and says what a crash may leave.
///
/// Offsets and lengths are in bytes, from 0. `Failed` comes only where the count of faults rose. Memory
/// for calls is taken by [`Disk::reserve`] alone: each other call needs one reserved call, takes up at
/// most one, and takes no memory.
///
/// The crash model: between two syncs each written range and the part past the old end may hold any
/// bytes, and other bytes stay. After a sync that succeeds a crash leaves what a read gives. A call that
/// failed may have done a part of its work. A sync that failed makes nothing durable and adds no image,
/// and what a read gives after it is some image, not always what it gave before: a system may drop the
/// bytes that it could not write.
pub trait Disk {
    /// What a read gives, where the disk tells it.
    ghost holds: { Self → Option (List ℕ) };

    /// What a crash now may leave. A disk that does not tell what a read gives has no image here.
    ghost images: { Self → List ℕ → Type 0 };

    /// The moment, as a number that never falls.
    ghost moment: { Self → ℕ };

    /// What a crash at some moment since that one may have left, inside a call too.
    ghost left_since: { Self → ℕ → List ℕ → Type 0 };

    /// How many calls have failed. The count never falls, and stands still at the type's last value.
    ghost faults: { Self → ℕ };

    /// From here on no call fails.
    ghost faultless: { Self → Type 0 };

    /// How many calls can be made without memory.
    ghost spare: { Self → ℕ };

    /// How long the file can become without memory.
    ghost reach: { Self → ℕ };

    /// Takes the memory for so many calls, and for a file of that length. `Memory` leaves the file as it
    /// was.
    fn reserve(&mut self, calls: u32, end: u64) -> Result<(), Memory>
        ensures spare { OnOk result (calls ≤ spare self.new) }
        ensures reach { OnOk result (end ≤ reach self.new) }
        ensures below { OnOk result (end < 2 ^ 63) }
        ensures spare_kept { spare self.old ≤ spare self.new }
        ensures reach_kept { reach self.old ≤ reach self.new }
        ensures holds { holds self.new ≡ holds self.old }
        ensures images { NoMore (images self.old) (images self.new) }
        ensures time { Elapses (moment self.old) (moment self.new) (left_since self.old) (left_since self.new) (images self.new) }
        ensures faults { faults self.new ≡ faults self.old }
        ensures faultless { faultless self.old → faultless self.new };

    /// The length of the file.
    fn len(&mut self) -> Result<u64, Failed>
        requires { 1 ≤ spare self.old }
        ensures below { IfOk result (λ n. n < 2 ^ 63) }
        ensures told { IfOk result (λ n. (file : List ℕ) → holds self.old ≡ Some file → n ≡ length file) }
        ensures holds { holds self.new ≡ holds self.old }
        ensures images { NoMore (images self.old) (images self.new) }
        ensures spends { Spends (spare self.old) (spare self.new) (reach self.old) (reach self.new) }
        ensures time { Elapses (moment self.old) (moment self.new) (left_since self.old) (left_since self.new) (images self.new) }
        ensures counts { Counts (faults self.old) (faults self.new) (faultless self.old) (faultless self.new) (is_ok result) };

    /// Gives the bytes from that offset on, at most as many as there is room. Where there is room, 0 is
    /// the end of the file.
    fn read(&mut self, at: u64, room: &mut [u8]) -> Result<usize, Failed>
        requires { 1 ≤ spare self.old }
        ensures within { IfOk result (λ n. n ≤ length room.old) }
        ensures told { IfOk result (λ n. (file : List ℕ) → holds self.old ≡ Some file
            → (take n room.new ≡ take n (drop at file)) × (n ≤ length (drop at file)) × (at < length file → 0 < length room.old → 0 < n)) }
        ensures holds { holds self.new ≡ holds self.old }
        ensures images { NoMore (images self.old) (images self.new) }
        ensures spends { Spends (spare self.old) (spare self.new) (reach self.old) (reach self.new) }
        ensures time { Elapses (moment self.old) (moment self.new) (left_since self.old) (left_since self.new) (images self.new) }
        ensures counts { Counts (faults self.old) (faults self.new) (faultless self.old) (faultless self.new) (is_ok result) };

    /// Writes the whole piece over what is there, and past the end. `Failed` may have changed the range.
    fn write_at(&mut self, at: u64, piece: &[u8]) -> Result<(), Failed>
        requires spare { 1 ≤ spare self.old }
        requires reach { at + length piece.now ≤ reach self.old }
        ensures written { OnOk result ((file : List ℕ) → holds self.old ≡ Some file → at ≤ length file → holds self.new ≡ Some (written file at piece.now)) }

        // Past the end nothing is known of the bytes between the old end and the piece.
        ensures gap { OnOk result ((file : List ℕ) → holds self.old ≡ Some file → length file ≤ at
            → (front : List ℕ) × (holds self.new ≡ Some (front ++ piece.now)) × (length front ≡ at) × (take (length file) front ≡ file)) }
        ensures told { is_some (holds self.new) ≡ is_some (holds self.old) }
        ensures changes { Changes (Torn at (length piece.now)) (holds self.old) (holds self.new) }
        ensures images { Follows (Torn at (length piece.now)) (images self.old) (images self.new) }
        ensures spends { Spends (spare self.old) (spare self.new) (reach self.old) (reach self.new) }
        ensures time { Elapses (moment self.old) (moment self.new) (left_since self.old) (left_since self.new) (images self.new) }
        ensures counts { Counts (faults self.old) (faults self.new) (faultless self.old) (faultless self.new) (is_ok result) };

    /// Changes the length. Bytes past the old end may be any. `Failed` may have changed the length too.
    fn cut(&mut self, len: u64) -> Result<(), Failed>
        requires spare { 1 ≤ spare self.old }
        requires reach { len ≤ reach self.old }
        ensures length { OnOk result ((file : List ℕ) → holds self.new ≡ Some file → length file ≡ len) }
        ensures resized { OnOk result ((file : List ℕ) → holds self.old ≡ Some file → len ≤ length file → holds self.new ≡ Some (take len file)) }
        ensures told { is_some (holds self.new) ≡ is_some (holds self.old) }
        ensures changes { Changes (Resized len) (holds self.old) (holds self.new) }
        ensures images { Follows (Resized len) (images self.old) (images self.new) }
        ensures spends { Spends (spare self.old) (spare self.new) (reach self.old) (reach self.new) }
        ensures time { Elapses (moment self.old) (moment self.new) (left_since self.old) (left_since self.new) (images self.new) }
        ensures counts { Counts (faults self.old) (faults self.new) (faultless self.old) (faultless self.new) (is_ok result) };

    /// Makes what a read gives the only thing that a crash can leave. After `Failed` a read may give any
    /// of the images that there were.
    fn sync(&mut self) -> Result<(), Failed>
        requires { 1 ≤ spare self.old }
        ensures durable { OnOk result (Durable (holds self.new) (images self.new)) }
        ensures holds { OnOk result (holds self.new ≡ holds self.old) }
        ensures told { is_some (holds self.new) ≡ is_some (holds self.old) }
        ensures images { NoMore (images self.old) (images self.new) }
        ensures spends { Spends (spare self.old) (spare self.new) (reach self.old) (reach self.new) }
        ensures time { Elapses (moment self.old) (moment self.new) (left_since self.old) (left_since self.new) (images self.new) }
        ensures counts { Counts (faults self.old) (faults self.new) (faultless self.old) (faultless self.new) (is_ok result) };

    /// What a read gives is one of the images.
    ghost read_is_image: { (disk : Self) (file : List ℕ) → holds disk ≡ Some file → images disk file };

    /// There are images only where the disk tells what a read gives.
    ghost images_told: { (disk : Self) (image : List ℕ) → images disk image → is_some (holds disk) ≡ true };

    /// This moment is one of those since an earlier one.
    ghost counts_now: { (disk : Self) (t : ℕ) (image : List ℕ) → t ≤ moment disk → images disk image → left_since disk t image };

    /// Since this moment there is no other.
    ghost only_now: { (disk : Self) (image : List ℕ) → left_since disk (moment disk) image → images disk image };
}
