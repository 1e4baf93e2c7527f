//! What gives bytes.
ghost use Rattle.std.specs.Prelude.{◌≡◌, ℕ, List, Option, OnErr};
ghost use Rattle.std.specs.Io.{ReadsAtMost};
ghost use Rattle.std.specs.Io.KnownBytes.{ReadConsumes};
ghost use Rattle.mark_base.specs.Streams.{CountsOne, HasCause};

use crate::Failed;

/// What gives bytes, in pieces of any size.
pub trait Source {
    /// The bytes that are left, where the source tells them.
    ghost left: { Self → Option (List ℕ) };

    /// How many reads have failed. The count never falls, and stands still at the type's last value.
    ghost read_faults: { Self → ℕ };

    /// What a read leaves as it was: in a link, the bytes held and the faults of writing.
    ghost kept_by_read: { Self → Option (List ℕ) × ℕ };

    /// Gives the next bytes, at most as many as there is room. Where there is room, 0 is the end, and
    /// comes exactly where nothing is left. `Failed` leaves what is left as it was, and counts one fault.
    fn read(&mut self, room: &mut [u8]) -> Result<usize, Failed>
        ensures bound { ReadsAtMost result room.new }
        ensures bytes { ReadConsumes (left self.old) (left self.new) result room.new }
        ensures cause { HasCause (read_faults self.old) (read_faults self.new) result }
        ensures once { OnErr result (CountsOne (read_faults self.old) (read_faults self.new)) }
        ensures kept { kept_by_read self.new ≡ kept_by_read self.old };
}
