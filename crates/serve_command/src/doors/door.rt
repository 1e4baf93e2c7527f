//! A door: where connections come in.
ghost use Rattle.std.specs.Prelude.{◌≡◌, ℕ, IfOk, IsOk, IsSome};
ghost use Rattle.mark_base.specs.Streams.{HasCause};

use mark_base::{Failed, Link};

/// Where connections come in, one after another.
///
/// That a door cannot fail, or has no end, is told by its type. So it is known of a door behind a lock too, of which
/// nothing else is.
pub trait Door {
    /// A connection.
    type Link: Link + Send + Drop;

    /// How many calls have failed. The count never falls, and stands still at the type's last value.
    ghost door_faults: { Self → ℕ };

    /// No call of any door of this type fails.
    ghost sure: { Type 0 };

    /// No door of this type ends.
    ghost endless: { Type 0 };

    /// Gives the next connection, or `None` at the end. It may wait for one.
    fn next(&mut self) -> Result<Option<Self::Link>, Failed>
        ensures cause { HasCause (door_faults self.old) (door_faults self.new) result }
        ensures sure { sure → IsOk result }
        ensures endless { endless → IfOk result IsSome };

    /// How many calls have failed; none of a door that cannot fail.
    fn faults(&self) -> u64
        ensures count { result ≡ door_faults self.now }
        ensures sure { sure → result ≡ 0 };
}
