//! What hands out a door for a port.
ghost use Rattle.std.specs.Prelude.{◌≡◌, ◌+◌, ◌<◌, ℕ, Option, Some, OnErr, OnOk};
ghost use Rattle.mark_base.specs.Streams.{CountsOne, HasCause, TellsFault};

use crate::doors::door::Door;
use mark_base::Failed;

/// What hands out a door for a port, as the system does, and takes it back. So what a door counted while it was out is
/// told of these.
pub trait Doors {
    /// A door of these.
    type Door: Door + Send + Drop;

    /// How many calls have failed, and how many doors came back that had counted a fault. The count never falls, and
    /// stands still at the type's last value.
    ghost doors_faults: { Self → ℕ };

    /// How many doors were handed out.
    ghost handed: { Self → ℕ };

    /// How many came back. The count stands still at the type's last value.
    ghost taken: { Self → ℕ };

    /// The port that was asked for last, where one was.
    ghost asked: { Self → Option ℕ };

    /// Gives the door of a port.
    fn door(&mut self, port: u16) -> Result<Self::Door, Failed>
        ensures cause { HasCause (doors_faults self.old) (doors_faults self.new) result }
        ensures handed { OnOk result (handed self.new ≡ handed self.old + 1) }
        ensures same { OnErr result (handed self.new ≡ handed self.old) }
        ensures taken { taken self.new ≡ taken self.old }
        ensures asked { asked self.new ≡ Some port };

    /// Takes a door back. It is a fault where that one has counted any.
    fn give_back(&mut self, door: Self::Door)
        ensures cause { TellsFault (0 < Self.Door.door_faults door) (doors_faults self.old) (doors_faults self.new) }
        ensures handed { handed self.new ≡ handed self.old }
        ensures taken { CountsOne (taken self.old) (taken self.new) }
        ensures asked { asked self.new ≡ asked self.old };
}
