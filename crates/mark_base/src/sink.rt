//! What takes bytes.
ghost use Rattle.std.specs.Prelude.{◌≡◌, ℕ, ◌<◌, List, length, Option, IfOk, OnOk, OnErr};
ghost use Rattle.std.specs.Io.{WritesAtMost};
ghost use Rattle.std.specs.Io.KnownBytes.{Appends, WriteAppends};
ghost use Rattle.mark_base.specs.Streams.{AppendsFront, CountsOne, HasCause};

use crate::Failed;

/// What takes bytes, in pieces of any size.
pub trait Sink {
    /// The bytes that the sink has taken, where it tells them.
    ghost held: { Self → Option (List ℕ) };

    /// How many writes have failed. The count never falls, and stands still at the type's last value.
    ghost write_faults: { Self → ℕ };

    /// What a write leaves as it was: in a link, the bytes left and the faults of reading.
    ghost kept_by_write: { Self → Option (List ℕ) × ℕ };

    /// Takes the first bytes of the piece, at least one where there is one. `Failed` leaves what is
    /// held as it was, and counts one fault.
    fn write(&mut self, piece: &[u8]) -> Result<usize, Failed>
        ensures bound { WritesAtMost result piece.now }
        ensures progress { IfOk result (λ count. 0 < length piece.now → 0 < count) }
        ensures bytes { WriteAppends (held self.old) (held self.new) result piece.now }
        ensures cause { HasCause (write_faults self.old) (write_faults self.new) result }
        ensures once { OnErr result (CountsOne (write_faults self.old) (write_faults self.new)) }
        ensures kept { kept_by_write self.new ≡ kept_by_write self.old };
}

/// Writes the whole piece. `Failed` leaves a front of it written.
pub fn write_all<K: Sink>(sink: &mut K, piece: &[u8]) -> Result<(), Failed>
    ensures whole { OnOk result (Appends (K.held sink.old) (K.held sink.new) piece.now) }
    ensures front { OnErr result (AppendsFront (K.held sink.old) (K.held sink.new) piece.now) }
    ensures cause { HasCause (K.write_faults sink.old) (K.write_faults sink.new) result }
    ensures once { OnErr result (CountsOne (K.write_faults sink.old) (K.write_faults sink.new)) }
    ensures kept { K.kept_by_write sink.new ≡ K.kept_by_write sink.old }
{
    let mut done = 0;
    while done < piece.len() {
        match sink.write(&piece[done..]) {
            Ok(count) => done += count,
            Err(failed) => return Err(failed),
        }
    }
    Ok(())
}
