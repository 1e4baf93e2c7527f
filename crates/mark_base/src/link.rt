//! A source and a sink in one.
ghost use Rattle.std.specs.Prelude.{◌≡◌, ◌<◌, length, IfOk, OnOk, OnErr};
ghost use Rattle.std.specs.Io.{ReadsAtMost, WritesAtMost};
ghost use Rattle.std.specs.Io.KnownBytes.{Appends, ReadConsumes, WriteAppends};
ghost use Rattle.mark_base.specs.Streams.{AppendsFront, CountsOne, HasCause, OnlyReads, OnlyWrites};

use crate::{Failed, Sink, Source, write_all};

/// A source and a sink in one, as a connection is. The two laws say that neither side moves the other.
pub trait Link: Source + Sink {
    /// A read leaves the sink as it was.
    ghost reads_apart: { (link : Self) → Self.kept_by_read link ≡ (Self.held link, Self.write_faults link) };

    /// A write leaves the source as it was.
    ghost writes_apart: { (link : Self) → Self.kept_by_write link ≡ (Self.left link, Self.read_faults link) };
}

/// Reads from a link, as [`Source::read`] does. What was written stays as it was.
pub fn receive<L: Link>(link: &mut L, room: &mut [u8]) -> Result<usize, Failed>
    ensures bound { ReadsAtMost result room.new }
    ensures bytes { ReadConsumes (L.left link.old) (L.left link.new) result room.new }
    ensures cause { HasCause (L.read_faults link.old) (L.read_faults link.new) result }
    ensures once { OnErr result (CountsOne (L.read_faults link.old) (L.read_faults link.new)) }
    ensures apart { OnlyReads L.held L.write_faults L.read_faults link.old link.new }
{
    link.read(room)
}

/// Writes to a link, as [`Sink::write`] does. What is left to read stays as it was.
pub fn send<L: Link>(link: &mut L, piece: &[u8]) -> Result<usize, Failed>
    ensures bound { WritesAtMost result piece.now }
    ensures progress { IfOk result (λ count. 0 < length piece.now → 0 < count) }
    ensures bytes { WriteAppends (L.held link.old) (L.held link.new) result piece.now }
    ensures cause { HasCause (L.write_faults link.old) (L.write_faults link.new) result }
    ensures once { OnErr result (CountsOne (L.write_faults link.old) (L.write_faults link.new)) }
    ensures apart { OnlyWrites L.left L.read_faults L.write_faults link.old link.new }
{
    link.write(piece)
}

/// Writes the whole piece to a link, as [`write_all`] does. What is left to read stays as it was.
pub fn send_all<L: Link>(link: &mut L, piece: &[u8]) -> Result<(), Failed>
    ensures whole { OnOk result (Appends (L.held link.old) (L.held link.new) piece.now) }
    ensures front { OnErr result (AppendsFront (L.held link.old) (L.held link.new) piece.now) }
    ensures cause { HasCause (L.write_faults link.old) (L.write_faults link.new) result }
    ensures once { OnErr result (CountsOne (L.write_faults link.old) (L.write_faults link.new)) }
    ensures apart { OnlyWrites L.left L.read_faults L.write_faults link.old link.new }
{
    write_all(link, piece)
}
