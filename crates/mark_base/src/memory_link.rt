//! A link in memory, whose calls fail by number.
ghost use Rattle.std.specs.Prelude.{◌≡◌, ◌<◌, All, IfOk, None, OnErr, Some, [], drop, length};
ghost use Rattle.std.specs.Io.{ReadsAtMost, WritesAtMost};
ghost use Rattle.std.specs.Io.KnownBytes.{ReadConsumes, WriteAppends};
ghost use Rattle.mark_base.specs.MemoryStreams.{ReadsOnce, WritesOnce, fails_of_reads, fails_of_writes, sink_of, sizes_of, source_of};
ghost use Rattle.mark_base.specs.Streams.{CountsOne, HasCause};

use crate::{Bytes, Failed, Link, MemorySink, MemorySource, Sink, Source};
use std::alloc::Global;

/// A link in memory.
#[derive(Debug, Drop)]
pub struct MemoryLink {
    source: MemorySource,
    sink: MemorySink,
}

impl MemoryLink {
    /// A link with these bytes to read. The numbers name the reads and the writes, from 1, that fail.
    pub fn new(alloc: Global, bytes: Bytes, read_fails: Vec<u64>, write_fails: Vec<u64>) -> Self
        ensures left { ⟦<MemoryLink as Source>⟧.left result ≡ Some bytes }
        ensures held { ⟦<MemoryLink as Sink>⟧.held result ≡ Some [] }
        ensures read_faults { ⟦<MemoryLink as Source>⟧.read_faults result ≡ 0 }
        ensures write_faults { ⟦<MemoryLink as Sink>⟧.write_faults result ≡ 0 }
        ensures reads { fails_of_reads (source_of result) ≡ record { fails = read_fails.items; calls = 0; faults = 0 } }
        ensures sizes { sizes_of (source_of result) ≡ [] }
        ensures writes { fails_of_writes (sink_of result) ≡ record { fails = write_fails.items; calls = 0; faults = 0 } }
    {
        MemoryLink {
            source: MemorySource::new(alloc, bytes, read_fails),
            sink: MemorySink::new(alloc, write_fails),
        }
    }

    /// A link with these bytes to read, which come in pieces of at most these sizes, in turn. Bytes
    /// past the sizes come as the room allows.
    pub fn cut_into(alloc: Global, bytes: Bytes, sizes: Vec<usize>) -> Self
        requires { All (λ size. 0 < size) sizes.items }
        ensures left { ⟦<MemoryLink as Source>⟧.left result ≡ Some bytes }
        ensures held { ⟦<MemoryLink as Sink>⟧.held result ≡ Some [] }
        ensures read_faults { ⟦<MemoryLink as Source>⟧.read_faults result ≡ 0 }
        ensures write_faults { ⟦<MemoryLink as Sink>⟧.write_faults result ≡ 0 }
        ensures reads { fails_of_reads (source_of result) ≡ record { fails = []; calls = 0; faults = 0 } }
        ensures sizes { sizes_of (source_of result) ≡ sizes.items }
        ensures writes { fails_of_writes (sink_of result) ≡ record { fails = []; calls = 0; faults = 0 } }
    {
        MemoryLink {
            source: MemorySource::cut_into(alloc, bytes, sizes),
            sink: MemorySink::new(alloc, Vec::new(alloc)),
        }
    }

    /// The bytes written.
    pub fn written(&self) -> &[u8]
        ensures { ⟦<MemoryLink as Sink>⟧.held self.now ≡ Some result.now }
    {
        self.sink.written()
    }
}

impl Source for MemoryLink {
    ghost left = { λ link. ⟦<MemorySource as Source>⟧.left link.source };

    ghost read_faults = { λ link. ⟦<MemorySource as Source>⟧.read_faults link.source };

    ghost kept_by_read = { λ link. (⟦<MemorySink as Sink>⟧.held link.sink, ⟦<MemorySink as Sink>⟧.write_faults link.sink) };

    fn read(&mut self, room: &mut [u8]) -> Result<usize, Failed>
        ensures bound { ReadsAtMost result room.new }
        ensures bytes { ReadConsumes (⟦<MemoryLink as Source>⟧.left self.old) (⟦<MemoryLink as Source>⟧.left self.new) result room.new }
        ensures cause { HasCause (⟦<MemoryLink as Source>⟧.read_faults self.old) (⟦<MemoryLink as Source>⟧.read_faults self.new) result }
        ensures once { OnErr result (CountsOne (⟦<MemoryLink as Source>⟧.read_faults self.old) (⟦<MemoryLink as Source>⟧.read_faults self.new)) }
        ensures kept { ⟦<MemoryLink as Source>⟧.kept_by_read self.new ≡ ⟦<MemoryLink as Source>⟧.kept_by_read self.old }
        ensures listed { ReadsOnce (source_of self.old) (source_of self.new) (length room.old) result }
    {
        self.source.read(room)
    }
}

impl Sink for MemoryLink {
    ghost held = { λ link. ⟦<MemorySink as Sink>⟧.held link.sink };

    ghost write_faults = { λ link. ⟦<MemorySink as Sink>⟧.write_faults link.sink };

    ghost kept_by_write = { λ link. (⟦<MemorySource as Source>⟧.left link.source, ⟦<MemorySource as Source>⟧.read_faults link.source) };

    fn write(&mut self, piece: &[u8]) -> Result<usize, Failed>
        ensures bound { WritesAtMost result piece.now }
        ensures progress { IfOk result (λ count. 0 < length piece.now → 0 < count) }
        ensures bytes { WriteAppends (⟦<MemoryLink as Sink>⟧.held self.old) (⟦<MemoryLink as Sink>⟧.held self.new) result piece.now }
        ensures cause { HasCause (⟦<MemoryLink as Sink>⟧.write_faults self.old) (⟦<MemoryLink as Sink>⟧.write_faults self.new) result }
        ensures once { OnErr result (CountsOne (⟦<MemoryLink as Sink>⟧.write_faults self.old) (⟦<MemoryLink as Sink>⟧.write_faults self.new)) }
        ensures kept { ⟦<MemoryLink as Sink>⟧.kept_by_write self.new ≡ ⟦<MemoryLink as Sink>⟧.kept_by_write self.old }
        ensures listed { WritesOnce (sink_of self.old) (sink_of self.new) (length piece.now) result }
    {
        self.sink.write(piece)
    }
}

impl Link for MemoryLink {
    ghost use Rattle.std.specs.Prelude.{refl};

    ghost reads_apart = { λ link. refl };

    ghost writes_apart = { λ link. refl };
}
