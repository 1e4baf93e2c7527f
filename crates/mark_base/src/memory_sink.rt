//! A sink in memory, whose calls fail by number.
ghost use Rattle.std.specs.Prelude.{◌≡◌, ◌<◌, IfOk, None, OnErr, Some, [], length};
ghost use Rattle.std.specs.Io.{WritesAtMost};
ghost use Rattle.std.specs.Io.KnownBytes.{WriteAppends};
ghost use Rattle.mark_base.specs.MemoryStreams.{WritesOnce, fails_of_writes};
ghost use Rattle.mark_base.specs.Streams.{CountsOne, HasCause};

use crate::{FailList, Failed, Sink};
use std::alloc::Global;

/// A sink in memory.
#[derive(Debug, Drop)]
pub struct MemorySink {
    written: Vec<u8>,
    fails: FailList,
}

impl MemorySink {
    /// An empty sink. The numbers name the calls, from 1, that fail. A growth that is refused is a
    /// fault of its write as well, and is counted.
    pub fn new(alloc: Global, fails: Vec<u64>) -> Self
        ensures held { ⟦<MemorySink as Sink>⟧.held result ≡ Some [] }
        ensures faults { ⟦<MemorySink as Sink>⟧.write_faults result ≡ 0 }
        ensures fails { fails_of_writes result ≡ record { fails = fails.items; calls = 0; faults = 0 } }
    {
        MemorySink {
            written: Vec::new(alloc),
            fails: FailList::new(fails),
        }
    }

    /// The bytes written.
    pub fn written(&self) -> &[u8]
        ensures { ⟦<MemorySink as Sink>⟧.held self.now ≡ Some result.now }
    {
        self.written.as_slice()
    }
}

impl Sink for MemorySink {
    ghost held = { λ sink. Some sink.written.items };

    ghost write_faults = { λ sink. sink.fails.faults };

    ghost kept_by_write = { λ sink. (None, 0) };

    fn write(&mut self, piece: &[u8]) -> Result<usize, Failed>
        ensures bound { WritesAtMost result piece.now }
        ensures progress { IfOk result (λ count. 0 < length piece.now → 0 < count) }
        ensures bytes { WriteAppends (⟦<MemorySink as Sink>⟧.held self.old) (⟦<MemorySink as Sink>⟧.held self.new) result piece.now }
        ensures cause { HasCause (⟦<MemorySink as Sink>⟧.write_faults self.old) (⟦<MemorySink as Sink>⟧.write_faults self.new) result }
        ensures once { OnErr result (CountsOne (⟦<MemorySink as Sink>⟧.write_faults self.old) (⟦<MemorySink as Sink>⟧.write_faults self.new)) }
        ensures kept { ⟦<MemorySink as Sink>⟧.kept_by_write self.new ≡ ⟦<MemorySink as Sink>⟧.kept_by_write self.old }
        ensures listed { WritesOnce self.old self.new (length piece.now) result }
    {
        if self.fails.fails() {
            return Err(Failed);
        }
        if self.written.extend_from_slice(piece).is_err() {
            self.fails.count_fault();
            return Err(Failed);
        }
        Ok(piece.len())
    }
}
