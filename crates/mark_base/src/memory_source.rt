//! A source in memory, whose calls fail by number.
ghost use Rattle.std.specs.Prelude.{◌≡◌, ◌<◌, ◌≤◌, All, None, OnErr, Some, [], drop, length, min, take};
ghost use Rattle.std.specs.Io.{ReadsAtMost};
ghost use Rattle.std.specs.Io.KnownBytes.{ReadConsumes};
ghost use Rattle.mark_base.specs.PieceSizes.{next_size};
ghost use Rattle.mark_base.specs.Streams.{CountsOne, HasCause};

use crate::{Bytes, FailList, Failed, Source};
use std::alloc::Global;

/// A source in memory.
#[derive(Debug, Drop)]
pub struct MemorySource {
    bytes: Bytes,
    taken: usize,
    fails: FailList,
    sizes: Vec<usize>,
    pieces: usize,
    ghost within: { taken ≤ length bytes },
    ghost sized: { All (λ size. 0 < size) sizes.items },
}

impl MemorySource {
    ghost use Rattle.mark_base.specs.MemoryStreams.{fails_of_reads, sizes_of};

    /// A source of these bytes. The numbers name the calls, from 1, that fail; nothing else does.
    pub fn new(alloc: Global, bytes: Bytes, fails: Vec<u64>) -> Self
        ensures left { ⟦<MemorySource as Source>⟧.left result ≡ Some bytes }
        ensures faults { ⟦<MemorySource as Source>⟧.read_faults result ≡ 0 }
        ensures fails { fails_of_reads result ≡ record { fails = fails.items; calls = 0; faults = 0 } }
        ensures sizes { sizes_of result ≡ [] }
    {
        MemorySource {
            bytes,
            taken: 0,
            fails: FailList::new(fails),
            sizes: Vec::new(alloc),
            pieces: 0,
        }
    }

    /// A source of these bytes that gives them in pieces of at most these sizes, in turn. Bytes past
    /// the sizes come as the room allows.
    pub fn cut_into(alloc: Global, bytes: Bytes, sizes: Vec<usize>) -> Self
        requires { All (λ size. 0 < size) sizes.items }
        ensures left { ⟦<MemorySource as Source>⟧.left result ≡ Some bytes }
        ensures faults { ⟦<MemorySource as Source>⟧.read_faults result ≡ 0 }
        ensures fails { fails_of_reads result ≡ record { fails = []; calls = 0; faults = 0 } }
        ensures sizes { sizes_of result ≡ sizes.items }
    {
        MemorySource {
            bytes,
            taken: 0,
            fails: FailList::new(Vec::new(alloc)),
            sizes,
            pieces: 0,
        }
    }
}

/// Copies the first bytes into the room, at most so many.
fn copy_front(bytes: &[u8], room: &mut [u8], most: usize) -> usize
    ensures count { result ≡ min most (min (length bytes.now) (length room.old)) }
    ensures copied { take result room.new ≡ take result bytes.now }
{
    let count = most.min(bytes.len().min(room.len()));
    room[..count].copy_from_slice(&bytes[..count]);
    count
}

/// The size of a piece; past the sizes a piece has any size.
fn next_size(sizes: &[usize], piece: usize) -> usize
    requires { All (λ size. 0 < size) sizes.now }
    ensures some { 0 < result }
    ensures size { result ≡ next_size (drop piece sizes.now) }
{
    match sizes.get(piece) {
        Some(size) => *size,
        None => usize::MAX,
    }
}

impl Source for MemorySource {
    ghost use Rattle.mark_base.specs.MemoryStreams.{ReadsOnce};

    ghost left = { λ source. Some (drop source.taken source.bytes) };

    ghost read_faults = { λ source. source.fails.faults };

    ghost kept_by_read = { λ source. (None, 0) };

    fn read(&mut self, room: &mut [u8]) -> Result<usize, Failed>
        ensures bound { ReadsAtMost result room.new }
        ensures bytes { ReadConsumes (⟦<MemorySource as Source>⟧.left self.old) (⟦<MemorySource as Source>⟧.left self.new) result room.new }
        ensures cause { HasCause (⟦<MemorySource as Source>⟧.read_faults self.old) (⟦<MemorySource as Source>⟧.read_faults self.new) result }
        ensures once { OnErr result (CountsOne (⟦<MemorySource as Source>⟧.read_faults self.old) (⟦<MemorySource as Source>⟧.read_faults self.new)) }
        ensures kept { ⟦<MemorySource as Source>⟧.kept_by_read self.new ≡ ⟦<MemorySource as Source>⟧.kept_by_read self.old }
        ensures listed { ReadsOnce self.old self.new (length room.old) result }
    {
        if self.fails.fails() {
            return Err(Failed);
        }
        let most = next_size(&self.sizes, self.pieces);
        self.pieces = self.pieces.saturating_add(1);
        let count = copy_front(&self.bytes.items()[self.taken..], room, most);
        self.taken += count;
        Ok(count)
    }
}
