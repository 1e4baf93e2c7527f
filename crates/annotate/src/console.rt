//! Standard input and output as a link.
ghost use Rattle.std.specs.Prelude.{◌≡◌, ◌≤◌, length, None};

use mark_base::{Failed, Link, Sink, Source};
use std::io::{Read, Write};

/// A link that reads from a reader and writes to a writer, as from standard input and to standard
/// output. It tells nothing of what they give and take. Each write is flushed; one that takes none of a
/// piece, or is not flushed, is a fault.
#[derive(Debug, Drop)]
pub struct Console<R, W> {
    reader: R,
    writer: W,
    read_faults: u64,
    write_faults: u64,
}

impl<R, W> Console<R, W> {
    /// A link over these, with no fault counted yet.
    pub fn new(reader: R, writer: W) -> Self
        ensures reads { result.read_faults ≡ 0 }
        ensures writes { result.write_faults ≡ 0 }
    {
        Console {
            reader,
            writer,
            read_faults: 0,
            write_faults: 0,
        }
    }
}

impl<R: Read, W: Write> Source for Console<R, W> {
    ghost left = { λ console. None };

    ghost read_faults = { λ console. console.read_faults };

    ghost kept_by_read = { λ console. (None, console.write_faults) };

    fn read(&mut self, room: &mut [u8]) -> Result<usize, Failed> {
        match self.reader.read(room) {
            Ok(count) => Ok(count),
            Err(_) => {
                self.read_faults = self.read_faults.saturating_add(1);
                Err(Failed)
            }
        }
    }
}

/// Writes the first bytes of the piece and flushes them. 0 where nothing was taken, or where it was not
/// flushed.
pub(crate) fn write_flushed<W: Write>(writer: &mut W, piece: &[u8]) -> usize
    ensures { result ≤ length piece.now }
{
    match writer.write(piece) {
        Ok(count) => match writer.flush() {
            Ok(()) => count,
            Err(_) => 0,
        },
        Err(_) => 0,
    }
}

impl<R: Read, W: Write> Sink for Console<R, W> {
    ghost held = { λ console. None };

    ghost write_faults = { λ console. console.write_faults };

    ghost kept_by_write = { λ console. (None, console.read_faults) };

    fn write(&mut self, piece: &[u8]) -> Result<usize, Failed> {
        let count = write_flushed(&mut self.writer, piece);
        if count == 0 && !piece.is_empty() {
            self.write_faults = self.write_faults.saturating_add(1);
            return Err(Failed);
        }
        Ok(count)
    }
}

impl<R: Read, W: Write> Link for Console<R, W> {
    ghost use Rattle.std.specs.Prelude.{refl};

    ghost reads_apart = { λ link. refl };

    ghost writes_apart = { λ link. refl };
}
