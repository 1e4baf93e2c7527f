//! Standard error as a sink.
ghost use Rattle.std.specs.Prelude.{◌≡◌, None};

use crate::console::write_flushed;
use mark_base::{Failed, Sink};
use std::io::Write;

/// A sink that writes to a writer, as to standard error. It tells nothing of what the writer takes. Each
/// write is flushed; one that takes none of a piece, or is not flushed, is a fault.
#[derive(Debug, Drop)]
pub struct ErrorSink<W> {
    writer: W,
    write_faults: u64,
}

impl<W> ErrorSink<W> {
    /// A sink over the writer, with no fault counted yet.
    pub fn new(writer: W) -> Self
        ensures { result.write_faults ≡ 0 }
    {
        ErrorSink {
            writer,
            write_faults: 0,
        }
    }
}

impl<W: Write> Sink for ErrorSink<W> {
    ghost held = { λ sink. None };

    ghost write_faults = { λ sink. sink.write_faults };

    ghost kept_by_write = { λ sink. (None, 0) };

    fn write(&mut self, piece: &[u8]) -> Result<usize, Failed> {
        let count = write_flushed(&mut self.writer, piece);
        if count == 0 && !piece.is_empty() {
            self.write_faults = self.write_faults.saturating_add(1);
            return Err(Failed);
        }
        Ok(count)
    }
}
