//! A connection over a stream, as a link.
ghost use Rattle.std.specs.Prelude.{◌≡◌, ◌≤◌, length, IfSome, None};

use mark_base::{Failed, Link, Sink, Source};
use std::io::{ErrorKind, Read, Write};
use std::net::{OpenStream, Shutdown};
use std::time::Duration;

/// How many seconds a client may keep a connection on which it has sent nothing, and so holds no desk.
const SILENT: u64 = 600;

/// How many seconds a write waits for a client that does not read.
const UNREAD: u64 = 30;

/// How many milliseconds a connection that the server ends waits each time for what its client still sends.
const LINGERING: u64 = 250;

/// How often a call that a signal interrupted is made again.
const AGAIN: u32 = 1000;

/// A connection over a stream. It tells nothing of what the stream gives and takes. Each write is flushed; one that takes
/// none of a piece, or is not flushed, is a fault, and so is one for which the client reads nothing for 30 seconds. A
/// connection on which nothing was received for 10 minutes from its beginning is a fault of reading; once something came, it
/// may lie idle. A call that a signal interrupted is no fault, and made again.
///
/// A connection that is dropped is closed so that its last answers arrive: for writing first, and once the client has sent
/// what it was sending (at most 64 MiB) for good. One that is closed on bytes that were not read would be reset, and the
/// answers with it (RFC 9112, 9.6).
#[derive(Debug)]
pub struct TcpLink<S: Read + OpenStream + Drop> {
    stream: S,
    is_silent: bool,
    read_faults: u64,
    write_faults: u64,
}

impl<S: Read + OpenStream + Drop> TcpLink<S> {
    /// A connection over this stream, with no fault counted yet.
    pub fn new(stream: S) -> Self
        ensures reads { result.read_faults ≡ 0 }
        ensures writes { result.write_faults ≡ 0 }
    {
        // A stream that takes no limits goes without.
        let _ = stream.set_read_timeout(Some(Duration::from_secs(SILENT)));
        let _ = stream.set_write_timeout(Some(Duration::from_secs(UNREAD)));
        TcpLink {
            stream,
            is_silent: true,
            read_faults: 0,
            write_faults: 0,
        }
    }
}

/// Reads once, where no signal interrupts it. None where the stream fails.
fn read_again<R: Read>(reader: &mut R, room: &mut [u8]) -> Option<usize>
    ensures { IfSome result (λ count. count ≤ length room.new) }
{
    for _ in 0..AGAIN {
        match reader.read(room) {
            Ok(count) => return Some(count),
            Err(error) if error.kind() == ErrorKind::Interrupted => {}
            Err(_) => return None,
        }
    }
    None
}

impl<S: Read + OpenStream + Drop> Source for TcpLink<S> {
    ghost left = { λ link. None };

    ghost read_faults = { λ link. link.read_faults };

    ghost kept_by_read = { λ link. (None, link.write_faults) };

    fn read(&mut self, room: &mut [u8]) -> Result<usize, Failed> {
        match read_again(&mut self.stream, room) {
            Some(count) => {
                if self.is_silent {
                    self.is_silent = false;
                    let _ = self.stream.set_read_timeout(None);
                }
                Ok(count)
            }
            None => {
                self.read_faults = self.read_faults.saturating_add(1);
                Err(Failed)
            }
        }
    }
}

/// Writes the first bytes of the piece, where no signal interrupts that. 0 where nothing was taken.
fn write_again<W: Write>(writer: &mut W, piece: &[u8]) -> usize
    ensures { result ≤ length piece.now }
{
    for _ in 0..AGAIN {
        match writer.write(piece) {
            Ok(count) => return count,
            Err(error) if error.kind() == ErrorKind::Interrupted => {}
            Err(_) => return 0,
        }
    }
    0
}

/// Writes the first bytes of the piece and flushes them. 0 where nothing was taken, or where it was not
/// flushed.
fn write_flushed<W: Write>(writer: &mut W, piece: &[u8]) -> usize
    ensures { result ≤ length piece.now }
{
    let count = write_again(writer, piece);
    match writer.flush() {
        Ok(()) => count,
        Err(_) => 0,
    }
}

impl<S: Read + Write + OpenStream + Drop> Sink for TcpLink<S> {
    ghost held = { λ link. None };

    ghost write_faults = { λ link. link.write_faults };

    ghost kept_by_write = { λ link. (None, link.read_faults) };

    fn write(&mut self, piece: &[u8]) -> Result<usize, Failed> {
        let count = write_flushed(&mut self.stream, piece);
        if count == 0 && !piece.is_empty() {
            self.write_faults = self.write_faults.saturating_add(1);
            return Err(Failed);
        }
        Ok(count)
    }
}

impl<S: Read + Write + OpenStream + Drop> Link for TcpLink<S> {
    ghost use Rattle.std.specs.Prelude.{refl};

    ghost reads_apart = { λ link. refl };

    ghost writes_apart = { λ link. refl };
}

/// Reads what a client still sends, until it has ended, sends nothing for a while, or sends little many times.
fn drain<S: Read>(stream: &mut S) {
    let mut room = [0; 65536];
    let mut patience = 16u32;
    for _ in 0..1024 {
        match stream.read(&mut room) {
            Ok(count) if count >= 1024 => {}
            Ok(count) if count > 0 => {
                patience = patience.saturating_sub(1);
                if patience == 0 {
                    return;
                }
            }
            _ => return,
        }
    }
}

impl<S: Read + OpenStream + Drop> Drop for TcpLink<S> {
    fn drop(self) {
        let TcpLink {
            mut stream,
            is_silent: _,
            read_faults: _,
            write_faults: _,
        } = self;
        if stream.shutdown(Shutdown::Write).is_ok()
            && stream
                .set_read_timeout(Some(Duration::from_millis(LINGERING)))
                .is_ok()
        {
            drain(&mut stream);
        }
    }
}
