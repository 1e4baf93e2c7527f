//! A port that is listened at, as a door.
ghost use Rattle.std.specs.Prelude.{◌≡◌, ⊤};

use crate::tcp_link::TcpLink;
use mark_base::Failed;
use serve_command::Door;
use std::io::{Read, Write};
use std::net::{OpenListener, OpenStream};

/// How often a connection is asked for before that is a fault. A client that is gone before it is accepted, say, costs one.
const ASKED: u32 = 1000;

/// The next connection of a port, where the system gives one.
fn accepted<L: OpenListener>(listener: &L) -> Option<L::Stream> {
    for _ in 0..ASKED {
        if let Ok((stream, _)) = listener.accept() {
            return Some(stream);
        }
    }
    None
}

/// A port that is listened at. It has no end; a connection that the system does not give, however often it is asked, is
/// a fault. To those who look after the server a writer, where there is one, is told when the first connection is waited
/// for, and that a connection was not given, once; what is not taken of that is lost.
#[derive(Drop)]
pub struct TcpDoor<L, W> {
    listener: L,
    port: u16,
    voice: Option<W>,
    is_asked: bool,
    faults: u64,
}

impl<L, W> TcpDoor<L, W> {
    /// A door over the listener of a port, with no fault counted yet.
    pub fn new(listener: L, port: u16, voice: Option<W>) -> Self
        ensures { result.faults ≡ 0 }
    {
        TcpDoor {
            listener,
            port,
            voice,
            is_asked: false,
            faults: 0,
        }
    }
}

/// Says where a project is served, and says nothing the second time.
fn say_where<W: Write>(voice: &mut Option<W>, port: u16, is_asked: bool) {
    if is_asked {
        return;
    }
    if let Some(voice) = voice {
        let _ = writeln!(voice, "annotate: serving at http://127.0.0.1:{port}");
    }
}

/// Says that a worker has stopped, and says nothing the second time.
fn say_lost<W: Write>(voice: &mut Option<W>, faults: u64) {
    if faults > 0 {
        return;
    }
    if let Some(voice) = voice {
        let _ = writeln!(
            voice,
            "annotate: the system gave no connection (out of file descriptors?): a worker has stopped, the others go on"
        );
    }
}

impl<L: OpenListener, W: Write + Drop> Door for TcpDoor<L, W>
where
    L::Stream: Read + Write + OpenStream + Send + Drop,
{
    type Link = TcpLink<L::Stream>;

    ghost door_faults = { λ door. door.faults };

    ghost sure = { ⊥ };

    ghost endless = { ⊤ };

    fn next(&mut self) -> Result<Option<TcpLink<L::Stream>>, Failed> {
        say_where(&mut self.voice, self.port, self.is_asked);
        self.is_asked = true;
        match accepted(&self.listener) {
            Some(stream) => Ok(Some(TcpLink::new(stream))),
            None => {
                say_lost(&mut self.voice, self.faults);
                self.faults = self.faults.saturating_add(1);
                Err(Failed)
            }
        }
    }

    fn faults(&self) -> u64 {
        self.faults
    }
}
