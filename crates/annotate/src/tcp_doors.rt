//! The ports of this machine, as doors.
ghost use Rattle.std.specs.Prelude.{◌≡◌, None};

use crate::tcp_door::TcpDoor;
use mark_base::Failed;
use serve_command::{Door, Doors};
use std::io::Write;
use std::net::{Net, TcpListener};

/// The ports of this machine. Each is listened at on 127.0.0.1, so programs of this machine alone come in. A port that
/// cannot be listened at is a fault. The first door is given the writer, which it tells where it is. At a door that comes back
/// nobody listens any more.
#[derive(Drop)]
pub struct TcpDoors<R, W> {
    rt: R,
    voice: Option<W>,
    faults: u64,
    handed: u64,
    taken: u64,
    asked: Option<u16>,
}

impl<R: Net, W> TcpDoors<R, W> {
    /// The ports that this runtime reaches, with no fault counted yet.
    pub fn new(rt: R, voice: W) -> Self
        ensures faults { result.faults ≡ 0 }
        ensures handed { result.handed ≡ 0 }
        ensures taken { result.taken ≡ 0 }
        ensures asked { result.asked ≡ None }
    {
        TcpDoors {
            rt,
            voice: Some(voice),
            faults: 0,
            handed: 0,
            taken: 0,
            asked: None,
        }
    }
}

impl<R: Net, W: Write + Send + Drop> Doors for TcpDoors<R, W>
where
    R::Listener: Send,
    R::Stream: Send,
{
    type Door = TcpDoor<R::Listener, W>;

    ghost doors_faults = { λ doors. doors.faults };

    ghost handed = { λ doors. doors.handed };

    ghost taken = { λ doors. doors.taken };

    ghost asked = { λ doors. doors.asked };

    fn door(&mut self, port: u16) -> Result<TcpDoor<R::Listener, W>, Failed> {
        self.asked = Some(port);
        if self.handed < u64::MAX {
            if let Ok(listener) = TcpListener::bind(&self.rt, ("127.0.0.1", port)) {
                self.handed += 1;
                return Ok(TcpDoor::new(listener, port, self.voice.take()));
            }
        }
        self.faults = self.faults.saturating_add(1);
        Err(Failed)
    }

    fn give_back(&mut self, door: TcpDoor<R::Listener, W>) {
        if door.faults() > 0 {
            self.faults = self.faults.saturating_add(1);
        }
        self.taken = self.taken.saturating_add(1);
    }
}
