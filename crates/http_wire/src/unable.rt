//! The answer of a connection that has no memory for another one.
ghost use Rattle.std.specs.Prelude.{◌≡◌, OnOk, OnErr};
ghost use Rattle.std.specs.Io.KnownBytes.{Appends};
ghost use Rattle.mark_base.specs.Streams.{AppendsFront, HasCause, OnlyWrites};
ghost use Rattle.http_wire.specs.Answers.{unable};

use itoa::Buffer;
use mark_base::{Failed, Link, send_all};

/// The lines before the place.
const FRONT: &[u8] =
    b"HTTP/1.1 503 Service Unavailable\r\nContent-Type: application/json\r\nContent-Length: 20\r\nPlace: ";

/// The lines behind the place, and the body.
const BACK: &[u8] = b"\r\nConnection: close\r\n\r\n{\"refused\":\"Memory\"}";

/// Writes the last answer of a connection that has no memory for another one: 503 with the body
/// `{"refused":"Memory"}` at this place. It takes no memory. A fault leaves a front of it written.
pub fn send_unable<L: Link>(link: &mut L, place: u64) -> Result<(), Failed>
    ensures whole { OnOk result (Appends (L.held link.old) (L.held link.new) (unable place)) }
    ensures front { OnErr result (AppendsFront (L.held link.old) (L.held link.new) (unable place)) }
    ensures cause { HasCause (L.write_faults link.old) (L.write_faults link.new) result }
    ensures apart { OnlyWrites L.left L.read_faults L.write_faults link.old link.new }
{
    let mut buffer = Buffer::new();
    send_all(link, FRONT)?;
    send_all(link, buffer.format(place).as_bytes())?;
    send_all(link, BACK)
}
