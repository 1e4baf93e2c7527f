//! A message, and that the bytes determine the messages.
ghost use Rattle.std.specs.Prelude.{◌≡◌, ◌⊎◌, ℕ, List};
ghost use Rattle.http_wire.specs.Messages.{IsSameStop, LeavesOpenTarget, Messages, StopsWith};

use crate::Stop;
use mark_base::{Bytes, Text};

/// One request, as the routes see it.
#[derive(Debug, Drop)]
pub struct Message {
    /// As it was sent; methods differ by case.
    pub method: Text,
    /// The target up to its first question mark, as it was sent.
    pub path: Text,
    /// The first field `Caller`, without the spaces and tabs around it. None where there is no such
    /// field, or where its value is not UTF-8.
    pub caller: Option<Text>,
    /// As many bytes as Content-Length says, and none where the field is absent.
    pub body: Bytes,
    /// The client asks that the connection ends after the answer: by the word `close` in a field
    /// `Connection`, or by version 1.0.
    pub last: bool,
}

/// The bytes of a stream determine its messages and where they stop, but for a request target that is
/// still open behind these messages.
pub fn bytes_determine_messages()
    ensures messages { (bytes : List ℕ) (messages others : List Message) (stop other : Stop)
        → Messages bytes messages stop → Messages bytes others other → messages ≡ others }
    ensures stop { (bytes : List ℕ) (messages others : List Message) (stop other : Stop)
        → Messages bytes messages stop → Messages bytes others other → (stop ≡ other) ⊎ LeavesOpenTarget bytes messages }
{}

/// The same of what stands in the place of one message.
pub fn bytes_determine_stop()
    ensures { (bytes : List ℕ) (stop other : Stop)
        → StopsWith bytes stop → StopsWith bytes other → IsSameStop bytes stop other }
{}
