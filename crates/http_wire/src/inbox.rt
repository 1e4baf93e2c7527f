//! The messages of a link, in whatever pieces its bytes come.
ghost use Rattle.std.specs.Prelude.{◌≡◌, ◌≢◌, ◌<◌, ◌≤◌, ◌+◌, [], false, length, Some, IfOk, IfErr, OnOk, OnErr, IsErrOf, IsFalse, is_err};
ghost use Rattle.std.specs.Io.KnownBytes.{IsAtEnd, Keeps, prepend_known};
ghost use Rattle.mark_base.specs.Streams.{OnlyReads, TellsFault};
ghost use Rattle.http_wire.specs.Inbox.{HoldsNext, StopsAsDefined, TakesMessage};

use crate::head::FIELD_ROOM;
use crate::next_message::take_message;
use crate::{Message, Stop};
use httparse::spans::{EMPTY_HEADER_SPAN, HeaderSpan};
use mark_base::{Link, Memory};
use std::alloc::Global;
use std::marker::Model;

/// The bytes of a link that were read and belong to no message yet.
///
/// It holds at most 4,214,784 bytes: a head, a body and one piece more. Beside them stands room for the
/// places of 5,462 fields, about 175 KB, and while a message is made, its body once more.
#[derive(Debug, Drop)]
pub struct Inbox {
    alloc: Global,
    held: Vec<u8>,
    spans: Vec<HeaderSpan>,
    stopped: bool,
}

impl Model for Inbox {
    ghost use Rattle.std.specs.Prelude.{◌≡◌, ◌≤◌, length};
    ghost use Rattle.http_wire.specs.Inbox.{InboxState, IsInboxRoom};

    ghost Value = { InboxState };

    ghost view = { λ inbox. record { held = inbox.held.items; stopped = inbox.stopped } };

    ghost invariant = { λ inbox. IsInboxRoom inbox.held.items inbox.spans.items };
}

impl Inbox {
    /// An inbox that holds nothing.
    pub fn new(alloc: Global) -> Result<Self, Memory>
        ensures held { IfOk result (λ inbox. inbox.held ≡ []) }
        ensures stopped { IfOk result (λ inbox. IsFalse inbox.stopped) }
    {
        let spans = vec![in alloc; EMPTY_HEADER_SPAN; FIELD_ROOM]?;
        Ok(Inbox {
            alloc,
            held: Vec::new(alloc),
            spans,
            stopped: false,
        })
    }

    /// Whether a stop was answered. No message is to be asked for after it.
    pub fn stopped(&self) -> bool
        ensures stopped { result ≡ self.now.stopped }
        ensures bound { length self.now.held ≤ 4214784 }
    {
        self.stopped
    }

    /// The next message of the link, or why there is none. Empty lines before a head are passed over.
    ///
    /// The bytes that were held and left before the call are the message's and those that are held and
    /// left after it, where the link tells its bytes; by a stop none are lost. Where the bytes held begin
    /// with a whole message, or with a whole head that is at fault, nothing is read: a message that came
    /// whole is given before the link is waited for. Cost: the bytes of the
    /// message, 4,096 for each read and each message, and at most 16,384 more for each read before its
    /// head is whole. A body is copied once.
    pub fn next_message<L: Link>(&mut self, link: &mut L) -> Result<Message, Stop>
        requires { IsFalse self.old.stopped }
        ensures message { IfOk result (λ message. TakesMessage
            (prepend_known self.old.held (L.left link.old)) message (prepend_known self.new.held (L.left link.new))) }
        ensures short { IfOk result (λ message. length message.body ≤ 4194304) }
        ensures kept { OnErr result (Keeps (prepend_known self.old.held (L.left link.old)) (prepend_known self.new.held (L.left link.new))) }
        ensures stop { IfErr result (StopsAsDefined (prepend_known self.old.held (L.left link.old)) self.new.held (L.left link.new)) }
        ensures stopped { self.new.stopped ≡ is_err result }
        ensures cause { TellsFault (IsErrOf result Stop.ReadFault) (L.read_faults link.old) (L.read_faults link.new) }
        ensures apart { OnlyReads L.held L.write_faults L.read_faults link.old link.new }

        // What the bytes held settle needs no read: the link is as before.
        ensures no_read { HoldsNext self.old.held → link.new ≡ link.old }
    {
        let taken = take_message(self.alloc, &mut self.held, &mut self.spans, link);
        self.stopped = taken.is_err();
        taken
    }
}
