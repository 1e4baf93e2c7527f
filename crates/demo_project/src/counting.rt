//! How many messages come in.
ghost use Rattle.std.specs.Prelude.{IfOk, IfSome, IsFalse};
ghost use Rattle.std.specs.Io.KnownBytes.{prepend_known};
ghost use Rattle.demo_project.specs.Sessions.{HasMessages};

use http_wire::{Inbox, Stop};
use mark_base::{Bytes, Link, Memory, MemoryLink};
use std::alloc::Global;

/// How many messages a link gives to its end, where they are fewer than 1,000,000.
fn count_on<L: Link>(inbox: &mut Inbox, link: &mut L) -> Result<u64, Memory>
    requires { IsFalse inbox.old.stopped }
    ensures { IfOk result (λ count. IfSome (prepend_known inbox.old.held (L.left link.old)) (λ bytes. HasMessages bytes count)) }
{
    for count in 0..1_000_000 {
        match inbox.next_message(link) {
            Ok(_) => {}
            Err(Stop::End) => return Ok(count),
            Err(_) => return Err(Memory),
        }
    }
    Err(Memory)
}

/// How many messages the bytes are. Cost: that of reading them.
pub(crate) fn count_messages(alloc: Global, bytes: Bytes) -> Result<u64, Memory>
    ensures { IfOk result (λ count. HasMessages bytes count) }
{
    let mut link = MemoryLink::new(alloc, bytes, Vec::new(alloc), Vec::new(alloc));
    let mut inbox = Inbox::new(alloc)?;
    let count = count_on(&mut inbox, &mut link)?;
    Ok(count)
}
