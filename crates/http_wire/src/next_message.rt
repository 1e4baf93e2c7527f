//! One message from the front of the bytes held, read on as far as it needs.
ghost use Rattle.std.specs.Prelude.{◌≡◌, ◌≢◌, ◌<◌, ◌≤◌, ◌+◌, [], false, length, drop, Some, IfOk, IfErr, OnOk, OnErr, IsErrOf};
ghost use Rattle.std.specs.Io.KnownBytes.{IsAtEnd, Keeps, prepend_known};
ghost use Rattle.mark_base.specs.Streams.{OnlyReads, TellsFault};
ghost use Rattle.http_wire.specs.Heads.{IsHeadOf};
ghost use Rattle.http_wire.specs.Inbox.{HoldsNext, StopsAsDefined, TakesMessage};
ghost use Rattle.http_wire.specs.Messages.{LacksHead};
ghost use Rattle.http_wire.specs.NextMessage.{BytesStop, GrowsBy, HoldsHead, IsFrontMessage, IsFrontOf, IsReadStop, ReadsNothing};

use crate::empty_lines::is_empty_lines;
use crate::head::{Head, HeadStep, LONGEST_HEAD, read_head};
use crate::{Message, Stop};
use httparse::spans::HeaderSpan;
use mark_base::{Bytes, Link, Memory, receive};
use std::alloc::Global;

/// How many bytes a read may give.
const PIECE: usize = 4_096;

/// Reads more bytes, in place behind those held. 0 is the end of the input.
fn read_more<L: Link>(held: &mut Vec<u8>, link: &mut L) -> Result<usize, Stop>
    requires { length held.old.items < 4210688 }
    ensures same { Keeps (prepend_known held.old.items (L.left link.old)) (prepend_known held.new.items (L.left link.new)) }
    ensures more { IfOk result (GrowsBy held.old.items held.new.items) }
    ensures bound { IfOk result (λ count. count ≤ 4096) }
    ensures end { result ≡ Ok 0 → IsAtEnd (L.left link.new) }
    ensures err { OnErr result (held.new.items ≡ held.old.items) }
    ensures stop { IfErr result IsReadStop }
    ensures cause { TellsFault (IsErrOf result Stop.ReadFault) (L.read_faults link.old) (L.read_faults link.new) }
    ensures apart { OnlyReads L.held L.write_faults L.read_faults link.old link.new }
{
    let start = held.len();
    match held.resize(start + PIECE, 0) {
        Ok(()) => {}
        Err(_) => return Err(Stop::Memory),
    }
    match receive(link, &mut held[start..]) {
        Ok(count) => {
            held.truncate(start + count);
            Ok(count)
        }
        Err(_) => {
            held.truncate(start);
            Err(Stop::ReadFault)
        }
    }
}

/// Reads until the bytes held begin with a whole head.
fn await_head<L: Link>(
    alloc: Global,
    held: &mut Vec<u8>,
    spans: &mut [HeaderSpan],
    link: &mut L,
) -> Result<Head, Stop>
    requires room { length spans.old ≡ 5462 }
    requires bound { length held.old.items ≤ 4214784 }
    ensures same { Keeps (prepend_known held.old.items (L.left link.old)) (prepend_known held.new.items (L.left link.new)) }
    ensures bound { length held.new.items ≤ 4214784 }
    ensures head { IfOk result (IsHeadOf held.new.items) }
    ensures stop { IfErr result (StopsAsDefined (prepend_known held.new.items (L.left link.new)) held.new.items (L.left link.new)) }
    ensures cause { TellsFault (IsErrOf result Stop.ReadFault) (L.read_faults link.old) (L.read_faults link.new) }
    ensures apart { OnlyReads L.held L.write_faults L.read_faults link.old link.new }
    ensures no_read { HoldsHead held.old.items → ReadsNothing link.old link.new held.old.items held.new.items }
{
    loop {
        match read_head(alloc, held, spans)? {
            HeadStep::Whole(head) => return Ok(head),
            HeadStep::More => {}
            HeadStep::Refused(stop) => return Err(stop),
        }
        match read_more(held, link) {
            Ok(0) => return Err(stop_at_end(held)),
            Ok(_) => {}
            Err(stop) => return Err(stop),
        }
    }
}

/// The stop at the end of an input that ends in less than a head.
#[tactic(auto, using(crate::proofs::TakeLemmas::empty_end, crate::proofs::TakeLemmas::other_end))]
fn stop_at_end(held: &[u8]) -> Stop
    requires { LacksHead held.now }
    ensures stop { StopsAsDefined (Some held.now) held.now (Some []) result }
    ensures no_fault { result ≢ Stop.ReadFault }
{
    if is_empty_lines(held) {
        Stop::End
    } else {
        Stop::Cut
    }
}

/// Makes room for so many bytes in all and one piece more, so that no read has to move what is held.
fn make_room(held: &mut Vec<u8>, count: usize) -> Result<(), Stop>
    requires { count ≤ 4210688 }
    ensures items { held.new.items ≡ held.old.items }
    ensures stop { IfErr result (λ stop. stop ≡ Stop.Memory) }
{
    let missing = count.saturating_sub(held.len());
    match held.reserve_exact(missing + PIECE) {
        Ok(()) => Ok(()),
        Err(_) => Err(Stop::Memory),
    }
}

/// Reads until so many bytes are held.
fn await_bytes<L: Link>(held: &mut Vec<u8>, link: &mut L, count: usize) -> Result<(), Stop>
    requires bound { length held.old.items ≤ 4214784 }
    requires fits { count ≤ 4210688 }
    ensures same { Keeps (prepend_known held.old.items (L.left link.old)) (prepend_known held.new.items (L.left link.new)) }
    ensures bound { length held.new.items ≤ 4214784 }
    ensures front { IsFrontOf held.old.items held.new.items }
    ensures enough { OnOk result (count ≤ length held.new.items) }
    ensures stop { IfErr result (BytesStop held.new.items (L.left link.new) count) }
    ensures cause { TellsFault (IsErrOf result Stop.ReadFault) (L.read_faults link.old) (L.read_faults link.new) }
    ensures apart { OnlyReads L.held L.write_faults L.read_faults link.old link.new }
    ensures no_read { count ≤ length held.old.items → ReadsNothing link.old link.new held.old.items held.new.items }
{
    if held.len() >= count {
        return Ok(());
    }
    match make_room(held, count) {
        Ok(()) => {}
        Err(stop) => return Err(stop),
    }
    while held.len() < count {
        match read_more(held, link) {
            Ok(0) => return Err(Stop::Cut),
            Ok(_) => {}
            Err(stop) => return Err(stop),
        }
    }
    Ok(())
}

/// Takes a head and its body, which are all there, from the front of the bytes.
fn take_front(alloc: Global, held: &mut Vec<u8>, head: Head) -> Result<Message, Memory>
    requires head { IsHeadOf held.old.items head }
    requires enough { head.len + head.size ≤ length held.old.items }
    ensures message { IfOk result (IsFrontMessage held.old.items held.new.items) }
    ensures short { IfOk result (λ message. length message.body ≤ 4194304) }
    ensures err { OnErr result (held.new.items ≡ held.old.items) }
    ensures bound { length held.new.items ≤ length held.old.items }
{
    let end = head.len + head.size;
    let body = Bytes::of(alloc, &held[head.len..end])?;
    *held = copy_from(alloc, held, end)?;
    Ok(Message {
        method: head.method,
        path: head.path,
        caller: head.caller,
        body,
        last: head.last,
    })
}

/// Copies the bytes from a place on.
fn copy_from(alloc: Global, bytes: &[u8], start: usize) -> Result<Vec<u8>, Memory>
    requires { start ≤ length bytes.now }
    ensures { IfOk result (λ rest. rest.items ≡ drop start bytes.now) }
{
    let rest = bytes[start..].to_vec(alloc)?;
    Ok(rest)
}

/// Takes the next message from the bytes held and the link behind them.
pub fn take_message<L: Link>(
    alloc: Global,
    held: &mut Vec<u8>,
    spans: &mut [HeaderSpan],
    link: &mut L,
) -> Result<Message, Stop>
    requires room { length spans.old ≡ 5462 }
    requires bound { length held.old.items ≤ 4214784 }
    ensures message { IfOk result (λ message. TakesMessage
        (prepend_known held.old.items (L.left link.old)) message (prepend_known held.new.items (L.left link.new))) }
    ensures short { IfOk result (λ message. length message.body ≤ 4194304) }
    ensures kept { OnErr result (Keeps (prepend_known held.old.items (L.left link.old)) (prepend_known held.new.items (L.left link.new))) }
    ensures stop { IfErr result (StopsAsDefined (prepend_known held.old.items (L.left link.old)) held.new.items (L.left link.new)) }
    ensures bound { length held.new.items ≤ 4214784 }
    ensures cause { TellsFault (IsErrOf result Stop.ReadFault) (L.read_faults link.old) (L.read_faults link.new) }
    ensures apart { OnlyReads L.held L.write_faults L.read_faults link.old link.new }
    ensures no_read { HoldsNext held.old.items → link.new ≡ link.old }
{
    let head = match await_head(alloc, held, spans, link) {
        Ok(head) => head,
        Err(stop) => return Err(stop),
    };
    match await_bytes(held, link, head.len + head.size) {
        Ok(()) => match take_front(alloc, held, head) {
            Ok(message) => Ok(message),
            Err(_) => Err(Stop::Memory),
        },
        Err(stop) => Err(stop),
    }
}
