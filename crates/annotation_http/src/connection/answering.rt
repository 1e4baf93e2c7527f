//! Answers, as they are written to the link.
ghost use Rattle.std.specs.Prelude.{◌≡◌, ◌<◌, ◌≤◌, ◌+◌, Err, true};
ghost use Rattle.http.specs.StatusCode.{IsStatusCode};
ghost use Rattle.http_wire.specs.Answers.{answer_bytes_of, answer_bytes_to, refusal};
ghost use Rattle.mark_base.specs.Streams.{OnlyWrites, TellsFault};
ghost use Rattle.project_machine.specs.History.{last};
ghost use Rattle.project_machine.specs.Legal.{IsLegal};
ghost use Rattle.annotation_http.specs.Exchanges.Connections.{connection_of};
ghost use Rattle.annotation_http.specs.Connection.Steps.{serving};
ghost use Rattle.annotation_http.specs.Connection.Session.{AnswerEnds, SendEnds, StopEnds, UnableEnds, ended, is_bodiless, is_last_answer};

use crate::connection::ending::Ending;
use crate::exchanges::{Start, exchange};
use http_answers::Routes;
use http_wire::{Answer, Message, Stop, answer_bytes, send_unable};
use mark_base::{Link, Memory, Steps, send_all};
use project_book::Visitor;
use std::alloc::Global;
use std::sync::ledger::Ledger;

/// How many answers a connection gives at most.
pub(crate) const MOST_ANSWERS: u32 = 1_000_000;

/// Ends a connection that has no memory.
pub(crate) fn end_unable<L: Link>(link: &mut L, place: u64) -> Ending
    ensures told { UnableEnds place (L.held link.old) (L.held link.new) result }
    ensures cause { TellsFault (result ≡ Ending.WriteFault) (L.write_faults link.old) (L.write_faults link.new) }
    ensures apart { OnlyWrites L.left L.read_faults L.write_faults link.old link.new }
{
    match send_unable(link, place) {
        Ok(()) => Ending::Memory,
        Err(_) => Ending::WriteFault,
    }
}

/// Writes an answer, with its body or without it. Where its bytes find no memory, that is written in their place.
fn send_answer<L: Link>(
    alloc: Global,
    link: &mut L,
    answer: &Answer,
    place: u64,
    last: bool,
    bodiless: bool,
) -> Result<(), Ending>
    requires { IsStatusCode answer.now.status }
    ensures told { SendEnds place (answer_bytes_to bodiless answer.now place last) (L.held link.old) (L.held link.new) result }
    ensures cause { TellsFault (result ≡ Err Ending.WriteFault) (L.write_faults link.old) (L.write_faults link.new) }
    ensures apart { OnlyWrites L.left L.read_faults L.write_faults link.old link.new }
{
    let bytes = match answer_bytes(alloc, answer, place, last, bodiless) {
        Ok(bytes) => bytes,
        Err(Memory) => return Err(end_unable(link, place)),
    };
    match send_all(link, bytes.items()) {
        Ok(()) => Ok(()),
        Err(_) => Err(Ending::WriteFault),
    }
}

/// Whether the answer number `count`, from 0, is the last.
fn is_last(message: &Message, count: u32) -> bool
    requires { count < 1000000 }
    ensures { result ≡ is_last_answer count message.now }
{
    message.last || count + 1 == MOST_ANSWERS
}

/// Whether the answer to a message has no body.
fn is_bodiless(message: &Message) -> bool
    ensures { result ≡ is_bodiless message.now }
{
    message.method.text() == "HEAD"
}

/// Answers one message, with the answer number `count`, from 0.
pub(crate) fn answer_message<V: Visitor, L: Link, G: Ledger>(
    alloc: Global,
    routes: &Routes,
    visitor: &mut V,
    connection: &mut Start,
    link: &mut L,
    message: &Message,
    count: u32,
    steps: &mut Steps<G>,
) -> Result<(), Ending>
    requires count { count < 1000000 }
    requires room { 0 < (V.visiting visitor.old).room }
    requires legal { IsLegal (V.visiting visitor.old).seen }
    ensures told { AnswerEnds (V.faultless visitor.old) (serving (connection_of connection.old) (V.visiting visitor.old)) message.now (serving (connection_of connection.new) (V.visiting visitor.new)) (L.held link.old) (L.held link.new) count result }
    ensures legal { IsLegal (V.visiting visitor.new).seen }
    ensures room { (V.visiting visitor.old).room ≤ (V.visiting visitor.new).room + 1 }
    ensures badge { (V.visiting visitor.new).badge ≡ (V.visiting visitor.old).badge }
    ensures stays { V.faultless visitor.old → V.faultless visitor.new }
    ensures cause { TellsFault (result ≡ Err Ending.WriteFault) (L.write_faults link.old) (L.write_faults link.new) }
    ensures apart { OnlyWrites L.left L.read_faults L.write_faults link.old link.new }
{
    let answered = exchange(alloc, routes, visitor, connection, message, steps);
    let place = visitor.place();
    match answered {
        Ok(answer) => send_answer(
            alloc,
            link,
            &answer,
            place,
            is_last(message, count),
            is_bodiless(message),
        ),
        Err(Memory) => Err(end_unable(link, place)),
    }
}

/// Answers a stop, by a refusal of this status and name.
fn refuse_last<L: Link>(
    alloc: Global,
    link: &mut L,
    status: u16,
    name: &str,
    place: u64,
) -> Result<(), Ending>
    requires { IsStatusCode status }
    ensures told { SendEnds place (answer_bytes_of (refusal status name.now) place true) (L.held link.old) (L.held link.new) result }
    ensures cause { TellsFault (result ≡ Err Ending.WriteFault) (L.write_faults link.old) (L.write_faults link.new) }
    ensures apart { OnlyWrites L.left L.read_faults L.write_faults link.old link.new }
{
    match Answer::refusal(alloc, status, name) {
        Ok(answer) => send_answer(alloc, link, &answer, place, true, false),
        Err(Memory) => Err(end_unable(link, place)),
    }
}

/// The ending that the answer to a stop makes, the answer number `count`, from 0.
fn ended(sending: Result<(), Ending>, count: u32, named: Ending) -> Ending
    requires { count < 1000000 }
    ensures { result ≡ ended count sending named }
{
    match sending {
        Ok(()) => {
            if count + 1 == MOST_ANSWERS {
                Ending::Spent
            } else {
                named
            }
        }
        Err(ending) => ending,
    }
}

/// Ends a connection by a stop behind `count` answers, with its answer where it has one.
pub(crate) fn end_stopped<L: Link>(
    alloc: Global,
    link: &mut L,
    stop: Stop,
    count: u32,
    place: u64,
) -> Ending
    requires count { count < 1000000 }
    ensures told { StopEnds count place stop (L.held link.old) (L.held link.new) result }
    ensures cause { TellsFault (result ≡ Ending.WriteFault) (L.write_faults link.old) (L.write_faults link.new) }
    ensures read { (result ≡ Ending.ReadFault) → (stop ≡ Stop.ReadFault) }
    ensures read_fault { (stop ≡ Stop.ReadFault) → (result ≡ Ending.ReadFault) }
    ensures apart { OnlyWrites L.left L.read_faults L.write_faults link.old link.new }
{
    match stop {
        Stop::End => Ending::End,
        Stop::Cut => Ending::Cut,
        Stop::BadHead => ended(
            refuse_last(alloc, link, 400, "BadHead", place),
            count,
            Ending::BadHead,
        ),
        Stop::TooLarge => ended(
            refuse_last(alloc, link, 413, "TooLarge", place),
            count,
            Ending::TooLarge,
        ),
        Stop::Encoded => ended(
            refuse_last(alloc, link, 501, "Encoded", place),
            count,
            Ending::Encoded,
        ),
        Stop::NeedsLength => ended(
            refuse_last(alloc, link, 411, "NeedsLength", place),
            count,
            Ending::NeedsLength,
        ),
        Stop::ReadFault => Ending::ReadFault,
        Stop::Memory => end_unable(link, place),
    }
}
