//! Messages of two connections that take turns, each answered by one exchange for the one visitor of a project.
ghost use Rattle.std.specs.Prelude.{◌<◌};
ghost use Rattle.project_machine.specs.Legal.{IsLegal};

use crate::case_fault::CaseFault;
use crate::cases::Case;
use crate::links::spelling::body_of;
use crate::links::talk::{spelt_of, talk_of};
use annotation_http::{Start, serve_message};
use http_wire::{Answer, Message, answer_bytes};
use mark_base::{Bytes, Memory, Steps, Text};
use project_book::Visitor;
use std::alloc::Global;
use std::sync::ledger::Ledger;

/// The message of a line. It does not ask for the end of its connection.
fn message_of(alloc: Global, line: &str) -> Result<Message, CaseFault> {
    let spelt = spelt_of(line);
    let body = body_of(alloc, spelt.body)?;
    let caller = match spelt.caller {
        None => None,
        Some(caller) => Some(Text::of(alloc, caller)?),
    };
    Ok(Message {
        method: Text::of(alloc, spelt.method)?,
        path: Text::of(alloc, spelt.path)?,
        caller,
        body: Bytes::from_vec(body.into_bytes()),
        last: false,
    })
}

/// The answer to a message on a connection.
fn answer_to<V: Visitor, G: Ledger>(
    alloc: Global,
    visitor: &mut V,
    connection: &mut Start,
    message: &Message,
    steps: &mut Steps<G>,
) -> Result<Answer, Memory>
    requires room { 0 < (V.visiting visitor.old).room }
    requires legal { IsLegal (V.visiting visitor.old).seen }
    ensures { IsLegal (V.visiting visitor.new).seen }
{
    serve_message(alloc, visitor, connection, message, steps)
}

/// The bytes of an answer at a place.
fn bytes_at(alloc: Global, answer: &Answer, place: u64) -> Result<Bytes, CaseFault> {
    if answer.status < 100 || answer.status > 999 {
        return Ok(Bytes::of(alloc, b"a status of other than three digits\n")?);
    }
    Ok(answer_bytes(alloc, answer, place, false, false)?)
}

/// Answers the message of a line on a connection, and appends the bytes of the answer.
fn take_turn<V: Visitor, G: Ledger>(
    alloc: Global,
    visitor: &mut V,
    connection: &mut Start,
    line: &str,
    answered: &mut Vec<u8>,
    steps: &mut Steps<G>,
) -> Result<(), CaseFault>
    requires { IsLegal (V.visiting visitor.old).seen }
    ensures { IsLegal (V.visiting visitor.new).seen }
{
    let message = message_of(alloc, line)?;
    if visitor.room() == 0 {
        return Err(CaseFault::Memory);
    }
    let answer = answer_to(alloc, visitor, connection, &message, steps)?;
    let bytes = bytes_at(alloc, &answer, visitor.place())?;
    answered.extend_from_slice(bytes.items())?;
    Ok(())
}

/// Answers the message of a line that begins with `1` or `2`, on the connection of that number.
fn take_either<V: Visitor, G: Ledger>(
    alloc: Global,
    visitor: &mut V,
    first: &mut Start,
    second: &mut Start,
    line: &str,
    answered: &mut Vec<u8>,
    steps: &mut Steps<G>,
) -> Result<(), CaseFault>
    requires { IsLegal (V.visiting visitor.old).seen }
    ensures { IsLegal (V.visiting visitor.new).seen }
{
    if let Some(message) = line.strip_prefix("1 ") {
        return take_turn(alloc, visitor, first, message, answered, steps);
    }
    if let Some(message) = line.strip_prefix("2 ") {
        return take_turn(alloc, visitor, second, message, answered, steps);
    }
    Ok(())
}

/// Answers the messages of some lines one after another.
fn take_all<V: Visitor, G: Ledger>(
    alloc: Global,
    visitor: &mut V,
    first: &mut Start,
    second: &mut Start,
    lines: &str,
    answered: &mut Vec<u8>,
    steps: &mut Steps<G>,
) -> Result<(), CaseFault>
    requires { IsLegal (V.visiting visitor.old).seen }
{
    for line in lines.lines() {
        take_either(alloc, visitor, first, second, line, answered, steps)?;
    }
    Ok(())
}

/// What differs between the bytes that were answered and those that are wanted.
fn difference(alloc: Global, answered: &[u8], wanted: &[u8]) -> Result<String, CaseFault> {
    if answered == wanted {
        return Ok(String::new(alloc));
    }
    let got = String::from_utf8_lossy(alloc, answered)?;
    let wanted = String::from_utf8_lossy(alloc, wanted)?;
    Ok(format!(in alloc; "turns: it was answered:\n{got}\nand not:\n{wanted}\n")?)
}

/// Serves the messages of the section `turns` one after another: a line that begins with `1` or `2` is a message of the
/// connection of that number. Gives what differs.
pub(crate) fn serve_turns<V: Visitor, G: Ledger>(
    alloc: Global,
    case: &Case<'_>,
    visitor: &mut V,
    steps: &mut Steps<G>,
) -> Result<String, CaseFault>
    requires { IsLegal (V.visiting visitor.old).seen }
{
    let section = case.section("turns");
    let wanted = talk_of(alloc, section)?;
    let mut answered = Vec::new(alloc);
    let mut first = Start::Bare;
    let mut second = Start::Bare;
    let lines = section.lines;
    let done = take_all(
        alloc,
        visitor,
        &mut first,
        &mut second,
        lines,
        &mut answered,
        steps,
    );
    match done {
        Ok(()) => difference(alloc, answered.as_slice(), wanted.answered.as_slice()),
        Err(fault) => Err(fault),
    }
}
