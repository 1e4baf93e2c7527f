//! One connection from its first message to its end.
ghost use Rattle.std.specs.Prelude.{◌≡◌, ◌≤◌, ◌+◌};
ghost use Rattle.mark_base.specs.Streams.{TellsFault};
ghost use Rattle.project_machine.specs.Legal.{IsLegal};
ghost use Rattle.annotation_http.specs.Exchanges.Connections.{connection_of};
ghost use Rattle.annotation_http.specs.Connection.Steps.{serving};
ghost use Rattle.annotation_http.specs.Connection.Headline.{Headline};
ghost use Rattle.annotation_http.specs.Connection.Session.{ConnectionTold, SessionTold};

use crate::connection::answering::{MOST_ANSWERS, answer_message, end_stopped, end_unable};
use crate::connection::ending::Ending;
use crate::connection::laws::connections_tell_one_history;
use crate::connection::parking::park_last;
use crate::exchanges::Start;
use http_answers::Routes;
use http_wire::Inbox;
use mark_base::{Link, Memory, Steps};
use project_book::Visitor;
use project_machine::committed_layers_obey;
use std::alloc::Global;
use std::sync::ledger::Ledger;

/// Serves the messages of a connection, one after another.
fn serve_messages<V: Visitor, L: Link, G: Ledger>(
    alloc: Global,
    visitor: &mut V,
    connection: &mut Start,
    link: &mut L,
    steps: &mut Steps<G>,
) -> Ending
    requires room { 1000000 ≤ (V.visiting visitor.old).room }
    requires legal { IsLegal (V.visiting visitor.old).seen }
    ensures session { SessionTold (V.faultless visitor.old) (serving (connection_of connection.old) (V.visiting visitor.old)) (serving (connection_of connection.new) (V.visiting visitor.new)) (L.left link.old) (L.left link.new) (L.held link.old) (L.held link.new) result }
    ensures legal { IsLegal (V.visiting visitor.new).seen }
    ensures room { (V.visiting visitor.old).room ≤ (V.visiting visitor.new).room + 1000000 }
    ensures badge { (V.visiting visitor.new).badge ≡ (V.visiting visitor.old).badge }
    ensures stays { V.faultless visitor.old → V.faultless visitor.new }
    ensures read { TellsFault (result ≡ Ending.ReadFault) (L.read_faults link.old) (L.read_faults link.new) }
    ensures write { TellsFault (result ≡ Ending.WriteFault) (L.write_faults link.old) (L.write_faults link.new) }
{
    let routes = match Routes::new(alloc) {
        Ok(routes) => routes,
        Err(Memory) => return end_unable(link, visitor.place()),
    };
    let mut inbox = match Inbox::new(alloc) {
        Ok(inbox) => inbox,
        Err(Memory) => return end_unable(link, visitor.place()),
    };
    for count in 0..MOST_ANSWERS {
        let message = match inbox.next_message(link) {
            Ok(message) => message,
            Err(stop) => return end_stopped(alloc, link, stop, count, visitor.place()),
        };
        match answer_message(
            alloc, &routes, visitor, connection, link, &message, count, steps,
        ) {
            Ok(()) => {}
            Err(ending) => return ending,
        }
        if count + 1 == MOST_ANSWERS {
            return Ending::Spent;
        }
        if message.last {
            return Ending::Closed;
        }
    }
    unreachable!()
}

/// Serves one connection from its first message to its end: each message that the link gives is answered, in order, at
/// most 1,000,000 of them, and the desk that is still held at the end is parked by one last request, whose answer is for
/// no one. Where that is refused, the layer stays out until a takeover or the next opening, and what was not committed
/// is lost.
///
/// Where memory runs out, the last message was carried out, or nothing of it happened. Memory held at a time is that of
/// the bytes read, one message with its body's JSON or its layer, one answer, the table of routes, and the desk. An
/// ending that is no fault left both counts of the link as they were: no read and no write failed.
/// Cost: the bytes read and written, and what each message asks of the desk or the project.
pub fn serve_link<V: Visitor, L: Link, G: Ledger>(
    alloc: Global,
    visitor: &mut V,
    start: Start,
    link: &mut L,
    steps: &mut Steps<G>,
) -> Ending
    requires room { 1000002 ≤ (V.visiting visitor.old).room }
    requires legal { IsLegal (V.visiting visitor.old).seen }
    ensures headline { Headline (V.faultless visitor.old) (connection_of start) (V.visiting visitor.old) (V.visiting visitor.new) (L.left link.old) (L.left link.new) (L.held link.old) (L.held link.new) result }
    ensures session { ConnectionTold (V.faultless visitor.old) (connection_of start) (V.visiting visitor.old) (V.visiting visitor.new) (L.left link.old) (L.left link.new) (L.held link.old) (L.held link.new) result }
    ensures legal { IsLegal (V.visiting visitor.new).seen }
    ensures room { (V.visiting visitor.old).room ≤ (V.visiting visitor.new).room + 1000001 }
    ensures badge { (V.visiting visitor.new).badge ≡ (V.visiting visitor.old).badge }
    ensures stays { V.faultless visitor.old → V.faultless visitor.new }
    ensures read { TellsFault (result ≡ Ending.ReadFault) (L.read_faults link.old) (L.read_faults link.new) }
    ensures write { TellsFault (result ≡ Ending.WriteFault) (L.write_faults link.old) (L.write_faults link.new) }
{
    connections_tell_one_history(visitor);
    committed_layers_obey();
    let mut connection = start;
    let ending = serve_messages(alloc, visitor, &mut connection, link, steps);
    park_last(visitor, connection, steps);
    ending
}
