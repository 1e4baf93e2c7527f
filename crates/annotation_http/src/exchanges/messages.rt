//! One message, and its answer.
ghost use Rattle.std.specs.Prelude.{◌≡◌, ◌&&◌, ◌<◌, ◌≤◌, ◌+◌, is_some, IfOk};
ghost use Rattle.std.specs.Option.{option_copied};
ghost use Rattle.project_machine.specs.Legal.{IsLegal};
ghost use Rattle.http_answers.specs.Routes.Segments.{slug_read};
ghost use Rattle.annotation_http.specs.Exchanges.Connections.{connection_of, is_held};
ghost use Rattle.annotation_http.specs.Exchanges.Plans.{at_book, by_caller, caller_of, desk_named, on_route, planned};
ghost use Rattle.annotation_http.specs.Exchanges.Exchanges.{IsCarriedOut, IsExchange, IsGiven};
ghost use Rattle.annotation_http.specs.Exchanges.OpenDesks.{IsOpen};

use crate::exchanges::asking::{ask_book, check_out};
use crate::exchanges::connection::Start;
use crate::exchanges::desk_routes::at_desk;
use http_answers::{
    BodyFault, BookRoute, DocumentRoute, Found, MessageFault, Route, Routes, no_memory, request_of,
};
use http_wire::{Answer, Message};
use mark_base::{Memory, NameFault, Slug, Steps};
use project_book::Visitor;
use std::alloc::Global;
use std::sync::ledger::Ledger;

/// Whether a connection holds a desk.
fn is_held(connection: &Start) -> bool
    ensures { result ≡ is_held (connection_of connection.now) }
{
    match connection {
        Start::Bare => false,
        Start::Held(_) => true,
    }
}

/// Whether a route asks for a desk.
fn asks_for_desk(route: &BookRoute) -> bool
    ensures { result ≡ is_some (desk_named route.now) }
{
    match route {
        BookRoute::Document(DocumentRoute::Checkout, _) => true,
        BookRoute::Document(DocumentRoute::TakeOver, _) => true,
        _ => false,
    }
}

/// Whether a route asks for a desk on a connection that holds one.
fn is_second_desk(connection: &Start, route: &BookRoute) -> bool
    ensures { result ≡ (is_some (desk_named route.now) && is_held (connection_of connection.now)) }
{
    asks_for_desk(route) && is_held(connection)
}

/// The document whose desk a route asks for.
fn desk_named(route: &BookRoute) -> Option<&Slug>
    ensures { option_copied result ≡ desk_named route.now }
{
    match route {
        BookRoute::Document(DocumentRoute::Checkout, doc) => Some(doc),
        BookRoute::Document(DocumentRoute::TakeOver, doc) => Some(doc),
        _ => None,
    }
}

/// A route of the project, asked by a caller.
fn at_book<V: Visitor, G: Ledger>(
    alloc: Global,
    visitor: &mut V,
    connection: &mut Start,
    caller: &Slug,
    route: &Route,
    asked_at: &BookRoute,
    body: &[u8],
    steps: &mut Steps<G>,
) -> Result<Answer, Memory>
    requires room { 0 < (V.visiting visitor.old).room }
    requires legal { IsLegal (V.visiting visitor.old).seen }
    requires route { route.now ≡ Route.Book asked_at.now }
    ensures served { IsGiven result (IsCarriedOut (at_book (connection_of connection.old) caller.now asked_at.now body.now) (connection_of connection.old) (V.visiting visitor.old) (V.faultless visitor.old) (connection_of connection.new) (V.visiting visitor.new)) }
    ensures stays { V.faultless visitor.old → V.faultless visitor.new }
{
    if is_second_desk(connection, asked_at) {
        return MessageFault::DeskHeld.answer(alloc);
    }
    let request = match request_of(alloc, asked_at, body) {
        Ok(request) => request,
        Err(BodyFault::BadBody) => return MessageFault::BadBody.answer(alloc),
        Err(BodyFault::TextTooLong) => return MessageFault::TextTooLong.answer(alloc),
        Err(BodyFault::Memory) => return no_memory(alloc),
    };
    match desk_named(asked_at) {
        Some(doc) => check_out(
            alloc, visitor, connection, route, caller, doc, request, steps,
        ),
        None => ask_book(alloc, visitor, connection, route, caller, request, steps),
    }
}

/// A route, asked by a caller.
fn on_route<V: Visitor, G: Ledger>(
    alloc: Global,
    visitor: &mut V,
    connection: &mut Start,
    caller: &Slug,
    route: &Route,
    body: &[u8],
    steps: &mut Steps<G>,
) -> Result<Answer, Memory>
    requires room { 0 < (V.visiting visitor.old).room }
    requires legal { IsLegal (V.visiting visitor.old).seen }
    ensures served { IsGiven result (IsCarriedOut (on_route (connection_of connection.old) caller.now route.now body.now) (connection_of connection.old) (V.visiting visitor.old) (V.faultless visitor.old) (connection_of connection.new) (V.visiting visitor.new)) }
    ensures stays { V.faultless visitor.old → V.faultless visitor.new }
{
    match route {
        Route::Book(asked_at) => at_book(
            alloc, visitor, connection, caller, route, asked_at, body, steps,
        ),
        Route::Desk(asked_at) => at_desk(
            alloc, visitor, connection, caller, *asked_at, body, steps,
        ),
    }
}

/// The slug that a text is.
fn slug_read(alloc: Global, text: &str) -> Result<Option<Slug>, Memory>
    ensures { IfOk result (λ slug. slug ≡ slug_read text.now) }
{
    match Slug::new(alloc, text) {
        Ok(slug) => Ok(Some(slug)),
        Err(NameFault::Memory) => Err(Memory),
        Err(NameFault::Empty) => Ok(None),
        Err(NameFault::TooLong) => Ok(None),
        Err(NameFault::BadChar(_)) => Ok(None),
    }
}

/// Who asks, where a field of the message says so.
fn caller_of(alloc: Global, message: &Message) -> Result<Option<Slug>, Memory>
    ensures { IfOk result (λ caller. caller ≡ caller_of message.now) }
{
    match &message.caller {
        Some(caller) => slug_read(alloc, caller.text()),
        None => Ok(None),
    }
}

/// A message to a route.
fn at_route<V: Visitor, G: Ledger>(
    alloc: Global,
    visitor: &mut V,
    connection: &mut Start,
    route: &Route,
    message: &Message,
    steps: &mut Steps<G>,
) -> Result<Answer, Memory>
    requires room { 0 < (V.visiting visitor.old).room }
    requires legal { IsLegal (V.visiting visitor.old).seen }
    ensures served { IsGiven result (IsCarriedOut (by_caller (connection_of connection.old) route.now message.now.body (caller_of message.now)) (connection_of connection.old) (V.visiting visitor.old) (V.faultless visitor.old) (connection_of connection.new) (V.visiting visitor.new)) }
    ensures stays { V.faultless visitor.old → V.faultless visitor.new }
{
    match caller_of(alloc, message) {
        Ok(Some(caller)) => on_route(
            alloc,
            visitor,
            connection,
            &caller,
            route,
            message.body.items(),
            steps,
        ),
        Ok(None) => MessageFault::NoCaller.answer(alloc),
        Err(Memory) => no_memory(alloc),
    }
}

/// One message of a connection, by its path and its method.
#[tactic(auto, unfolding(crate::specs::Exchanges::Plans::planned))]
fn at_path<V: Visitor, G: Ledger>(
    alloc: Global,
    routes: &Routes,
    visitor: &mut V,
    connection: &mut Start,
    message: &Message,
    steps: &mut Steps<G>,
) -> Result<Answer, Memory>
    requires room { 0 < (V.visiting visitor.old).room }
    requires legal { IsLegal (V.visiting visitor.old).seen }
    ensures served { IsGiven result (IsExchange (connection_of connection.old) (V.visiting visitor.old) (V.faultless visitor.old) message.now (connection_of connection.new) (V.visiting visitor.new)) }
    ensures stays { V.faultless visitor.old → V.faultless visitor.new }
{
    match routes.find(alloc, message.method.text(), message.path.text()) {
        Ok(Found::At(route)) => at_route(alloc, visitor, connection, &route, message, steps),
        Ok(Found::NoRoute) => MessageFault::NoRoute.answer(alloc),
        Ok(Found::NoMethod) => MessageFault::NoMethod.answer(alloc),
        Err(Memory) => no_memory(alloc),
    }
}

/// One message of a connection, with the table of routes at hand: as [`serve_message`].
pub fn exchange<V: Visitor, G: Ledger>(
    alloc: Global,
    routes: &Routes,
    visitor: &mut V,
    connection: &mut Start,
    message: &Message,
    steps: &mut Steps<G>,
) -> Result<Answer, Memory>
    requires room { 0 < (V.visiting visitor.old).room }
    requires legal { IsLegal (V.visiting visitor.old).seen }
    ensures served { IsGiven result (IsExchange (connection_of connection.old) (V.visiting visitor.old) (V.faultless visitor.old) message.now (connection_of connection.new) (V.visiting visitor.new)) }
    ensures legal { IsLegal (V.visiting visitor.new).seen }
    ensures open_desk { IsOpen (V.visiting visitor.old).seen (V.visiting visitor.old).mine (connection_of connection.old) → IsOpen (V.visiting visitor.new).seen (V.visiting visitor.new).mine (connection_of connection.new) }
    ensures room { (V.visiting visitor.old).room ≤ (V.visiting visitor.new).room + 1 }
    ensures badge { (V.visiting visitor.new).badge ≡ (V.visiting visitor.old).badge }
    ensures stays { V.faultless visitor.old → V.faultless visitor.new }
{
    visitor.keeps();
    at_path(alloc, routes, visitor, connection, message, steps)
}

/// One message of a connection: it is tested, carried out on the desk that the connection holds, or asked of the
/// project for its caller, and answered. The connection goes on as the answer says.
///
/// Where memory runs out for what is asked, 503 is answered and the connection is as before; but where a checkout or a
/// takeover stands and its desk finds no memory, the connection holds none. `Memory` is want of memory for the bytes of
/// the answer: a change that was made stands, and the connection is as the answer would have left it.
/// Cost: what the project or the desk does, and the bytes of the answer; here also the table of routes, which
/// [`exchange`] is given.
pub fn serve_message<V: Visitor, G: Ledger>(
    alloc: Global,
    visitor: &mut V,
    connection: &mut Start,
    message: &Message,
    steps: &mut Steps<G>,
) -> Result<Answer, Memory>
    requires room { 0 < (V.visiting visitor.old).room }
    requires legal { IsLegal (V.visiting visitor.old).seen }
    ensures served { IsGiven result (IsExchange (connection_of connection.old) (V.visiting visitor.old) (V.faultless visitor.old) message.now (connection_of connection.new) (V.visiting visitor.new)) }
    ensures legal { IsLegal (V.visiting visitor.new).seen }
    ensures open_desk { IsOpen (V.visiting visitor.old).seen (V.visiting visitor.old).mine (connection_of connection.old) → IsOpen (V.visiting visitor.new).seen (V.visiting visitor.new).mine (connection_of connection.new) }
    ensures room { (V.visiting visitor.old).room ≤ (V.visiting visitor.new).room + 1 }
    ensures badge { (V.visiting visitor.new).badge ≡ (V.visiting visitor.old).badge }
    ensures stays { V.faultless visitor.old → V.faultless visitor.new }
{
    match Routes::new(alloc) {
        Ok(routes) => exchange(alloc, &routes, visitor, connection, message, steps),
        Err(Memory) => no_memory(alloc),
    }
}
