//! What is asked of the project, and what the connection holds behind its answer.
ghost use Rattle.std.specs.Prelude.{◌≡◌, ◌<◌, IfOk, OnErr, OnOk, Some, None, true};
ghost use Rattle.project_machine.specs.Asking.{StaysFaultless, Visited};
ghost use Rattle.project_machine.specs.Legal.{IsLegal};
ghost use Rattle.project_state.specs.Values.{answer_of, asked_of, out_of};
ghost use Rattle.layer_undo.specs.Desks.{IsDesk};
ghost use Rattle.http_answers.specs.Answers.Answers.{CanBeShown};
ghost use Rattle.std.specs.Arc.{arc_value};
ghost use Rattle.project_machine.specs.Requests.{Commit, Park};
ghost use Rattle.annotation_http.specs.Exchanges.Connections.{Bare, Holds, connection_of, desk_on, handed, holding_of};
ghost use Rattle.annotation_http.specs.Exchanges.Plans.{AsksBook, commits, parks};
ghost use Rattle.annotation_http.specs.Exchanges.Exchanges.{CanBeOpened, IsCarriedOut, IsGiven, desk_asked, given_up, held_by, is_committed, is_given_up, is_handed_out, leaves_connection};

use crate::answer_laws::answers_can_be_shown;
use crate::exchanges::connection::{Held, Start};
use http_answers::{DeskRoute, Route, answer_of, no_memory};
use http_wire::Answer;
use layer_model::Layer;
use layer_rules::unflawed_layers;
use layer_undo::{Desk, DeskStart};
use mark_base::{Memory, Slug, Steps};
use project_book::{BookRefusal, Out, Reply, Request, Visitor};
use project_state::states_can_be_restored;
use std::alloc::Global;
use std::sync::Arc;
use std::sync::ledger::Ledger;

/// One request of a caller to the project.
pub(crate) fn ask<V: Visitor, G: Ledger>(
    visitor: &mut V,
    caller: &Slug,
    request: Request,
    steps: &mut Steps<G>,
) -> Reply
    requires room { 0 < (V.visiting visitor.old).room }
    requires legal { IsLegal (V.visiting visitor.old).seen }
    ensures visited { Visited (V.visiting visitor.old) (V.visiting visitor.new) caller.now (asked_of request) (answer_of result) }
    ensures faultless { StaysFaultless (V.faultless visitor.old) (V.faultless visitor.new) (V.visiting visitor.old) (V.visiting visitor.new) (answer_of result) }
    ensures shown { CanBeShown (answer_of result) }
    ensures opened { CanBeOpened (answer_of result) }
{
    unflawed_layers();
    states_can_be_restored();
    answers_can_be_shown();
    visitor.ask(caller, request, steps)
}

// ---- a desk that is handed out

/// The desk on a layer that a project hands out to an annotator on a document. Cost: the layer, and its commands once.
pub fn open_held(alloc: Global, who: Slug, doc: Slug, out: Out) -> Result<Held, Memory>
    requires { IsDesk (desk_on (out_of out)) }
    ensures { IfOk result (λ held. holding_of held ≡ handed who doc (out_of out)) }
{
    unflawed_layers();
    let text = out.doc.clone()?;
    let conf = out.conf.clone()?;
    match Desk::open(alloc, out.base, out.doc, out.conf, out.done, out.undone) {
        Ok(desk) => Ok(Held {
            who,
            doc,
            hold: out.hold,
            text,
            conf,
            desk,
        }),
        Err(DeskStart::Memory) => Err(Memory),
        Err(DeskStart::Base(_)) => unreachable!(),
        Err(DeskStart::At(_, _)) => unreachable!(),
    }
}

/// Holds the desk that a reply hands out, where it does.
fn hold(
    alloc: Global,
    connection: &mut Start,
    who: Slug,
    doc: Slug,
    reply: Reply,
) -> Result<(), Memory>
    requires { CanBeOpened (answer_of reply) }
    ensures held { OnOk result (connection_of connection.new ≡ held_by (connection_of connection.old) who doc (answer_of reply)) }
    ensures same { OnErr result (connection_of connection.new ≡ connection_of connection.old) }
    ensures out { OnErr result (is_handed_out (answer_of reply) ≡ true) }
{
    match reply {
        Reply::Out(out) => {
            let held = open_held(alloc, who, doc, out)?;
            *connection = Start::Held(held);
            Ok(())
        }
        _ => Ok(()),
    }
}

/// Asks for a desk on a document, whose name the connection keeps with the caller's.
fn take_out<V: Visitor, G: Ledger>(
    alloc: Global,
    visitor: &mut V,
    connection: &mut Start,
    route: &Route,
    who: Slug,
    doc: Slug,
    request: Request,
    steps: &mut Steps<G>,
) -> Result<Answer, Memory>
    requires room { 0 < (V.visiting visitor.old).room }
    requires legal { IsLegal (V.visiting visitor.old).seen }
    requires bare { connection_of connection.old ≡ Bare }
    requires asks { desk_asked (asked_of request) ≡ Some doc }
    ensures served { IsGiven result (IsCarriedOut (AsksBook route.now who (asked_of request)) (connection_of connection.old) (V.visiting visitor.old) (V.faultless visitor.old) (connection_of connection.new) (V.visiting visitor.new)) }
    ensures stays { V.faultless visitor.old → V.faultless visitor.new }
{
    let reply = ask(visitor, &who, request, steps);
    let answer = answer_of(alloc, route, &reply);
    match hold(alloc, connection, who, doc, reply) {
        Ok(()) => answer,
        Err(Memory) => no_memory(alloc),
    }
}

/// A caller asks for a desk on a document.
pub(crate) fn check_out<V: Visitor, G: Ledger>(
    alloc: Global,
    visitor: &mut V,
    connection: &mut Start,
    route: &Route,
    caller: &Slug,
    doc: &Slug,
    request: Request,
    steps: &mut Steps<G>,
) -> Result<Answer, Memory>
    requires room { 0 < (V.visiting visitor.old).room }
    requires legal { IsLegal (V.visiting visitor.old).seen }
    requires bare { connection_of connection.old ≡ Bare }
    requires asks { desk_asked (asked_of request) ≡ Some doc.now }
    ensures served { IsGiven result (IsCarriedOut (AsksBook route.now caller.now (asked_of request)) (connection_of connection.old) (V.visiting visitor.old) (V.faultless visitor.old) (connection_of connection.new) (V.visiting visitor.new)) }
    ensures stays { V.faultless visitor.old → V.faultless visitor.new }
{
    let Ok(who) = caller.copy() else {
        return no_memory(alloc);
    };
    let Ok(doc) = doc.copy() else {
        return no_memory(alloc);
    };
    take_out(alloc, visitor, connection, route, who, doc, request, steps)
}

/// A caller asks what leaves the connection as it is.
pub(crate) fn ask_book<V: Visitor, G: Ledger>(
    alloc: Global,
    visitor: &mut V,
    connection: &Start,
    route: &Route,
    caller: &Slug,
    request: Request,
    steps: &mut Steps<G>,
) -> Result<Answer, Memory>
    requires room { 0 < (V.visiting visitor.old).room }
    requires legal { IsLegal (V.visiting visitor.old).seen }
    requires leaves { leaves_connection (asked_of request) ≡ true }
    ensures served { IsGiven result (IsCarriedOut (AsksBook route.now caller.now (asked_of request)) (connection_of connection.now) (V.visiting visitor.old) (V.faultless visitor.old) (connection_of connection.now) (V.visiting visitor.new)) }
    ensures stays { V.faultless visitor.old → V.faultless visitor.new }
{
    let reply = ask(visitor, caller, request, steps);
    answer_of(alloc, route, &reply)
}

// ---- the desk that is held

/// The layer of a desk as a request to commit it.
fn commit_request(held: &Held, layer: &Arc<Layer>) -> Result<Request, Memory>
    ensures { IfOk result (λ request. asked_of request ≡ Commit held.now.doc held.now.hold (arc_value layer.now)) }
{
    Ok(Request::Commit {
        doc: held.doc.copy()?,
        hold: held.hold,
        layer: layer.clone()?,
    })
}

/// Whether a layer was committed.
fn is_committed(reply: &Reply) -> bool
    ensures { result ≡ is_committed (answer_of reply.now) }
{
    match reply {
        Reply::Committed { .. } => true,
        _ => false,
    }
}

/// Commits the layer of a desk.
pub(crate) fn commit<V: Visitor, G: Ledger>(
    alloc: Global,
    visitor: &mut V,
    held: &mut Held,
    steps: &mut Steps<G>,
) -> Result<Answer, Memory>
    requires room { 0 < (V.visiting visitor.old).room }
    requires legal { IsLegal (V.visiting visitor.old).seen }
    ensures served { IsGiven result (IsCarriedOut (commits (holding_of held.old)) (Holds (holding_of held.old)) (V.visiting visitor.old) (V.faultless visitor.old) (Holds (holding_of held.new)) (V.visiting visitor.new)) }
    ensures stays { V.faultless visitor.old → V.faultless visitor.new }
{
    let Ok(layer) = held.desk.shared() else {
        return no_memory(alloc);
    };
    let Ok(request) = commit_request(held, &layer) else {
        return no_memory(alloc);
    };
    let reply = ask(visitor, &held.who, request, steps);
    if is_committed(&reply) {
        held.desk.settle(layer);
    }
    answer_of(alloc, &Route::Desk(DeskRoute::Commit), &reply)
}

/// The commands of a desk as a request to park it, under its hold. Cost: the commands.
pub fn park_request(held: &Held) -> Result<Request, Memory>
    ensures { IfOk result (λ request. asked_of request ≡ Park held.now.doc held.now.hold held.now.desk.done held.now.desk.undone) }
{
    Ok(Request::Park {
        doc: held.doc.copy()?,
        hold: held.hold,
        done: held.desk.done()?,
        undone: held.desk.undone()?,
    })
}

/// Whether a desk is given up.
fn is_given_up(reply: &Reply) -> bool
    ensures { result ≡ is_given_up (answer_of reply.now) }
{
    match reply {
        Reply::Parked => true,
        Reply::Refused(BookRefusal::NotYours, _) => true,
        _ => false,
    }
}

/// What a desk answers, and whether the connection gives it up.
#[derive(Drop)]
pub(crate) struct DeskAnswer {
    pub answer: Result<Answer, Memory>,
    pub leaves: bool,
}

/// Parks a desk.
pub(crate) fn park<V: Visitor, G: Ledger>(
    alloc: Global,
    visitor: &mut V,
    held: &Held,
    steps: &mut Steps<G>,
) -> DeskAnswer
    requires room { 0 < (V.visiting visitor.old).room }
    requires legal { IsLegal (V.visiting visitor.old).seen }
    ensures served { IsGiven result.answer (IsCarriedOut (parks (holding_of held.now)) (Holds (holding_of held.now)) (V.visiting visitor.old) (V.faultless visitor.old) (given_up result.leaves (Holds (holding_of held.now))) (V.visiting visitor.new)) }
    ensures stays { V.faultless visitor.old → V.faultless visitor.new }
{
    let Ok(request) = park_request(held) else {
        return DeskAnswer {
            leaves: false,
            answer: no_memory(alloc),
        };
    };
    let reply = ask(visitor, &held.who, request, steps);
    DeskAnswer {
        leaves: is_given_up(&reply),
        answer: answer_of(alloc, &Route::Desk(DeskRoute::Park), &reply),
    }
}
