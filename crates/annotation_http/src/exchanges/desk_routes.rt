//! The routes of the desk that a connection holds.
ghost use Rattle.std.specs.Prelude.{◌≡◌, ◌<◌};
ghost use Rattle.project_machine.specs.Legal.{IsLegal};
ghost use Rattle.annotation_http.specs.Exchanges.Connections.{Holds, connection_of, holding_of};
ghost use Rattle.annotation_http.specs.Exchanges.Plans.{at_desk, loads, on_desk};
ghost use Rattle.annotation_http.specs.Exchanges.Exchanges.{IsCarriedOut, IsDone, IsGiven, given_up};

use crate::exchanges::asking::{DeskAnswer, commit, park};
use crate::exchanges::connection::{Held, Start};
use http_answers::{
    DeskRoute, MessageFault, do_command, load_file, redo_last, show_lines, undo_last,
};
use http_wire::Answer;
use mark_base::{Memory, Slug, Steps};
use project_book::Visitor;
use std::alloc::Global;
use std::sync::ledger::Ledger;

/// The most bytes of an .ann file that is read.
const MOST_FILE: usize = 16_777_216;

/// Takes an .ann file in place of the layer of a desk.
fn load(alloc: Global, held: &mut Held, body: &[u8]) -> Result<Answer, Memory>
    ensures { IsGiven result (IsDone (loads (holding_of held.old) body.now) (holding_of held.old) (holding_of held.new)) }
{
    if body.len() > MOST_FILE {
        return MessageFault::BadBody.answer(alloc);
    }
    load_file(alloc, &mut held.desk, &held.text, &held.conf, body)
}

/// What a desk answers on a route.
fn on_desk<V: Visitor, G: Ledger>(
    alloc: Global,
    visitor: &mut V,
    held: &mut Held,
    route: DeskRoute,
    body: &[u8],
    steps: &mut Steps<G>,
) -> DeskAnswer
    requires room { 0 < (V.visiting visitor.old).room }
    requires legal { IsLegal (V.visiting visitor.old).seen }
    ensures served { IsGiven result.answer (IsCarriedOut (on_desk (holding_of held.old) route body.now) (Holds (holding_of held.old)) (V.visiting visitor.old) (V.faultless visitor.old) (given_up result.leaves (Holds (holding_of held.new))) (V.visiting visitor.new)) }
    ensures stays { V.faultless visitor.old → V.faultless visitor.new }
{
    match route {
        DeskRoute::Show => {
            let answer = show_lines(alloc, &held.desk, &held.text, &held.conf);
            DeskAnswer {
                answer,
                leaves: false,
            }
        }
        DeskRoute::Do => {
            let answer = do_command(alloc, &mut held.desk, &held.conf, body);
            DeskAnswer {
                answer,
                leaves: false,
            }
        }
        DeskRoute::Undo => {
            let answer = undo_last(alloc, &mut held.desk, &held.conf);
            DeskAnswer {
                answer,
                leaves: false,
            }
        }
        DeskRoute::Redo => {
            let answer = redo_last(alloc, &mut held.desk, &held.conf);
            DeskAnswer {
                answer,
                leaves: false,
            }
        }
        DeskRoute::Load => {
            let answer = load(alloc, held, body);
            DeskAnswer {
                answer,
                leaves: false,
            }
        }
        DeskRoute::Commit => {
            let answer = commit(alloc, visitor, held, steps);
            DeskAnswer {
                answer,
                leaves: false,
            }
        }
        DeskRoute::Park => park(alloc, visitor, held, steps),
    }
}

/// A route of the desk, asked by a caller.
pub(crate) fn at_desk<V: Visitor, G: Ledger>(
    alloc: Global,
    visitor: &mut V,
    connection: &mut Start,
    caller: &Slug,
    route: DeskRoute,
    body: &[u8],
    steps: &mut Steps<G>,
) -> Result<Answer, Memory>
    requires room { 0 < (V.visiting visitor.old).room }
    requires legal { IsLegal (V.visiting visitor.old).seen }
    ensures served { IsGiven result (IsCarriedOut (at_desk (connection_of connection.old) caller.now route body.now) (connection_of connection.old) (V.visiting visitor.old) (V.faultless visitor.old) (connection_of connection.new) (V.visiting visitor.new)) }
    ensures stays { V.faultless visitor.old → V.faultless visitor.new }
{
    let done = match connection {
        Start::Bare => return MessageFault::NoDesk.answer(alloc),
        Start::Held(held) => {
            if held.who.text() != caller.text() {
                return MessageFault::NotYours.answer(alloc);
            }
            on_desk(alloc, visitor, held, route, body, steps)
        }
    };
    if done.leaves {
        *connection = Start::Bare;
    }
    done.answer
}
