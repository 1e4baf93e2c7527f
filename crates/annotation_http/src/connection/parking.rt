//! The desk that a connection holds at its end.
ghost use Rattle.std.specs.Prelude.{◌≡◌, ◌<◌, ◌≤◌, ◌+◌};
ghost use Rattle.project_machine.specs.Legal.{IsLegal};
ghost use Rattle.annotation_http.specs.Exchanges.Connections.{Holds, connection_of, holding_of};
ghost use Rattle.annotation_http.specs.Connection.Steps.{IsLastPark};

use crate::exchanges::{Held, Start};
use mark_base::Steps;
use project_book::{Request, Visitor};
use std::sync::ledger::Ledger;

/// Parks a desk by one request, whose answer is for no one. Its commands are moved into the request, so that no memory
/// is wanted before the visitor is asked.
fn park_held<V: Visitor, G: Ledger>(visitor: &mut V, held: Held, steps: &mut Steps<G>)
    requires room { 0 < (V.visiting visitor.old).room }
    requires legal { IsLegal (V.visiting visitor.old).seen }
    ensures parked { IsLastPark (V.faultless visitor.old) (Holds (holding_of held)) (V.visiting visitor.old) (V.visiting visitor.new) }
    ensures legal { IsLegal (V.visiting visitor.new).seen }
    ensures room { (V.visiting visitor.old).room ≤ (V.visiting visitor.new).room + 1 }
    ensures badge { (V.visiting visitor.new).badge ≡ (V.visiting visitor.old).badge }
    ensures stays { V.faultless visitor.old → V.faultless visitor.new }
{
    let Held {
        who,
        doc,
        hold,
        desk,
        ..
    } = held;
    let scripts = desk.into_scripts();
    let request = Request::Park {
        doc,
        hold,
        done: scripts.0,
        undone: scripts.1,
    };
    let _reply = visitor.ask(&who, request, steps);
}

/// Parks the desk that a connection holds, where it holds one.
pub(crate) fn park_last<V: Visitor, G: Ledger>(
    visitor: &mut V,
    connection: Start,
    steps: &mut Steps<G>,
)
    requires room { 0 < (V.visiting visitor.old).room }
    requires legal { IsLegal (V.visiting visitor.old).seen }
    ensures parked { IsLastPark (V.faultless visitor.old) (connection_of connection) (V.visiting visitor.old) (V.visiting visitor.new) }
    ensures legal { IsLegal (V.visiting visitor.new).seen }
    ensures room { (V.visiting visitor.old).room ≤ (V.visiting visitor.new).room + 1 }
    ensures badge { (V.visiting visitor.new).badge ≡ (V.visiting visitor.old).badge }
    ensures stays { V.faultless visitor.old → V.faultless visitor.new }
{
    match connection {
        Start::Bare => {}
        Start::Held(held) => park_held(visitor, held, steps),
    }
}
