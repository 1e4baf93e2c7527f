//! What is said of a connection step by step is said of one history. The functions do nothing; their contracts are the
//! laws.
ghost use Rattle.std.specs.Prelude.{◌≡◌, ℕ, false, List, ◌++◌, Option};
ghost use Rattle.std.specs.List.{list_any};
ghost use Rattle.http_wire.specs.declared.message.Message.{Message};
ghost use Rattle.project_machine.specs.Asking.{Visiting};
ghost use Rattle.project_machine.specs.Legal.{IsLegal};
ghost use Rattle.project_machine.specs.Requests.{Happened};
ghost use Rattle.annotation_http.specs.Exchanges.Connections.{Connection};
ghost use Rattle.annotation_http.specs.declared.connection.ending.Ending.{Ending};
ghost use Rattle.annotation_http.specs.Connection.Steps.{Given, Serving, place_of};
ghost use Rattle.annotation_http.specs.Connection.Session.{ConnectionTold, Run};
ghost use Rattle.annotation_http.specs.Connection.Talk.{talk_of};
ghost use Rattle.annotation_http.specs.Connection.OneHistory.{ConnectionToldBy, RunToldBy};

use project_book::Visitor;

/// Messages that are answered in turn are answered by one history: the one that is seen behind them, and each that goes
/// on from it.
pub fn messages_tell_one_history()
    ensures { (old new : Serving) (more : List Happened) (messages : List Message) (answers : List Given) → IsLegal old.visiting.seen → Run old messages answers new → RunToldBy (new.visiting.seen ++ more) old messages answers new }
{}

/// So is a whole connection of a visitor, as `serve_link` tells it: its messages, the last one too, behind which it ended,
/// and the last park. Where no fault of the keeper can come, no answer says that it failed.
pub fn connections_tell_one_history<V: Visitor>(visitor: &V)
    ensures history { (start : Connection) (old new : Visiting) (left now before written : Option (List ℕ)) (end : Ending) (more : List Happened) (told : ConnectionTold (V.faultless visitor.now) start old new left now before written end) → IsLegal old.seen → ConnectionToldBy (new.seen ++ more) start old new (place_of told.behind) (talk_of told) }
    ensures quiet { (start : Connection) (old new : Visiting) (left now before written : Option (List ℕ)) (end : Ending) (told : ConnectionTold (V.faultless visitor.now) start old new left now before written end) → V.faultless visitor.now → list_any (λ given. given.failed) (talk_of told).answers ≡ false }
{}
