//! A console that is served with a project.
ghost use Rattle.std.specs.Prelude.{◌≡◌, ◌≢◌, ◌≤◌, IfErr, IsErrOf};
ghost use Rattle.mark_base.specs.Streams.{TellsFault};
ghost use Rattle.project_machine.specs.Legal.{IsLegal};
ghost use Rattle.annotation_http.specs.Exchanges.Connections.{connection_of};
ghost use Rattle.project_commands.specs.Commands.Serving.{Serves, ending_of};

use annotation_http::{Ending, Start, serve_link};
use mark_base::{Link, Steps};
use program_inputs::Trouble;
use project_book::Visitor;
use std::alloc::Global;
use std::sync::ledger::Ledger;

/// What an ending comes to.
fn ending_of(ending: Ending) -> Result<(), Trouble>
    ensures { result ≡ ending_of ending }
{
    match ending {
        Ending::End | Ending::Closed => Ok(()),
        Ending::Cut => Err(Trouble::Cut),
        Ending::BadHead => Err(Trouble::BadHead),
        Ending::NeedsLength => Err(Trouble::NeedsLength),
        Ending::TooLarge => Err(Trouble::TooLarge),
        Ending::Encoded => Err(Trouble::Encoded),
        Ending::Spent => Err(Trouble::Spent),
        Ending::ReadFault => Err(Trouble::ReadFault),
        Ending::WriteFault => Err(Trouble::WriteFault),
        Ending::Memory => Err(Trouble::Memory),
    }
}

/// Serves the console as one connection to a project. Cost: what is asked on it.
pub fn serve<V: Visitor, C: Link, G: Ledger>(
    alloc: Global,
    visitor: &mut V,
    start: Start,
    console: &mut C,
    steps: &mut Steps<G>,
) -> Result<(), Trouble>
    requires room { 1000002 ≤ (V.visiting visitor.old).room }
    requires legal { IsLegal (V.visiting visitor.old).seen }
    ensures told { Serves (V.faultless visitor.old) (connection_of start) (V.visiting visitor.old) (V.visiting visitor.new) (C.left console.old) (C.left console.new) (C.held console.old) (C.held console.new) result }
    ensures legal { IsLegal (V.visiting visitor.new).seen }
    ensures badge { (V.visiting visitor.new).badge ≡ (V.visiting visitor.old).badge }
    ensures stays { V.faultless visitor.old → V.faultless visitor.new }
    ensures folder { IfErr result (λ trouble. trouble ≢ Trouble.FileFailed) }
    ensures disk { IfErr result (λ trouble. trouble ≢ Trouble.DiskFailed) }
    ensures free { IfErr result (λ trouble. trouble ≢ Trouble.DiskInUse) }
    ensures read { TellsFault (IsErrOf result Trouble.ReadFault) (C.read_faults console.old) (C.read_faults console.new) }
    ensures write { TellsFault (IsErrOf result Trouble.WriteFault) (C.write_faults console.old) (C.write_faults console.new) }
{
    ending_of(serve_link(alloc, visitor, start, console, steps))
}
