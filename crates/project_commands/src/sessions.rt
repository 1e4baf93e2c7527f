//! The command `session`: the console is served with the project of a file.
ghost use Rattle.std.specs.Prelude.{◌≡◌, ◌≢◌, None, IfErr, IsErrOf};
ghost use Rattle.mark_base.specs.Streams.{TellsFault};
ghost use Rattle.named_disks.specs.NamedDisks.{IsIn, KeepsOthers, is_there, reads_as};
ghost use Rattle.project_commands.specs.Sessions.{ServesBook, SessionTold};

use crate::commands::serve;
use annotation_http::Start;
use mark_base::{Link, Steps};
use named_disks::Disks;
use program_inputs::{Trouble, give_project_back, open_project};
use project_book::{Alone, Book};
use project_journal::Keeper;
use std::alloc::Global;
use std::sync::ledger::Ledger;

/// A project behind a session, and what the session came to.
#[derive(Drop)]
struct Behind<K: Keeper> {
    project: Book<K>,
    done: Result<(), Trouble>,
}

/// Serves the console with a project.
fn serve_alone<K: Keeper, C: Link, G: Ledger>(
    alloc: Global,
    project: Book<K>,
    console: &mut C,
    steps: &mut Steps<G>,
) -> Behind<K>
    ensures served { ServesBook (K.faultless project.keeper) project.log (C.left console.old) (C.left console.new) (C.held console.old) (C.held console.new) result.done result.project.log }
    ensures stays { K.faultless project.keeper → K.faultless result.project.keeper }
    ensures disk { IfErr result.done (λ trouble. trouble ≢ Trouble.DiskFailed) }
    ensures free { IfErr result.done (λ trouble. trouble ≢ Trouble.DiskInUse) }
    ensures folder { IfErr result.done (λ trouble. trouble ≢ Trouble.FileFailed) }
    ensures read { TellsFault (IsErrOf result.done Trouble.ReadFault) (C.read_faults console.old) (C.read_faults console.new) }
    ensures write { TellsFault (IsErrOf result.done Trouble.WriteFault) (C.write_faults console.old) (C.write_faults console.new) }
{
    project.keeps();
    let mut visitor = Alone::new(project);
    let done = serve(alloc, &mut visitor, Start::Bare, console, steps);
    Behind {
        project: visitor.into_book(),
        done,
    }
}

/// `session BOOK`: opens the project of a file and serves the console as one connection to it, until the input ends or a
/// message asks to close. A layer that is still out at the end is parked. Cost: opening the project, and what is asked.
pub fn serve_session<D: Disks, C: Link, G: Ledger>(
    alloc: Global,
    book: &str,
    disks: &mut D,
    console: &mut C,
    steps: &mut Steps<G>,
) -> Result<(), Trouble>
    requires { IsIn (D.out disks.old) book.now }
    ensures told { SessionTold (D.faultless disks.old) (reads_as (D.stored disks.old) book.now) (reads_as (D.stored disks.new) book.now) (C.left console.old) (C.left console.new) (C.held console.old) (C.held console.new) result }
    ensures taken_back { IsIn (D.out disks.new) book.now }
    ensures others { KeepsOthers book.now (D.stored disks.old) (D.out disks.old) (D.stored disks.new) (D.out disks.new) }
    ensures none_made { is_there (D.stored disks.new) book.now ≡ is_there (D.stored disks.old) book.now }
    ensures stays { D.faultless disks.old → D.faultless disks.new }
    ensures never { D.faultless disks.old → IsErrOf result Trouble.DiskFailed → ⊥ }
    ensures free { D.faultless disks.old → IsErrOf result Trouble.DiskInUse → ⊥ }
    ensures folder { IfErr result (λ trouble. trouble ≢ Trouble.FileFailed) }
    ensures read { TellsFault (IsErrOf result Trouble.ReadFault) (C.read_faults console.old) (C.read_faults console.new) }
    ensures write { TellsFault (IsErrOf result Trouble.WriteFault) (C.write_faults console.old) (C.write_faults console.new) }
{
    let project = open_project(alloc, disks, book)?;
    let Behind { project, done } = serve_alone(alloc, project, console, steps);
    give_project_back(disks, book, project);
    done
}
