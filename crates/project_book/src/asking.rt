//! One request to a book.
ghost use Rattle.std.specs.Prelude.{◌≡◌, ℕ, List, [], Some};
ghost use Rattle.project_journal.specs.Stops.{LeavesOnly};
ghost use Rattle.project_machine.specs.declared.book_refusal.BookRefusal.TheVariants as no;
ghost use Rattle.project_machine.specs.Asking.{IsDoubted, IsLeftByAsk, IsStep};
ghost use Rattle.project_machine.specs.Requests.{Refused};
ghost use Rattle.project_state.specs.Values.{answer_of, asked_of};
ghost use Rattle.project_book.specs.Answering.{IsAnswered, answer_behind};
ghost use Rattle.project_book.specs.Keeping.{GoesAlong, TellsKeeper, tabling_behind};

use crate::book::Book;
use mark_base::{Slug, Steps, Text};
use project_journal::{Keeper, KeeperFault};
use project_state::{BookRefusal, Reply, Request, states_can_be_restored};
use project_steps::{Judged, is_typed, judge};
use std::alloc::Global;
use std::sync::ledger::Ledger;

/// A refusal that names nothing.
fn refused(alloc: Global, refusal: BookRefusal) -> Reply
    ensures { answer_of result ≡ Refused refusal [] }
{
    Reply::Refused(refusal, Text::from_string(String::new(alloc)))
}

impl<K: Keeper> Book<K> {
    /// One request, where memory and the keeper allow it.
    fn try_ask<G: Ledger>(
        &mut self,
        caller: &Slug,
        request: Request,
        steps: &mut Steps<G>,
    ) -> Result<Reply, KeeperFault>
        ensures { IsAnswered K.kept K.doubt K.moment K.left_since K.faults K.faultless self.old self.new caller.now (asked_of request) (answer_behind result) steps.old steps.new }
    {
        self.keeps();
        states_can_be_restored();
        if !is_typed(&request) {
            return Err(KeeperFault::Memory);
        }
        let judged = match judge(self.alloc, &self.state, &self.tables, caller, request) {
            Ok(judged) => judged,
            Err(_) => return Err(KeeperFault::Memory),
        };
        let Judged { reply, kept } = judged;
        let Some(kept) = kept else {
            return Ok(reply);
        };
        match self.keep(kept, steps) {
            Ok(()) => Ok(reply),
            Err(fault) => Err(fault),
        }
    }

    /// One request of a caller: one step of the project, whose change is kept before it is answered.
    ///
    /// All memory is taken before the keeper is asked, so a change that is kept is done. `Keeper` is answered only
    /// where the keeper counted a fault in this call, and `Memory` where memory ran out, where the history has 2^62
    /// changes, or where a list of a request has more than 4,294,967,295 items; then nothing happened. `steps` counts
    /// the looks at labels and tables. Cost, read off the code and not measured: what the request reads or changes;
    /// a full list of documents or snapshots is moved once in so many additions as it has items.
    pub fn ask<G: Ledger>(&mut self, caller: &Slug, request: Request, steps: &mut Steps<G>) -> Reply
        // The answer and the change are those of the step, or nothing happened, for want of memory or a keeper that failed.
        ensures step { IsStep self.old.log caller.now (asked_of request) (answer_of result) self.new.log }
        // What may be left behind the kept entries by a stop later on: nothing once a change was kept.
        ensures doubted { IsDoubted self.old.log caller.now (asked_of request) (answer_of result) self.new.log (K.doubt self.old.keeper) (K.doubt self.new.keeper) }
        // What a stop at any moment of the call leaves: the entries from before, alone or with one more.
        ensures any_moment { (entries : List (List ℕ)) → K.kept self.old.keeper ≡ Some entries → LeavesOnly K.moment K.left_since self.old.keeper self.new.keeper (IsLeftByAsk self.old.log (K.doubt self.old.keeper) caller.now (asked_of request)) }
        // That the keeper failed is answered only where it counted a fault.
        ensures keeper { TellsKeeper K.faults K.faultless self.old.keeper self.new.keeper (answer_of result ≡ Refused no.Keeper []) }
        // The tables go along: the change does to them what it does by its definition, in no more steps than that
        // takes. Where nothing happens they are as before, and no step is taken.
        ensures tables { GoesAlong (tabling_behind self.old.log self.new.log) self.old.tables self.new.tables steps.old steps.new }
    {
        match self.try_ask(caller, request, steps) {
            Ok(reply) => reply,
            Err(KeeperFault::Failed) => refused(self.alloc, BookRefusal::Keeper),
            Err(KeeperFault::Memory) => refused(self.alloc, BookRefusal::Memory),
        }
    }
}
