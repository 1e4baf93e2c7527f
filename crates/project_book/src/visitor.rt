//! What a connection sees of a project.
ghost use Rattle.std.specs.Prelude.{◌≡◌, ℕ, ◌+◌, ◌<◌, ◌≤◌};
ghost use Rattle.project_machine.specs.Asking.{IsVisiting, StaysFaultless, Visited, Visiting};
ghost use Rattle.project_machine.specs.History.{last};
ghost use Rattle.project_machine.specs.Legal.{IsLegal};
ghost use Rattle.project_state.specs.Values.{answer_of, asked_of};
ghost use Rattle.project_book.specs.Visits.{own_steps};

use mark_base::{Slug, Steps};
use project_state::{Reply, Request};
use std::sync::ledger::Ledger;

/// One that asks a project, alone or beside others, and knows at which place of its history.
pub trait Visitor: Drop {
    /// What it has seen: the changes up to its place, the places of its own, the faults that it met, and how often it
    /// may still ask.
    ghost visiting: { Self → Visiting };

    /// From here on the keeper is not at fault in any answer.
    ghost faultless: { Self → Type 0 };

    /// Tells a proof what each visitor keeps. It does nothing.
    fn keeps(&self)
        ensures { IsVisiting (visiting self.now) };

    /// The place of the last change that it has seen.
    fn place(&self) -> u64
        ensures { IsLegal (visiting self.now).seen → result ≡ last (visiting self.now).seen };

    /// How often it may still ask.
    fn room(&self) -> u64
        ensures { result ≡ (visiting self.now).room };

    /// One request of a caller, behind what others did since. The room falls by 1, whatever is answered. The steps that
    /// `steps` counts are those of the visitor's own change at most.
    fn ask<G: Ledger>(&mut self, caller: &Slug, request: Request, steps: &mut Steps<G>) -> Reply
        requires { 0 < (visiting self.old).room }
        ensures visited { Visited (visiting self.old) (visiting self.new) caller.now (asked_of request) (answer_of result) }
        ensures faultless { StaysFaultless (faultless self.old) (faultless self.new) (visiting self.old) (visiting self.new) (answer_of result) }
        ensures few { steps.new ≤ steps.old + own_steps (visiting self.old) (visiting self.new) };
}
