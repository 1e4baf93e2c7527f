//! A visitor that takes turns.
ghost use Rattle.std.specs.Prelude.{◌≡◌};
ghost use Rattle.turn_hall.specs.Passes.{visiting_of};

use crate::hall::Hall;
use crate::pass::Pass;
use mark_base::{Slug, Steps};
use project_book::{Reply, Request, Visitor};
use project_journal::Keeper;
use std::sync::Wait;
use std::sync::ledger::Ledger;

/// A visitor that takes turns: each request waits for a turn of its own, and ends it before it is answered. No fault of
/// the keeper is ruled out for it, since others ask the keeper too.
#[derive(Drop)]
pub struct Guest<'h, K: Keeper, R: Wait> {
    rt: &'h R,
    hall: &'h Hall<K>,
    pass: Pass,
    ghost of_hall: { pass.hall ≡ hall.now.id },
}

impl<'h, K: Keeper, R: Wait> Guest<'h, K, R> {
    /// A visitor with what the pass knows, which waits by `rt`.
    pub fn new(rt: &'h R, hall: &'h Hall<K>, pass: Pass) -> Guest<'h, K, R>
        requires { pass.hall ≡ hall.now.id }
        ensures visiting { ⟦<Guest<'h, K, R> as Visitor>⟧.visiting result ≡ visiting_of pass }
        ensures pass { result.pass ≡ pass }
    {
        Guest { rt, hall, pass }
    }

    /// Gives the pass up, with what it knows by now.
    pub fn into_pass(self) -> Pass
        ensures visiting { visiting_of result ≡ ⟦<Guest<'h, K, R> as Visitor>⟧.visiting self.entry }
        ensures pass { result ≡ self.entry.pass }
    {
        let Guest {
            rt: _,
            hall: _,
            pass,
        } = self;
        pass
    }
}

impl<'h, K: Keeper, R: Wait> Visitor for Guest<'h, K, R> {
    ghost use Rattle.turn_hall.specs.Passes.{visiting_of};

    ghost visiting = { λ guest. visiting_of guest.pass };

    ghost faultless = { λ guest. ⊥ };

    fn keeps(&self) {
        self.pass.keeps();
    }

    fn place(&self) -> u64 {
        self.pass.place()
    }

    fn room(&self) -> u64 {
        self.pass.room()
    }

    fn ask<G: Ledger>(&mut self, caller: &Slug, request: Request, steps: &mut Steps<G>) -> Reply {
        self.pass.ask(self.rt, self.hall, caller, request, steps)
    }
}
