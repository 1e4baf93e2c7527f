//! The one visitor of a book.
ghost use Rattle.std.specs.Prelude.{◌≡◌, ◌≤◌};
ghost use Rattle.project_machine.specs.History.{begin, last};
ghost use Rattle.project_book.specs.Visits.{visiting_alone};

use crate::book::Book;
use crate::visitor::Visitor;
use mark_base::{Slug, Steps};
use project_journal::Keeper;
use project_state::{Reply, Request};
use std::sync::ledger::Ledger;

/// The one visitor that owns the book: every change is its own since it began.
#[derive(Drop)]
pub struct Alone<K: Keeper> {
    book: Book<K>,
    room: u64,
    began: u64,
    ghost begins: { began ≤ last book.log },
    ghost behind: { begin book.log ≤ began },
}

impl<K: Keeper> Alone<K> {
    /// A visitor at the place of the book, which may ask 18,446,744,073,709,551,615 times.
    pub fn new(book: Book<K>) -> Alone<K>
        ensures visiting { ⟦<Alone<K> as Visitor>⟧.visiting result ≡ visiting_alone book.log (last book.log) (K.faults book.keeper) 18446744073709551615 }
        ensures book { result.book ≡ book }
    {
        let began = book.place();
        Alone {
            book,
            room: u64::MAX,
            began,
        }
    }

    /// Gives the book up.
    pub fn into_book(self) -> Book<K>
        ensures { result ≡ self.book }
    {
        let Alone {
            book,
            room: _,
            began: _,
        } = self;
        book
    }
}

impl<K: Keeper> Visitor for Alone<K> {
    ghost use Rattle.std.specs.Prelude.{◌≤◌};
    ghost use Rattle.project_machine.specs.History.{begin, last};
    ghost use Rattle.project_book.specs.Visits.{visiting_alone};

    ghost visiting = { λ a. visiting_alone a.book.log a.began (K.faults a.book.keeper) a.room };

    ghost faultless = { λ a. K.faultless a.book.keeper };

    fn keeps(&self) {
        self.book.keeps();
    }

    fn place(&self) -> u64 {
        self.book.place()
    }

    fn room(&self) -> u64 {
        self.room
    }

    fn ask<G: Ledger>(&mut self, caller: &Slug, request: Request, steps: &mut Steps<G>) -> Reply {
        self.book.keeps();
        self.room -= 1;
        let reply = self.book.ask(caller, request, steps);
        self.book.keeps();
        reply
    }
}
