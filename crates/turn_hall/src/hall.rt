//! A hall: a book that passes take in turn.
ghost use Rattle.std.specs.Prelude.{◌≡◌, ◌+◌, true, IfOk, IfErr, IsOk};
ghost use Rattle.turn_hall.specs.Passes.{IsClosed};
ghost use Rattle.turn_hall.specs.Views.{first_view};

use crate::pass::Pass;
use crate::rule::HallRule;
use crate::view::View;
use atomic_table::Table;
use project_book::Book;
use project_journal::Keeper;
use std::alloc::Global;
use std::marker::Model;
use std::snapshot::Snapshot;

/// A book that passes take in turn. Contracts see which hall it is, and the history that it was opened with.
#[derive(Drop)]
pub struct Hall<K: Keeper> {
    pub(crate) table: Table<Option<Book<K>>, View, Snapshot<Book<K>>, HallRule<K>, Global>,
}

impl<K: Keeper> Model for Hall<K> {
    ghost use Rattle.std.specs.Prelude.{◌≡◌};
    ghost use Rattle.turn_hall.specs.Codes.{hall_code};
    ghost use Rattle.turn_hall.specs.Passes.{HallValue};

    ghost Value = { HallValue };

    ghost coded = { hall_code };

    ghost view = { λ h. record { id = h.table.shared.table_id; opening = h.table.shared.key.value.log } };

    ghost invariant = { λ h. (h.table.shared.table_id.words ≡ 2) × (h.table.shared.table_id.slots ≡ 1) };
}

impl<K: Keeper> Hall<K> {
    /// Opens a hall for a book, with its first pass, which has seen the book's history and may ask 4,294,967,296 times.
    /// For want of memory the book is given back.
    pub fn open(alloc: Global, book: Book<K>) -> Result<(Hall<K>, Pass), Book<K>>
        ensures hall { IfOk result (λ made. (made.0.opening ≡ book.log) × (made.1.hall ≡ made.0.id)) }
        ensures pass { IfOk result (λ made. made.1.knows ≡ first_view book.log) }
        ensures back { IfErr result (λ back. back ≡ book) }
    {
        book.keeps();
        let about = Snapshot::of(&book);
        let place = book.place();
        let mut slots = Vec::new(alloc);
        if let Err(refused) = slots.push(Some(book)) {
            match refused.value {
                Some(book) => return Err(book),
                None => unreachable!(),
            }
        }
        match Table::new(alloc, &[0, 0], slots, &about) {
            Ok((table, seat)) => Ok((
                Hall { table },
                Pass {
                    badge: seat.into_badge(),
                    place,
                    room: 4_294_967_296,
                    splits: 0,
                    stands_for: 1,
                    first: true,
                },
            )),
            Err(mut refused) => match refused.slots.pop() {
                Some(Some(book)) => Err(book),
                _ => unreachable!(),
            },
        }
    }

    /// Closes a hall, whose other passes were all joined to its first one, and gives the book. A note need not be learnt.
    /// No memory is taken, so the book is always given.
    pub fn close(self, pass: Pass) -> Result<Book<K>, (Hall<K>, Pass)>
        requires hall { pass.hall ≡ self.id }
        requires first { pass.knows.first ≡ true }
        requires all { pass.knows.stands_for ≡ pass.knows.splits + 1 }
        ensures given { IsOk result }
        ensures closed { IfOk result (λ book. IsClosed self.opening pass.knows book) }
    {
        Ok(self.closed_by(pass))
    }

    /// The book of a hall that is closed.
    fn closed_by(self, pass: Pass) -> Book<K>
        requires hall { pass.hall ≡ self.id }
        requires first { pass.knows.first ≡ true }
        requires all { pass.knows.stands_for ≡ pass.knows.splits + 1 }
        ensures { IsClosed self.opening pass.knows result }
    {
        let Hall { table } = self;
        let Pass { badge, .. } = pass;
        let mut closed = table.close_with(badge.into_seat());
        let slot = closed.take(0);
        closed.free();
        match slot {
            Some(book) => book,
            None => unreachable!(),
        }
    }
}
