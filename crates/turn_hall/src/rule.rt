//! The rule of a hall.
use crate::view::View;
use atomic_table::TableRule;
use project_book::Book;
use project_journal::Keeper;
use std::marker::PhantomData;
use std::snapshot::Snapshot;

/// The rule of a hall over a book of this keeper: it is told the book that the hall is opened with.
pub struct HallRule<K: Keeper> {
    of: PhantomData<K>,
}

impl<K: Keeper> TableRule<Option<Book<K>>, View, Snapshot<Book<K>>> for HallRule<K> {
    ghost use Rattle.turn_hall.specs.Rule.{Holds};
    ghost use Rattle.turn_hall.specs.Views.{first_view};

    ghost holds = { λ key s. Holds key.value.log s };

    ghost first = { λ key. first_view key.value.log };
}
