//! The steps on a hall: what each makes of a view.
use crate::view::View;
use atomic_table::{Join, Play, Split};
use project_book::Book;
use project_journal::Keeper;
use std::marker::PhantomData;

/// A ticket is drawn.
pub struct Draw;

impl<K: Keeper> Play<Option<Book<K>>, View> for Draw {
    ghost use Rattle.turn_hall.specs.Steps.{Draws};

    ghost then = { λ step before found after. Draws before found after };
}

/// The turn is looked at, and the book taken where the turn is the ticket's.
pub struct Look<K> {
    of: PhantomData<K>,
}

impl<K: Keeper> Play<Option<Book<K>>, View> for Look<K> {
    ghost use Rattle.turn_hall.specs.Steps.{Looks};

    ghost then = { λ step before found after. Looks K.faults before found after };
}

/// The turn goes on, and the book is given back.
pub struct Give<K> {
    of: PhantomData<K>,
}

impl<K: Keeper> Play<Option<Book<K>>, View> for Give<K> {
    ghost use Rattle.turn_hall.specs.Steps.{Gives};

    ghost then = { λ step before found after. Gives K.faults before after };
}

/// The turn is looked at by a pass that took in another.
pub struct Learn;

impl<K: Keeper> Play<Option<Book<K>>, View> for Learn {
    ghost use Rattle.turn_hall.specs.Steps.{Learns};

    ghost then = { λ step before found after. Learns before after };
}

/// A pass is split.
pub struct Cut;

impl Split<View> for Cut {
    ghost use Rattle.turn_hall.specs.Steps.{split_from, split_off};

    ghost left = { split_from };

    ghost right = { split_off };
}

/// A note is taken of a pass.
pub struct Write;

impl Split<View> for Write {
    ghost use Rattle.turn_hall.specs.Steps.{noted};

    ghost left = { λ v. v };

    ghost right = { noted };
}

/// A pass learns a note.
pub struct Hear;

impl Join<View> for Hear {
    ghost use Rattle.turn_hall.specs.Steps.{heard};
    ghost use Rattle.turn_hall.specs.Views.{blank};

    ghost both = { heard };

    ghost spent = { blank };
}

/// A pass takes in another.
pub struct Unite;

impl Join<View> for Unite {
    ghost use Rattle.turn_hall.specs.Steps.{both};
    ghost use Rattle.turn_hall.specs.Views.{blank};

    ghost both = { both };

    ghost spent = { blank };
}
