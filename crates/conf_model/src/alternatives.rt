//! Which types may stand in a place.
ghost use Rattle.std.specs.Prelude.{◌≡◌, IfOk};

use mark_base::Memory;
use std::alloc::{AllocError, Global};
use std::marker::Model;

/// Places in a table of the configuration, from 0. Contracts see them as the list of their numbers.
#[derive(Debug, Drop)]
pub struct Places {
    items: Vec<u16>,
}

impl Model for Places {
    ghost use Rattle.std.specs.Prelude.{List, ℕ};

    ghost Value = { List ℕ };

    ghost view = { λ list. list.items.items };
}

impl Places {
    /// The places of a vector, which is not copied.
    pub fn from_vec(items: Vec<u16>) -> Self
        ensures { result ≡ items.items }
    {
        Places { items }
    }

    /// The places in their order.
    pub fn items(&self) -> &[u16]
        ensures { result.now ≡ self.now }
    {
        self.items.as_slice()
    }
}

/// Which types may stand in a place: all entity types, all event types, either, all relation types, and
/// types and relation types by their places.
#[derive(Debug, Drop)]
pub struct Alternatives {
    pub entity: bool,
    pub event: bool,
    pub any: bool,
    pub relation: bool,
    pub bound: Places,
    pub between: Places,
}
