//! The history of a book: its changes as clauses see them, which have no bytes.
ghost use Rattle.std.specs.Prelude.{◌≡◌, ◌<◌, ◌∷◌, ◌++◌, [], length};
ghost use Rattle.project_state.specs.Values.{happened_of};

use past::Past;
use project_state::Change;
use std::marker::Model;

/// The changes of a project in turn. Clauses see each of them whole; when the program runs only their number is there.
#[derive(Drop)]
pub(crate) struct History {
    changes: Past<Change>,
    count: u64,
}

impl Model for History {
    ghost use Rattle.std.specs.Prelude.{◌≡◌, List, length, map};
    ghost use Rattle.std.specs.Coded.{coded_list};
    ghost use Rattle.project_machine.specs.Requests.{Happened};
    ghost use Rattle.project_state.specs.Values.{happened_of};
    ghost use Rattle.project_book.specs.Codes.{happened_code};

    ghost Value = { List Happened };

    ghost coded = { coded_list happened_code };

    ghost view = { λ history. map happened_of history.changes.items };

    ghost invariant = { λ history. history.count ≡ length (map happened_of history.changes.items) };
}

impl History {
    /// The history of one change.
    pub(crate) fn of(change: &Change) -> History
        ensures { result ≡ happened_of change.now ∷ [] }
    {
        History {
            changes: Past::new().and(change),
            count: 1,
        }
    }

    /// How many changes there are.
    pub(crate) fn count(&self) -> u64
        ensures { result ≡ length self.now }
    {
        self.count
    }

    /// One change more, which is remembered and not taken.
    pub(crate) fn push(&mut self, change: &Change)
        requires { length self.old < 4611686018427387904 }
        ensures { self.new ≡ self.old ++ happened_of change.now ∷ [] }
    {
        self.changes = self.changes.and(change);
        self.count += 1;
    }
}
