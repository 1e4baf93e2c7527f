//! A run of pieces as it grows.
ghost use Rattle.std.specs.Prelude.{◌≡◌, ◌∷◌, ◌++◌, [], OnOk, map};
ghost use Rattle.std.specs.List.{All};
ghost use Rattle.entry_bytes.specs.Entries.{entry_bytes};
ghost use Rattle.project_state.specs.Entries.Writing.{HasFewPeople};
ghost use Rattle.project_journal.specs.Keeper.{IsEntry};

use entry_bytes::{Entry, entries_have_bytes};
use mark_base::{Bytes, Memory};
use project_state::{Written, entry_written};
use std::alloc::Global;
use std::marker::Model;

/// The bytes of the pieces so far, each of which a journal takes.
#[derive(Drop)]
pub(crate) struct Run {
    entries: Vec<Bytes>,
}

impl Model for Run {
    ghost use Rattle.std.specs.Prelude.{List, ℕ};
    ghost use Rattle.std.specs.Coded.{coded_list, coded_ℕ};
    ghost use Rattle.std.specs.List.{All};
    ghost use Rattle.project_journal.specs.Keeper.{IsEntry};

    ghost Value = { List (List ℕ) };

    ghost coded = { coded_list (coded_list coded_ℕ) };

    ghost view = { λ run. run.entries.items };

    ghost invariant = { λ run. All IsEntry run.entries.items };
}

impl Run {
    /// No piece yet.
    pub(crate) fn new(alloc: Global) -> Run
        ensures { result ≡ [] }
    {
        Run {
            entries: Vec::new(alloc),
        }
    }

    /// Adds a piece. One of more than 16,777,216 bytes is answered as want of memory.
    pub(crate) fn put(&mut self, alloc: Global, piece: &Entry) -> Result<(), Memory>
        requires { HasFewPeople piece.now }
        ensures { OnOk result (self.new ≡ self.old ++ map entry_bytes (piece.now ∷ [])) }
    {
        entries_have_bytes();
        match entry_written(alloc, piece)? {
            Written::Bytes(bytes) => {
                self.entries.push(bytes)?;
                Ok(())
            }
            Written::TooLong(_) => Err(Memory),
        }
    }

    /// The bytes of each piece.
    pub(crate) fn into_vec(self) -> Vec<Bytes>
        ensures same { result.items ≡ self }
        ensures entries { All IsEntry result.items }
    {
        let Run { entries } = self;
        entries
    }
}
