//! A project over what keeps its entries.
ghost use Rattle.std.specs.Prelude.{◌≡◌, length, option_map};
ghost use Rattle.std.specs.Option.{option_copied};
ghost use Rattle.project_machine.specs.Asking.{IsKeptBy};
ghost use Rattle.project_machine.specs.History.{after, last};
ghost use Rattle.project_machine.specs.Legal.{HasRoom, IsKept, IsLegal};
ghost use Rattle.project_machine.specs.ProjectState.{snapshot_of};
ghost use Rattle.project_book.specs.Keeping.{AreTables};

use crate::history::History;
use kappa_alpha::Tables;
use label_tracks::Groups;
use layer_model::Snapshot;
use project_journal::Keeper;
use project_state::{BookState, Roster, StoredSnapshot, states_can_be_restored};
use std::alloc::Global;
use std::marker::Model;

/// The snapshot of a number that was taken, from 1.
#[tactic(auto, using(crate::proofs::NumberLemmas::untaken_at_zero, crate::proofs::NumberLemmas::numbered_at))]
fn snapshot_numbered(state: &BookState, number: u64) -> Option<&StoredSnapshot>
    ensures { option_copied result ≡ snapshot_of state.now.state number }
{
    if number == 0 {
        return None;
    }
    state.snapshots().get((number - 1) as usize)
}

/// A project over what keeps its entries. Contracts see its history, its keeper and its tables of agreement.
///
/// Between two calls the history is a legal one, the tables are those of the state behind it, counted anew, and what
/// the keeper tells are the entries of the history. A history has at most 2^62 changes. Clauses alone see them: the
/// memory of a book is that of its state, its tables and its keeper, however many changes led there.
#[derive(Drop)]
pub struct Book<K: Keeper> {
    pub(crate) alloc: Global,
    pub(crate) state: BookState,
    pub(crate) groups: Groups,
    pub(crate) tables: Tables,
    pub(crate) log: History,
    pub(crate) keeper: K,
}

impl<K: Keeper> Model for Book<K> {
    ghost use Rattle.project_book.specs.Keeping.{BookValue, Stands};
    ghost use Rattle.project_book.specs.Codes.{book_code};

    ghost Value = { BookValue K };

    ghost coded = { book_code K.code };

    ghost view = { λ b. record { log = b.log; keeper = b.keeper; tables = b.tables } };

    ghost invariant = { λ b. Stands b.log b.state.state b.groups b.tables (K.kept b.keeper) (K.doubt b.keeper) };
}

impl<K: Keeper> Book<K> {
    /// Tells a proof what each book keeps. It does nothing.
    pub fn keeps(&self)
        ensures legal { IsLegal self.now.log }
        ensures room { HasRoom self.now.log }
        ensures tables { AreTables (after self.now.log) self.now.tables }
        ensures kept { IsKeptBy self.now.log (K.kept self.now.keeper) (K.doubt self.now.keeper) }
    {
        let _log = &self.log;
    }

    /// The state after the last change, to be read.
    pub fn state(&self) -> &BookState
        ensures same { result.now.state ≡ after self.now.log }
        ensures kept { IsKept result.now.state }
    {
        states_can_be_restored();
        &self.state
    }

    /// The place of the last change. The founding stands at 1.
    pub fn place(&self) -> u64
        ensures { result ≡ last self.now.log }
    {
        self.state.place()
    }

    /// The people in the order of their names.
    pub fn roster(&self) -> &Roster
        ensures { result.now ≡ (after self.now.log).people }
    {
        self.state.roster()
    }

    /// The tables of agreement.
    pub fn tables(&self) -> &Tables
        ensures same { result.now ≡ self.now.tables }
        ensures counted { AreTables (after self.now.log) result.now }
    {
        &self.tables
    }

    /// The layers of the snapshot of a number, from 1, or `None` where none of that number was taken.
    pub fn snapshot(&self, number: u64) -> Option<&Snapshot>
        ensures { option_copied result ≡ option_map (λ shot. shot.holders) (snapshot_of (after self.now.log) number) }
    {
        match snapshot_numbered(&self.state, number) {
            Some(taken) => Some(taken.layers()),
            None => None,
        }
    }

    /// How many changes the history has, the one with which it begins among them.
    pub fn changes(&self) -> u64
        ensures { result ≡ length self.now.log }
    {
        self.log.count()
    }

    /// Gives the keeper up.
    pub fn into_keeper(self) -> K
        ensures { result ≡ self.keeper }
    {
        let Book {
            alloc: _,
            state: _,
            groups: _,
            tables: _,
            log: _,
            keeper,
        } = self;
        keeper
    }
}
