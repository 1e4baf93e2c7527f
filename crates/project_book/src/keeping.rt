//! How a change is kept: first all the memory that it takes, then its entry, then the change, which cannot be refused.
ghost use Rattle.std.specs.Prelude.{◌≡◌, ◌⊎◌, ℕ, ◌+◌, ◌≤◌, ◌∷◌, ◌++◌, [], List, Some, None, IfOk, IsErrOf, OnErr, OnOk};
ghost use Rattle.label_tracks.specs.Levels.{grouping_of};
ghost use Rattle.project_journal.specs.Keeper.{IsKeptOrOneMore};
ghost use Rattle.project_journal.specs.Stops.{LeavesOnly};
ghost use Rattle.project_machine.specs.Asking.{StaysOrGoes};
ghost use Rattle.project_machine.specs.Legal.{HasRoom, IsKept};
ghost use Rattle.project_state.specs.Acting.{CanAct, FitsRows, HasMemory};
ghost use Rattle.project_steps.specs.Steps.Judging.{kept_happens};
ghost use Rattle.project_state.specs.Tables.Tabling.{IsTableAct};
ghost use Rattle.project_book.specs.Keeping.{Follows, GoesAlong, TellsKeeper, tabling_behind};

use crate::book::Book;
use entry_bytes::entries_have_bytes;
use kappa_alpha::Tables;
use label_tracks::Groups;
use mark_base::{Memory, Steps};
use project_journal::{Keeper, KeeperFault};
use project_state::{Act, BookState, TableAct, apply, states_can_be_restored, table_act};
use project_steps::Kept;
use std::alloc::Global;
use std::sync::ledger::Ledger;

/// How many changes a history can have.
const MOST_CHANGES: u64 = 4_611_686_018_427_387_904;

/// Takes all the memory of an act, and says what it does to the tables. The project and the tables are as they were,
/// whether there is memory or not.
fn make_ready(
    alloc: Global,
    state: &mut BookState,
    groups: &Groups,
    tables: &mut Tables,
    act: &Act,
) -> Result<TableAct, Memory>
    requires kept { IsKept state.old.state }
    requires groups { groups.now ≡ grouping_of state.old.state.conf.types state.old.state.level }
    requires can { CanAct act.now state.old.state }
    requires fits { FitsRows act.now state.old.state }
    ensures state { state.new.state ≡ state.old.state }
    ensures tables { tables.new ≡ record tables.old { spare = tables.new.spare } }
    ensures tabling { IfOk result (IsTableAct state.old.state act.now) }
    ensures memory { OnOk result (HasMemory act.now state.new) }
    ensures spare { OnOk result (1 ≤ tables.new.spare) }
{
    let tabling = table_act(alloc, state, groups, act)?;
    tables.reserve()?;
    state.make_room(act)?;
    Ok(tabling)
}

impl<K: Keeper> Book<K> {
    /// Keeps the next change, and then does it. A refusal leaves the history, the project and its tables as they were.
    pub(crate) fn keep<G: Ledger>(
        &mut self,
        kept: Kept,
        steps: &mut Steps<G>,
    ) -> Result<(), KeeperFault>
        requires follows { Follows self.old.log kept }
        ensures kept { OnOk result (self.new.log ≡ self.old.log ++ kept_happens kept ∷ []) }
        ensures same { OnErr result (self.new.log ≡ self.old.log) }
        ensures room { OnOk result (HasRoom (self.old.log ++ kept_happens kept ∷ [])) }
        ensures had_room { IsErrOf result KeeperFault.Failed → HasRoom (self.old.log ++ kept_happens kept ∷ []) }
        ensures certain { OnOk result (K.doubt self.new.keeper ≡ None) }
        ensures doubt { IsErrOf result KeeperFault.Failed → StaysOrGoes (K.doubt self.old.keeper) (K.doubt self.new.keeper) ⊎ (K.doubt self.new.keeper ≡ Some kept.entry) }
        ensures doubt_memory { IsErrOf result KeeperFault.Memory → StaysOrGoes (K.doubt self.old.keeper) (K.doubt self.new.keeper) }
        ensures any_moment { (entries : List (List ℕ)) → K.kept self.old.keeper ≡ Some entries → LeavesOnly K.moment K.left_since self.old.keeper self.new.keeper (IsKeptOrOneMore entries (K.doubt self.old.keeper) kept.entry) }
        ensures keeper { TellsKeeper K.faults K.faultless self.old.keeper self.new.keeper (IsErrOf result KeeperFault.Failed) }
        ensures tables { GoesAlong (tabling_behind self.old.log self.new.log) self.old.tables self.new.tables steps.old steps.new }
    {
        states_can_be_restored();
        entries_have_bytes();
        if self.log.count() >= MOST_CHANGES {
            return Err(KeeperFault::Memory);
        }
        let Kept { change, entry, act } = kept;
        let tabling = make_ready(
            self.alloc,
            &mut self.state,
            &self.groups,
            &mut self.tables,
            &act,
        )?;
        match self.keeper.append(entry.items()) {
            Ok(()) => {}
            Err(fault) => return Err(fault),
        }
        self.state.perform(act);
        apply(&mut self.tables, tabling, steps);
        self.log.push(&change);
        Ok(())
    }
}
