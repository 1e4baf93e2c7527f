//! A project without its history: the run of pieces of its state.
ghost use Rattle.std.specs.Prelude.{◌≡◌, IfOk, false};
ghost use Rattle.std.specs.List.{All};
ghost use Rattle.project_journal.specs.Keeper.{IsEntry};
ghost use Rattle.project_machine.specs.History.{after};
ghost use Rattle.project_machine.specs.Opening.{IsOpened, IsReplay, restored};
ghost use Rattle.project_machine.specs.ProjectState.{is_some_out};

use crate::book::Book;
use crate::bounds::GREATEST_PLACE;
use crate::laws::verdicts_are_accepted;
use crate::state_pieces::{pieces, states_are_told_apart};
use mark_base::{Bytes, Memory};
use project_journal::Keeper;
use project_state::states_can_be_restored;

impl<K: Keeper> Book<K> {
    /// Whether some layer is out. Cost: all rows.
    pub fn is_some_out(&self) -> bool
        ensures { result ≡ is_some_out (after self.now.log) }
    {
        self.keeps();
        self.state.is_some_out()
    }

    /// The state of the project as a run of pieces, with which a journal can begin in place of the history. No layer
    /// may be out. `Memory` is answered too where the place is above 2^62, or a piece would have more than 16,777,216
    /// bytes. Cost: as `pieces` of `state_pieces`.
    pub fn pieces(&self) -> Result<Vec<Bytes>, Memory>
        requires { is_some_out (after self.now.log) ≡ false }
        // They are the entries of the history whose one change is this state, restored, and begin no other.
        ensures told { IfOk result (λ pieces. IsReplay pieces.items (restored (after self.now.log))) }
        ensures opened { IfOk result (λ pieces. IsOpened pieces.items (restored (after self.now.log))) }
        // Each has 1 to 16,777,216 bytes.
        ensures entries { IfOk result (λ pieces. All IsEntry pieces.items) }
    {
        self.keeps();
        states_can_be_restored();
        verdicts_are_accepted();
        states_are_told_apart();
        if GREATEST_PLACE < self.state.place() {
            return Err(Memory);
        }
        let told = pieces(self.alloc, &self.state)?;
        Ok(told)
    }
}
