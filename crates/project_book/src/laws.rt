//! Laws of histories that rest on those of a curator's decisions. Each function but for calls of laws below does
//! nothing; its contract is the law.
ghost use Rattle.std.specs.Prelude.{◌≡◌, ◌≤◌, ◌^◌, ℕ, List, false, map};
ghost use Rattle.entry_bytes.specs.Entries.{entry_bytes};
ghost use Rattle.project_machine.specs.Entries.{pieces_of};
ghost use Rattle.project_machine.specs.History.{after, encoded};
ghost use Rattle.project_machine.specs.Legal.{AreAccepted, IsLegal, IsSound, IsViewAccepted};
ghost use Rattle.project_machine.specs.Machine.{step};
ghost use Rattle.project_machine.specs.ProjectState.{ProjectState, is_some_out};
ghost use Rattle.project_machine.specs.Requests.{Happened, Taken, TakeSnapshot, View};
ghost use Rattle.project_book.specs.Opening.{IsEntryAtFault};

use crate::state_pieces::states_are_told_apart;
use checkpoint::{
    checkpoints_have_no_fault, pieces_are_read_in_one_way, sound_states_have_checkpoints,
};
use curator_decisions::{decisions_stay_accepted, undecided_layers_are_accepted};
use layer_rules::unflawed_layers;
use project_state::states_can_be_restored;

/// The verdicts on each snapshot of the state behind a history are accepted: they are on items, no item that is in
/// names one that is not, and the curated layer obeys the configuration. So the state can be restored where no layer
/// is out, at a place of at most 2^62.
pub fn verdicts_are_accepted()
    ensures accepted { (log : List Happened) → IsLegal log → AreAccepted (after log) }
    ensures sound { (log : List Happened) → IsLegal log → is_some_out (after log) ≡ false → (after log).place ≤ 2 ^ 62 → IsSound (after log) }
{
    decisions_stay_accepted();
    undecided_layers_are_accepted();
    unflawed_layers();
    states_can_be_restored();
}

/// Every snapshot that is read is one from which a curator goes on: its verdicts are on items of its layers, no item
/// that is in names one that is not, and the curated layer obeys the configuration that comes with it.
pub fn views_are_accepted()
    ensures { (log : List Happened) (caller : List ℕ) (number : ℕ) (view : View) → IsLegal log → (step (after log) caller (TakeSnapshot number)).answer ≡ Taken view → IsViewAccepted view }
{
    verdicts_are_accepted();
}

/// What was kept is without fault: no entry of a history is at fault, so `Book::open` answers of them that memory ran out
/// or the keeper failed, or opens them. So it is with the pieces of each state that can be restored, and of the state
/// behind each history where no layer is out, at a place of at most 2^62.
pub fn what_was_kept_is_without_fault()
    ensures entries { (log : List Happened) (n : ℕ) → IsLegal log → IsEntryAtFault (encoded log) n → ⊥ }
    ensures pieces { (s : ProjectState) (n : ℕ) → IsSound s → IsEntryAtFault (map entry_bytes (pieces_of s)) n → ⊥ }
    ensures left { (log : List Happened) (n : ℕ) → IsLegal log → is_some_out (after log) ≡ false → (after log).place ≤ 2 ^ 62 → IsEntryAtFault (map entry_bytes (pieces_of (after log))) n → ⊥ }
{
    verdicts_are_accepted();
    states_are_told_apart();
    checkpoints_have_no_fault();
    sound_states_have_checkpoints();
}

/// One entry at most is the first at fault.
pub fn one_entry_is_at_fault()
    ensures { (entries : List (List ℕ)) (m n : ℕ) → IsEntryAtFault entries m → IsEntryAtFault entries n → m ≡ n }
{
    checkpoints_have_no_fault();
    sound_states_have_checkpoints();
    pieces_are_read_in_one_way();
}
