//! Laws of the pieces of states. The function but for a call of a law below does nothing; its contract is the law.
ghost use Rattle.std.specs.Prelude.{map};
ghost use Rattle.entry_bytes.specs.Entries.{entry_bytes};
ghost use Rattle.project_machine.specs.Entries.{pieces_of};
ghost use Rattle.project_machine.specs.Legal.{IsSound};
ghost use Rattle.project_machine.specs.Opening.{IsReplay, restored};
ghost use Rattle.project_machine.specs.ProjectState.{ProjectState};

use checkpoint::checkpoints_have_no_fault;

/// The pieces of a state that can be restored tell it: they are the entries of the history that begins with it, and
/// each history whose entries begin with them begins with it. So no two states have the same pieces.
pub fn states_are_told_apart()
    ensures { (s : ProjectState) → IsSound s → IsReplay (map entry_bytes (pieces_of s)) (restored s) }
{
    checkpoints_have_no_fault();
}
