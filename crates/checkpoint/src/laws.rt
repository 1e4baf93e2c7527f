//! Laws of checkpoints. The function but for calls of laws below does nothing; its contract is the law.
ghost use Rattle.std.specs.Prelude.{ℕ, List};
ghost use Rattle.project_machine.specs.Legal.{IsSound};
ghost use Rattle.project_machine.specs.ProjectState.{ProjectState};
ghost use Rattle.checkpoint.specs.Runs.{IsCheckpoint};

use layer_rules::unflawed_layers;

/// What a checkpoint tells is a project that can be restored.
pub fn checkpoints_are_sound()
    ensures { (entries : List (List ℕ)) (s : ProjectState) → IsCheckpoint entries s → IsSound s }
{
    unflawed_layers();
}
