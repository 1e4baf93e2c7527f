//! Laws of entries. The functions do nothing but name the laws that they rest on; each clause is a law.
ghost use Rattle.std.specs.Prelude.{◌≡◌, ℕ, List, None, Some};
ghost use Rattle.project_machine.specs.Machine.{change, refusal};
ghost use Rattle.project_machine.specs.ProjectState.{ProjectState};
ghost use Rattle.project_machine.specs.Requests.{Asked, Happened};
ghost use Rattle.project_state.specs.Entries.Writing.{CanBeEntered};

use command_bytes::accepted_scripts_can_be_written;
use layer_rules::unflawed_layers;

/// The change that a request makes which is not refused can be written as an entry.
pub fn accepted_changes_can_be_entered()
    ensures { (s : ProjectState) (caller : List ℕ) (asked : Asked) (happened : Happened) → refusal s caller asked ≡ None → change s caller asked ≡ Some happened → CanBeEntered s happened }
{
    unflawed_layers();
    accepted_scripts_can_be_written();
}
