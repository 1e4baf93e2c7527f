//! Laws of desks. Each function but for a call of a law below does nothing; its contract is the law.
ghost use Rattle.std.specs.Prelude.{◌≡◌, List, [], ◌∷◌, ◌++◌, IfOk, Ok, length, replicate, reverse};
ghost use Rattle.layer_core.specs.declared.command.Command.{Command};
ghost use Rattle.layer_rules.specs.WellFormed.{IsWellFormed};
ghost use Rattle.layer_undo.specs.Calls.{Call, after_calls};
ghost use Rattle.layer_undo.specs.Desks.{DeskState, IsDesk, Performed, after_redo, after_undo, layer_of, performed, with_scripts};
ghost use Rattle.layer_undo.specs.Replays.{replay};

use layer_core::commands_keep_layers;

/// After any calls a desk is one: its layer is what its done commands make of its base, none of its
/// commands is refused, and its layer is well-formed.
pub fn desks_stay_desks()
    ensures desk { (desk : DeskState) (calls : List Call) → IsDesk desk → IsDesk (after_calls desk calls) }
    ensures replayed { (desk : DeskState) → IsDesk desk → replay desk.conf (length desk.text) desk.base desk.done ≡ Ok (layer_of desk) }
    ensures well_formed { (desk : DeskState) → IsDesk desk → IsWellFormed desk.conf (length desk.text) (layer_of desk) }
{
    commands_keep_layers();
}

/// Redo takes an undo back, and undo a redo.
pub fn redo_takes_undo_back()
    ensures redone { (desk earlier : DeskState) → after_undo desk ≡ Ok earlier → after_redo earlier ≡ Ok desk }
    ensures undone { (desk later : DeskState) → after_redo desk ≡ Ok later → after_undo later ≡ Ok desk }
{}

/// Undo takes back what a command did, whatever it was: the layer is the one before it.
pub fn undo_takes_a_command_back()
    ensures undone { (desk : DeskState) (command : Command) (made : Performed) → performed desk command ≡ Ok made → after_undo made.desk ≡ Ok (with_scripts desk desk.done (command ∷ [])) }
    ensures layer { (desk : DeskState) (command : Command) (made : Performed) → performed desk command ≡ Ok made → IfOk (after_undo made.desk) (λ earlier. layer_of earlier ≡ layer_of desk) }
{}

/// So many undos take back as many commands, the last one first, and so many redos give them again.
pub fn undos_take_back_as_many_commands()
    ensures undone { (desk : DeskState) (kept taken : List Command) → desk.done ≡ kept ++ reverse taken → after_calls desk (replicate (length taken) Call.Undo) ≡ with_scripts desk kept (desk.undone ++ taken) }
    ensures redone { (desk : DeskState) (kept given : List Command) → desk.undone ≡ kept ++ reverse given → after_calls desk (replicate (length given) Call.Redo) ≡ with_scripts desk (desk.done ++ given) kept }
{}
