//! Laws of the bytes of commands. The functions do nothing but name the laws that they rest on; each clause is a
//! law that holds of all commands.
ghost use Rattle.std.specs.Prelude.{◌≡◌, ◌++◌, ◌<◌, ◌≤◌, ℕ, List, length, get_or, true, None, Some};
ghost use Rattle.std.specs.List.{AllByRecursion};
ghost use Rattle.conf_model.specs.Configurations.{Configuration};
ghost use Rattle.layer_model.specs.Annotations.{Annotations};
ghost use Rattle.layer_core.specs.declared.command.Command.{Command};
ghost use Rattle.layer_rules.specs.WellFormed.{IsWellFormed};
ghost use Rattle.ann_writer.specs.AnnOf.{ann_of};
ghost use Rattle.ann_writer.specs.Writable.{IsOfProgram};
ghost use Rattle.layer_undo.specs.Replays.{first_refusal};
ghost use Rattle.command_bytes.specs.CommandBytes.{command_bytes, script_bytes, scripts_bytes};
ghost use Rattle.command_bytes.specs.WritableCommands.{is_plain, CanBeWritten, CanBeRead, IsReadAgain, LoadsAgain, IsScript, AreScripts};
ghost use Rattle.command_bytes.specs.CommandReading.{command_at, scripts_of};
ghost use Rattle.command_bytes.specs.CommandValues.{AreCommands};

use ann_reader::files_of_a_layer;
use ann_writer::{written_layers_are_read_back, written_layers_are_utf8};
use layer_rules::unflawed_layers;

/// The bytes of two scripts are those of no other two, and reading them gives the two.
pub fn scripts_are_told_apart()
    // A command that is read from the front of bytes is written so.
    ensures a_front { (conf : Configuration) (text bytes : List ℕ) (c : Command) (rest : List ℕ) → ((i : ℕ) → get_or bytes i 0 < 256) → command_at conf text bytes ≡ Some (c, rest) → CanBeRead conf text c × (bytes ≡ command_bytes conf text c ++ rest) }
    // And a command that is written is read from the front, whatever follows.
    ensures a_command { (conf : Configuration) (text : List ℕ) (c : Command) (rest : List ℕ) → CanBeRead conf text c → command_at conf text (command_bytes conf text c ++ rest) ≡ Some (c, rest) }
    // Reading gives back what was written.
    ensures read_again { (conf : Configuration) (text : List ℕ) (done undone : List Command) → AreScripts conf text done undone → scripts_of conf text (scripts_bytes conf text done undone) ≡ Some (done, undone) }
    // No two pairs of scripts have the same bytes.
    ensures no_two { (conf : Configuration) (text : List ℕ) (done undone did undid : List Command) → AreScripts conf text done undone → AreScripts conf text did undid → scripts_bytes conf text done undone ≡ scripts_bytes conf text did undid → (done ≡ did) × (undone ≡ undid) }
{}

/// A script without a load has the same bytes for every configuration and text.
pub fn scripts_without_loads()
    ensures { (a b : Configuration) (text other : List ℕ) (commands : List Command) → AllByRecursion (λ c. is_plain c ≡ true) commands → script_bytes a text commands ≡ script_bytes b other commands }
{}

/// The layer of a load is read again: a well-formed layer has the lines of no other.
pub fn loads_are_read_again()
    ensures { (conf : Configuration) (text : List ℕ) (layer : Annotations) → IsOfProgram conf text layer → IsWellFormed conf (length text) layer → length (ann_of conf text layer) ≤ 16777216 → IsReadAgain conf text layer }
{
    files_of_a_layer();
    written_layers_are_utf8();
    written_layers_are_read_back();
}

/// Commands that a request can hold are read again, where their bytes fit an entry.
pub fn typed_scripts_are_read_again()
    ensures { (conf : Configuration) (text : List ℕ) (commands : List Command) → AreCommands commands → AllByRecursion (LoadsAgain conf text) commands → length (script_bytes conf text commands) ≤ 16777216 → IsScript conf text commands }
{}

/// Scripts that are not refused from a layer can be written: each layer that they load is well-formed.
pub fn accepted_scripts_can_be_written()
    ensures { (conf : Configuration) (text : List ℕ) (base : Annotations) (done undone : List Command) → first_refusal conf (length text) base done undone ≡ None → AllByRecursion (CanBeWritten conf text) done × AllByRecursion (CanBeWritten conf text) undone }
{
    unflawed_layers();
}
