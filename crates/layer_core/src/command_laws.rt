//! What commands keep.
ghost use Rattle.std.specs.Prelude.{◌≡◌, ℕ, IfOk};
ghost use Rattle.conf_model.specs.Configurations.{Configuration};
ghost use Rattle.layer_model.specs.Annotations.{Annotations};
ghost use Rattle.layer_core.specs.declared.command.Command.{Command};
ghost use Rattle.layer_core.specs.Commands.{apply};
ghost use Rattle.layer_rules.specs.WellFormed.{IsWellFormed};

/// A command makes a well-formed layer of a well-formed one, for every configuration and every text of so
/// many characters.
pub fn commands_keep_layers()
    ensures { (conf : Configuration) (characters : ℕ) (layer : Annotations) (command : Command) → IsWellFormed conf characters layer → IfOk (apply conf characters layer command) (λ applied. IsWellFormed conf characters applied.layer) }
{}
