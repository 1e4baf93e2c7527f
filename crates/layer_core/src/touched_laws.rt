//! Which places a command can have made faulty. The function does nothing; its contract is
//! the law.
ghost use Rattle.std.specs.Prelude.{◌≡◌, ℕ, Some};
ghost use Rattle.mark_base.specs.declared.ann_id.AnnId.{AnnId};
ghost use Rattle.conf_model.specs.Configurations.{Configuration};
ghost use Rattle.layer_model.specs.Annotations.{Annotations};
ghost use Rattle.layer_core.specs.declared.command.Command.{Command};
ghost use Rattle.layer_core.specs.Backs.{DiffersUnder};
ghost use Rattle.layer_core.specs.MadeLayers.{Draft, draft};
ghost use Rattle.layer_core.specs.Touched.{touched_flaw};
ghost use Rattle.layer_rules.specs.WellFormed.{IsWellFormed, least_flaw};

/// Where a layer that is well-formed is changed under one ID, the least flaw of the layer made is the
/// least at the places that the change touches. So is that of a command whose draft has one annotation
/// that is new or changed.
pub fn changes_break_what_they_touch()
    ensures change { (conf : Configuration) (characters : ℕ) (layer earlier : Annotations) (changed : AnnId) → IsWellFormed conf characters earlier → DiffersUnder layer changed earlier → least_flaw conf characters layer ≡ touched_flaw conf characters layer changed }
    ensures command { (conf : Configuration) (characters : ℕ) (layer : Annotations) (command : Command) (made : Draft) (changed : AnnId) → IsWellFormed conf characters layer → draft conf layer command ≡ Some made → made.changed ≡ Some changed → least_flaw conf characters made.layer ≡ touched_flaw conf characters made.layer changed }
{}
