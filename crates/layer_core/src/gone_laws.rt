//! What can go from a well-formed layer. The functions do nothing; their contracts are the laws.
ghost use Rattle.std.specs.Prelude.{◌≡◌, ℕ, None};
ghost use Rattle.mark_base.specs.declared.ann_id.AnnId.{AnnId};
ghost use Rattle.conf_model.specs.Configurations.{Configuration};
ghost use Rattle.layer_model.specs.Annotations.{Annotations};
ghost use Rattle.layer_model.specs.Classes.{parted};
ghost use Rattle.layer_model.specs.Layers.{IsLayer};
ghost use Rattle.layer_core.specs.CommandRules.{first_naming};
ghost use Rattle.layer_core.specs.MadeLayers.{gone};
ghost use Rattle.layer_rules.specs.WellFormed.{IsWellFormed, least_flaw};

/// Where a layer is well-formed, the layer with a member taken out of the class of a type that has it
/// breaks no rule.
pub fn what_is_parted_is_well_formed()
    ensures { (conf : Configuration) (characters : ℕ) (layer : Annotations) (kind : ℕ) (id : AnnId) → IsWellFormed conf characters layer → least_flaw conf characters (record layer { classes = parted kind id layer.classes }) ≡ None }
{}

/// Where a layer is well-formed and no annotation names the one of an ID, the layer without it, and
/// without it in its classes, breaks no rule.
pub fn what_none_names_can_go()
    ensures { (conf : Configuration) (characters : ℕ) (layer : Annotations) (id : AnnId) → IsLayer layer → IsWellFormed conf characters layer → first_naming layer id ≡ None → least_flaw conf characters (gone layer id) ≡ None }
{}
