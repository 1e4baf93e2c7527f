//! What joining members can break in a well-formed layer. The function does nothing; its contract is the
//! law.
ghost use Rattle.std.specs.Prelude.{◌≡◌, ℕ, List};
ghost use Rattle.mark_base.specs.declared.ann_id.AnnId.{AnnId};
ghost use Rattle.mark_base.specs.declared.table_places.RelId.{RelId};
ghost use Rattle.conf_model.specs.Configurations.{Configuration};
ghost use Rattle.layer_model.specs.Annotations.{Annotations};
ghost use Rattle.layer_model.specs.Classes.{joined};
ghost use Rattle.layer_core.specs.Joined.{joined_flaw};
ghost use Rattle.layer_rules.specs.WellFormed.{IsWellFormed, least_flaw};

/// Where a layer is well-formed, the least flaw of the layer with members joined is that of the class
/// that they make, or else that of one class too many.
pub fn joining_breaks_the_class_made()
    ensures { (conf : Configuration) (characters : ℕ) (layer : Annotations) (kind : RelId) (members : List AnnId) → IsWellFormed conf characters layer → least_flaw conf characters (record layer { classes = joined kind members layer.classes }) ≡ joined_flaw conf layer kind members }
{}
