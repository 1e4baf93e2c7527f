//! Laws of well-formed layers. Each function does nothing; its contract is the law.
ghost use Rattle.std.specs.Prelude.{◌≡◌, ℕ, None};
ghost use Rattle.conf_model.specs.Configurations.{Configuration};
ghost use Rattle.layer_model.specs.Annotations.{Annotations};
ghost use Rattle.layer_model.specs.Coherent.{IsCoherent};
ghost use Rattle.layer_model.specs.Layers.{IsLayer};
ghost use Rattle.layer_rules.specs.WellFormed.{IsWellFormed, least_flaw};

/// A layer is well-formed exactly where it has no least flaw.
pub fn unflawed_layers()
    ensures unflawed { (conf : Configuration) (characters : ℕ) (layer : Annotations) → least_flaw conf characters layer ≡ None → IsWellFormed conf characters layer }
    ensures well_formed { (conf : Configuration) (characters : ℕ) (layer : Annotations) → IsWellFormed conf characters layer → least_flaw conf characters layer ≡ None }
{}

/// What a layer holds is coherent where it is well-formed for some configuration and some text: what its
/// annotations name is there and of a letter that fits, no chain of events is too deep, and no two
/// annotations are alike.
pub fn well_formed_layers_cohere()
    ensures { (conf : Configuration) (characters : ℕ) (layer : Annotations) → IsLayer layer → IsWellFormed conf characters layer → IsCoherent layer }
{}
