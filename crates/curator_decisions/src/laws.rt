//! Laws of curated layers, for proofs above. Each function but for a call of a law below does nothing; its
//! contract is the law.
ghost use Rattle.curator_decisions.specs.Undecided.{UndecidedLayersAreAccepted, UndecidedLayersObey};

use layer_rules::{unflawed_layers, well_formed_layers_cohere};

/// Before anything is decided the curated layer obeys whatever configuration the layers of the snapshot obey,
/// on a text of as many characters. So a curator can begin with any snapshot of finished layers. What
/// [`Layer::keeps`](layer_model::Layer::keeps) tells of each layer is a condition.
pub fn undecided_layers_obey()
    ensures { UndecidedLayersObey }
{
    well_formed_layers_cohere();
}

/// No decisions at all are accepted by layers that obey a configuration, under the same condition: no item that
/// is in names one that is not, and the curated layer obeys.
pub fn undecided_layers_are_accepted()
    ensures { UndecidedLayersAreAccepted }
{
    unflawed_layers();
    well_formed_layers_cohere();
}
