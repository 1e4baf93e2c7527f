//! What holds of the bodies of commands. The function does nothing; its clause is proved when the crate is
//! checked.
ghost use Rattle.std.specs.Prelude.{◌≢◌, ℕ, List, Some};
ghost use Rattle.layer_model.specs.Annotations.{Annotations};
ghost use Rattle.layer_core.specs.declared.command.Command.TheVariants as ask;
ghost use Rattle.command_json.specs.Bodies.{command_of};

/// No body spells the loading of a layer: that command has no JSON form.
pub fn no_body_loads_a_layer()
    ensures { (body : List ℕ) (layer : Annotations) → command_of body ≢ Some (ask.Load layer) }
{}
