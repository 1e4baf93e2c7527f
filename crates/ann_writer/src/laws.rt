//! What holds of the lines of a layer.
ghost use Rattle.std.specs.Prelude.{ℕ, List, length, IsUtf8};
ghost use Rattle.conf_model.specs.Configurations.{Configuration};
ghost use Rattle.layer_model.specs.Annotations.{Annotations};
ghost use Rattle.layer_rules.specs.WellFormed.{IsWellFormed};
ghost use Rattle.ann_reader.specs.AnnFiles.{IsAnn};
ghost use Rattle.ann_writer.specs.AnnOf.{ann_of};
ghost use Rattle.ann_writer.specs.Writable.{IsOfProgram};

/// The lines of a layer are UTF-8, also of one that is not well-formed.
pub fn written_layers_are_utf8()
    ensures { (conf : Configuration) (text : List ℕ) (layer : Annotations) → IsOfProgram conf text layer → IsUtf8 (ann_of conf text layer) }
{}

/// The lines of a well-formed layer are an .ann file of that layer, for the same text and configuration.
pub fn written_layers_are_read_back()
    ensures { (conf : Configuration) (text : List ℕ) (layer : Annotations) → IsOfProgram conf text layer → IsWellFormed conf (length text) layer → IsAnn conf text (ann_of conf text layer) layer }
{}
