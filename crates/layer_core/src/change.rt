//! What a command does to a layer, until it is judged.
use layer_model::{Layer, Mark};
use mark_base::{AnnId, IdList, RelId};

/// What a command does to a layer.
#[derive(Drop)]
pub(crate) enum Change {
    /// It leads to nothing that can be changed.
    Nothing,
    /// It puts this annotation under an ID, which is new or has another.
    Put { id: AnnId, mark: Mark, is_new: bool },
    /// It takes the annotation of an ID away, which no other names, and out of all classes.
    Without { id: AnnId },
    /// It makes these members one class of a relation type, with the classes that share one.
    Join { kind: RelId, members: IdList },
    /// It takes a member out of its class of a relation type.
    Part { kind: RelId, id: AnnId },
    /// It takes these annotations away, and out of all classes.
    Less { ids: IdList },
    /// It puts a whole layer in the place of the one that stands.
    Whole { layer: Layer },
}
