//! What leads back from the layer that a command made.
use crate::taken::{ClassGroups, TakenList};
use layer_model::{Layer, Mark};
use mark_base::{AnnId, IdList, RelId};

/// What leads from the layer that a command made back to the layer before it: as much as the command
/// took away, and the whole layer before only where the command loaded another.
#[derive(Drop)]
pub enum Back {
    /// The command changed nothing.
    Same,
    /// Under this ID stands this annotation again, or nothing.
    Under {
        id: AnnId,
        mark: Option<Mark>,
    },
    /// In the class of this relation type that has the one beside stands this member again.
    Member {
        kind: RelId,
        id: AnnId,
        beside: AnnId,
    },
    /// These members leave their classes of this relation type, and then the members of each of these are
    /// one class again.
    Classes {
        kind: RelId,
        out: IdList,
        again: ClassGroups,
    },
    /// These annotations stand again, and in the classes that they left.
    Marks {
        taken: TakenList,
    },
    /// This layer stands again.
    Whole {
        layer: Layer,
    },
}
