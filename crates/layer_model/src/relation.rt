//! A relation.
use mark_base::{AnnId, RelId};

/// A relation of two annotations, which stand in the order of the two roles that its type declares
/// (brat standoff manual, "Relation annotations").
#[derive(Clone, Copy, Debug, Drop)]
pub struct Relation {
    pub kind: RelId,
    pub first: AnnId,
    pub second: AnnId,
}
