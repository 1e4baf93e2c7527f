//! What an attribute may be set on.
use mark_base::{RelId, TypeId};

/// What an attribute may be set on: an annotation of a type, or a relation of a relation type.
#[derive(Clone, Copy, Debug, PartialEq, Eq)]
pub enum AttrTarget {
    /// A span or an event of this type.
    Bound(TypeId),
    /// A relation of this relation type.
    Between(RelId),
}
