//! A row of a tree of types.
use mark_base::{Name, TypeId};

/// A type: its name, its parent in the tree, whether annotations may have it, and whether it is an
/// event type.
#[derive(Debug, Drop)]
pub struct TypeRow {
    pub name: Name,
    pub parent: Option<TypeId>,
    pub usable: bool,
    pub event: bool,
}
