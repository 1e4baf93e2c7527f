//! Places in the tables of a configuration.

/// The place of an entity or event type, counted from 0.
#[derive(Clone, Copy, Debug, PartialEq, Eq, PartialOrd, Ord)]
pub struct TypeId {
    pub n: u16,
}

/// The place of a relation type, counted from 0.
#[derive(Clone, Copy, Debug, PartialEq, Eq, PartialOrd, Ord)]
pub struct RelId {
    pub n: u16,
}

/// The place of an attribute, counted from 0.
#[derive(Clone, Copy, Debug, PartialEq, Eq, PartialOrd, Ord)]
pub struct AttrId {
    pub n: u16,
}
