//! Which letters may stand in a place of an ID.

/// The letters that may stand in a place of an ID.
#[derive(Clone, Copy, Debug, PartialEq, Eq)]
pub enum Letters {
    /// `T`: a trigger, and a member of a class.
    Spans,
    /// `T` and `E`: an argument of an event or a relation, and what a normalization is of.
    SpansOrEvents,
    /// `T`, `E` and `R`: what an attribute is set on.
    Attributed,
    /// Any but `#`: what a note is on.
    AnyButNotes,
}
