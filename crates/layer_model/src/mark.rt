//! An annotation of any sort.
use crate::attribute::Attribute;
use crate::event::Event;
use crate::normal::Normal;
use crate::note::Note;
use crate::relation::Relation;
use crate::span::Span;

/// What stands under an ID. An attribute stands under the letter `A`, or under `M` in older files.
#[derive(Clone, Debug, Drop)]
pub enum Mark {
    Span(Span),
    Event(Event),
    Relation(Relation),
    Attribute(Attribute),
    Normal(Normal),
    Note(Note),
}
