//! A layer of standoff annotation as data: what one annotator has marked on one text.
//!
//! The main type is [`Layer`]. It holds annotations under their IDs, one record a sort ([`Span`],
//! [`Event`], [`Relation`], [`Attribute`], [`Normal`], [`Note`]), and equivalence classes ([`Class`]).
//! It knows no text and no configuration, and keeps no rule of them: it is seven maps by number, one a
//! letter, and the classes. Those of one type never share a member.
//!
//! ```text
//! let mut layer = Layer::new(alloc);
//! layer.put(id, Mark::Span(Span { kind, frags }))?;      // id is T1, and the layer has no T1
//! layer.span(1);                                         // Some(span)
//! layer.join(coreference, IdList::of(alloc, &[id, other])?)?;
//! for (number, span) in layer.spans() { .. }             // T1, and all other spans, by number
//! layer.take(id);                                        // Some(Mark::Span(span))
//! ```
//!
//! [`Rule`] names what a command or a layer may break, and [`Flaw`] where a layer breaks it. What the
//! annotations of a layer keep among themselves, whatever the text, stands in `specs/Coherent.antt`, one
//! word a rule. A [`Snapshot`] shows the finished layers of one text by their holders.
#![tactic(auto)]

mod ascending_ids;
mod attribute;
mod class;
mod class_list;
mod event;
mod flaw;
mod id_set;
mod ids;
mod laws;
mod layer;
mod letters;
mod mark;
mod normal;
mod note;
mod numbered;
mod relation;
mod rule;
mod shared;
mod snapshot;
mod span;

pub use crate::attribute::Attribute;
pub use crate::class::Class;
pub use crate::event::Event;
pub use crate::flaw::{Flaw, FlawPlace};
pub use crate::id_set::{IdSet, rank};
pub use crate::ids::{id_at, ids_of, ids_of_letter, push_ids};
pub use crate::laws::{
    circles_are_too_deep, last_class_is_appended, nothing_is_coherent, numbers_above_are_free,
    shorter_chains_begin, take_undoes_put,
};
pub use crate::layer::Layer;
pub use crate::letters::letter_place;
pub use crate::mark::Mark;
pub use crate::normal::Normal;
pub use crate::note::Note;
pub use crate::relation::Relation;
pub use crate::rule::{RoleAt, Rule};
pub use crate::snapshot::Snapshot;
pub use crate::span::{Span, same_fragments};
