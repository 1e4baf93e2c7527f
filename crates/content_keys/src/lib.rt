//! The contents of annotations, whatever their IDs: what is compared where several annotators have marked
//! one text.
//!
//! [`Keys`] holds the contents of a layer, [`Keys::toward`] translates the whole layer once, and
//! [`Counterparts::counterpart`] answers for each annotation the lowest one of the other layer that has the
//! same content. A [`ContentTable`] takes in the layers of many annotators: there two annotations have the
//! same content exactly where they have the same place.
//!
//! ```text
//! let ours = Keys::of(alloc, &ann)?;
//! let others = Keys::of(alloc, &bob)?;
//! let counterparts = ours.toward(&others)?;
//! counterparts.counterpart(meeting);           // Some(E6): the same meeting of the same persons
//! ```
//!
//! A span is compared by type and fragments; an event by type, trigger and the bag of its roles and targets;
//! a relation by type and both targets; an attribute, of the letter `A` or `M`, by type, target and value; a
//! normalization by target, store, entry and text. Triggers and targets are compared by content in turn. A
//! note has no content. The definitions stand in `specs/LayerContents.antt` and `specs/Counterparts.antt`.
//!
//! How it works: a table has each content once, and a content names those of its targets by their places.
//! So two contents are compared part by part, however deep the events behind them are. The annotations of a
//! layer get their places in rounds, first those that name nothing, then those that name these.
#![tactic(auto)]

mod carrying;
mod content_table;
mod counterparts;
mod ids;
mod keys;
mod laws;
mod parts;
mod placed_layer;
mod shape;
mod table;
mod word;
mod worked_rows;

pub use crate::content_table::ContentTable;
pub use crate::counterparts::Counterparts;
pub use crate::keys::Keys;
pub use crate::laws::{
    bags_are_counts, coherent_layers_are_built, contents_are_their_parts, counterparts_are_lowest,
    one_annotation_has_a_content,
};
pub use crate::placed_layer::{Placed, PlacedLayer};
pub use crate::worked_rows::{examples_of_contents, examples_of_counterparts};
