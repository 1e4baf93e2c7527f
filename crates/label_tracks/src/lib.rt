//! The label of each token of a document, by one annotator, and square grids of counts over
//! labels: what agreement between annotators is counted from.
//!
//! [`Groups`] numbers the types of a configuration at a level of its tree of types: a type below the
//! level counts as its ancestor there. [`row_of`] gives the [`LabelRow`] of an annotator's layer: one
//! label a token, the group of the first span that covers the token's first character, or 0. A
//! [`CountGrid`] holds one count for each ordered pair of labels. Every look at a row and every
//! addition to a grid is counted on the caller's `Steps`, so that the work of the tables above has
//! proved bounds.
//!
//! ```text
//! let groups = Groups::of(alloc, &conf, 255)?;             // 255: no level, each type is its own
//! let row = row_of(alloc, &layer, &doc, &conf, &groups)?;
//! let mut grid = CountGrid::new(alloc, groups.width())?;
//! let label = row.at(0, &mut steps);
//! grid.add(label, label, 1, &mut steps);
//! ```
#![tactic(auto)]

mod candidate;
mod grid;
mod grouping;
mod labelling;
mod laws;
mod levels;
mod offers;
mod row;

pub use crate::grid::CountGrid;
pub use crate::grouping::Groups;
pub use crate::labelling::row_of;
pub use crate::laws::{no_level_keeps_types, no_span_comes_before_the_first, worked_labels};
pub use crate::row::LabelRow;
