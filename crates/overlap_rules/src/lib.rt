//! How the characters of two annotations lie to one another, and the annotations that touch given
//! fragments.
//!
//! [`kind_of`] compares two spans by their sets of characters. A [`SpanIndex`] holds spans by number,
//! and [`SpanIndex::first_touching`] finds the lowest number whose span has a character in common with
//! given fragments and passes the caller's test:
//!
//! ```text
//! let mut index = SpanIndex::new(alloc);
//! index.put(1, &[Frag { start: 0, end: 8 }])?;
//! index.put(2, &[Frag { start: 4, end: 13 }])?;
//! // the lowest span that crosses characters 4 to 13, other than the second itself
//! index.first_touching(&[Frag { start: 4, end: 13 }], Some(2), |_, kind| kind == OvlKind::Cross);
//! ```
//!
//! [`are_ascending`] and [`reach`] are the tests of what these calls ask of fragments. What the proofs of
//! callers may conclude from the clauses stands in `proofs/Laws.antt`.
#![tactic(auto)]

mod buckets;
mod order;
mod overlap;
mod span_index;

pub use crate::order::{are_ascending, reach};
pub use crate::overlap::kind_of;
pub use crate::span_index::SpanIndex;
