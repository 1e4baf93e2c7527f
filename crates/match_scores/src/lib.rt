//! Exact-match scores: for each two annotators how many spans, events and relations both have, and how many
//! each has alone.
//!
//! [`Scores`] holds the layers that stand, by document and annotator, and counts what each two annotators
//! have in common. Annotations are compared by content, and never by their IDs: a span by type and
//! fragments, an event by type, trigger and arguments, a relation by type and both targets. A layer that
//! comes or goes changes the counts by its own document; reading a [`ScoreLine`] looks at no layer, and is
//! proved to be what a recount of all the layers that stand would give.
//!
//! ```text
//! let mut scores = Scores::new(alloc, 3)?;
//! let doc = scores.admit()?;
//! scores.post(doc, 0, &ann)?;
//! scores.post(doc, 1, &bob)?;
//! let line = scores.line(0, 1, Sort::Spans);   // both: 2, second_only: 1, score: 4 of 5
//! scores.withdraw(doc, 1);
//! ```
//!
//! [`scores_csv`] writes the lines of each two annotators as a table:
//!
//! ```text
//! first,second,sort,both,first_only,second_only,top,bottom,score
//! ann,bob,spans,2,0,1,4,5,0.8000
//! ```
//!
//! The code below [`Scores`], from the outside in: `document` keeps the layers of one document, `totals`
//! shifts the counts of each two annotators, `marks` and `places` have a layer by the places of its contents
//! in the document's table, and `tally` has the counts.
#![tactic(auto)]

mod document;
mod layer_in_table;
mod line;
mod places;
mod scores;
mod sort;
mod table;
mod tally;
mod totals;
mod worked_rows;

pub use crate::line::ScoreLine;
pub use crate::scores::Scores;
pub use crate::sort::Sort;
pub use crate::table::scores_csv;
pub use crate::worked_rows::worked_lines;
