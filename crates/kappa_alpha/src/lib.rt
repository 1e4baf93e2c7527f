//! Agreement between raters: Cohen's kappa of each two, and Krippendorff's alpha of all.
//!
//! [`Tables`] holds the rows of labels that stand, by document and rater, and keeps the counts from
//! which both figures are read. A row that comes or goes changes the counts of its own document
//! alone; reading looks at no row. Each figure is a fraction of whole numbers, so nothing is
//! rounded, and each reading is proved to be the figure's definition over all the rows that stand,
//! counted anew.
//!
//! ```text
//! let mut tables = Tables::new(alloc, 3, categories)?;
//! tables.reserve()?;
//! let doc = tables.admit(4);
//! tables.post(doc, 0, ann, &mut steps);
//! tables.post(doc, 1, bob, &mut steps);
//! let kappa = tables.pair(0, 1).kappa;
//! let alpha = tables.alpha().alpha;
//! ```
//!
//! The code below [`Tables`], from the outside in: `document` puts a row in the place of another,
//! `rows` goes over its tokens, `moves` moves one label of a token, and `coincidences`, `diagonal`
//! and `pairs` shift the counts of the three tables.
#![tactic(auto)]

mod alpha;
mod coincidences;
mod column;
mod diagonal;
mod document;
mod figures;
mod kappa;
mod label_moves;
mod pairs;
mod rows;
mod shift;
mod tables;
mod tallies;
mod weight;
mod worked_rows;

pub use crate::worked_rows::worked_figures;
pub use figures::{AlphaLine, Fraction, PairLine};
pub use tables::Tables;
