//! The items of a snapshot as CSV: what a curator decides on, a row for each item.
//!
//! [`items_csv`] writes the items that `unanimous_merge` lists, each by its holder and its ID there, with its line in the
//! holder's .ann file, all who hold it, and whether it is in.
//!
//! ```text
//! item,line,holders,state
//! ann/T1,Person 0 3<TAB>Ann,ann bob,unanimous
//! bob/T3,Location 15 19<TAB>Rome,bob,undecided
//! ```
#![tactic(auto)]

mod ann_lines;
mod files;
mod holders;
mod item_row;
mod items_table;
mod laws;
mod table_writer;
mod worked_rows;

pub use crate::items_table::items_csv;
pub use crate::laws::items_have_lines;
pub use crate::worked_rows::examples_of_rows;
