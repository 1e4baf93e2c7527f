//! The file of a project's people: CSV without a header row, a row for each person, as `ann,annotator`.
//!
//! [`read_roster`] makes a [`Roster`] of it, or tells the first row that is at fault.
//!
//! ```text
//! let roster = read_roster(alloc, b"ann,annotator\nbob,annotator\ncur,curator\n")?;
//! roster.count(); // 3
//! ```
#![tactic(auto)]

mod people;
mod roster_read;
mod rows;
mod worked_rows;

pub use crate::people::read_roster;
pub use crate::roster_read::RosterRead;
pub use crate::worked_rows::examples_of_roster_files;
pub use project_machine::{Roster, RosterFault};
