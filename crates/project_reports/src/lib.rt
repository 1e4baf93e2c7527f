//! What a team looks up of a project: who is done, how far curation is, and who takes part, as CSV.
//!
//! [`progress_csv`] writes a row for each document and annotator ([`shown_progress_csv`] what of it a caller is shown), [`snapshots_csv`] one for each snapshot, of a
//! project as a program keeps it, and [`roster_csv`] one for each person:
//!
//! ```text
//! document,annotator,revision,state,ignored,annotations,parked
//! rome,ann,2,finished,false,4,0
//! rome,bob,0,none,false,0,0
//!
//! snapshot,document,holders,items,unanimous,accepted,rejected,undecided
//! 1,rome,2,6,3,1,0,2
//!
//! ann,annotator
//! ```
#![tactic(auto)]

mod item_counts;
mod laws;
mod progress;
mod roster;
mod snapshots;
mod table_writer;
mod verdict_counts;
mod worked_rows;

pub use crate::laws::every_annotator_has_a_row;
pub use crate::progress::{progress_csv, shown_progress_csv};
pub use crate::roster::roster_csv;
pub use crate::snapshots::snapshots_csv;
pub use crate::worked_rows::{examples_of_curation, examples_of_progress};
