//! A project's state as a run of pieces, with which a journal can begin in place of a history.
//!
//! [`pieces`] writes the run, each piece as the bytes of one entry:
//!
//! ```text
//! let run = pieces(alloc, &state)?;
//! run.as_slice().first(); // the piece with the place, the configuration and the people
//! ```
//!
//! What the pieces of a state are, and in which order they stand, is defined in `project_machine` (`Entries.antt`),
//! and their bytes in `entry_bytes`.
mod documents;
mod laws;
mod lines;
mod rows;
mod run;
mod snapshots;
mod whole;

pub use crate::state_pieces::laws::states_are_told_apart;
pub use crate::state_pieces::whole::pieces;
