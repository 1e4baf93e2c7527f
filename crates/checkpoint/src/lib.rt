//! A project's state, read from the run of pieces with which a journal begins in place of a history.
//!
//! [`restore`] reads the run, piece by piece, up to its last one:
//!
//! ```text
//! let restored = restore(alloc, entries)?; // or the piece that is the first at fault
//! restored.state; // the project where it stood
//! restored.count; // how many entries the run has
//! ```
//!
//! What is tested of a piece, and what it leaves, is defined in `specs/Reading.antt`: each is judged by what those before
//! it left, and by nothing that may follow.
#![tactic(auto)]

mod ascending;
mod beginning;
mod bounds;
mod laws;
mod lines;
mod open_shot;
mod reading;
mod restored;
mod row_pieces;
mod same_bytes;
mod shot_pieces;
mod so_far;
mod sound_laws;
mod text_pieces;
mod told_document;
mod told_laws;
mod told_state;
mod verdicts;

pub use crate::laws::checkpoints_are_sound;
pub use crate::open_shot::OpenShot;
pub use crate::restored::{RestoreFault, Restored, restore};
pub use crate::so_far::{OpenRow, Part, SoFar, Stage};
pub use crate::sound_laws::{
    checkpoints_have_no_fault, pieces_are_read_in_one_way, sound_states_have_checkpoints,
};
pub use crate::told_laws::checkpoints_are_pieces;
pub use crate::told_state::ToldState;
