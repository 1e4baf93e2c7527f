//! Desks: layers that commands change, with undo and redo.
//!
//! A [`Desk`] is opened on a well-formed [`Layer`](layer_model::Layer) with two [`Script`]s, those of the
//! commands done on it and of those undone. Its layer is what the done commands make of the base, in
//! their order; undo, redo and new commands move commands between the scripts. What each call gives is
//! defined in `specs/Desks.antt`, and what commands in turn make in `specs/Replays.antt`.
//!
//! ```text
//! let mut desk = Desk::open(alloc, base, doc, conf, Script::new(alloc), Script::new(alloc))?;
//! desk.perform(Command::Purge { id })?;
//! desk.undo()?;               // all that the purge took is there again
//! desk.redo()?;
//! desk.settle(desk.shared()?) // the layer is the base now, and nothing is left to undo
//! ```
#![tactic(auto)]

mod desk;
mod desk_start;
mod laws;
mod replay;
mod script;
mod script_moves;
mod scripts;
mod shared;
mod worked_rows;

pub use crate::desk::Desk;
pub use crate::desk_start::DeskStart;
pub use crate::laws::{
    desks_stay_desks, redo_takes_undo_back, undo_takes_a_command_back,
    undos_take_back_as_many_commands,
};
pub use crate::script::Script;
pub use crate::scripts::check_scripts;
pub use crate::worked_rows::{examples_of_full_desks, examples_of_replays, examples_of_undo};
