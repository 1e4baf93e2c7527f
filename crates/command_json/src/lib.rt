//! Commands as JSON bodies: the command that a body spells, exactly where it spells one.
//!
//! [`read_command`] takes the body of a message and gives a [`Command`](layer_core::Command), or the fault
//! that the body has none of the forms. The forms are a table in `specs/BodyForms.antt`: the word of `do`, the
//! fields beside it, and the command that they spell.
//!
//! ```text
//! read_command(alloc, b"{\"do\":\"add-span\",\"type\":\"Person\",\"at\":\"0 3\"}")?;
//! ```
#![tactic(auto)]

mod body_fields;
mod command_body;
mod command_fault;
mod event_forms;
mod laws;
mod link_forms;
mod lists;
mod note_forms;
mod removal_forms;
mod span_forms;
mod spelling;
mod worked_rows;

pub use crate::command_body::read_command;
pub use crate::command_fault::CommandFault;
pub use crate::laws::no_body_loads_a_layer;
pub use crate::worked_rows::examples_of_bodies;
