//! Commands as the bytes in which a journal keeps them.
//!
//! ```text
//! let bytes = write_scripts(alloc, &done, &undone, &doc, &conf)?;
//! let scripts = read_scripts(alloc, bytes.items(), &doc, &conf)?; // the same two
//! ```
//!
//! The bytes of each command stand at the head of `write_commands.rt`, and their definitions in
//! `specs/CommandBytes.antt`; `specs/CommandReading.antt` says which command stands at the front of bytes,
//! `specs/CommandValues.antt` what the values of a command can be, and `specs/WritableCommands.antt` which
//! commands can be written and read again. The same commands as bodies of requests are `command_json`'s.
#![tactic(auto)]

mod command_values;
mod id_bytes;
mod laws;
mod read_commands;
mod read_fields;
mod read_load;
mod script_reading;
mod worked_rows;
mod write_commands;
mod write_fields;

pub use crate::command_values::{layer_is_typed, scripts_are_typed};
pub use crate::id_bytes::id_of;
pub use crate::laws::{
    accepted_scripts_can_be_written, loads_are_read_again, scripts_are_told_apart,
    scripts_without_loads, typed_scripts_are_read_again,
};
pub use crate::script_reading::{Scripts, read_scripts};
pub use crate::worked_rows::{examples_of_command_bytes, examples_of_command_reading};
pub use crate::write_commands::write_scripts;
