//! What a desk answers, as answers of HTTP: to a command in JSON, to undo and redo, to an .ann file that is loaded, and
//! where its layer is shown.
//!
//! Each call takes the desk, with the configuration and the text that it is for, and carries out what is asked before it
//! answers:
//!
//! ```text
//! do_command(alloc, &mut desk, &conf, b"{\"at\":\"0 3\",\"do\":\"add-span\",\"type\":\"Person\"}")?; // 200 {"made":"T1"}
//! undo_last(alloc, &mut desk, &conf)?; // 200 {"done":0,"undone":1}
//! ```
//!
//! The answers are defined in `specs/DeskAnswers.antt`, and what is refused in `specs/Refusals.antt`.
mod answers;
mod desk_answers;
mod refusals;

pub use crate::desk::answers::no_memory;
pub use crate::desk::desk_answers::{do_command, load_file, redo_last, show_lines, undo_last};
