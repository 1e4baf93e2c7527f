//! What the program `annotate` does: the words of a command, the files that they name, and the console.
//!
//! [`run_alone`](run::run_alone) is the top call. It is generic over what it reaches, a [`World`] of a folder, a console, a sink for
//! complaints, disks by name and doors, so that its contract speaks of their bytes. The program gives it the real
//! world; a world in memory, with a [`MemoryFolder`], shows what a run does with given bytes:
//!
//! ```text
//! let mut world = World {
//!     folder: MemoryFolder::new(files, Vec::new(alloc)),
//!     console: MemoryLink::new(alloc, input, Vec::new(alloc), Vec::new(alloc)),
//!     complaint: MemorySink::new(alloc, Vec::new(alloc)),
//!     disks: MemoryDisks::new(alloc, Vec::new(alloc), Vec::new(alloc)),
//!     doors: (), // no command here asks for a door; `serve` stands in `annotation_program`
//! };
//! let status = run_alone(alloc, &words, &mut world);
//! ```
//!
//! Which command the words are stands in `command_words`, what the commands on a project do in `project_commands`. What those
//! find is bytes, which [`print_found`] writes:
//!
//! ```text
//! let found = add_document(alloc, "news.book", &caller, name, "x.txt", &mut folder, &mut disks, &mut steps);
//! print_found(&mut console, found)?; // tokens 4
//! ```
#![tactic(auto)]

mod columns_in;
mod finding;
mod help;
mod printing;
pub mod run;
mod verify;
mod world;

pub use crate::help::{help_text, version_line};
pub use crate::printing::print_found;
pub use crate::world::World;
