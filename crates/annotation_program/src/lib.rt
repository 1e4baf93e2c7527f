//! The program `annotate` as one call over what it reaches: [`run`].
//!
//! It is generic over a [`World`]: a folder of files, the console, a sink for complaints, the disks of projects by name,
//! and the doors at which connections come in. The program gives it the files, the terminal and the ports of the system,
//! and a test a world in memory:
//!
//! ```text
//! let mut world = World {
//!     folder: MemoryFolder::new(files, Vec::new(alloc)),
//!     console: MemoryLink::new(alloc, input, Vec::new(alloc), Vec::new(alloc)),
//!     complaint: MemorySink::new(alloc, Vec::new(alloc)),
//!     disks: MemoryDisks::new(alloc, Vec::new(alloc), Vec::new(alloc)),
//!     doors: MemoryDoors::new(doors, Vec::new(alloc)),
//! };
//! let status = run(&rt, alloc, &words, &mut world); // the words of `serve news.book 8080`
//! ```
//!
//! What `serve` does to a project stands in `serve_command`, and every other command in `annotation_cli`; `specs/Serving` has the
//! words of `serve` and what a run of it says.
#![tactic(auto)]

mod program;
mod serving;

pub use crate::program::run;
pub use annotation_cli::World;
