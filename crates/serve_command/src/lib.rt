//! Serving a project to many connections at once.
//!
//! [`serve_project`] opens the project of a file and serves what comes in at doors ([`Doors`]) by several workers:
//!
//! ```text
//! let end = serve_project(&rt, alloc, &mut disks, &mut doors, "news.book", 8080);
//! ```
//!
//! `specs/Doors` has what a worker serves, and `specs/Serving` how the command ends.
#![tactic(auto)]

mod doors;
mod serving;

pub use crate::doors::{
    Door, Doors, MemoryDoor, MemoryDoors, SureDoor, Worker, WorkerEnd, serve_all,
};
pub use crate::serving::{ServeEnd, serve_project};
