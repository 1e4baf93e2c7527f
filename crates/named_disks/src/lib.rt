//! Disks that have names: what a program asks for the file of a project, and gives back when it is done.
//!
//! The main type is [`Disks`]: it hands out the disk of a name and takes it back, counts its faults, and says what
//! each name stores, where it can. [`MemoryDisks`] are disks in memory, which tell all of it; [`FileDisks`] are the
//! files of the system, and tell nothing of their content.
//!
//! ```text
//! let mut disks = MemoryDisks::new(alloc, Vec::new(alloc), Vec::new(alloc));
//! let disk = disks.disk(alloc, "book")?; // of length 0: nothing has this name
//! disks.give_back("book", disk);
//! ```
#![tactic(auto)]

mod disks;
mod file_disks;
mod memory_disks;

pub use crate::disks::{Disks, DisksFault};
pub use crate::file_disks::FileDisks;
pub use crate::memory_disks::MemoryDisks;
