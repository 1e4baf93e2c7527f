//! A project's entries in one file, each whole or not at all, whenever the program is stopped.
//!
//! The main type is [`Journal`]: made by [`Journal::create`] in an empty file, or by [`Journal::open`]
//! from what a stop left, it is a [`Keeper`], which adds one entry at a time. At `Ok` an entry is kept for
//! good. What a stop at any moment leaves, also inside a call, is a clause of each call, for every
//! [`Disk`] that keeps the crash model.
//!
//! ```text
//! let file = File::create_new(&rt, "book")?;
//! let mut journal = Journal::create(alloc, FileDisk::new(file)).map_err(|(_, fault)| fault)?;
//! journal.append(b"an entry")?;
//!
//! let file = OpenOptions::new().read(true).write(true).open(&rt, "book")?;
//! let (journal, entries) = Journal::open(alloc, FileDisk::new(file)).map_err(|(_, fault)| fault)?;
//! ```
//!
//! [`MemoryDisk`] is a disk in memory that fails by number and has all crash images of the model;
//! [`MemoryKeeper`] keeps entries in memory alone.
#![tactic(auto)]

mod appending;
mod creation;
mod disk;
mod disk_fails;
mod file_disk;
mod journal;
mod journal_fault;
mod keeper;
mod memory_disk;
mod memory_file;
mod memory_keeper;
mod opening;
mod past_calls;
mod worked_files;

pub use crate::disk::Disk;
pub use crate::disk_fails::DiskFail;
pub use crate::file_disk::FileDisk;
pub use crate::journal::Journal;
pub use crate::journal_fault::JournalFault;
pub use crate::keeper::{Keeper, KeeperFault};
pub use crate::memory_disk::MemoryDisk;
pub use crate::memory_keeper::MemoryKeeper;
pub use crate::worked_files::show_worked_files;
