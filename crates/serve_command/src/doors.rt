//! Doors, where connections come in, and workers that serve them in one project.
mod door;
mod doors;
mod memory_door;
mod memory_doors;
mod serving;
mod worker;

pub use crate::doors::door::Door;
pub use crate::doors::doors::Doors;
pub use crate::doors::memory_door::{MemoryDoor, SureDoor};
pub use crate::doors::memory_doors::MemoryDoors;
pub use crate::doors::serving::serve_all;
pub use crate::doors::worker::{Worker, WorkerEnd};
