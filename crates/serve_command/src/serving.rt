//! The command `serve`, as a function over what a run reaches: the disks that have the file of the project, and what
//! hands out a door for a port.
//!
//! ```text
//! let mut disks = FileDisks::new(rt);
//! let served = serve_project(&rt, alloc, &mut disks, &mut doors, "news.book", 8080);
//! ```
//!
//! What becomes of the file, and how a run ends, is defined in `specs/Serving.antt`.
mod passes;
mod pledge;
mod project;
mod serve_end;
mod serving;

pub use crate::serving::serve_end::ServeEnd;
pub use crate::serving::serving::serve_project;
