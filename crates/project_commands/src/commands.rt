//! The commands of the program that work on a project: what each asks of it, and what that comes to.
//!
//! [`try_project`] founds a project in memory on two files and serves the console from its one document:
//!
//! ```text
//! let done = try_project(alloc, "schema.conf", "first.txt", &mut folder, &mut console, &mut steps);
//! ```
//!
//! What a command does is defined in `specs/`, a file each: `Requests.antt` has what a request of a command comes to,
//! `Serving.antt` a console that is served, `Trying.antt` the command `try`.
mod founding;
mod laws;
mod requests;
mod serving;
mod trying;

pub use crate::commands::founding::slug_of;
pub use crate::commands::laws::requests_are_granted_or_refused;
pub use crate::commands::requests::{add_text, ask_granted, check_out};
pub(crate) use crate::commands::requests::{ask, trouble_of};
pub use crate::commands::serving::serve;
pub use crate::commands::trying::try_project;
