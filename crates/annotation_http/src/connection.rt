//! One connection to a project, from its first message to its end.
//!
//! [`serve_link`] takes messages from a link, answers each in turn for a visitor of the project, and parks the desk that
//! is still held at the end:
//!
//! ```text
//! let ending = serve_link(alloc, &mut visitor, Start::Bare, &mut link, &mut steps);
//! ```
//!
//! In `specs/Connection/`, `Steps.antt` has one message with its answer, `Session.antt` the whole connection by its ending,
//! `Talk.antt` its messages, and `OneHistory.antt` the same as one history tells it.
mod answering;
mod ending;
mod laws;
mod parking;
mod session;

pub use crate::connection::ending::Ending;
pub use crate::connection::laws::{connections_tell_one_history, messages_tell_one_history};
pub use crate::connection::session::serve_link;
