//! One message of a connection to a project, and its answer.
//!
//! [`serve_message`] tests a message, carries it out on the desk that the connection holds, or asks the project for its
//! caller, and gives the answer:
//!
//! ```text
//! let answer = serve_message(alloc, &mut visitor, &mut connection, &message, &mut steps)?;
//! ```
//!
//! `specs/Plans.antt` has the tests of a message in their order and what it comes to, `specs/Exchanges.antt` what the
//! connection holds behind the answer of the project, and `specs/OpenDesks.antt` what a held desk is in a history.
mod asking;
mod connection;
mod desk_routes;
mod laws;
mod messages;
mod worked_plans;

pub use crate::exchanges::asking::{open_held, park_request};
pub use crate::exchanges::connection::{Held, Start};
pub use crate::exchanges::laws::{
    desks_can_be_opened, held_desks_stay_open, only_commits_under_its_hold_change_a_layer,
};
pub use crate::exchanges::messages::{exchange, serve_message};
pub use crate::exchanges::worked_plans::{
    examples_of_asking_messages, examples_of_refused_messages,
};
