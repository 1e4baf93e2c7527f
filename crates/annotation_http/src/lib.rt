//! Messages of HTTP, answered from a project.
//!
//! [`serve_link`] serves one connection until it ends:
//!
//! ```text
//! let ending = serve_link(alloc, &mut visitor, Start::Bare, &mut link, &mut steps);
//! ```
//!
//! What a message asks for is found and read by `http_answers`, which answers it too. Here it is done at the book or at the
//! desk of the connection ([`serve_message`], `specs/Exchanges`). What a connection is answered, message by message, is
//! defined in `specs/Connection`.
#![tactic(auto)]

mod answer_laws;
mod connection;
mod exchanges;

pub use crate::answer_laws::answers_can_be_shown;
pub use crate::connection::{
    Ending, connections_tell_one_history, messages_tell_one_history, serve_link,
};
pub use crate::exchanges::{
    Held, Start, desks_can_be_opened, examples_of_asking_messages, examples_of_refused_messages,
    exchange, held_desks_stay_open, only_commits_under_its_hold_change_a_layer, open_held,
    park_request, serve_message,
};
