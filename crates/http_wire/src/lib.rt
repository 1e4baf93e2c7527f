//! HTTP/1.1 messages and answers as bytes.
//!
//! [`Inbox`] takes one message after another from a link, in whatever pieces its bytes come, and says
//! by a [`Stop`] why there is no further one. [`answer_bytes`] makes the bytes of an answer. Heads are
//! read by `httparse`; bodies are those that Content-Length declares.
//!
//! ```text
//! let mut inbox = Inbox::new(alloc)?;
//! let message = inbox.next_message(&mut link)?;
//! let answer = answer_of(&message);
//! let bytes = answer_bytes(alloc, &answer, place, message.last)?;
//! send_all(&mut link, bytes.items())?;
//! ```
#![tactic(auto)]

mod answer;
mod body_size;
mod empty_lines;
mod examples;
mod fields;
mod head;
mod inbox;
mod message;
mod next_message;
mod stop;
mod unable;
mod words;

pub use crate::answer::{Answer, Media, answer_bytes};
pub use crate::examples::{examples_of_answers, examples_of_fields};
pub use crate::inbox::Inbox;
pub use crate::message::{Message, bytes_determine_messages, bytes_determine_stop};
pub use crate::stop::Stop;
pub use crate::unable::send_unable;
pub use mark_base::{Link, MemoryLink};
