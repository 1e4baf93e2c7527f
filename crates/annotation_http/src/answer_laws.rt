//! What a book answers can be shown.
//!
//! Whoever asks a book gives its reply to `answer_of`, which wants one that can be shown. It is one,
//! by this law:
//!
//! ```text
//! answers_can_be_shown();                         // does nothing: it tells a proof
//! let answer = answer_of(alloc, &route, &reply)?; // where the reply is a book's
//! ```
mod laws;

pub use crate::answer_laws::laws::answers_can_be_shown;
