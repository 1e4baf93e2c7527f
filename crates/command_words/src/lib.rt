//! Which command the words behind a program's name are.
//!
//! [`job_of`] reads the words as a [`Job`]: a command with what its further words name, or nothing where they are no
//! command. It opens no file, and knows of a project no more than how its people and documents are spelled.
//!
//! ```text
//! match job_of(alloc, &words)? {
//!     Some(Job::Verify { conf, text, ann }) => ..,
//!     Some(Job::Book(BookJob::Export { book, who, name })) => ..,
//!     None => /* the words are no command */
//! }
//! ```
//!
//! A program that takes words of its own beside these reads them by [`has_hyphen`] and [`number_read`].
#![tactic(auto)]

mod asked;
mod examples;

pub use crate::asked::{BookJob, Job, has_hyphen, job_of, number_read};
pub use crate::examples::examples_of_words;
