//! A project that shows the server at work: forty documents, three annotators, and all requests as messages of one connection.
//!
//! [`demo`] makes the documents and the spans from a number, founds the project in memory, serves the messages, and sums up
//! what the session came to:
//!
//! ```text
//! let lines = demo(alloc, 7, &mut steps)?; // documents 40, tokens 16000, ..
//! ```
//!
//! What is sent is defined in `specs/Texts.antt` and `specs/Requests.antt`, what is told of it in `specs/Summary.antt`.
#![tactic(auto)]

mod counting;
mod figures;
mod founding;
mod input;
mod letters;
mod requests;
mod sending;
mod serving;
mod snapshots;
mod summary;
mod whole;

pub use crate::whole::demo;
