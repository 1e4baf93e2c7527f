//! Answers of HTTP whose bodies are JSON: refusals, each once, and the few figures that a project answers.
//!
//! [`MessageFault`] has the answers to messages that ask nothing, and [`book_refusal`] those to what a project
//! refuses. [`number_answer`], [`truth_answer`], [`out_answer`], [`snapped_answer`] and [`docs_answer`] answer what it
//! grants.
//!
//! ```text
//! let answer = MessageFault::NoRoute.answer(alloc)?;             // 404 {"refused":"NoRoute"}
//! let answer = number_answer(alloc, 201, "tokens", 4)?;          // 201 {"tokens":4}
//! ```
//!
//! The refusals with their statuses stand in `specs/Refusals.antt`, the other bodies in `specs/JsonAnswers.antt`.
mod json_body;
mod message_fault;
mod refusals;
mod worked_answers;

pub use crate::answer_bodies::json_body::{
    docs_answer, number_answer, out_answer, snapped_answer, truth_answer,
};
pub use crate::answer_bodies::message_fault::MessageFault;
pub(crate) use crate::answer_bodies::refusals::rule_status;
pub use crate::answer_bodies::refusals::{book_refusal, refusal_name};
pub use crate::answer_bodies::worked_answers::{
    examples_of_figures, examples_of_inner_refusals, examples_of_message_faults,
    examples_of_refusals,
};
