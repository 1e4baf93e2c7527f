//! One request to a project: why it is refused, or what it is answered and what it makes happen.
//!
//! ```text
//! let judged = judge(alloc, &state, &tables, &caller, request)?; // the answer, and what is to be kept first
//! ```
//!
//! What a step is, is defined in `project_machine` (`Machine.antt`). What a judgement is stands in
//! `specs/Steps/Judging.antt`, what its parts are in `specs/Steps/Accepting.antt`.
#![tactic(auto)]

mod steps;

pub use crate::steps::{Judged, Kept, is_typed, judge};
