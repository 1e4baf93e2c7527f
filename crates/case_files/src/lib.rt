//! Files of cases for `conformance`: what a case says, as the world that its run meets and what the run has to leave.
//!
//! A file is read by [`read_cases`], and a case is made ready by [`prepare`]: then it has the words, the files, the
//! input and the calls that fail as a run takes them, and what has to be found behind it. What a run left is held
//! against that by [`differences_of`] and [`bytes_differ`].
//!
//! ```text
//! let file = read_cases(alloc, text)?;
//! for case in &file.cases {
//!     let prepared = prepare(alloc, case, &file.common)?;
//!     let left = /* a run of prepared.words over prepared.files */;
//!     let told = differences_of(alloc, &prepared.expected, &left)?;
//! }
//! ```
//!
//! It is a tool of tests, and knows nothing of the program whose runs the cases describe. Its calls are proved safe; of
//! what they give more is said where runs are compared.
#![tactic(auto)]

mod cases;
mod compare;
mod each_call;
mod escapes;
mod headers;
mod looks;
mod malformed;
mod messages;
mod prepared;
mod records;
mod runs;

pub use crate::cases::{CaseFile, Section, Written, read_cases};
pub use crate::compare::{Differences, bytes_differ, differences_of};
pub use crate::each_call::EachCall;
pub use crate::headers::{Answer, Ask, Device, Form, Header};
pub use crate::looks::{Look, Seen};
pub use crate::malformed::{Flaw, Malformed};
pub use crate::prepared::{Fails, Left, Prepared, prepare};
pub use crate::runs::{FailingDisk, Run};
