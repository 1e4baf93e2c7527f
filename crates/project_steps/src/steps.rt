//! One request to a project: why it is refused, or what it is answered and what it makes happen.
//!
//! [`judge`] is one step of a project before it is kept. It tests who asks, then the request, and gives the answer
//! with the change that is to be kept first, its entry, and the act that does it:
//!
//! ```text
//! let judged = judge(alloc, &state, &tables, &caller, request)?;
//! ```
//!
//! What it must be is `step` of `project_machine`. A file a part: `policies.rt` who may ask, `refusals.rt` the tests,
//! `accept.rt` the answers, `outcomes.rt` both together for texts and rows, `snap.rt` and `decide.rt` for snapshots,
//! `agreement.rt` and `reports.rt` for tables, `texts.rt` what a refusal names.
mod accept;
mod accepted;
mod agreement;
mod decide;
mod judging;
mod outcomes;
mod parts;
mod policies;
mod refusals;
mod reports;
mod request_values;
mod rows;
mod shots;
mod snap;
mod texts;

pub use crate::steps::judging::{Judged, Kept, judge};
pub use crate::steps::request_values::is_typed;
