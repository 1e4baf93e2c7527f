//! The replies of a project as answers of HTTP.
//!
//! [`answer_of`] gives the [`Answer`](http_wire::Answer) that a [`Reply`](project_state::Reply) is on its route, with its
//! status, its media type and its body.
//!
//! ```text
//! let answer = answer_of(alloc, &route, &reply)?; // 200 {"done":0,"revision":0,"undone":0}
//! ```
//!
//! The answers are listed in `specs/Answers.antt`; refusals stand in `answer_bodies`.
mod answer;
mod worked_answers;

pub use crate::answers::answer::answer_of;
pub use crate::answers::worked_answers::examples_of_answers;
