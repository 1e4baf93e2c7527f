//! What the routes of a project ask, with their bodies.
//!
//! [`request_of`] gives the [`Request`](project_state::Request) of a route of the project and the body of its message, or
//! the fault of the body:
//!
//! ```text
//! let request = request_of(alloc, &route, b"{\"item\":\"ann/T3\",\"verdict\":\"accept\"}")?;
//! ```
//!
//! `specs/Bodies.antt` says what a body says, and `specs/Requests.antt` what each route asks.
mod body_fault;
mod decision_body;
mod item_named;
mod json_fields;
mod request;
mod text_body;
mod worked_bodies;

pub use crate::requests::body_fault::BodyFault;
pub use crate::requests::request::request_of;
pub use crate::requests::worked_bodies::examples_of_bodies;
