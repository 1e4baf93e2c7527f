//! What a message of HTTP asks of a project, and its answer.
//!
//! A method and a path lead to a route ([`Routes`], `specs/Routes`), a route with a body to a request ([`request_of`],
//! `specs/Requests`), and what a project replies to an answer ([`answer_of`], `specs/Answers`). Bodies in JSON and refusals
//! stand in `specs/AnswerBodies`, what a desk answers by itself in `specs/Desk`:
//!
//! ```text
//! let found = routes.find(alloc, "PUT", "/docs/x/text")?;
//! let request = request_of(alloc, &route, body)?;
//! let answer = answer_of(alloc, &route, reply)?;
//! ```
#![tactic(auto)]

mod answer_bodies;
mod answers;
mod desk;
mod requests;
mod routes;

pub use crate::answer_bodies::{
    MessageFault, book_refusal, docs_answer, examples_of_figures, examples_of_inner_refusals,
    examples_of_message_faults, examples_of_refusals, number_answer, out_answer, refusal_name,
    snapped_answer, truth_answer,
};
pub use crate::answers::{answer_of, examples_of_answers};
pub use crate::desk::{do_command, load_file, no_memory, redo_last, show_lines, undo_last};
pub use crate::requests::{BodyFault, examples_of_bodies, request_of};
pub use crate::routes::{
    BookRoute, DeskRoute, DocumentRoute, Found, LayerRoute, Methods, ProjectRoute, Route, Routes,
    SnapshotRoute, examples_of_desk_routes, examples_of_document_routes, examples_of_layer_routes,
    examples_of_lost_paths, examples_of_numbers, examples_of_project_routes,
    examples_of_snapshot_routes,
};
