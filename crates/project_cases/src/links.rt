//! Connections to a project: each line is a message of a caller, and below it stands what is answered.
//!
//! The connections of a case are served one after another, each by one call of `serve_link` over a link in memory, for
//! the one visitor of a project over a keeper in memory; and the case is run once more with the bytes of each link in
//! pieces of one byte. A case with a section `turns` has two connections, whose messages come in the order of its lines.
mod served;
mod spelling;
mod talk;
mod turns;

pub(crate) use crate::links::served::run_case;
