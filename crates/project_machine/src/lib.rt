//! A project of several annotators and curators: its people, and what each request does to it.
//!
//! The main type is [`Roster`], the people of a project in the order of their names:
//!
//! ```text
//! let ann = Person { name: Slug::new(alloc, "ann")?, curator: false };
//! let cur = Person { name: Slug::new(alloc, "cur")?, curator: true };
//! let roster = Roster::of(alloc, vec![in alloc; cur, ann]?)?;
//! roster.person(0); // ann
//! ```
//!
//! A project is one state machine. `specs/Machine.antt` defines what a request of a caller is answered and
//! what it makes happen in a state, `specs/History.antt` the state after what happened in turn,
//! `specs/Legal.antt` which histories there can be and what the state behind each keeps, and
//! `specs/Entries.antt` the entries by which a journal keeps a history. The bytes of the commands in these entries
//! are those of `command_bytes`.
#![tactic(auto)]

mod book_refusal;
mod doc_line;
mod laws;
mod report;
mod roster;
mod roster_fault;
mod worked_steps;

pub use crate::book_refusal::{BookRefusal, Policy};
pub use crate::doc_line::DocLine;
pub use crate::laws::{
    annotators_are_shown_their_own, annotators_change_their_own_rows, changes_tell_their_requests,
    committed_layers_obey, histories_go_on, openings_can_be_repeated, places_stand,
    rosters_can_found, snapshots_stay, states_can_be_restored, views_can_be_curated,
};
pub use crate::report::Report;
pub use crate::roster::Roster;
pub use crate::roster_fault::RosterFault;
pub use crate::worked_steps::{
    examples_of_broken_layers, examples_of_histories, examples_of_snapshots, examples_of_steps,
};
