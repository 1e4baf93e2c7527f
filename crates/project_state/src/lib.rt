//! A project as a program keeps it.
//!
//! The main type is [`BookState`], a project at a place of its history, from which documents and rows are read by
//! name in one look-up, and to which a change is done as an [`Act`]:
//!
//! ```text
//! let row = state.row_in(&doc, &who); // what an annotator has done on a document
//! state.make_room(&act)?; // all the memory that the act takes
//! state.perform(act); // the act, which takes none
//! ```
//!
//! What a project is, is defined in `project_machine`, whose items this crate passes on. `specs/Values.antt` leads
//! from what is asked ([`Request`]), answered ([`Reply`]) and happens ([`Change`]) to the plain values that those
//! definitions speak of. [`change_bytes`] and [`asking_of`] make entries of changes and requests of entries
//! (`specs/Entries`), and [`table_act`] says what an act does to the tables of agreement (`specs/Tables`).
#![tactic(auto)]

pub use project_machine::{
    BookRefusal, DocLine, Policy, Report, Roster, RosterFault, annotators_are_shown_their_own,
    annotators_change_their_own_rows, changes_tell_their_requests, committed_layers_obey,
    examples_of_broken_layers, examples_of_histories, examples_of_snapshots, examples_of_steps,
    histories_go_on, openings_can_be_repeated, places_stand, rosters_can_found, snapshots_stay,
    states_can_be_restored, views_can_be_curated,
};

mod act;
mod acting;
mod change;
mod doc_list;
mod document;
mod entries;
mod finished_layers;
mod lending;
mod limits;
mod pair_list;
mod people;
mod reply;
mod request;
mod restoring;
mod row;
mod row_act;
mod state;
mod stored_snapshot;
mod tables;

pub use crate::act::Act;
pub use crate::change::Change;
pub use crate::doc_list::DocList;
pub use crate::document::StoredDocument;
pub use crate::entries::{
    Asking, Founding, Written, accepted_changes_can_be_entered, asking_of, change_bytes, entry_for,
    entry_written, founding_of, names_are_spelt,
};
pub use crate::limits::{MOST_CHARACTERS, MOST_DOCUMENTS};
pub use crate::pair_list::PairList;
pub use crate::reply::{Out, Reply, SnapshotView};
pub use crate::request::Request;
pub use crate::row::StoredRow;
pub use crate::state::BookState;
pub use crate::stored_snapshot::StoredSnapshot;
pub use crate::tables::{TableAct, apply, examples_of_tablings, table_act, tables_of};
