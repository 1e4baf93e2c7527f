//! A project at work: each request is one step, kept before it is answered.
//!
//! The main type is [`Book`], a project over what keeps its entries:
//!
//! ```text
//! let keeper = MemoryKeeper::new(alloc, Vec::new(alloc), Vec::new(alloc));
//! let mut book = Book::found(alloc, keeper, conf, roster).map_err(|(_, fault)| fault)?;
//! let reply = book.ask(&caller, Request::AddText { doc, text }, &mut steps);
//! book.place(); // 2: the founding, and the text
//! ```
//!
//! It is opened again from the file of its journal, whose entries tell the history anew:
//!
//! ```text
//! let (journal, entries) = Journal::open(alloc, disk)?;
//! let book = Book::open(alloc, journal, entries.as_slice()).map_err(|(_, fault)| fault)?;
//! ```
//!
//! What a step is, is defined in `project_machine` (`Machine.antt`), and what a book answers and keeps in its
//! `Asking.antt`. [`Visitor`] is what a connection sees of a project, and [`Alone`] the one visitor of a book of its
//! own.
#![tactic(auto)]

mod alone;
mod asking;
mod book;
mod bounds;
mod found_fault;
mod founding;
mod history;
mod keeping;
mod kept_already;
mod laws;
mod open_fault;
mod opening;
mod pieces;
mod replaying;
mod state_pieces;
mod visitor;

pub use crate::alone::Alone;
pub use crate::book::Book;
pub use crate::found_fault::FoundFault;
pub use crate::laws::{
    one_entry_is_at_fault, verdicts_are_accepted, views_are_accepted,
    what_was_kept_is_without_fault,
};
pub use crate::open_fault::OpenFault;
pub use crate::state_pieces::states_are_told_apart;
pub use crate::visitor::Visitor;
pub use project_state::{
    BookRefusal, BookState, Change, DocLine, DocList, Out, PairList, Policy, Reply, Request,
    Roster, RosterFault, SnapshotView,
};
pub use project_steps::{Judged, Kept, is_typed, judge};
