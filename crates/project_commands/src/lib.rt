//! What the commands of `annotate` do to a project: in memory, or in a file.
//!
//! A command on the project of a file opens it, asks it for something, and gives the file back. What it finds is bytes to be
//! printed:
//!
//! ```text
//! let found = add_document(alloc, "news.book", &caller, name, "x.txt", &mut folder, &mut disks, &mut steps);
//! ```
//!
//! [`try_project`] founds a project in memory and serves a console with it, [`serve_session`] serves one with the project of a
//! file. Which words are which command stands in `command_words`; who calls these by a command's words, and prints what they
//! find, is `annotation_cli`.
#![tactic(auto)]

mod adding;
mod agreeing;
mod columns_out;
mod commands;
mod compacting;
mod founding;
mod importing;
mod reporting;
mod scoring;
mod sessions;
mod showing;

pub use crate::adding::add_document;
pub use crate::agreeing::show_agreement;
pub use crate::columns_out::show_columns;
pub use crate::commands::{
    add_text, ask_granted, check_out, requests_are_granted_or_refused, serve, slug_of, try_project,
};
pub use crate::compacting::compact;
pub use crate::founding::found_in_file;
pub use crate::importing::import_file;
pub use crate::reporting::{show_progress, show_snapshots};
pub use crate::scoring::show_scores;
pub use crate::sessions::serve_session;
pub use crate::showing::{export_layer, show_curated};
