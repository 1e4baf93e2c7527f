//! The entries of a project's journal as bytes, and back.
//!
//! The main type is [`Entry`]: a change of the project, or a piece of the whole project's state.
//! [`write_entry`] gives an entry's bytes, and [`read_entry`] the one entry that bytes are:
//!
//! ```text
//! let entry = Entry::Checkout { by: Slug::new(alloc, "ann")?, doc: 0 };
//! let bytes = write_entry(alloc, &entry)?;
//! read_entry(alloc, bytes.items())?;
//! ```
//!
//! An entry is its tag in one byte, 1 to 24 in the order of [`Entry`]'s variants, and its fields in order.
//! Numbers have their low byte first. A slug stands behind one byte of its length, a text behind four, and
//! people behind one byte of their number; each person is a byte, 1 for a curator and 0 for an annotator, and
//! the name. `accept` is a byte, 1 or 0. `commands` and `pairs` go to the end.
//!
//! No two entries have the same bytes, and bytes of which writing would not give back each one are no entry.
//! So a byte for yes or no is 1 or 0, the level of a founding is not 255, the flags of a row are 0 to 3, and
//! no byte stands behind the last field. What plain fields leave open is not tested here: the order of people,
//! the range of a kind, and what texts, commands and decisions say.
#![tactic(auto)]

mod change_fields;
mod cursor;
mod entry;
mod laws;
mod person;
mod piece_fields;
mod reading;
mod shared_fields;
mod worked_rows;
mod write_fields;
mod write_shapes;
mod writing;

pub use crate::entry::Entry;
pub use crate::laws::{entries_are_told_apart, entries_have_bytes};
pub use crate::person::{Person, PersonList};
pub use crate::reading::read_entry;
pub use crate::worked_rows::examples_of_entries;
pub use crate::writing::write_entry;
