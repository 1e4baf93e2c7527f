//! What happens to a project as entries of a journal, and back.
//!
//! [`change_bytes`] writes a change, and [`asking_of`] tells which request makes the change of an entry:
//!
//! ```text
//! match change_bytes(alloc, &state, &change)? {
//!     Written::Bytes(bytes) => keeper.keep(bytes.items()),
//!     Written::TooLong(size) => refuse(size),
//! }
//! let asking = asking_of(alloc, &state, &entry)?; // who asked for what
//! ```
//!
//! What the entry of a change is, is defined in `project_machine` (`Entries.antt`), and its bytes in `entry_bytes`. A
//! journal begins with a founding, which [`founding_of`] reads.
mod asked;
mod asking;
mod change_entry;
mod documents;
mod founding;
mod laws;
mod lines;
mod snapshots;
mod verdicts;
mod written;

pub use crate::entries::asking::{Asking, asking_of};
pub use crate::entries::change_entry::entry_for;
pub use crate::entries::founding::{Founding, founding_of, names_are_spelt};
pub use crate::entries::laws::accepted_changes_can_be_entered;
pub use crate::entries::written::{Written, change_bytes, entry_written};
