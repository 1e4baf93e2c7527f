//! What several annotators have marked on one text, put side by side: which contents there are, who has
//! each, and what all have.
//!
//! [`items`] lists the distinct contents of a [`Snapshot`](layer_model::Snapshot), each once, with its
//! holders; [`unanimous`] picks the annotations and classes of the first holder whose content stands in
//! every layer. Annotations are compared by content, as `content_keys` says, and never by ID (WebAnno user
//! guide, "Curation").
#![tactic(auto)]

mod entry;
mod item;
mod item_list;
mod merged;
mod picks;
mod rows;
mod shared;
mod standing;
mod worked_rows;

pub use crate::entry::Entry;
pub use crate::item::{Item, ItemId};
pub use crate::item_list::items;
pub use crate::merged::Merged;
pub use crate::picks::{Picks, unanimous};
pub use crate::worked_rows::examples_of_items;
