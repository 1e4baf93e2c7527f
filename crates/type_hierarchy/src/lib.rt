//! The tree of entity and event types of a configuration.
//!
//! The main type is [`Types`], which is made of rows. The place of a row, counted from 0, is the ID of
//! its type, and a parent stands before its children.
//!
//! ```text
//! let types = Types::new(alloc, rows)?;          // Entity, and Person below it
//! let person = types.find(&name)?;               // TypeId { n: 1 }
//! types.under(person, TypeId { n: 0 });          // true
//! ```
#![tactic(auto)]

mod shared;
mod tree;
mod type_row;
mod types_fault;

pub use crate::tree::{MOST_USABLE, Types};
pub use crate::type_row::TypeRow;
pub use crate::types_fault::TypesFault;
