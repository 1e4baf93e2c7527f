//! How the running tables of agreement go along with a project.
//!
//! Before a change is kept, [`table_act`] makes what it does to the tables, with all the memory that it takes; once
//! it is kept, [`apply`] does that, and cannot be refused:
//!
//! ```text
//! let act = table_act(alloc, &state, &groups, &change)?;
//! apply(&mut tables, act, &mut steps);
//! ```
//!
//! The tables then stand as `standing_of` of `project_machine` has them: at the labels of all rows that were
//! committed and are not ignored.
mod applying;
mod counting;
mod tabling;
mod worked_rows;

pub use crate::tables::applying::apply;
pub use crate::tables::counting::tables_of;
pub use crate::tables::tabling::{TableAct, table_act};
pub use crate::tables::worked_rows::examples_of_tablings;
