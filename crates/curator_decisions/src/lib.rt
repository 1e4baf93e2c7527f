//! A curator's decisions on the items of a snapshot, and the layer that they make.
//!
//! An item is in where it is unanimous or accepted, and not rejected. The curated layer has the items that
//! are in, numbered anew, and the unanimous classes whose members are all in.
#![tactic(auto)]

mod beside;
mod building;
mod comparison;
mod curated_laws;
mod decided_laws;
mod deciding;
mod decision_fault;
mod decisions;
mod laws;
mod naming;
mod numbering;
mod renaming;
mod verdict;
mod worked_rows;

pub use crate::comparison::Comparison;
pub use crate::curated_laws::{
    decided_layers_break_three, decisions_are_judged_by_items, refusals_break_three,
};
pub use crate::decided_laws::{decisions_are_a_map, decisions_stay_accepted, verdicts_are_set};
pub use crate::decision_fault::DecisionFault;
pub use crate::decisions::{Decisions, item_rank};
pub use crate::laws::{undecided_layers_are_accepted, undecided_layers_obey};
pub use crate::verdict::Verdict;
pub use crate::worked_rows::{
    examples_of_clashes, examples_of_curated_layers, examples_of_decisions,
};
