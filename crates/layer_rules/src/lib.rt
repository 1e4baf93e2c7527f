//! The rules that a layer keeps for a configuration and a text.
//!
//! [`check`] answers Ok exactly for a [`Layer`](layer_model::Layer) that is well-formed for a configuration
//! and a text, and else its least flaw, with its place; [`may_commit`] tells the first event that lacks
//! arguments. The crate `layer_core` has the commands that change a layer within these rules.
//!
//! ```text
//! check(alloc, &layer, &doc, &conf)?;
//! may_commit(&layer, &conf);
//! ```
//!
//! The rules on one annotation are defined in `specs/MarkRules.antt`, those on pairs and on the whole in
//! `LayerRules.antt`, and what is well-formed in `WellFormed.antt`.
#![tactic(auto)]

mod bad_texts;
mod carried_by_rules;
mod check_fault;
mod class_rules;
mod commit;
mod event_chains;
mod laws;
mod layer_check;
mod layer_full;
mod lowest_flaw;
mod mark_rules;
mod member_types;
mod one_annotation;
mod overlaps;
mod repeats;
mod rules_by_kind;
mod same_attributes;
mod same_events;
mod same_relations;
mod same_spans;
mod targets;
mod text_flaw;
mod worked_rows;

pub use crate::bad_texts::{is_bad_entry, is_bad_store, is_bad_text};
pub use crate::carried_by_rules::{carried_by_rule, id_text};
pub use crate::check_fault::CheckFault;
pub use crate::class_rules::{are_bad_members, class_rule, equiv_members};
pub use crate::commit::may_commit;
pub use crate::event_chains::deep_flaw;
pub use crate::laws::{unflawed_layers, well_formed_layers_cohere};
pub use crate::layer_check::check;
pub use crate::layer_full::full_flaw;
pub use crate::mark_rules::{
    LONGEST_REACH, barred_class, barred_type, last_end, missing, missing_ids, unwanted,
    unwanted_members, where_so,
};
pub use crate::one_annotation::{annotation_rule, text_rule};
pub use crate::targets::{
    is_argument, is_attribute_target, is_event_type, is_id, is_member, is_trigger, target_of,
};
pub use crate::worked_rows::examples_of_fields;
