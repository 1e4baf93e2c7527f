//! Reading .ann files: the layer that a standoff file spells, or its first fault with its line.
#![tactic(auto)]

mod ann_fault;
mod attribute_line;
mod class_line;
mod declared_names;
mod event_line;
mod id_letters;
mod known_lines;
mod laws;
mod layer_lines;
mod line;
mod line_counts;
mod line_fault;
mod line_form;
mod line_ids;
mod line_meaning;
mod normalization_line;
mod note_line;
mod pairs;
mod reader;
mod relation_line;
mod roles;
mod text_line;
mod texts;
mod word;
mod worked_rows;

pub use crate::ann_fault::{AnnFault, AnnWhat};
pub use crate::id_letters::Letters;
pub use crate::laws::{
    at_most_one_layer, classes_are_smallest, files_of_a_layer, files_without_fault, layers_of_lines,
};
pub use crate::reader::read_ann;
pub use crate::roles::role_read;
pub use crate::worked_rows::examples_of_lines;
