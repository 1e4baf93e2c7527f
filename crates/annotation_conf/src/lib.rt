//! annotation.conf, read and written: the entity types, relation types, event types and attributes of a project.
//!
//! [`read_conf`] reads a file as a [`Conf`](conf_model::Conf), or tells its first fault with the line;
//! [`write_conf`] writes one back in one canonical text, which reads as the same configuration.
//!
//! ```text
//! let conf = read_conf(alloc, b"[entities]\nPerson\n[relations]\nKnows\tArg1:Person, Arg2:Person\n")?;
//! write_conf(alloc, &conf)?;
//! ```
//!
//! What a file says is defined in `specs/` of the crate `conf_model`: `conf_of` in `ConfOf.antt` is the
//! configuration of a list of bytes or its first fault, `conf_text` in `ConfText.antt` the canonical text.
//! [`files_are_read`], [`configurations_answer`] and [`faults_are_told`] show them at work on whole files.
#![tactic(auto)]

mod build;
mod build_links;
mod build_places;
mod build_resolver;
mod build_roles;
mod build_types;
mod canonical_text;
mod conf_reader;
mod conf_words;
mod count;
mod faults;
mod faults_lines;
mod faults_macros;
mod faults_pairs;
mod faults_twice;
mod file;
mod known_names;
mod line;
mod line_parts;
mod names_by_sort;
mod pieces;
mod sound_laws;
mod worked_rows;
mod write_laws;

pub use crate::canonical_text::write_conf;
pub use crate::conf_reader::read_conf;
pub use crate::sound_laws::sound_configurations_are_read_back;
pub use crate::worked_rows::{configurations_answer, faults_are_told, files_are_read};
