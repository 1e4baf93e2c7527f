//! Writing .ann files: the canonical lines of a layer, which read back as the same layer.
//!
//! [`ann_bytes`] gives the file of a layer, [`write_ann`] writes it to a sink. Both want a layer that is
//! well-formed for the configuration and the text, as the check of layers tells.
//!
//! ```text
//! write_ann(alloc, &layer, &doc, &conf, &mut sink)?;     // T1 TAB Person 0 3 TAB Ann
//! ```
//!
//! What the lines are is defined in `specs/`: `ann_of` in `AnnOf.antt` is the whole file, with one word a
//! line form, and `Words.antt` has the words.
#![tactic(auto)]

mod ann_file;
mod arguments;
mod laws;
mod letter_lines;
mod lines;
mod words;
mod write_fault;

pub use crate::ann_file::{ann_bytes, write_ann};
pub use crate::laws::{written_layers_are_read_back, written_layers_are_utf8};
pub use crate::write_fault::WriteAnn;
