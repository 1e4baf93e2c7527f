//! Token and label columns both ways: one line a token, with the token, a TAB and a label.
//!
//! A label is `O` where no span covers the token, `B-` and a type at the first token of a span, and `I-` and
//! the type at its others. [`write_columns`] writes the columns of a layer that they can show, and
//! [`read_columns`] reads the layer that a file shows, or tells its first fault with its line.
//!
//! ```text
//! New TAB B-Location
//! York TAB I-Location
//! is TAB O
//! big TAB O
//! ```
//!
//! What the lines are is defined in `specs/`: `Columns.antt` has the text of a layer, `Fits.antt` which layers
//! columns can show, `WriteFaults.antt` what is at fault with the others, `ReadColumns.antt` how a file is read, and
//! `LineFaults.antt` each fault of a line by itself.
#![tactic(auto)]

mod column_fault;
mod columns;
mod label;
mod laws;
mod layer_runs;
mod line;
mod reader;
mod run;
mod token_texts;
mod worked_rows;
mod write_faults;
mod writer;

pub use crate::column_fault::{ColumnFault, ColumnOut, ColumnWhat};
pub use crate::laws::{
    at_most_one_layer, files_of_a_layer, layers_that_fit, line_faults_are_the_least,
    told_faults_are_the_first, types_are_labels_of_agreement, written_columns_are_read_back,
};
pub use crate::reader::read_columns;
pub use crate::worked_rows::{worked_columns, worked_spans};
pub use crate::writer::{column_bytes, write_columns};
