//! Texts by characters: a document, the fragments of it that annotations cover, and its tokens.
//!
//! The main type is [`Doc`]. Offsets count characters from 0, and the end of a fragment is the index
//! behind its last character, as in .ann files. A slice is found from the nearest of the checkpoints,
//! which stand 256 characters apart, so its cost does not grow with the text.
//!
//! ```text
//! let doc = Doc::new(alloc, "Zoë met\nAnn.")?;
//! doc.slice(Frag { start: 0, end: 3 });          // Some("Zoë")
//! doc.reference(&[Frag { start: 4, end: 11 }])?; // "met Ann"
//! doc.tokens();                                  // 0..3, 4..7 and 8..12
//! ```
#![tactic(auto)]

mod checkpoints;
mod doc;
mod shared;
mod tokens;

pub use crate::doc::{Doc, DocFault, RefFault};
