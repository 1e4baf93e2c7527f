//! A note.
use mark_base::{AnnId, Name, Text};

/// A note of an annotator on an annotation, under any type word (brat standoff manual, "Note
/// annotations").
#[derive(Clone, Debug, Drop)]
pub struct Note {
    pub kind: Name,
    pub target: AnnId,
    pub text: Text,
}
