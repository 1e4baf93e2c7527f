//! One line of the list of documents.
use mark_base::Slug;

/// A document in the list of documents.
#[derive(Debug, Drop)]
pub struct DocLine {
    pub name: Slug,
    /// How many characters the text has.
    pub characters: u32,
}
