//! Bounds of what a project and its entries may be.

/// The greatest number of bytes of an entry that a journal takes.
pub(crate) const LONGEST_ENTRY: usize = 16_777_216;

/// The greatest place at which a project can begin.
pub(crate) const GREATEST_PLACE: u64 = 4_611_686_018_427_387_904;

/// How many bytes the entry of a commit has beside the name and the lines.
pub(crate) const COMMIT_BYTES: usize = 18;

/// How many bytes the piece of a layer that a snapshot holds has beside the name and the lines.
pub(crate) const HELD_BYTES: usize = 6;

/// The greatest number of documents of a project.
pub(crate) const MOST_DOCUMENTS: u32 = 4_096;

/// The greatest number of characters of a document.
pub(crate) const LONGEST_TEXT: usize = 200_000;

/// The greatest number of characters of all documents.
pub(crate) const MOST_CHARACTERS: usize = 16_777_216;
