//! How much a project takes.

/// How many documents a project has at most.
pub const MOST_DOCUMENTS: usize = 4_096;

/// How many characters the texts of a project have at most, all together.
pub const MOST_CHARACTERS: u64 = 16_777_216;

/// How many bytes the configuration of a project has at most.
pub(crate) const LONGEST_CONF: usize = 4_194_304;

/// How many bytes the .ann lines of a layer have at most, as an entry holds them.
pub(crate) const LONGEST_LINES: usize = 16_777_216;
