//! Bounds of what a project may be.

/// The greatest number of bytes of the text of a configuration.
pub(crate) const LONGEST_CONF: usize = 4_194_304;

/// The greatest place at which a project can begin.
pub(crate) const GREATEST_PLACE: u64 = 4_611_686_018_427_387_904;
