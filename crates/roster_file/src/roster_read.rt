//! Why a file is no roster.
ghost use Rattle.std.specs.Prelude.{◌≡◌};
ghost use Rattle.roster_file.specs.declared.roster_read.RosterRead.TheVariants;

use mark_base::Memory;
use project_machine::RosterFault;
use std::alloc::{AllocError, AllocFailed};

/// Why a file is no roster. Rows are numbered from 1. The first row at fault counts, and on it the first of these.
#[derive(Clone, Copy, Debug, PartialEq, Eq)]
pub enum RosterRead {
    /// The row of this number does not have exactly two fields, or one of them is not UTF-8.
    BadRow(u32),
    /// The first field of the row of this number is no slug.
    BadName(u32),
    /// The second field of the row of this number is neither `annotator` nor `curator`.
    BadRole(u32),
    /// Each row has a person, and the people make no roster.
    Roster(RosterFault),
    /// Want of memory.
    Memory,
}

impl From<Memory> for RosterRead {
    ghost from_gives = { λ _ fault. fault ≡ TheVariants.Memory };

    fn from(_: Memory) -> Self {
        RosterRead::Memory
    }
}

impl From<AllocError> for RosterRead {
    ghost from_gives = { λ _ fault. fault ≡ TheVariants.Memory };

    fn from(_: AllocError) -> Self {
        RosterRead::Memory
    }
}

impl<T: Drop> From<AllocFailed<T>> for RosterRead {
    ghost from_gives = { λ _ fault. fault ≡ TheVariants.Memory };

    fn from(_: AllocFailed<T>) -> Self {
        RosterRead::Memory
    }
}
