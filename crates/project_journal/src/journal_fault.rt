//! Why a journal could not be made or opened.
ghost use Rattle.std.specs.Prelude.{◌≡◌};
ghost use Rattle.project_journal.specs.declared.journal_fault.JournalFault.TheVariants;

use mark_base::{Failed, Memory};
use std::alloc::{AllocError, AllocFailed};

/// Why a journal could not be made or opened. The disk is given back beside it.
#[derive(Clone, Copy, Debug, PartialEq, Eq)]
pub enum JournalFault {
    /// The file has fewer than 17 bytes, or does not begin with `ANNOBOOK`. It may be a creation that
    /// was cut off.
    NotAJournal,
    /// The file is of this version, which is neither 1 nor 2.
    NewerVersion(u32),
    /// The disk failed, and counted it.
    Disk,
    /// The record of this number, from 1, has an open gate and is not whole.
    Damaged(u64),
    /// The file that a new journal was to fill has this many bytes.
    AlreadyThere(u64),
    /// Memory was refused.
    Memory,
}

impl From<Failed> for JournalFault {
    ghost from_gives = { λ _ fault. fault ≡ TheVariants.Disk };

    fn from(_: Failed) -> Self {
        JournalFault::Disk
    }
}

impl From<Memory> for JournalFault {
    ghost from_gives = { λ _ fault. fault ≡ TheVariants.Memory };

    fn from(_: Memory) -> Self {
        JournalFault::Memory
    }
}

impl From<AllocError> for JournalFault {
    ghost from_gives = { λ _ fault. fault ≡ TheVariants.Memory };

    fn from(_: AllocError) -> Self {
        JournalFault::Memory
    }
}

impl<T: Drop> From<AllocFailed<T>> for JournalFault {
    ghost from_gives = { λ _ fault. fault ≡ TheVariants.Memory };

    fn from(_: AllocFailed<T>) -> Self {
        JournalFault::Memory
    }
}
