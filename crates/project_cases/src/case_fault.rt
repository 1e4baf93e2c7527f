//! Why a case has no form.
use mark_base::Memory;
use std::alloc::{AllocError, AllocFailed};

/// What is at fault with a line of a case.
#[derive(Clone, Copy, Debug)]
pub(crate) enum CaseWhat {
    /// No answer stands there.
    NoAnswer,
    /// A word is no number, or too large a one.
    NoNumber,
    /// A person is neither an annotator nor a curator, or has no name.
    BadPerson,
    /// The configuration has a fault.
    BadConf,
    /// The people make no roster.
    BadRoster,
    /// The project may not be asked any more.
    NoRoom,
}

/// Why a case has no form.
#[derive(Clone, Copy, Debug)]
pub(crate) enum CaseFault {
    /// The fault, and the number of its line in the file, from 1.
    At { line: u32, what: CaseWhat },
    /// Memory ran out.
    Memory,
}

impl From<Memory> for CaseFault {
    fn from(_: Memory) -> Self {
        CaseFault::Memory
    }
}

impl From<AllocError> for CaseFault {
    fn from(_: AllocError) -> Self {
        CaseFault::Memory
    }
}

impl<T: Drop> From<AllocFailed<T>> for CaseFault {
    fn from(_: AllocFailed<T>) -> Self {
        CaseFault::Memory
    }
}
