//! Why a project is not founded.
ghost use Rattle.std.specs.Prelude.{◌≡◌};
ghost use Rattle.project_book.specs.declared.found_fault.FoundFault.TheVariants;

use mark_base::Memory;
use project_journal::KeeperFault;

/// Why a project is not founded.
#[derive(Clone, Copy, Debug, PartialEq, Eq)]
pub enum FoundFault {
    /// The founding would be kept in so many bytes, which are more than the 16,777,216 that a journal takes, or its
    /// configuration has a text of more than 4,194,304.
    EntryTooLong(u64),
    /// The keeper failed, and counted it.
    Keeper,
    /// Memory ran out.
    Memory,
}

impl From<Memory> for FoundFault {
    ghost from_gives = { λ _ fault. fault ≡ TheVariants.Memory };

    fn from(_: Memory) -> Self {
        FoundFault::Memory
    }
}
