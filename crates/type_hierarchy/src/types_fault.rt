//! Why rows make no tree of types.
use mark_base::Memory;
use std::alloc::{AllocError, AllocFailed};

/// Why rows make no tree of types. A place is that of the first row at fault, counted from 0.
#[derive(Clone, Copy, Debug, PartialEq, Eq)]
pub enum TypesFault {
    /// The name of this row stands on an earlier row.
    NameTwice(u16),
    /// The parent of this row does not stand before it.
    BadParent(u16),
    /// There are more than 256 rows, or more than 63 usable ones.
    TooMany,
    /// Memory ran out.
    Memory,
}

impl From<Memory> for TypesFault {
    ghost use Rattle.std.specs.Prelude.{◌≡◌};
    ghost use Rattle.type_hierarchy.specs.declared.types_fault.TypesFault.{TypesFault};

    ghost from_gives = { λ _ fault. fault ≡ TypesFault.Memory };

    fn from(_: Memory) -> Self {
        TypesFault::Memory
    }
}

impl<T: Drop> From<AllocFailed<T>> for TypesFault {
    ghost use Rattle.std.specs.Prelude.{◌≡◌};
    ghost use Rattle.type_hierarchy.specs.declared.types_fault.TypesFault.{TypesFault};

    ghost from_gives = { λ _ fault. fault ≡ TypesFault.Memory };

    fn from(_: AllocFailed<T>) -> Self {
        TypesFault::Memory
    }
}
