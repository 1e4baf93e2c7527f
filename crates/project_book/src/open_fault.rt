//! Why a project is not opened.
ghost use Rattle.std.specs.Prelude.{◌≡◌};
ghost use Rattle.project_book.specs.declared.open_fault.OpenFault.TheVariants;

use mark_base::Memory;

/// Why a project is not opened again from the entries of its journal.
#[derive(Clone, Copy, Debug, PartialEq, Eq)]
pub enum OpenFault {
    /// The entry of this number, from 1, is the first at fault: it is no entry, or the project at that place does not make
    /// it, or it is not read behind the pieces before it; or the number is that past the last entry, where there are no
    /// entries or the last piece of a checkpoint is lacking.
    BadEntry(u64),
    /// The keeper failed, and counted it.
    Keeper,
    /// Memory ran out.
    Memory,
}

impl From<Memory> for OpenFault {
    ghost from_gives = { λ _ fault. fault ≡ TheVariants.Memory };

    fn from(_: Memory) -> Self {
        OpenFault::Memory
    }
}
