//! Why people make no roster.
use mark_base::Memory;

/// Why people make no roster. The faults are tested in this order.
#[derive(Clone, Copy, Debug, PartialEq, Eq)]
pub enum RosterFault {
    /// The name of this person stood before. It is the first such person, counted from 1.
    NameTwice(u32),
    /// There are more than 16 annotators, or more than 16 curators.
    TooMany,
    /// There is no annotator, or no curator.
    Lacking,
    /// Memory ran out.
    Memory,
}

impl From<Memory> for RosterFault {
    ghost use Rattle.std.specs.Prelude.{◌≡◌};
    ghost use Rattle.project_machine.specs.declared.roster_fault.RosterFault.{RosterFault};

    ghost from_gives = { λ _ fault. fault ≡ RosterFault.Memory };

    fn from(_: Memory) -> Self {
        RosterFault::Memory
    }
}
