//! Why a desk is not opened.
use layer_model::{Flaw, Rule};
use layer_rules::CheckFault;
use mark_base::Memory;

/// Why a desk is not opened.
#[derive(Clone, Copy, Debug, PartialEq, Eq)]
pub enum DeskStart {
    /// The base breaks a rule: this is its least flaw.
    Base(Flaw),
    /// The command of this index, counted from 0 through done and then through undone from its end, is
    /// refused by this rule; or both scripts have more than 4,096 commands together, which is `DeskFull`
    /// at 4096.
    At(u32, Rule),
    /// Memory ran out.
    Memory,
}

impl From<Memory> for DeskStart {
    ghost use Rattle.std.specs.Prelude.{◌≡◌};
    ghost use Rattle.layer_undo.specs.declared.desk_start.DeskStart.{DeskStart};

    ghost from_gives = { λ _ start. start ≡ DeskStart.Memory };

    fn from(_: Memory) -> Self {
        DeskStart::Memory
    }
}

impl From<CheckFault> for DeskStart {
    ghost use Rattle.std.specs.Prelude.{◌≡◌};
    ghost use Rattle.layer_undo.specs.Starts.{start_of};

    ghost from_gives = { λ fault start. start ≡ start_of fault };

    fn from(fault: CheckFault) -> Self {
        match fault {
            CheckFault::Flaw(flaw) => DeskStart::Base(flaw),
            CheckFault::Memory => DeskStart::Memory,
        }
    }
}
