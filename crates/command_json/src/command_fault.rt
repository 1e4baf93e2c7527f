//! Why a body gave no command.
use mark_base::Memory;

/// Why a body gave no command.
#[derive(Clone, Copy, Debug, PartialEq, Eq)]
pub enum CommandFault {
    /// The bytes are not a JSON object of one of the forms.
    BadBody,
    /// Memory ran out.
    Memory,
}

impl From<Memory> for CommandFault {
    ghost use Rattle.std.specs.Prelude.{◌≡◌};
    ghost use Rattle.command_json.specs.declared.command_fault.CommandFault.{CommandFault};

    ghost from_gives = { λ _ fault. fault ≡ CommandFault.Memory };

    fn from(_: Memory) -> Self {
        CommandFault::Memory
    }
}
