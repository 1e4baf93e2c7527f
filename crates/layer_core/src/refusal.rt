//! Why a command is refused.
use layer_model::Rule;
use mark_base::Memory;

/// Why a command is refused.
#[derive(Clone, Copy, Debug, PartialEq, Eq)]
pub enum Refusal {
    /// The first rule by number that the command breaks, with what it names.
    Rule(Rule),
    /// Memory ran out.
    Memory,
}

impl From<Memory> for Refusal {
    ghost use Rattle.std.specs.Prelude.{◌≡◌};
    ghost use Rattle.layer_core.specs.declared.refusal.Refusal.{Refusal};

    ghost from_gives = { λ _ refusal. refusal ≡ Refusal.Memory };

    fn from(_: Memory) -> Self {
        Refusal::Memory
    }
}
