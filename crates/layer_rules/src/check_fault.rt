//! Why a layer is not checked as well-formed.
use layer_model::Flaw;
use mark_base::Memory;

/// Why a layer is not checked as well-formed.
#[derive(Clone, Copy, Debug, PartialEq, Eq)]
pub enum CheckFault {
    /// The layer breaks this rule, here. It is the least flaw of the layer: of the rule of the least
    /// number, at the least place that breaks it.
    Flaw(Flaw),
    /// Memory ran out.
    Memory,
}

impl From<Memory> for CheckFault {
    ghost use Rattle.std.specs.Prelude.{◌≡◌};
    ghost use Rattle.layer_rules.specs.declared.check_fault.CheckFault.{CheckFault};

    ghost from_gives = { λ _ fault. fault ≡ CheckFault.Memory };

    fn from(_: Memory) -> Self {
        CheckFault::Memory
    }
}
