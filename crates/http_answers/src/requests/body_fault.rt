//! Why a body asks nothing.
use mark_base::Memory;

/// Why a body asks nothing.
#[derive(Clone, Copy, Debug, PartialEq, Eq)]
pub enum BodyFault {
    /// The body of a document is not UTF-8, or that of a decision or an undecision is not of its form.
    BadBody,
    /// The text has more than 200,000 characters.
    TextTooLong,
    /// Memory ran out.
    Memory,
}

impl From<Memory> for BodyFault {
    ghost use Rattle.std.specs.Prelude.{◌≡◌};
    ghost use Rattle.http_answers.specs.declared.requests.body_fault.BodyFault.{BodyFault};

    ghost from_gives = { λ _ fault. fault ≡ BodyFault.Memory };

    fn from(_: Memory) -> Self {
        BodyFault::Memory
    }
}
