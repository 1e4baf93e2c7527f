//! Why there is no further message, and what is answered to it.
use crate::Answer;
use mark_base::Memory;
use std::alloc::Global;

/// Why a connection has no further message.
#[derive(Clone, Copy, Debug, PartialEq, Eq)]
pub enum Stop {
    /// The input ended between two messages, or after fewer than 16,384 bytes of empty lines.
    End,
    /// The input ended inside a message.
    Cut,
    /// The bytes can become no head, whatever follows, or its Content-Length is not one number of 1 to
    /// 18 digits. Answered 400.
    BadHead,
    /// PUT without Content-Length. Answered 411.
    NeedsLength,
    /// The head has more than 16,384 bytes or 64 fields, or its body more than 4,194,304 bytes.
    /// Answered 413.
    TooLarge,
    /// A field Transfer-Encoding. Answered 501.
    Encoded,
    /// A read of the link failed.
    ReadFault,
    /// Want of memory.
    Memory,
}

impl Stop {
    ghost use Rattle.std.specs.Prelude.{◌≡◌, IfOk};
    ghost use Rattle.http_wire.specs.Answers.{stop_answer};

    /// The answer to this stop, which is the last of its connection: 400, 411, 413 or 501, with a body
    /// that names the stop. None for the others; want of memory is told by `send_unable`.
    pub fn answer(self, alloc: Global) -> Result<Option<Answer>, Memory>
        ensures { IfOk result (λ answer. answer ≡ stop_answer self) }
    {
        match self {
            Stop::BadHead => Ok(Some(Answer::refusal(alloc, 400, "BadHead")?)),
            Stop::NeedsLength => Ok(Some(Answer::refusal(alloc, 411, "NeedsLength")?)),
            Stop::TooLarge => Ok(Some(Answer::refusal(alloc, 413, "TooLarge")?)),
            Stop::Encoded => Ok(Some(Answer::refusal(alloc, 501, "Encoded")?)),
            Stop::End | Stop::Cut | Stop::ReadFault | Stop::Memory => Ok(None),
        }
    }
}

impl From<Memory> for Stop {
    ghost use Rattle.std.specs.Prelude.{◌≡◌};
    ghost use Rattle.http_wire.specs.declared.stop.Stop.TheVariants as stop;

    ghost from_gives = { λ _ given. given ≡ stop.Memory };

    fn from(_: Memory) -> Self {
        Stop::Memory
    }
}
