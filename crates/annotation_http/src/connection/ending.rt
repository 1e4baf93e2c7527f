//! How a connection ends.

/// How a connection ended.
#[derive(Clone, Copy, Debug, PartialEq, Eq)]
pub enum Ending {
    /// The input ended between two messages, or after empty lines.
    End,
    /// The input ended inside a message. There is no answer to it.
    Cut,
    /// The bytes can become no head of a message, or its Content-Length is not one number. Answered 400.
    BadHead,
    /// PUT without Content-Length. Answered 411.
    NeedsLength,
    /// A head or a body that is too large. Answered 413.
    TooLarge,
    /// A field Transfer-Encoding. Answered 501.
    Encoded,
    /// The last message asked to close, or was of version 1.0.
    Closed,
    /// The 1,000,000th answer was written, to a message or to what is no message. This goes before the other endings
    /// with a whole last answer.
    Spent,
    /// A read of the link failed.
    ReadFault,
    /// A write of the link failed. A front of the last answer is written.
    WriteFault,
    /// Want of memory. The last answer is 503.
    Memory,
}
