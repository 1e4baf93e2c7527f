//! What is wrong with the form of a case file.
use mark_base::Memory;
use std::alloc::{AllocError, AllocFailed};
use std::error::Error;
use std::fmt;

/// What is wrong with a line of a case file.
#[derive(Clone, Copy, Debug, PartialEq, Eq)]
pub enum Flaw {
    /// The file is not UTF-8.
    NotUtf8,
    /// The first line is not `# TITLE`.
    NoTitle,
    /// A line that stands in no section.
    NoSection,
    /// The header of a section has no form.
    BadHeader,
    /// The words of a case, or a section of this name, stand a second time.
    Twice,
    /// A backslash that begins no escape, or an escape that does not end.
    BadEscape,
    /// A line among entries that is not of hexadecimal digits in pairs.
    BadEntry,
    /// A case without words.
    NoWords,
    /// A case with messages and with raw bytes beside them.
    BothForms,
}

impl fmt::Display for Flaw {
    fn fmt<W: fmt::Write>(&self, f: &mut fmt::Formatter<W>) -> fmt::Result {
        let text = match self {
            Flaw::NotUtf8 => "the file is not UTF-8",
            Flaw::NoTitle => "the first line is not `# TITLE`",
            Flaw::NoSection => "the line stands in no section",
            Flaw::BadHeader => "the header of the section has no form",
            Flaw::Twice => "the words or a section of this name stand a second time",
            Flaw::BadEscape => "a backslash begins no escape, or an escape does not end",
            Flaw::BadEntry => "the line is no entry in hexadecimal digits",
            Flaw::NoWords => "the case has no words",
            Flaw::BothForms => "the case has `ask` or `answer` and also `input` or `console`",
        };
        write!(f, "{text}")
    }
}

/// Why a case is not run.
#[derive(Clone, Copy, Debug, PartialEq, Eq)]
pub enum Malformed {
    /// A line, counted from 1, and what is wrong with it.
    At { line: usize, flaw: Flaw },
    /// Want of memory.
    Memory,
}

impl fmt::Display for Malformed {
    fn fmt<W: fmt::Write>(&self, f: &mut fmt::Formatter<W>) -> fmt::Result {
        match self {
            Malformed::At { line, flaw } => write!(f, "line {line}: malformed: {flaw}"),
            Malformed::Memory => write!(f, "no memory for the case"),
        }
    }
}

impl Error for Malformed {}

impl From<AllocError> for Malformed {
    fn from(_: AllocError) -> Self {
        Malformed::Memory
    }
}

impl<T: Drop> From<AllocFailed<T>> for Malformed {
    fn from(_: AllocFailed<T>) -> Self {
        Malformed::Memory
    }
}

impl From<Memory> for Malformed {
    fn from(_: Memory) -> Self {
        Malformed::Memory
    }
}
