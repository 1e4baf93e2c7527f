//! Why a layer was not written as columns, and why bytes are no columns.
ghost use Rattle.std.specs.Prelude.{◌≡◌};
ghost use Rattle.token_columns.specs.FaultNames.{out_name, what_name};

use mark_base::{AnnId, Memory};

/// Why a layer was not written. The first six come before any byte is written, the first of them that is so.
#[derive(Clone, Copy, Debug, PartialEq, Eq)]
pub enum ColumnOut {
    /// An annotation that is no span is there: the lowest.
    OtherThere(AnnId),
    /// A class is there.
    ClassThere,
    /// A span is not of one fragment: the lowest such.
    Fragmented(AnnId),
    /// A span does not go from a token's start to a token's end: the lowest such.
    Unaligned(AnnId),
    /// A span shares a token with one of a lower number: the lowest such.
    Shared(AnnId),
    /// The number of a span is not its place in the order of the starts, from 1: of such spans the one that starts
    /// first.
    Numbered(AnnId),
    /// The sink failed. It has taken a front of the columns.
    WriteFault,
    /// Memory ran out. The sink has taken a front of the columns, if anything.
    Memory,
}

/// What is at fault with a column file.
#[derive(Clone, Copy, Debug, PartialEq, Eq)]
pub enum ColumnWhat {
    /// The bytes are not UTF-8. This comes before all other faults.
    NotUtf8,
    /// The line has not one TAB, or no label of the three forms.
    BadLine,
    /// No token is left.
    TooMany,
    /// The line does not begin with the next token; this is the first place at which the two differ, in characters
    /// from 0, or the length of the shorter one.
    WrongToken(u32),
    /// The configuration has no such type.
    UnknownType,
    /// Annotations may not have the type.
    NotForUse,
    /// The label goes on with a span where none is, or with one of another type.
    Orphan,
    /// The span reaches over more than 10,000 characters.
    TooLong,
    /// The span is the 10,001st.
    Full,
    /// Tokens are left at the end. The line is the one behind the last.
    TooFew,
}

/// Why bytes are no columns of a layer.
#[derive(Clone, Copy, Debug, PartialEq, Eq)]
pub enum ColumnFault {
    /// The first fault, and the number of its line, from 1.
    At { line: u32, what: ColumnWhat },
    /// Memory ran out.
    Memory,
}

impl ColumnOut {
    /// The name of the fault.
    pub fn name(self) -> &'static str
        ensures { result.now ≡ out_name self }
    {
        match self {
            ColumnOut::OtherThere(_) => "OtherThere",
            ColumnOut::ClassThere => "ClassThere",
            ColumnOut::Fragmented(_) => "Fragmented",
            ColumnOut::Unaligned(_) => "Unaligned",
            ColumnOut::Shared(_) => "Shared",
            ColumnOut::Numbered(_) => "Numbered",
            ColumnOut::WriteFault => "WriteFault",
            ColumnOut::Memory => "Memory",
        }
    }
}

impl ColumnWhat {
    /// The name of the fault.
    pub fn name(self) -> &'static str
        ensures { result.now ≡ what_name self }
    {
        match self {
            ColumnWhat::NotUtf8 => "NotUtf8",
            ColumnWhat::BadLine => "BadLine",
            ColumnWhat::TooMany => "TooMany",
            ColumnWhat::WrongToken(_) => "WrongToken",
            ColumnWhat::UnknownType => "UnknownType",
            ColumnWhat::NotForUse => "NotForUse",
            ColumnWhat::Orphan => "Orphan",
            ColumnWhat::TooLong => "TooLong",
            ColumnWhat::Full => "Full",
            ColumnWhat::TooFew => "TooFew",
        }
    }
}

impl From<Memory> for ColumnFault {
    ghost use Rattle.std.specs.Prelude.{◌≡◌};
    ghost use Rattle.token_columns.specs.declared.column_fault.ColumnFault.{ColumnFault};

    ghost from_gives = { λ _ fault. fault ≡ ColumnFault.Memory };

    fn from(_: Memory) -> Self {
        ColumnFault::Memory
    }
}

impl From<Memory> for ColumnOut {
    ghost use Rattle.std.specs.Prelude.{◌≡◌};
    ghost use Rattle.token_columns.specs.declared.column_fault.ColumnOut.{ColumnOut};

    ghost from_gives = { λ _ fault. fault ≡ ColumnOut.Memory };

    fn from(_: Memory) -> Self {
        ColumnOut::Memory
    }
}
