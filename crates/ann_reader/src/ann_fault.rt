//! Why bytes are no .ann file.
use layer_model::Rule;
use mark_base::Memory;

/// What is at fault with an .ann file.
#[derive(Clone, Copy, Debug, PartialEq, Eq)]
pub enum AnnWhat {
    /// The bytes are not UTF-8.
    NotUtf8,
    /// The line has none of the forms, or what stands in the place of an ID begins with none of the letters
    /// `T`, `E`, `R`, `A`, `M`, `N` and `#`.
    BadLine,
    /// The ID of the line, or one that it names, is not a letter and a number without a leading zero.
    BadId,
    /// An earlier line has the ID.
    IdTwice,
    /// The text of the line is not that of its fragments; this is the first place at which the two differ, in
    /// characters from 0, or the length of the shorter one.
    WrongText(u32),
    /// A rule that a layer keeps is broken.
    Broken(Rule),
}

/// Why bytes are no .ann file.
#[derive(Clone, Copy, Debug, PartialEq, Eq)]
pub enum AnnFault {
    /// The first fault, and the number of its line, from 1.
    At { line: u32, what: AnnWhat },
    /// Memory ran out.
    Memory,
}

impl From<Memory> for AnnFault {
    ghost use Rattle.std.specs.Prelude.{◌≡◌};
    ghost use Rattle.ann_reader.specs.declared.ann_fault.AnnFault.{AnnFault};

    ghost from_gives = { λ _ fault. fault ≡ AnnFault.Memory };

    fn from(_: Memory) -> Self {
        AnnFault::Memory
    }
}
