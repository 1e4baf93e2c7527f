//! Why bytes are no configuration.
ghost use Rattle.std.specs.Prelude.{◌≡◌};
ghost use Rattle.conf_model.specs.ConfFaultNames.{conf_name};

use mark_base::Memory;

/// What is at fault with a line.
#[derive(Clone, Copy, Debug, PartialEq, Eq)]
pub enum ConfWhat {
    /// The bytes are not UTF-8.
    NotUtf8,
    /// A line in square brackets names no section.
    UnknownSection,
    /// The section stood before.
    SectionTwice,
    /// There is no section `[entities]`. The line is the one behind the last.
    SectionMissing,
    /// A line before the first section is no macro.
    OutsideSection,
    /// A type stands deeper than one below the type line before it, or begins with a space.
    BadIndent,
    /// A type, role, value or macro name is no name, or the name of a type, relation type or attribute
    /// begins with `[` or is of hyphens only; or other white space stands between the TABs and the name of
    /// an entity or event type.
    BadName,
    /// A type, attribute or macro, a role of one event type or a value of one attribute stood before.
    NameTwice,
    /// The mark of a role is none of `?`, `*`, `+`, `{N}` and `{N-M}`.
    BadCount,
    /// A pair or a list of pairs is not of the form that its section asks.
    BadArgument,
    /// A named type is declared nowhere, or is not of a sort that may stand there. A macro that names what
    /// is declared nowhere is at fault on its own line alone.
    UnknownTypeNamed,
    /// A macro is defined nowhere, or, in a macro, on no earlier line; or `<RELATION>`, or a macro that holds
    /// it, stands where no relation type may. A macro that holds one relation type by its name is
    /// `UnknownTypeNamed` there.
    UnknownMacro,
    /// The line brings the 257th type, relation type, attribute, role or value, or the 64th usable type.
    TooManyTypes,
}

impl ConfWhat {
    /// The name of the fault.
    pub fn name(self) -> &'static str
        ensures { result.now ≡ conf_name self }
    {
        match self {
            ConfWhat::NotUtf8 => "NotUtf8",
            ConfWhat::UnknownSection => "UnknownSection",
            ConfWhat::SectionTwice => "SectionTwice",
            ConfWhat::SectionMissing => "SectionMissing",
            ConfWhat::OutsideSection => "OutsideSection",
            ConfWhat::BadIndent => "BadIndent",
            ConfWhat::BadName => "BadName",
            ConfWhat::NameTwice => "NameTwice",
            ConfWhat::BadCount => "BadCount",
            ConfWhat::BadArgument => "BadArgument",
            ConfWhat::UnknownTypeNamed => "UnknownTypeNamed",
            ConfWhat::UnknownMacro => "UnknownMacro",
            ConfWhat::TooManyTypes => "TooManyTypes",
        }
    }
}

/// Why bytes are no configuration.
#[derive(Clone, Copy, Debug, PartialEq, Eq)]
pub enum ConfFault {
    /// The first fault, and the number of its line, from 1.
    At { line: u32, what: ConfWhat },
    /// Memory ran out.
    Memory,
}

impl From<Memory> for ConfFault {
    ghost use Rattle.std.specs.Prelude.{◌≡◌};
    ghost use Rattle.conf_model.specs.declared.conf_fault.ConfFault.{ConfFault};

    ghost from_gives = { λ _ fault. fault ≡ ConfFault.Memory };

    fn from(_: Memory) -> Self {
        ConfFault::Memory
    }
}
