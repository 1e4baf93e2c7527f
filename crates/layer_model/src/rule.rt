//! The rules that a command or a layer may break.
ghost use Rattle.std.specs.Prelude.{◌≡◌};
ghost use Rattle.layer_model.specs.Rules.{rule_name, number_of};

use mark_base::{AnnId, Kind, RelId, TypeId};

/// The role that a rule is about.
#[derive(Clone, Copy, Debug, PartialEq, Eq)]
pub enum RoleAt {
    /// The role of this place, counted from 0, of an event type.
    Event(TypeId, u16),
    /// A role of a relation type: the second one where the flag is true.
    Relation(RelId, bool),
    /// The one role of an attribute, which is shown as `Arg`.
    Attribute,
}

/// A rule that a command or a layer may break, with what it names. A rule holds no memory.
#[derive(Clone, Copy, Debug, PartialEq, Eq)]
pub enum Rule {
    /// The name is not in the table that is wanted.
    UnknownType,
    /// The type is not for use here.
    NotForUse,
    /// No fragments, or fragments that are empty or out of order.
    BadFragments,
    /// A fragment ends behind the text.
    OutOfText,
    /// A span reaches over more than 10,000 characters.
    SpanTooLong,
    /// There is no annotation of this ID.
    NoSuch(AnnId),
    /// The annotation of this ID is not of the sort that its place wants.
    WrongKind(AnnId),
    /// The event type or the relation type has no such role.
    UnknownRole,
    /// The type of what stands in this role is not admitted there.
    ArgumentType(RoleAt),
    /// More arguments stand in this role than its greatest count.
    TooMany(RoleAt),
    /// The event has no such argument.
    NoSuchArgument,
    /// The value is not declared, or is given where none is wanted, or missing where one is.
    UnknownValue,
    /// A chain of more than 16 events begins here, each later one an argument of the one before it.
    TooDeep,
    /// Another span has the type and the fragments.
    SameSpan(AnnId),
    /// Another event has the type, the trigger and the arguments.
    SameEvent(AnnId),
    /// Another relation has the type and both arguments.
    SameRelation(AnnId),
    /// Another attribute has the type and the target.
    AttributeThere(AnnId),
    /// The members do not make a class.
    EquivMembers,
    /// The overlap with this span is not allowed.
    OverlapRefused(AnnId),
    /// This annotation names the one that is to go.
    InUse(AnnId),
    /// A text is too long, breaks a line, or is no store or entry.
    BadText,
    /// There are more annotations of this sort than a layer holds. `Attribute` stands for both letters
    /// of attributes, and `Text` for the classes too.
    LayerFull(Kind),
    /// The greatest number of this sort is taken.
    IdsUsedUp(Kind),
    /// The event has fewer arguments in this role than its least count.
    TooFew(AnnId, RoleAt),
    /// As many commands are done as a desk takes.
    DeskFull,
    /// Nothing is done.
    NothingToUndo,
    /// Nothing is undone.
    NothingToRedo,
}

impl Rule {
    /// The place of the rule in the order in which rules are tested, from 1 to 27.
    pub fn number(&self) -> u8
        ensures { result ≡ number_of self.now }
    {
        match self {
            Rule::UnknownType => 1,
            Rule::NotForUse => 2,
            Rule::BadFragments => 3,
            Rule::OutOfText => 4,
            Rule::SpanTooLong => 5,
            Rule::NoSuch(_) => 6,
            Rule::WrongKind(_) => 7,
            Rule::UnknownRole => 8,
            Rule::ArgumentType(_) => 9,
            Rule::TooMany(_) => 10,
            Rule::NoSuchArgument => 11,
            Rule::UnknownValue => 12,
            Rule::TooDeep => 13,
            Rule::SameSpan(_) => 14,
            Rule::SameEvent(_) => 15,
            Rule::SameRelation(_) => 16,
            Rule::AttributeThere(_) => 17,
            Rule::EquivMembers => 18,
            Rule::OverlapRefused(_) => 19,
            Rule::InUse(_) => 20,
            Rule::BadText => 21,
            Rule::LayerFull(_) => 22,
            Rule::IdsUsedUp(_) => 23,
            Rule::TooFew(_, _) => 24,
            Rule::DeskFull => 25,
            Rule::NothingToUndo => 26,
            Rule::NothingToRedo => 27,
        }
    }

    /// The name of the rule, without what it names.
    pub fn name(self) -> &'static str
        ensures { result.now ≡ rule_name self }
    {
        match self {
            Rule::UnknownType => "UnknownType",
            Rule::NotForUse => "NotForUse",
            Rule::BadFragments => "BadFragments",
            Rule::OutOfText => "OutOfText",
            Rule::SpanTooLong => "SpanTooLong",
            Rule::NoSuch(_) => "NoSuch",
            Rule::WrongKind(_) => "WrongKind",
            Rule::UnknownRole => "UnknownRole",
            Rule::ArgumentType(_) => "ArgumentType",
            Rule::TooMany(_) => "TooMany",
            Rule::NoSuchArgument => "NoSuchArgument",
            Rule::UnknownValue => "UnknownValue",
            Rule::TooDeep => "TooDeep",
            Rule::SameSpan(_) => "SameSpan",
            Rule::SameEvent(_) => "SameEvent",
            Rule::SameRelation(_) => "SameRelation",
            Rule::AttributeThere(_) => "AttributeThere",
            Rule::EquivMembers => "EquivMembers",
            Rule::OverlapRefused(_) => "OverlapRefused",
            Rule::InUse(_) => "InUse",
            Rule::BadText => "BadText",
            Rule::LayerFull(_) => "LayerFull",
            Rule::IdsUsedUp(_) => "IdsUsedUp",
            Rule::TooFew(_, _) => "TooFew",
            Rule::DeskFull => "DeskFull",
            Rule::NothingToUndo => "NothingToUndo",
            Rule::NothingToRedo => "NothingToRedo",
        }
    }
}
