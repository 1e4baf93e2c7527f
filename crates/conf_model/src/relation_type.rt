//! Relation types.
ghost use Rattle.std.specs.Prelude.{◌≡◌};

use crate::Alternatives;
use mark_base::Name;
use std::marker::Model;

/// One line of a relation type: which types its two arguments may have.
#[derive(Debug, Drop)]
pub struct Arguments {
    pub first: Alternatives,
    pub second: Alternatives,
}

/// The lines of a relation type in their order.
#[derive(Debug, Drop)]
pub struct ArgumentLines {
    items: Vec<Arguments>,
}

impl Model for ArgumentLines {
    ghost use Rattle.std.specs.Prelude.{List};
    ghost use Rattle.conf_model.specs.declared.relation_type.Arguments.{Arguments};

    ghost Value = { List Arguments };

    ghost view = { λ list. list.items.items };
}

impl ArgumentLines {
    /// The lines of a vector, which is not copied.
    pub fn from_vec(items: Vec<Arguments>) -> Self
        ensures { result ≡ items.items }
    {
        ArgumentLines { items }
    }

    /// The lines in their order.
    pub fn items(&self) -> &[Arguments]
        ensures { result.now ≡ self.now }
    {
        self.items.as_slice()
    }
}

/// A relation type: its name, the names of its two roles, whether it is an equivalence, and its lines.
#[derive(Debug, Drop)]
pub struct RelationType {
    pub name: Name,
    pub first: Name,
    pub second: Name,
    pub equivalence: bool,
    pub lines: ArgumentLines,
}
