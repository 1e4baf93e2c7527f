//! Attributes.
ghost use Rattle.std.specs.Prelude.{◌≡◌};

use crate::Alternatives;
use mark_base::Name;
use std::marker::Model;

/// The values of an attribute in the order of its line.
#[derive(Debug, Drop)]
pub struct Values {
    items: Vec<Name>,
}

impl Model for Values {
    ghost use Rattle.std.specs.Prelude.{List, ℕ};

    ghost Value = { List (List ℕ) };

    ghost view = { λ list. list.items.items };
}

impl Values {
    /// The values of a vector, which is not copied.
    pub fn from_vec(items: Vec<Name>) -> Self
        ensures { result ≡ items.items }
    {
        Values { items }
    }

    /// The values in their order.
    pub fn items(&self) -> &[Name]
        ensures { result.now ≡ self.now }
    {
        self.items.as_slice()
    }
}

/// An attribute: its name, what it may be set on, and its values, none where it is true by presence.
#[derive(Debug, Drop)]
pub struct AttributeType {
    pub name: Name,
    pub targets: Alternatives,
    pub values: Values,
}
