//! The roles of an event type.
ghost use Rattle.std.specs.Prelude.{◌≡◌};

use crate::Alternatives;
use mark_base::Name;
use std::marker::Model;

/// A role of an event type: its name, how often it is filled at least and at most (4,294,967,295 where
/// there is no bound), and by which types.
#[derive(Debug, Drop)]
pub struct Role {
    pub name: Name,
    pub least: u32,
    pub most: u32,
    pub targets: Alternatives,
}

/// The roles of an event type in the order of its line.
#[derive(Debug, Drop)]
pub struct Roles {
    items: Vec<Role>,
}

impl Model for Roles {
    ghost use Rattle.std.specs.Prelude.{List};
    ghost use Rattle.conf_model.specs.declared.role.Role.{Role};

    ghost Value = { List Role };

    ghost view = { λ list. list.items.items };
}

impl Roles {
    /// The roles of a vector, which is not copied.
    pub fn from_vec(items: Vec<Role>) -> Self
        ensures { result ≡ items.items }
    {
        Roles { items }
    }

    /// The roles in their order.
    pub fn items(&self) -> &[Role]
        ensures { result.now ≡ self.now }
    {
        self.items.as_slice()
    }
}
