//! What a command took away, as far as it leads back.
ghost use Rattle.std.specs.Prelude.{◌≡◌};

use layer_model::{Class, Mark};
use mark_base::{AnnId, RelId};
use std::marker::Model;

/// A class that an annotation left: its relation type, and a member that stayed in it. Where none stayed,
/// that is the annotation itself.
#[derive(Clone, Copy, Debug, PartialEq, Eq)]
pub struct Left {
    pub kind: RelId,
    pub beside: AnnId,
}

/// The classes that an annotation left, in the order in which it left them.
#[derive(Debug, Drop)]
pub struct LeftList {
    items: Vec<Left>,
}

impl Model for LeftList {
    ghost use Rattle.std.specs.Prelude.{List};
    ghost use Rattle.layer_core.specs.declared.taken.Left.{Left};

    ghost Value = { List Left };

    ghost view = { λ list. list.items.items };
}

impl LeftList {
    /// The classes of a vector, which is not copied.
    pub fn from_vec(items: Vec<Left>) -> Self
        ensures { result ≡ items.items }
    {
        LeftList { items }
    }

    /// The classes in their order.
    pub fn items(&self) -> &[Left]
        ensures { result.now ≡ self.now }
    {
        self.items.as_slice()
    }
}

/// An annotation that was taken away: what stood under its ID, and the classes that it left.
#[derive(Drop)]
pub struct Taken {
    pub id: AnnId,
    pub mark: Option<Mark>,
    pub left: LeftList,
}

/// Annotations that were taken away, in the order in which they went.
#[derive(Drop)]
pub struct TakenList {
    items: Vec<Taken>,
}

impl Model for TakenList {
    ghost use Rattle.std.specs.Prelude.{List};
    ghost use Rattle.layer_core.specs.declared.taken.Taken.{Taken};

    ghost Value = { List Taken };

    ghost view = { λ list. list.items.items };
}

impl TakenList {
    /// The annotations of a vector, which is not copied.
    pub fn from_vec(items: Vec<Taken>) -> Self
        ensures { result ≡ items.items }
    {
        TakenList { items }
    }

    /// The annotations in their order.
    pub fn items(&self) -> &[Taken]
        ensures { result.now ≡ self.now }
    {
        self.items.as_slice()
    }
}

/// Classes that were joined with others.
#[derive(Drop)]
pub struct ClassGroups {
    items: Vec<Class>,
}

impl Model for ClassGroups {
    ghost use Rattle.std.specs.Prelude.{List};
    ghost use Rattle.layer_model.specs.declared.class.Class.{Class};

    ghost Value = { List Class };

    ghost view = { λ groups. groups.items.items };
}

impl ClassGroups {
    /// The classes of a vector, which is not copied.
    pub fn from_vec(items: Vec<Class>) -> Self
        ensures { result ≡ items.items }
    {
        ClassGroups { items }
    }

    /// The classes in their order.
    pub fn items(&self) -> &[Class]
        ensures { result.now ≡ self.now }
    {
        self.items.as_slice()
    }
}
