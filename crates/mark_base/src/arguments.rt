//! Arguments of an event, with the roles as places in the configuration.
ghost use Rattle.std.specs.Prelude.{◌≡◌, IfOk};

use crate::{AnnId, Memory};
use std::alloc::{AllocError, Global};
use std::marker::Model;

/// An argument of an event: the annotation `target` in the role of this place, counted from 0, among
/// the roles that the configuration gives the event's type.
#[derive(Clone, Copy, Debug, PartialEq, Eq, PartialOrd, Ord)]
pub struct Arg {
    pub role: u16,
    pub target: AnnId,
}

/// A list of arguments.
#[derive(Debug, Drop)]
pub struct ArgList {
    items: Vec<Arg>,
}

impl Model for ArgList {
    ghost use Rattle.std.specs.Prelude.{List};
    ghost use Rattle.mark_base.specs.declared.arguments.Arg.{Arg};

    ghost Value = { List Arg };

    ghost view = { λ list. list.items.items };
}

impl ArgList {
    /// A copy of these arguments. Cost: their number.
    pub fn of(alloc: Global, items: &[Arg]) -> Result<Self, Memory>
        ensures { IfOk result (λ list. list ≡ items.now) }
    {
        let items = Vec::from_slice(alloc, items)?;
        Ok(ArgList { items })
    }

    /// The arguments of a vector, which is not copied.
    pub fn from_vec(items: Vec<Arg>) -> Self
        ensures { result ≡ items.items }
    {
        ArgList { items }
    }

    /// The items as a vector, not copied.
    pub fn into_vec(self) -> Vec<Arg>
        ensures { result.items ≡ self }
    {
        let ArgList { items } = self;
        items
    }

    /// The arguments in their order.
    pub fn items(&self) -> &[Arg]
        ensures { result.now ≡ self.now }
    {
        self.items.as_slice()
    }

    /// A second list of the same arguments. Cost: their number.
    pub fn copy(&self) -> Result<Self, Memory>
        ensures { IfOk result (λ list. list ≡ self.now) }
    {
        let items = self.items.clone()?;
        Ok(ArgList { items })
    }
}

impl Clone for ArgList {
    ghost is_clone = { λ before after. after ≡ before };

    fn clone(&self) -> Result<Self, AllocError> {
        let items = self.items.clone()?;
        Ok(ArgList { items })
    }
}
