//! Arguments of an event, with the roles by name.
ghost use Rattle.std.specs.Prelude.{◌≡◌, IfOk};

use crate::{AnnId, Memory, Name};
use std::alloc::{AllocError, Global};
use std::marker::Model;

/// An argument of an event as a command or an .ann line names it: the annotation `target` in this role.
#[derive(Clone, Debug, Drop, PartialEq, Eq)]
pub struct NamedArg {
    pub role: Name,
    pub target: AnnId,
}

impl NamedArg {
    /// A second argument of the same role and target.
    pub fn copy(&self) -> Result<NamedArg, Memory>
        ensures { IfOk result (λ arg. arg ≡ self.now) }
    {
        let role = self.role.copy()?;
        Ok(NamedArg {
            role,
            target: self.target,
        })
    }
}

/// A list of arguments by name.
#[derive(Debug, Drop)]
pub struct NamedArgs {
    items: Vec<NamedArg>,
}

impl Model for NamedArgs {
    ghost use Rattle.std.specs.Prelude.{List};
    ghost use Rattle.mark_base.specs.declared.named_args.NamedArg.{NamedArg};

    ghost Value = { List NamedArg };

    ghost view = { λ list. list.items.items };
}

impl NamedArgs {
    /// A copy of these arguments. Cost: their number and the bytes of their roles.
    pub fn of(alloc: Global, items: &[NamedArg]) -> Result<Self, Memory>
        ensures { IfOk result (λ list. list ≡ items.now) }
    {
        let mut copies = Vec::new(alloc);
        for item in items {
            copies.push(item.copy()?)?;
        }
        Ok(NamedArgs { items: copies })
    }

    /// The arguments of a vector, which is not copied.
    pub fn from_vec(items: Vec<NamedArg>) -> Self
        ensures { result ≡ items.items }
    {
        NamedArgs { items }
    }

    /// The arguments as a vector, not copied.
    pub fn into_vec(self) -> Vec<NamedArg>
        ensures { result.items ≡ self }
    {
        let NamedArgs { items } = self;
        items
    }

    /// The arguments in their order.
    pub fn items(&self) -> &[NamedArg]
        ensures { result.now ≡ self.now }
    {
        self.items.as_slice()
    }

    /// A second list of the same arguments. Cost: their number and the bytes of their roles.
    pub fn copy(&self) -> Result<Self, Memory>
        ensures { IfOk result (λ list. list ≡ self.now) }
    {
        let items = self.items.clone()?;
        Ok(NamedArgs { items })
    }
}

impl Clone for NamedArgs {
    ghost is_clone = { λ before after. after ≡ before };

    fn clone(&self) -> Result<Self, AllocError> {
        let items = self.items.clone()?;
        Ok(NamedArgs { items })
    }
}
