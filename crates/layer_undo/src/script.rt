//! A list of commands.
ghost use Rattle.std.specs.Prelude.{◌≡◌, [], length, IfOk};

use layer_core::Command;
use mark_base::Memory;
use std::alloc::Global;
use std::marker::Model;

/// Commands in the order in which they were carried out, or undone.
#[derive(Drop)]
pub struct Script {
    alloc: Global,
    items: Vec<Command>,
}

impl Model for Script {
    ghost use Rattle.std.specs.Prelude.{List};
    ghost use Rattle.std.specs.Coded.{coded_list};
    ghost use Rattle.layer_core.specs.declared.command.Command.{Command};
    ghost use Rattle.layer_core.specs.contracts.command.Command as command_row;

    ghost Value = { List Command };

    ghost coded = { coded_list command_row.the_row.coded };

    ghost view = { λ script. script.items.items };
}

/// Copies of these commands. Cost: their number and length.
fn copies(alloc: Global, items: &[Command]) -> Result<Vec<Command>, Memory>
    ensures { IfOk result (λ copies. copies.items ≡ items.now) }
{
    let mut copies = Vec::new(alloc);
    for item in items {
        copies.push(item.copy(alloc)?)?;
    }
    Ok(copies)
}

impl Script {
    /// A script without a command.
    pub fn new(alloc: Global) -> Self
        ensures { result ≡ [] }
    {
        Script {
            alloc,
            items: Vec::new(alloc),
        }
    }

    /// A copy of these commands. Cost: their number and length.
    pub fn of(alloc: Global, items: &[Command]) -> Result<Self, Memory>
        ensures { IfOk result (λ script. script ≡ items.now) }
    {
        let items = copies(alloc, items)?;
        Ok(Script { alloc, items })
    }

    /// The commands of a vector, which is not copied.
    pub fn from_vec(alloc: Global, items: Vec<Command>) -> Self
        ensures { result ≡ items.items }
    {
        Script { alloc, items }
    }

    /// The commands as a vector, not copied.
    pub fn into_vec(self) -> Vec<Command>
        ensures { result.items ≡ self }
    {
        let Script { items, .. } = self;
        items
    }

    /// The commands in their order.
    pub fn items(&self) -> &[Command]
        ensures { result.now ≡ self.now }
    {
        self.items.as_slice()
    }

    /// How many commands there are.
    pub fn count(&self) -> usize
        ensures { result ≡ length self.now }
    {
        self.items.len()
    }

    /// A second script of the same commands. Cost: their number and length.
    pub fn copy(&self) -> Result<Self, Memory>
        ensures { IfOk result (λ script. script ≡ self.now) }
    {
        let items = copies(self.alloc, self.items.as_slice())?;
        Ok(Script {
            alloc: self.alloc,
            items,
        })
    }
}
