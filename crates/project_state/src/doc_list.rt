//! The list of documents.
ghost use Rattle.std.specs.Prelude.{◌≡◌, IfOk};

use crate::DocLine;
use mark_base::Memory;
use std::alloc::Global;
use std::marker::Model;

/// The documents of a project, as they were added.
#[derive(Debug, Drop)]
pub struct DocList {
    items: Vec<DocLine>,
}

impl Model for DocList {
    ghost use Rattle.std.specs.Prelude.{List};
    ghost use Rattle.project_machine.specs.declared.doc_line.DocLine.{DocLine};

    ghost Value = { List DocLine };

    ghost view = { λ list. list.items.items };
}

/// A second line of the same document.
fn copy_of(line: &DocLine) -> Result<DocLine, Memory>
    ensures { IfOk result (λ copy. copy ≡ line.now) }
{
    let name = line.name.copy()?;
    Ok(DocLine {
        name,
        characters: line.characters,
    })
}

impl DocList {
    /// A copy of these lines. Cost: their number and the bytes of their names.
    pub fn of(alloc: Global, items: &[DocLine]) -> Result<Self, Memory>
        ensures { IfOk result (λ list. list ≡ items.now) }
    {
        let mut copies = Vec::new(alloc);
        for item in items {
            copies.push(copy_of(item)?)?;
        }
        Ok(DocList { items: copies })
    }

    /// The lines of a vector, which is not copied.
    pub fn from_vec(items: Vec<DocLine>) -> Self
        ensures { result ≡ items.items }
    {
        DocList { items }
    }

    /// The lines in their order.
    pub fn items(&self) -> &[DocLine]
        ensures { result.now ≡ self.now }
    {
        self.items.as_slice()
    }

    /// A second list of the same lines. Cost: their number and the bytes of their names.
    pub fn copy(&self) -> Result<Self, Memory>
        ensures { IfOk result (λ list. list ≡ self.now) }
    {
        let alloc = *self.items.allocator();
        DocList::of(alloc, self.items.as_slice())
    }
}
