//! The agreement of each two annotators.
ghost use Rattle.std.specs.Prelude.{◌≡◌, IfOk};

use kappa_alpha::PairLine;
use mark_base::Memory;
use std::alloc::Global;
use std::marker::Model;

/// The lines of each two annotators, in the order of their names.
#[derive(Debug, Drop)]
pub struct PairList {
    items: Vec<PairLine>,
}

impl Model for PairList {
    ghost use Rattle.std.specs.Prelude.{List};
    ghost use Rattle.kappa_alpha.specs.declared.figures.PairLine.{PairLine};

    ghost Value = { List PairLine };

    ghost view = { λ list. list.items.items };
}

impl PairList {
    /// A copy of these lines. Cost: their number.
    pub fn of(alloc: Global, items: &[PairLine]) -> Result<Self, Memory>
        ensures { IfOk result (λ list. list ≡ items.now) }
    {
        let items = Vec::from_slice(alloc, items)?;
        Ok(PairList { items })
    }

    /// The lines of a vector, which is not copied.
    pub fn from_vec(items: Vec<PairLine>) -> Self
        ensures { result ≡ items.items }
    {
        PairList { items }
    }

    /// The lines in their order.
    pub fn items(&self) -> &[PairLine]
        ensures { result.now ≡ self.now }
    {
        self.items.as_slice()
    }

    /// A second list of the same lines. Cost: their number.
    pub fn copy(&self) -> Result<Self, Memory>
        ensures { IfOk result (λ list. list ≡ self.now) }
    {
        let alloc = *self.items.allocator();
        PairList::of(alloc, self.items.as_slice())
    }
}
