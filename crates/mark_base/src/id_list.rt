//! A list of IDs.
ghost use Rattle.std.specs.Prelude.{◌≡◌, IfOk};

use crate::{AnnId, Memory};
use std::alloc::{AllocError, Global};
use std::marker::Model;

/// A list of IDs.
#[derive(Debug, Drop)]
pub struct IdList {
    items: Vec<AnnId>,
}

impl Model for IdList {
    ghost use Rattle.std.specs.Prelude.{List};
    ghost use Rattle.mark_base.specs.declared.ann_id.AnnId.{AnnId};

    ghost Value = { List AnnId };

    ghost view = { λ list. list.items.items };
}

impl IdList {
    /// A copy of these IDs. Cost: their number.
    pub fn of(alloc: Global, items: &[AnnId]) -> Result<Self, Memory>
        ensures { IfOk result (λ list. list ≡ items.now) }
    {
        let items = Vec::from_slice(alloc, items)?;
        Ok(IdList { items })
    }

    /// The IDs of a vector, which is not copied.
    pub fn from_vec(items: Vec<AnnId>) -> Self
        ensures { result ≡ items.items }
    {
        IdList { items }
    }

    /// The items as a vector, not copied.
    pub fn into_vec(self) -> Vec<AnnId>
        ensures { result.items ≡ self }
    {
        let IdList { items } = self;
        items
    }

    /// The IDs in their order.
    pub fn items(&self) -> &[AnnId]
        ensures { result.now ≡ self.now }
    {
        self.items.as_slice()
    }

    /// A second list of the same IDs. Cost: their number.
    pub fn copy(&self) -> Result<Self, Memory>
        ensures { IfOk result (λ list. list ≡ self.now) }
    {
        let items = self.items.clone()?;
        Ok(IdList { items })
    }
}

impl Clone for IdList {
    ghost is_clone = { λ before after. after ≡ before };

    fn clone(&self) -> Result<Self, AllocError> {
        let items = self.items.clone()?;
        Ok(IdList { items })
    }
}
