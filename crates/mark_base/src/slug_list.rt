//! A list of slugs.
ghost use Rattle.std.specs.Prelude.{◌≡◌, IfOk};

use crate::{Memory, Slug};
use std::alloc::{AllocError, Global};
use std::marker::Model;

/// A list of slugs.
#[derive(Debug, Drop)]
pub struct SlugList {
    items: Vec<Slug>,
}

impl Model for SlugList {
    ghost use Rattle.std.specs.Prelude.{List, ℕ};

    ghost Value = { List (List ℕ) };

    ghost view = { λ list. list.items.items };
}

impl SlugList {
    /// A copy of these slugs. Cost: their bytes.
    pub fn of(alloc: Global, items: &[Slug]) -> Result<Self, Memory>
        ensures { IfOk result (λ list. list ≡ items.now) }
    {
        let mut copies = Vec::new(alloc);
        for item in items {
            copies.push(item.copy()?)?;
        }
        Ok(SlugList { items: copies })
    }

    /// The slugs of a vector, which is not copied.
    pub fn from_vec(items: Vec<Slug>) -> Self
        ensures { result ≡ items.items }
    {
        SlugList { items }
    }

    /// The slugs as a vector, not copied.
    pub fn into_vec(self) -> Vec<Slug>
        ensures { result.items ≡ self }
    {
        let SlugList { items } = self;
        items
    }

    /// The slugs in their order.
    pub fn items(&self) -> &[Slug]
        ensures { result.now ≡ self.now }
    {
        self.items.as_slice()
    }

    /// A second list of the same slugs. Cost: their number and their bytes.
    pub fn copy(&self) -> Result<Self, Memory>
        ensures { IfOk result (λ list. list ≡ self.now) }
    {
        let items = self.items.clone()?;
        Ok(SlugList { items })
    }
}

impl Clone for SlugList {
    ghost is_clone = { λ before after. after ≡ before };

    fn clone(&self) -> Result<Self, AllocError> {
        let items = self.items.clone()?;
        Ok(SlugList { items })
    }
}
