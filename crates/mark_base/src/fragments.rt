//! Fragments of a text, by characters.
ghost use Rattle.std.specs.Prelude.{◌≡◌, ◌==◌, map, IfOk};
ghost use Rattle.std.specs.List.{slice_split};

use crate::Memory;
use std::alloc::{AllocError, Global};
use std::marker::Model;

/// A fragment of a text: the characters from `start`, counted from 0, up to `end`, which is the index
/// behind the last one (brat standoff manual, "Text-bound annotations").
#[derive(Clone, Copy, Debug, PartialEq, Eq, PartialOrd, Ord)]
pub struct Frag {
    pub start: u32,
    pub end: u32,
}

/// A list of fragments. One that is discontinuous has more than one.
#[derive(Debug, Drop)]
pub struct FragList {
    items: Vec<Frag>,
}

impl Model for FragList {
    ghost use Rattle.std.specs.Prelude.{List};
    ghost use Rattle.mark_base.specs.declared.fragments.Frag.{Frag};

    ghost Value = { List Frag };

    ghost view = { λ list. list.items.items };
}

impl FragList {
    /// A copy of these fragments. Cost: their number.
    pub fn of(alloc: Global, items: &[Frag]) -> Result<Self, Memory>
        ensures { IfOk result (λ list. list ≡ items.now) }
    {
        let items = Vec::from_slice(alloc, items)?;
        Ok(FragList { items })
    }

    /// The fragments of a vector, which is not copied.
    pub fn from_vec(items: Vec<Frag>) -> Self
        ensures { result ≡ items.items }
    {
        FragList { items }
    }

    /// The fragments as a vector, not copied.
    pub fn into_vec(self) -> Vec<Frag>
        ensures { result.items ≡ self }
    {
        let FragList { items } = self;
        items
    }

    /// The fragments in their order.
    pub fn items(&self) -> &[Frag]
        ensures { result.now ≡ self.now }
    {
        self.items.as_slice()
    }

    /// A second list of the same fragments. Cost: their number.
    pub fn copy(&self) -> Result<Self, Memory>
        ensures { IfOk result (λ list. list ≡ self.now) }
    {
        let items = self.items.clone()?;
        Ok(FragList { items })
    }
}

impl Clone for FragList {
    ghost is_clone = { λ before after. after ≡ before };

    fn clone(&self) -> Result<Self, AllocError> {
        let items = self.items.clone()?;
        Ok(FragList { items })
    }
}

/// What semicolons separate: the fragments of a text that spells some, each still to be read. Cost: the text.
pub fn split_fragments(alloc: Global, text: &str) -> Result<Vec<&str>, AllocError>
    ensures { IfOk result (λ pieces. map (λ piece. piece.now) pieces.items ≡ slice_split (λ b. b == 59) text.now) }
{
    text.split(';').collect(alloc)
}
