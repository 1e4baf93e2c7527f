//! A text.
ghost use Rattle.std.specs.Prelude.{◌≡◌, IfOk, string_bytes};

use crate::Memory;
use std::alloc::{AllocError, Global};
use std::marker::Model;

/// A text, which contracts see as its UTF-8 bytes.
#[derive(Debug, Drop)]
pub struct Text {
    items: String,
}

impl Model for Text {
    ghost use Rattle.std.specs.Prelude.{List, ℕ, string_bytes};

    ghost Value = { List ℕ };

    ghost view = { λ text. string_bytes text.items };
}

impl Text {
    /// A copy of this text. Cost: its bytes.
    pub fn of(alloc: Global, text: &str) -> Result<Self, Memory>
        ensures { IfOk result (λ copied. copied ≡ text.now) }
    {
        let items = String::from_str(alloc, text)?;
        Ok(Text { items })
    }

    /// The text of a string, which is not copied.
    pub fn from_string(items: String) -> Self
        ensures { result ≡ string_bytes items }
    {
        Text { items }
    }

    /// The text as a string, not copied.
    pub fn into_string(self) -> String
        ensures { string_bytes result ≡ self }
    {
        let Text { items } = self;
        items
    }

    /// The text as a string slice.
    pub fn text(&self) -> &str
        ensures { result.now ≡ self.now }
    {
        self.items.as_str()
    }

    /// A second text of the same characters. Cost: its bytes.
    pub fn copy(&self) -> Result<Self, Memory>
        ensures { IfOk result (λ copied. copied ≡ self.now) }
    {
        let items = self.items.clone()?;
        Ok(Text { items })
    }
}

impl Clone for Text {
    ghost is_clone = { λ before after. after ≡ before };

    fn clone(&self) -> Result<Self, AllocError> {
        let items = self.items.clone()?;
        Ok(Text { items })
    }
}
