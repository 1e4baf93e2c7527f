//! Slugs: names of persons and documents.
ghost use Rattle.std.specs.Prelude.{◌≡◌, ◌==◌, ◌≤◌, length, slice_index, IfSome, chars, position, None, Some, IfOk, IfErr, OnOk, nat_eq, refl};
ghost use Rattle.std.specs.Ordering.{nat_cmp};
ghost use Rattle.std.specs.Cmp.{partial_equiv_from_equiv};
ghost use Rattle.std.specs.Cmp.Lexicographic.{pointwise, slice_cmp, nat_list_eq_equiv, nat_list_cmp_total, texts_ties, texts_po};
ghost use Rattle.mark_base.specs.Names.{is_barred_in_slug, bad_in_slug, slug_fault, IsRefusal};

use crate::Memory;
use crate::name::{NameFault, spelling_fault};
use std::alloc::{AllocError, Global};
use std::cmp::Ordering;
use std::marker::Model;

/// A name of a person or a document: 1 to 64 of the ASCII letters, digits, `_`, `-` and `.`, with no
/// dot at its start. Contracts see it as its bytes, by which slugs are ordered too.
#[derive(Debug, Drop)]
pub struct Slug {
    inner: String,
}

impl Model for Slug {
    ghost use Rattle.std.specs.Prelude.{List, ℕ, string_bytes, None, ◌≡◌};
    ghost use Rattle.mark_base.specs.Names.{slug_fault};

    ghost Value = { List ℕ };

    ghost view = { λ s. string_bytes s.inner };

    ghost invariant = { λ s. slug_fault (string_bytes s.inner) ≡ None };
}

/// Whether a character stands in no slug.
fn is_barred_in_slug(c: char) -> bool
    ensures { result ≡ is_barred_in_slug c }
{
    !(c.is_ascii_alphanumeric() || c == '_' || c == '-' || c == '.')
}

/// Whether a text starts with a dot.
fn starts_with_dot(text: &str) -> bool
    ensures { result ≡ (slice_index text.now 0 == 46) }
{
    match text.as_bytes().first() {
        Some(first) => *first == b'.',
        None => false,
    }
}

/// The place of the first character that stands in no slug.
fn first_barred_in_slug(text: &str) -> Option<usize>
    ensures { result ≡ position is_barred_in_slug (chars text.now) }
{
    text.chars().position(|c| is_barred_in_slug(c))
}

/// The place of the first character that may not stand there in a slug.
fn bad_in_slug(text: &str) -> Option<usize>
    ensures { result ≡ bad_in_slug text.now }
{
    if starts_with_dot(text) {
        Some(0)
    } else {
        first_barred_in_slug(text)
    }
}

impl Slug {
    /// Reads a slug. The faults are tested in the order of [`NameFault`], and a dot at the start is
    /// `BadChar(0)`. Cost: the length of the text.
    #[tactic(auto, unfolding(crate::specs::Names::slug_fault))]
    pub fn new(alloc: Global, text: &str) -> Result<Slug, NameFault>
        ensures text { IfOk result (λ slug. slug ≡ text.now) }
        ensures accepted { OnOk result (slug_fault text.now ≡ None) }
        ensures refused { IfErr result (IsRefusal (slug_fault text.now)) }
    {
        match spelling_fault(text, bad_in_slug(text)) {
            Some(fault) => Err(fault),
            None => {
                let inner = String::from_str(alloc, text)?;
                Ok(Slug { inner })
            }
        }
    }

    /// The text of the slug.
    pub fn text(&self) -> &str
        ensures value { result.now ≡ self.now }
        ensures spelling { slug_fault self.now ≡ None }
    {
        self.inner.as_str()
    }

    /// A second slug of the same text.
    pub fn copy(&self) -> Result<Slug, Memory>
        ensures { IfOk result (λ slug. slug ≡ self.now) }
    {
        let inner = self.inner.clone()?;
        Ok(Slug { inner })
    }
}

impl Clone for Slug {
    ghost is_clone = { λ c d. d ≡ c };

    fn clone(&self) -> Result<Slug, AllocError> {
        let inner = self.inner.clone()?;
        Ok(Slug { inner })
    }
}

impl PartialEq for Slug {
    ghost eq = { pointwise nat_eq };

    ghost laws = { partial_equiv_from_equiv nat_list_eq_equiv };

    fn eq(&self, other: &Slug) -> bool {
        self.inner.as_str() == other.inner.as_str()
    }
}

impl Eq for Slug {
    ghost laws = { nat_list_eq_equiv };
}

impl PartialOrd for Slug {
    ghost partial_cmp = { λ x y. Some (slice_cmp nat_cmp x y) };

    ghost laws = { texts_po };

    fn partial_cmp(&self, other: &Slug) -> Option<Ordering> {
        Some(self.cmp(other))
    }
}

impl Ord for Slug {
    ghost cmp = { slice_cmp nat_cmp };

    ghost total = { nat_list_cmp_total };

    ghost matches_partial_cmp = { λ x y. refl };

    ghost matches_eq = { texts_ties };

    fn cmp(&self, other: &Slug) -> Ordering {
        self.inner.as_str().cmp(other.inner.as_str())
    }
}
