//! Names of types, roles, attributes and values, and what is at fault with a text that is none.
ghost use Rattle.mark_base.specs.declared.name.NameFault.TheVariants.{Memory};
ghost use Rattle.std.specs.Prelude.{◌≡◌, ℕ, ◌≤◌, length, chars, position, None, Some, IfOk, IfErr, IfSome, OnOk, nat_eq, refl};
ghost use Rattle.std.specs.Ordering.{nat_cmp};
ghost use Rattle.std.specs.Cmp.{partial_equiv_from_equiv};
ghost use Rattle.std.specs.Cmp.Lexicographic.{pointwise, slice_cmp, nat_list_eq_equiv, nat_list_cmp_total, texts_ties, texts_po};
ghost use Rattle.mark_base.specs.Names.{is_mark, is_barred, name_fault, spelling_fault, IsRefusal};

use crate::Memory;
use std::alloc::{AllocError, Global};
use std::cmp::Ordering;
use std::marker::Model;

/// The characters of the longest name and of the longest slug.
const LONGEST: usize = 64;

/// Why a text is no name or no slug.
#[derive(Clone, Copy, Debug, PartialEq, Eq)]
pub enum NameFault {
    /// The text has no character.
    Empty,
    /// The text has more than 64 characters.
    TooLong,
    /// The first character that may not stand there is at this place, counted in characters from 0.
    BadChar(u32),
    /// Memory ran out.
    Memory,
}

impl From<AllocError> for NameFault {
    ghost from_gives = { λ _ fault. fault ≡ Memory };

    fn from(_: AllocError) -> Self {
        NameFault::Memory
    }
}

/// A name of a type, a role, an attribute or a value: 1 to 64 characters, none of them white space, a
/// control character or one of `: | , < > { } ? * + ! # ;`. Contracts see it as the bytes of its text,
/// by which names are ordered too.
#[derive(Debug, Drop)]
pub struct Name {
    inner: String,
}

impl Model for Name {
    ghost use Rattle.std.specs.Prelude.{List, ℕ, string_bytes, None, ◌≡◌};
    ghost use Rattle.mark_base.specs.Names.{name_fault};

    ghost Value = { List ℕ };

    ghost view = { λ n. string_bytes n.inner };

    ghost invariant = { λ n. name_fault (string_bytes n.inner) ≡ None };
}

/// Whether a character has a meaning of its own in annotation.conf or in .ann lines.
fn is_mark(c: char) -> bool
    ensures { result ≡ is_mark c }
{
    matches!(
        c,
        '!' | '#' | '*' | '+' | ',' | ':' | ';' | '<' | '>' | '?' | '{' | '|' | '}'
    )
}

/// Whether a character stands in no name.
fn is_barred(c: char) -> bool
    ensures { result ≡ is_barred c }
{
    c.is_whitespace() || c.is_control() || is_mark(c)
}

/// The place of the first character that stands in no name.
fn first_barred(text: &str) -> Option<usize>
    ensures { result ≡ position is_barred (chars text.now) }
{
    text.chars().position(|c| is_barred(c))
}

/// How many characters a text has. Cost: its length.
pub fn char_count(text: &str) -> usize
    ensures { result ≡ length (chars text.now) }
{
    text.chars().count()
}

/// What is at fault with a text whose first character that may not stand there is at this place.
pub fn spelling_fault(text: &str, bad: Option<usize>) -> Option<NameFault>
    requires { IfSome bad (λ place. place ≤ length (chars text.now)) }
    ensures { result ≡ spelling_fault (chars text.now) bad }
{
    let count = char_count(text);
    if count == 0 {
        return Some(NameFault::Empty);
    }
    if count > LONGEST {
        return Some(NameFault::TooLong);
    }
    match bad {
        Some(place) => Some(NameFault::BadChar(place as u32)),
        None => None,
    }
}

impl Name {
    /// What is at fault with a text as a name, in the order of [`NameFault`]. Cost: the length of the
    /// text.
    #[tactic(auto, unfolding(crate::specs::Names::name_fault))]
    pub fn fault(text: &str) -> Option<NameFault>
        ensures { result ≡ name_fault text.now }
    {
        spelling_fault(text, first_barred(text))
    }

    /// Reads a name. The faults are tested in the order of [`NameFault`]. Cost: the length of the text.
    #[tactic(auto, unfolding(crate::specs::Names::name_fault))]
    pub fn new(alloc: Global, text: &str) -> Result<Name, NameFault>
        ensures text { IfOk result (λ name. name ≡ text.now) }
        ensures accepted { OnOk result (name_fault text.now ≡ None) }
        ensures refused { IfErr result (IsRefusal (name_fault text.now)) }
    {
        match spelling_fault(text, first_barred(text)) {
            Some(fault) => Err(fault),
            None => {
                let inner = String::from_str(alloc, text)?;
                Ok(Name { inner })
            }
        }
    }

    /// The text of the name.
    pub fn text(&self) -> &str
        ensures value { result.now ≡ self.now }
        ensures spelling { name_fault self.now ≡ None }
    {
        self.inner.as_str()
    }

    /// A second name of the same text.
    pub fn copy(&self) -> Result<Name, Memory>
        ensures { IfOk result (λ name. name ≡ self.now) }
    {
        let inner = self.inner.clone()?;
        Ok(Name { inner })
    }
}

impl Clone for Name {
    ghost is_clone = { λ c d. d ≡ c };

    fn clone(&self) -> Result<Name, AllocError> {
        let inner = self.inner.clone()?;
        Ok(Name { inner })
    }
}

impl PartialEq for Name {
    ghost eq = { pointwise nat_eq };

    ghost laws = { partial_equiv_from_equiv nat_list_eq_equiv };

    fn eq(&self, other: &Name) -> bool {
        self.inner.as_str() == other.inner.as_str()
    }
}

impl Eq for Name {
    ghost laws = { nat_list_eq_equiv };
}

impl PartialOrd for Name {
    ghost partial_cmp = { λ x y. Some (slice_cmp nat_cmp x y) };

    ghost laws = { texts_po };

    fn partial_cmp(&self, other: &Name) -> Option<Ordering> {
        Some(self.cmp(other))
    }
}

impl Ord for Name {
    ghost cmp = { slice_cmp nat_cmp };

    ghost total = { nat_list_cmp_total };

    ghost matches_partial_cmp = { λ x y. refl };

    ghost matches_eq = { texts_ties };

    fn cmp(&self, other: &Name) -> Ordering {
        self.inner.as_str().cmp(other.inner.as_str())
    }
}
