//! What the alternatives of a file hold, as far as its faults ask.
ghost use Rattle.std.specs.Prelude.{◌≡◌, ℕ, ◌≤◌, length, map, take, option_map, IfOk};
ghost use Rattle.conf_model.specs.ConfNames.{all_held, one_held};
ghost use Rattle.conf_model.specs.ConfPairs.{Named, Held};
ghost use Rattle.conf_model.specs.ConfFaults.{is_unknown, is_unheld, names_of, bound_names, declared_names};
ghost use Rattle.annotation_conf.specs.FaultsTold.{is_undeclared};
ghost use Rattle.annotation_conf.specs.FileShows.{seen_alternative};
ghost use Rattle.annotation_conf.specs.KnownFiles.{IsKnown};
ghost use Rattle.annotation_conf.specs.KnownMacros.{kinds_of, kinds_of_macros, kinds_by, AreFirstKinds, AreBuiltIn, either_kinds};

use crate::file::File;
use crate::names_by_sort::KnownNames;
use crate::pieces::Alternative;
use mark_base::Memory;
use std::alloc::Global;
use std::marker::Model;

/// The sorts that alternatives hold, and whether they hold a name that is declared, but of no entity or
/// event type.
#[derive(Clone, Copy, Debug, PartialEq, Eq)]
pub struct Kinds {
    pub entity: bool,
    pub event: bool,
    pub any: bool,
    pub relation: bool,
    pub no_type: bool,
}

impl Kinds {
    /// Nothing.
    const NONE: Kinds = Kinds {
        entity: false,
        event: false,
        any: false,
        relation: false,
        no_type: false,
    };

    /// What this or another holds.
    fn or(self, other: Kinds) -> Kinds
        ensures { result ≡ either_kinds self other }
    {
        Kinds {
            entity: self.entity || other.entity,
            event: self.event || other.event,
            any: self.any || other.any,
            relation: self.relation || other.relation,
            no_type: self.no_type || other.no_type,
        }
    }
}

/// What a built-in macro holds.
pub fn built_in(name: &str) -> Option<Kinds>
    ensures { AreBuiltIn name.now result }
{
    if name == "ENTITY" {
        return Some(Kinds {
            entity: true,
            ..Kinds::NONE
        });
    }
    if name == "EVENT" {
        return Some(Kinds {
            event: true,
            ..Kinds::NONE
        });
    }
    if name == "ANY" {
        return Some(Kinds {
            any: true,
            ..Kinds::NONE
        });
    }
    if name == "RELATION" {
        return Some(Kinds {
            relation: true,
            ..Kinds::NONE
        });
    }
    None
}

/// What a named type holds.
fn named(known: &KnownNames, name: &str) -> Kinds
    ensures { result ≡ kinds_of known.now (one_held known.now.macros (Named name.now)) }
{
    Kinds {
        no_type: known.has_any(name) && !known.has_type(name),
        ..Kinds::NONE
    }
}

/// What a macro holds, where it is built in or one of the first whose sorts these are.
pub fn held_macro(known: &KnownNames, kinds: &[Kinds], name: &str) -> Option<Kinds>
    requires { AreFirstKinds known.now kinds.now }
    ensures { result ≡ kinds_by known.now (length kinds.now) (Held name.now) }
{
    if let Some(kinds) = built_in(name) {
        return Some(kinds);
    }
    let place = known.first_macro(name)?;
    if place < kinds.len() {
        return Some(kinds[place]);
    }
    None
}

/// What an alternative holds, where it names a type or one of the first macros.
pub fn held(known: &KnownNames, kinds: &[Kinds], alternative: &Alternative) -> Option<Kinds>
    requires { AreFirstKinds known.now kinds.now }
    ensures { result ≡ kinds_by known.now (length kinds.now) (seen_alternative alternative.now) }
{
    match alternative {
        Alternative::Named(name) => Some(named(known, name.text())),
        Alternative::Held(name) => held_macro(known, kinds, name.text()),
    }
}

/// What some alternatives hold.
pub fn all_held(known: &KnownNames, kinds: &[Kinds], alternatives: &[Alternative]) -> Kinds
    requires { AreFirstKinds known.now kinds.now }
    ensures { result ≡ kinds_of known.now (all_held (take (length kinds.now) known.now.macros) (map seen_alternative alternatives.now)) }
{
    let mut all = Kinds::NONE;
    for alternative in alternatives {
        if let Some(one) = held(known, kinds, alternative) {
            all = all.or(one);
        }
    }
    all
}

/// What each macro of a file holds.
fn macro_kinds(alloc: Global, known: &KnownNames) -> Result<Vec<Kinds>, Memory>
    ensures { IfOk result (λ kinds. kinds.items ≡ kinds_of_macros known.now known.now.macros) }
{
    let mut kinds = Vec::new(alloc);
    for line in &known.file().macros {
        let one = all_held(known, &kinds, &line.alternatives);
        kinds.push(one)?;
    }
    Ok(kinds)
}

/// Whether a macro holds a name that is declared, but of no entity or event type.
fn holds_no_type(known: &KnownNames, kinds: &[Kinds], name: &str) -> bool
    requires { AreFirstKinds known.now kinds.now }
    ensures { result ≡ is_unknown (take (length kinds.now) known.now.macros) (declared_names known.now) (names_of (bound_names known.now)) (Held name.now) }
{
    match held_macro(known, kinds, name) {
        Some(kinds) => kinds.no_type,
        None => false,
    }
}

/// Whether an alternative names no type, or holds a relation type by its name.
pub fn names_no_type(known: &KnownNames, kinds: &[Kinds], one: &Alternative) -> bool
    requires { AreFirstKinds known.now kinds.now }
    ensures { result ≡ is_unknown (take (length kinds.now) known.now.macros) (declared_names known.now) (names_of (bound_names known.now)) (seen_alternative one.now) }
{
    match one {
        Alternative::Named(name) => !known.has_type(name.text()),
        Alternative::Held(name) => holds_no_type(known, kinds, name.text()),
    }
}

/// Whether an alternative names no type and no relation type.
pub fn is_undeclared(known: &KnownNames, one: &Alternative) -> bool
    ensures { result ≡ is_undeclared known.now one.now }
{
    match one {
        Alternative::Named(name) => !known.has_any(name.text()),
        Alternative::Held(_) => false,
    }
}

/// Whether an alternative is a macro that is not defined, or holds relation types where they may not
/// stand.
pub fn is_unheld(known: &KnownNames, kinds: &[Kinds], relations: bool, one: &Alternative) -> bool
    requires { AreFirstKinds known.now kinds.now }
    ensures { result ≡ is_unheld (take (length kinds.now) known.now.macros) relations (seen_alternative one.now) }
{
    match held(known, kinds, one) {
        Some(kinds) => kinds.relation && !relations,
        None => true,
    }
}

/// The names that a file declares, and what its macros hold. Contracts see them as the file.
#[derive(Drop)]
pub struct KnownMacros<'a> {
    names: KnownNames<'a>,
    kinds: Vec<Kinds>,
}

impl<'a> Model for KnownMacros<'a> {
    ghost use Rattle.std.specs.Prelude.{◌≡◌};
    ghost use Rattle.conf_model.specs.ConfNames.{File};

    ghost Value = { File };

    ghost use Rattle.annotation_conf.specs.KnownMacros.{kinds_of_macros};

    ghost view = { λ known. known.names };

    ghost invariant = { λ known. known.kinds.items ≡ kinds_of_macros known.names known.names.macros };
}

impl<'a> KnownMacros<'a> {
    /// What the macros of a file hold. Cost: the number of alternatives times the logarithm of the number
    /// of names.
    pub fn of(alloc: Global, names: KnownNames<'a>) -> Result<KnownMacros<'a>, Memory>
        ensures { IfOk result (λ known. known ≡ names.entry) }
    {
        let kinds = macro_kinds(alloc, &names)?;
        Ok(KnownMacros { names, kinds })
    }

    /// The names that the file declares.
    pub fn names(&self) -> &KnownNames<'a>
        ensures { result.now ≡ self.now }
    {
        &self.names
    }

    /// What each macro holds.
    pub fn kinds(&self) -> &[Kinds]
        ensures value { result.now ≡ kinds_of_macros self.now self.now.macros }
        ensures first { AreFirstKinds self.now result.now }
        ensures all { take (length result.now) self.now.macros ≡ self.now.macros }
    {
        self.kinds.as_slice()
    }
}
