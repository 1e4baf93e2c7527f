//! The fault of a line.
ghost use Rattle.std.specs.Prelude.{◌≡◌, ◌≤◌, ◌||◌, ◌&&◌, ◌++◌, nat_lt, false, is_some, not, map, filter, take, length, codes, bytes_eq, IfOk, option_map};
ghost use Rattle.std.specs.List.{list_any, list_all};
ghost use Rattle.conf_model.specs.ConfFaults.{is_unknown, is_unheld, names_of, bound_names, declared_names, of_types, of_named, are_past, is_kind, are_kinds, has_kinds, is_values, same_words, same_truth};
ghost use Rattle.conf_model.specs.ConfNames.{macro_named};
ghost use Rattle.annotation_conf.specs.FileShows.{seen_alternative, seen_pair, seen_named, seen_keyed};
ghost use Rattle.annotation_conf.specs.KnownMacros.{AreFirstKinds, kinds_of_macros};
ghost use Rattle.annotation_conf.specs.FaultsTold.{too_deep, is_undeclared, names_no_type, unheld_in, type_told, mark_equivalence, agree_kept, agrees_with_first, relation_told, kinds_in, overlap_told, values_twice, target_names_nothing, target_unheld, targets_name_nothing, targets_unheld, has_many_values, many_values_in, attribute_told, macro_told};

use crate::faults_macros::{
    Kinds, KnownMacros, held_macro, is_undeclared, is_unheld, names_no_type,
};
use crate::faults_pairs::{
    are_arguments, are_badly_marked, are_badly_named, are_badly_valued, is_attribute, is_binary,
    is_no_declared, is_no_name, is_values, names_badly,
};
use crate::faults_twice::{roles_stand_twice, words_stand_twice};
use crate::file::{MacroLine, NamedLine, TypeLine};
use crate::line_parts::{spells, split_at};
use crate::names_by_sort::{KnownNames, MOST_ROWS};
use crate::pieces::{Alternative, KeyedPair, RolePair, has_kinds_key};
use conf_model::ConfWhat;
use mark_base::Memory;
use std::alloc::Global;

/// Whether some alternative names no type, or holds a relation type by its name.
fn some_names_no_type(known: &KnownNames, kinds: &[Kinds], all: &[Alternative]) -> bool
    requires { AreFirstKinds known.now kinds.now }
    ensures { result ≡ list_any (λ one. is_unknown (take (length kinds.now) known.now.macros) (declared_names known.now) (names_of (bound_names known.now)) (seen_alternative one)) all.now }
{
    all.iter().any(|one| names_no_type(known, kinds, one))
}

/// Whether some alternative names no type and no relation type.
fn some_is_undeclared(known: &KnownNames, all: &[Alternative]) -> bool
    ensures { result ≡ list_any (is_undeclared known.now) all.now }
{
    all.iter().any(|one| is_undeclared(known, one))
}

/// Whether some alternative is a macro that is not defined, or holds relation types where they may not
/// stand.
fn some_is_unheld(known: &KnownNames, kinds: &[Kinds], relations: bool, all: &[Alternative]) -> bool
    requires { AreFirstKinds known.now kinds.now }
    ensures { result ≡ list_any (λ one. is_unheld (take (length kinds.now) known.now.macros) relations (seen_alternative one)) all.now }
{
    all.iter()
        .any(|one| is_unheld(known, kinds, relations, one))
}

/// Whether some alternative of a pair names no type, or holds a relation type by its name.
fn pair_names_no_type(known: &KnownMacros, pair: &RolePair) -> bool
    ensures { result ≡ list_any (λ one. is_unknown known.now.macros (declared_names known.now) (names_of (bound_names known.now)) (seen_alternative one)) pair.now.alternatives.items }
{
    some_names_no_type(known.names(), known.kinds(), &pair.alternatives)
}

/// Whether some alternative of some pair names no type, or holds a relation type by its name.
fn pairs_name_no_type(known: &KnownMacros, pairs: &[RolePair]) -> bool
    ensures { result ≡ names_no_type known.now pairs.now }
{
    pairs.iter().any(|pair| pair_names_no_type(known, pair))
}

/// Whether some alternative of a pair is a macro that is not defined, or holds relation types.
fn pair_is_unheld(known: &KnownMacros, pair: &RolePair) -> bool
    ensures { result ≡ list_any (λ one. is_unheld known.now.macros false (seen_alternative one)) pair.now.alternatives.items }
{
    some_is_unheld(known.names(), known.kinds(), false, &pair.alternatives)
}

/// Whether some alternative of some pair is a macro that is not defined, or holds relation types.
fn pairs_are_unheld(known: &KnownMacros, pairs: &[RolePair]) -> bool
    ensures { result ≡ unheld_in known.now pairs.now }
{
    pairs.iter().any(|pair| pair_is_unheld(known, pair))
}

/// Whether a type stands more than one deeper than the type line before it.
fn is_too_deep(depth: usize, before: Option<usize>) -> bool
    ensures { result ≡ too_deep depth before }
{
    match before {
        Some(above) => depth > above && depth - above > 1,
        None => depth > 0,
    }
}

/// Whether a line brings one type, usable type or role too many.
fn brings_too_many(known: &KnownMacros, number: u32, pairs: &[RolePair]) -> bool
    ensures { result ≡ (are_past 256 number (bound_names known.now) || are_past 63 number (of_types (filter (λ one. one.usable) (known.now.entities ++ known.now.events))) || nat_lt 256 (length pairs.now)) }
{
    known.names().are_types_past(number)
        || known.names().are_usable_past(number)
        || pairs.len() > MOST_ROWS
}

/// The fault of a type line behind one of this depth. The roles of an event type are its pairs.
#[tactic(auto, unfolding(crate::specs::FaultsTold::type_told))]
pub fn type_fault(
    alloc: Global,
    known: &KnownMacros,
    before: Option<usize>,
    pairs: &[RolePair],
    shapeless: bool,
    line: &TypeLine,
) -> Result<Option<ConfWhat>, Memory>
    ensures { IfOk result (λ told. told ≡ type_told known.now before pairs.now shapeless line.now) }
{
    let name = line.name.text();
    if line.spaced || is_too_deep(line.depth, before) {
        return Ok(Some(ConfWhat::BadIndent));
    }
    if line.gapped || is_no_declared(name) || are_badly_named(pairs) {
        return Ok(Some(ConfWhat::BadName));
    }
    if known.names().type_stood(line.number, name) || roles_stand_twice(alloc, pairs)? {
        return Ok(Some(ConfWhat::NameTwice));
    }
    if are_badly_marked(pairs) {
        return Ok(Some(ConfWhat::BadCount));
    }
    if shapeless {
        return Ok(Some(ConfWhat::BadArgument));
    }
    if pairs_name_no_type(known, pairs) {
        return Ok(Some(ConfWhat::UnknownTypeNamed));
    }
    if pairs_are_unheld(known, pairs) {
        return Ok(Some(ConfWhat::UnknownMacro));
    }
    if brings_too_many(known, line.number, pairs) {
        return Ok(Some(ConfWhat::TooManyTypes));
    }
    Ok(None)
}

/// The fault of an overlap line.
#[tactic(auto, unfolding(crate::specs::FaultsTold::overlap_told))]
pub fn overlap_fault(
    alloc: Global,
    known: &KnownMacros,
    line: &NamedLine,
) -> Result<Option<ConfWhat>, Memory>
    ensures { IfOk result (λ told. told ≡ overlap_told known.now line.now) }
{
    let pairs = line.pieces.pairs.as_slice();
    if are_badly_named(pairs) {
        return Ok(Some(ConfWhat::BadName));
    }
    if are_badly_marked(pairs) {
        return Ok(Some(ConfWhat::BadCount));
    }
    if line.pieces.shapeless
        || !are_arguments(pairs)
        || !has_kinds(alloc, &line.pieces.keyed)?
        || line.pieces.late
    {
        return Ok(Some(ConfWhat::BadArgument));
    }
    if pairs_name_no_type(known, pairs) {
        return Ok(Some(ConfWhat::UnknownTypeNamed));
    }
    if pairs_are_unheld(known, pairs) {
        return Ok(Some(ConfWhat::UnknownMacro));
    }
    Ok(None)
}

/// Whether a word is a kind of overlap.
fn is_kind(word: &[char]) -> bool
    ensures { result ≡ is_kind word.now }
{
    spells(word, "contain")
        || spells(word, "equal")
        || spells(word, "cross")
        || spells(word, "<ANY>")
}

/// Whether each word is a kind of overlap.
fn all_are_kinds(words: &[&[char]]) -> bool
    ensures { result ≡ list_all (λ word. is_kind word.now) words.now }
{
    words.iter().all(|word| is_kind(word))
}

/// Whether these are kinds that `|` separates.
#[tactic(auto, using(crate::proofs::FaultLists::list_all_map))]
fn are_kinds(alloc: Global, value: &[char]) -> Result<bool, Memory>
    ensures { IfOk result (λ kinds. kinds ≡ are_kinds value.now) }
{
    let words = split_at(alloc, value, '|')?;
    Ok(all_are_kinds(&words))
}

/// The pairs of kinds.
fn kinds_pairs<'a>(alloc: Global, keyed: &'a [KeyedPair]) -> Result<Vec<&'a KeyedPair>, Memory>
    ensures { IfOk result (λ kinds. map (λ pair. pair.now) kinds.items ≡ filter (λ pair. bytes_eq pair.key (codes "OVL-TYPE")) keyed.now) }
{
    let mut kinds = Vec::new(alloc);
    for pair in keyed {
        if has_kinds_key(pair) {
            kinds.push(pair)?;
        }
    }
    Ok(kinds)
}

/// Whether there is exactly one pair, whose value is of kinds.
fn is_only_kinds(alloc: Global, kinds: &[&KeyedPair]) -> Result<bool, Memory>
    ensures { IfOk result (λ has. has ≡ has_kinds (map (λ pair. pair.now.value.items) kinds.now)) }
{
    match kinds {
        [one] => are_kinds(alloc, &one.value),
        _ => Ok(false),
    }
}

/// Whether there is exactly one pair of kinds.
fn has_kinds(alloc: Global, keyed: &[KeyedPair]) -> Result<bool, Memory>
    ensures { IfOk result (λ has. has ≡ has_kinds (kinds_in keyed.now)) }
{
    let kinds = kinds_pairs(alloc, keyed)?;
    is_only_kinds(alloc, &kinds)
}

/// Whether a pair marks an equivalence.
fn marks_equivalence(pair: &KeyedPair) -> bool
    ensures { result ≡ (bytes_eq (seen_keyed pair.now).key (codes "REL-TYPE") && bytes_eq (seen_keyed pair.now).value (codes "symmetric-transitive")) }
{
    pair.key.text() == "REL-TYPE" && spells(&pair.value, "symmetric-transitive")
}

/// Whether some pair marks an equivalence.
fn some_marks_equivalence(keyed: &[KeyedPair]) -> bool
    ensures { result ≡ list_any (λ pair. bytes_eq (seen_keyed pair).key (codes "REL-TYPE") && bytes_eq (seen_keyed pair).value (codes "symmetric-transitive")) keyed.now }
{
    keyed.iter().any(|pair| marks_equivalence(pair))
}

/// Whether the pairs of a line mark an equivalence.
#[tactic(auto, using(crate::proofs::FaultLists::list_any_map))]
pub fn is_equivalence(keyed: &[KeyedPair]) -> bool
    ensures { result ≡ mark_equivalence (map seen_keyed keyed.now) }
{
    some_marks_equivalence(keyed)
}

/// Whether two lists of pairs have the same roles in the same order.
fn have_same_roles(first: &[RolePair], line: &[RolePair]) -> bool
    ensures { result ≡ same_words (map (λ pair. pair.role) (map seen_pair first.now)) (map (λ pair. pair.role) (map seen_pair line.now)) }
{
    let mut left = first;
    let mut right = line;
    while let Some((one, rest)) = left.split_first() {
        match right {
            [] => return false,
            [other, others @ ..] => {
                if one.role.text() != other.role.text() {
                    return false;
                }
                left = rest;
                right = others;
            }
        }
    }
    right.is_empty()
}

/// Whether a pair of an attribute has values of which one stands twice.
fn has_values_twice(alloc: Global, pair: &RolePair) -> Result<bool, Memory>
    ensures { IfOk result (λ twice. twice ≡ values_twice pair.now) }
{
    if is_values(pair) {
        words_stand_twice(alloc, &pair.alternatives)
    } else {
        Ok(false)
    }
}

/// Whether some value stands twice.
fn have_values_twice(alloc: Global, pairs: &[RolePair]) -> Result<bool, Memory>
    ensures { IfOk result (λ twice. twice ≡ list_any values_twice pairs.now) }
{
    for pair in pairs {
        if has_values_twice(alloc, pair)? {
            return Ok(true);
        }
    }
    Ok(false)
}

/// Whether a pair of targets names no type and no relation type.
fn target_names_nothing(known: &KnownMacros, pair: &RolePair) -> bool
    ensures { result ≡ target_names_nothing known.now pair.now }
{
    !is_values(pair) && some_is_undeclared(known.names(), &pair.alternatives)
}

/// Whether a pair of targets holds a macro that is not defined.
fn target_is_unheld(known: &KnownMacros, pair: &RolePair) -> bool
    ensures { result ≡ target_unheld known.now pair.now }
{
    !is_values(pair) && some_is_unheld(known.names(), known.kinds(), true, &pair.alternatives)
}

/// Whether some target is a name of no type and no relation type.
#[tactic(auto, unfolding(crate::specs::FaultsTold::targets_name_nothing))]
fn targets_name_nothing(known: &KnownMacros, pairs: &[RolePair]) -> bool
    ensures { result ≡ targets_name_nothing known.now pairs.now }
{
    pairs.iter().any(|pair| target_names_nothing(known, pair))
}

/// Whether some target is a macro that is not defined.
#[tactic(auto, unfolding(crate::specs::FaultsTold::targets_unheld))]
fn targets_are_unheld(known: &KnownMacros, pairs: &[RolePair]) -> bool
    ensures { result ≡ targets_unheld known.now pairs.now }
{
    pairs.iter().any(|pair| target_is_unheld(known, pair))
}

/// Whether a pair has more than 256 values.
fn has_many_values(pair: &RolePair) -> bool
    ensures { result ≡ has_many_values pair.now }
{
    is_values(pair) && pair.alternatives.len() > MOST_ROWS
}

/// Whether some pair has more than 256 values.
#[tactic(auto, unfolding(crate::specs::FaultsTold::many_values_in))]
fn have_many_values(pairs: &[RolePair]) -> bool
    ensures { result ≡ many_values_in pairs.now }
{
    pairs.iter().any(|pair| has_many_values(pair))
}

/// The fault of an attribute line.
#[tactic(auto, unfolding(crate::specs::FaultsTold::attribute_told))]
pub fn attribute_fault(
    alloc: Global,
    known: &KnownMacros,
    line: &NamedLine,
) -> Result<Option<ConfWhat>, Memory>
    ensures { IfOk result (λ told. told ≡ attribute_told known.now line.now) }
{
    let name = line.name.text();
    let pairs = line.pieces.pairs.as_slice();
    if is_no_declared(name) || are_badly_valued(pairs) {
        return Ok(Some(ConfWhat::BadName));
    }
    if known.names().attribute_stood(line.number, name) || have_values_twice(alloc, pairs)? {
        return Ok(Some(ConfWhat::NameTwice));
    }
    if are_badly_marked(pairs) {
        return Ok(Some(ConfWhat::BadCount));
    }
    if line.pieces.shapeless || !is_attribute(pairs) {
        return Ok(Some(ConfWhat::BadArgument));
    }
    if targets_name_nothing(known, pairs) {
        return Ok(Some(ConfWhat::UnknownTypeNamed));
    }
    if targets_are_unheld(known, pairs) {
        return Ok(Some(ConfWhat::UnknownMacro));
    }
    if known.names().are_attributes_past(line.number) || have_many_values(pairs) {
        return Ok(Some(ConfWhat::TooManyTypes));
    }
    Ok(None)
}

/// Whether both are true or neither is.
fn same_truth(first: bool, other: bool) -> bool
    ensures { result ≡ same_truth first other }
{
    if first { other } else { !other }
}

/// Whether two lines of a relation type have the same roles in the same order, and both or neither
/// mark an equivalence.
fn agree(first: &NamedLine, line: &NamedLine) -> bool
    ensures { result ≡ agree_kept (seen_named first.now) (seen_named line.now) }
{
    have_same_roles(&first.pieces.pairs, &line.pieces.pairs)
        && same_truth(
            is_equivalence(&first.pieces.keyed),
            is_equivalence(&line.pieces.keyed),
        )
}

/// Whether a line agrees with the first line of its relation type.
fn agrees_with_first(known: &KnownMacros, line: &NamedLine) -> bool
    ensures { result ≡ agrees_with_first known.now line.now }
{
    match known.names().first_relation(line.name.text()) {
        Some(place) => agree(&known.names().file().relations[place], line),
        None => true,
    }
}

/// The fault of a line of a relation type.
#[tactic(auto, unfolding(crate::specs::FaultsTold::relation_told))]
pub fn relation_fault(known: &KnownMacros, line: &NamedLine) -> Option<ConfWhat>
    ensures { result ≡ relation_told known.now line.now }
{
    let pairs = line.pieces.pairs.as_slice();
    if is_no_declared(line.name.text()) || are_badly_named(pairs) {
        return Some(ConfWhat::BadName);
    }
    if are_badly_marked(pairs) {
        return Some(ConfWhat::BadCount);
    }
    if line.pieces.shapeless || !is_binary(pairs) || !agrees_with_first(known, line) {
        return Some(ConfWhat::BadArgument);
    }
    if pairs_name_no_type(known, pairs) {
        return Some(ConfWhat::UnknownTypeNamed);
    }
    if pairs_are_unheld(known, pairs) {
        return Some(ConfWhat::UnknownMacro);
    }
    if known.names().are_relation_types_past(line.number) {
        return Some(ConfWhat::TooManyTypes);
    }
    None
}

/// Whether a macro of a name is built in or one of the first.
fn is_macro(known: &KnownNames, kinds: &[Kinds], name: &str) -> bool
    requires { AreFirstKinds known.now kinds.now }
    ensures { result ≡ is_some (macro_named (take (length kinds.now) known.now.macros) name.now) }
{
    held_macro(known, kinds, name).is_some()
}

/// The fault of the line of a macro behind the macros of these sorts.
#[tactic(auto, unfolding(crate::specs::FaultsTold::macro_told))]
pub fn macro_fault(known: &KnownNames, kinds: &[Kinds], line: &MacroLine) -> Option<ConfWhat>
    requires { AreFirstKinds known.now kinds.now }
    ensures { result ≡ macro_told known.now (length kinds.now) line.now }
{
    let name = line.name.text();
    let alternatives = line.alternatives.as_slice();
    if is_no_name(name) || names_badly(alternatives) {
        return Some(ConfWhat::BadName);
    }
    if is_macro(known, kinds, name) {
        return Some(ConfWhat::NameTwice);
    }
    if some_is_undeclared(known, alternatives) {
        return Some(ConfWhat::UnknownTypeNamed);
    }
    if some_is_unheld(known, kinds, true, alternatives) {
        return Some(ConfWhat::UnknownMacro);
    }
    None
}
