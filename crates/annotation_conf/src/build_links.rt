//! Overlap lines, attributes and relation types.
ghost use Rattle.std.specs.Prelude.{◌≡◌, ◌<◌, ◌==◌, All, length, map, filter, IfOk, bytes_eq};
ghost use Rattle.std.specs.List.{list_any, slice_split};
ghost use Rattle.conf_model.specs.ConfFaults.{word_of, is_among};
ghost use Rattle.conf_model.specs.ConfOf.{role_at};
ghost use Rattle.annotation_conf.specs.FileShows.{seen_alternative, seen_pair};
ghost use Rattle.annotation_conf.specs.BuildTold.{has_kind_told, overlap_kept, first_targets, first_values, attribute_kept, arguments_kept, relation_kept, firsts_kept, AreRolesNamed, AreWordsNamed, IsAttributeNamed, IsRelationNamed};

use crate::build_resolver::Resolver;
use crate::build_roles::{arguments, name_of};
use crate::faults_lines::is_equivalence;
use crate::faults_pairs::{is_values, word};
use crate::file::NamedLine;
use crate::line_parts::{spells, split_at};
use crate::pieces::{Alternative, KeyedPair, RolePair, has_kinds_key};
use conf_model::{ArgumentLines, AttributeType, Overlap, RelationType, Values};
use mark_base::{Memory, Name};
use std::alloc::Global;

/// Whether a word is this one.
#[tactic(auto, using(crate::proofs::FaultNames::bytes_eq_turns))]
fn is_word(one: &[char], word: &str) -> bool
    ensures { result ≡ bytes_eq word.now one.now }
{
    spells(one, word)
}

/// Whether some word is this one.
fn some_is(words: &[&[char]], word: &str) -> bool
    ensures { result ≡ list_any (λ one. bytes_eq word.now one.now) words.now }
{
    words.iter().any(|one| is_word(one, word))
}

/// Whether the words of a value have this one.
#[tactic(auto, using(crate::proofs::FaultLists::list_any_map))]
fn value_has(alloc: Global, value: &[char], kind: &str) -> Result<bool, Memory>
    ensures { IfOk result (λ has. has ≡ is_among (slice_split (λ c. c == 124) value.now) kind.now) }
{
    let words = split_at(alloc, value, '|')?;
    Ok(some_is(&words, kind))
}

/// Whether a pair of kinds has this kind.
fn pair_has_kind(alloc: Global, pair: &KeyedPair, kind: &str) -> Result<bool, Memory>
    ensures { IfOk result (λ has. has ≡ has_kind_told kind.now pair.now) }
{
    if has_kinds_key(pair) {
        value_has(alloc, &pair.value, kind)
    } else {
        Ok(false)
    }
}

/// Whether some pair has this kind.
fn has_kind(alloc: Global, keyed: &[KeyedPair], kind: &str) -> Result<bool, Memory>
    ensures { IfOk result (λ has. has ≡ list_any (has_kind_told kind.now) keyed.now) }
{
    for pair in keyed {
        if pair_has_kind(alloc, pair, kind)? {
            return Ok(true);
        }
    }
    Ok(false)
}

/// An overlap line.
pub fn overlap(alloc: Global, resolver: &Resolver, line: &NamedLine) -> Result<Overlap, Memory>
    ensures { IfOk result (λ overlap. overlap ≡ overlap_kept resolver.now line.now) }
{
    let keyed = line.pieces.keyed.as_slice();
    let arguments = arguments(alloc, resolver, &line.pieces.pairs)?;
    Ok(Overlap {
        first: arguments.first,
        second: arguments.second,
        contain: has_kind(alloc, keyed, "contain")?,
        equal: has_kind(alloc, keyed, "equal")?,
        cross: has_kind(alloc, keyed, "cross")?,
        any: has_kind(alloc, keyed, "<ANY>")?,
    })
}

/// Overlap lines.
pub fn overlaps(
    alloc: Global,
    resolver: &Resolver,
    lines: &[NamedLine],
) -> Result<Vec<Overlap>, Memory>
    ensures { IfOk result (λ rows. rows.items ≡ map (overlap_kept resolver.now) lines.now) }
{
    let mut rows = Vec::new(alloc);
    for line in lines {
        rows.push(overlap(alloc, resolver, line)?)?;
    }
    Ok(rows)
}

/// The alternatives of the pair of targets.
fn targets_of(pairs: &[RolePair]) -> &[Alternative]
    ensures { result.now ≡ first_targets pairs.now }
{
    for pair in pairs {
        if !is_values(pair) {
            return pair.alternatives.as_slice();
        }
    }
    &[]
}

/// The alternatives of the pair of values.
fn values_of(pairs: &[RolePair]) -> &[Alternative]
    ensures { result.now ≡ first_values pairs.now }
{
    for pair in pairs {
        if is_values(pair) {
            return pair.alternatives.as_slice();
        }
    }
    &[]
}

/// The names of alternatives.
fn names_of(alloc: Global, alternatives: &[Alternative]) -> Result<Values, Memory>
    requires { AreWordsNamed alternatives.now }
    ensures { IfOk result (λ names. names ≡ map (λ one. word_of (seen_alternative one)) alternatives.now) }
{
    let mut names = Vec::new(alloc);
    for one in alternatives {
        names.push(name_of(alloc, word(one))?)?;
    }
    Ok(Values::from_vec(names))
}

/// An attribute.
fn attribute(alloc: Global, resolver: &Resolver, line: &NamedLine) -> Result<AttributeType, Memory>
    requires { IsAttributeNamed line.now }
    ensures { IfOk result (λ attribute. attribute ≡ attribute_kept resolver.now line.now) }
{
    let pairs = line.pieces.pairs.as_slice();
    Ok(AttributeType {
        name: name_of(alloc, line.name.text())?,
        targets: resolver.resolved(alloc, true, targets_of(pairs))?,
        values: names_of(alloc, values_of(pairs))?,
    })
}

/// Attributes.
pub fn attributes(
    alloc: Global,
    resolver: &Resolver,
    lines: &[NamedLine],
) -> Result<Vec<AttributeType>, Memory>
    requires { All IsAttributeNamed lines.now }
    ensures { IfOk result (λ rows. rows.items ≡ map (attribute_kept resolver.now) lines.now) }
{
    let mut rows = Vec::new(alloc);
    for line in lines {
        rows.push(attribute(alloc, resolver, line)?)?;
    }
    Ok(rows)
}

/// The role of a place.
fn role_at(alloc: Global, pairs: &[RolePair], place: usize) -> Result<Name, Memory>
    requires within { place < length pairs.now }
    requires named { AreRolesNamed pairs.now }
    ensures { IfOk result (λ name. name ≡ role_at (map seen_pair pairs.now) place) }
{
    name_of(alloc, pairs[place].role.text())
}

/// The arguments of the lines of a name.
fn argument_lines(
    alloc: Global,
    resolver: &Resolver,
    lines: &[NamedLine],
    name: &str,
) -> Result<ArgumentLines, Memory>
    ensures { IfOk result (λ rows. rows ≡ map (arguments_kept resolver.now) (filter (λ other. bytes_eq other.name name.now) lines.now)) }
{
    let mut rows = Vec::new(alloc);
    for line in lines {
        if line.name.text() == name {
            rows.push(arguments(alloc, resolver, &line.pieces.pairs)?)?;
        }
    }
    Ok(ArgumentLines::from_vec(rows))
}

/// A relation type by its first line. Cost: the lines of all relation types.
fn relation(
    alloc: Global,
    resolver: &Resolver,
    lines: &[NamedLine],
    line: &NamedLine,
) -> Result<RelationType, Memory>
    requires { IsRelationNamed line.now }
    ensures { IfOk result (λ relation. relation ≡ relation_kept resolver.now lines.now line.now) }
{
    let pairs = line.pieces.pairs.as_slice();
    Ok(RelationType {
        name: name_of(alloc, line.name.text())?,
        first: role_at(alloc, pairs, 0)?,
        second: role_at(alloc, pairs, 1)?,
        equivalence: is_equivalence(&line.pieces.keyed),
        lines: argument_lines(alloc, resolver, lines, line.name.text())?,
    })
}

/// Relation types. Cost: their number, at most 256, times the lines of all.
pub fn relations(
    alloc: Global,
    resolver: &Resolver,
    lines: &[NamedLine],
) -> Result<Vec<RelationType>, Memory>
    requires { All IsRelationNamed lines.now }
    ensures { IfOk result (λ rows. rows.items ≡ map (relation_kept resolver.now lines.now) (firsts_kept resolver.now lines.now)) }
{
    let mut rows = Vec::new(alloc);
    for line in lines {
        if !resolver
            .names()
            .relation_stood(line.number, line.name.text())
        {
            rows.push(relation(alloc, resolver, lines, line)?)?;
        }
    }
    Ok(rows)
}
