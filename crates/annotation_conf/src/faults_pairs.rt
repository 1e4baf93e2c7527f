//! Faults of role pairs and of alternatives.
ghost use Rattle.std.specs.Prelude.{◌≡◌, ◌==◌, ◌||◌, ◌&&◌, nat_lt, not, map, filter, is_none, length, slice_index, codes, bytes_eq};
ghost use Rattle.std.specs.List.{list_any, list_all};
ghost use Rattle.conf_model.specs.ConfLines.{is_hyphens};
ghost use Rattle.conf_model.specs.ConfPairs.{count_of};
ghost use Rattle.conf_model.specs.ConfFaults.{is_no_name, is_no_declared, word_of, names_badly, is_among, stands_twice, is_binary, are_arguments, is_values, values_badly, is_held, is_attribute};
ghost use Rattle.annotation_conf.specs.FileShows.{seen_alternative, seen_pair};

use crate::count::count_of;
use crate::pieces::{Alternative, RolePair};
use mark_base::Name;

/// Whether a word is no name.
pub fn is_no_name(word: &str) -> bool
    ensures { result ≡ is_no_name word.now }
{
    Name::fault(word).is_some()
}

/// Whether a word begins with `[`.
fn is_bracketed(word: &[u8]) -> bool
    ensures { result ≡ (slice_index word.now 0 == 91) }
{
    !word.is_empty() && word[0] == b'['
}

/// Whether each byte is a hyphen.
fn are_hyphens(word: &[u8]) -> bool
    ensures { result ≡ list_all (λ c. c == 45) word.now }
{
    word.iter().all(|byte| *byte == b'-')
}

/// Whether a word is of hyphens only.
fn is_hyphens(word: &[u8]) -> bool
    ensures { result ≡ is_hyphens word.now }
{
    !word.is_empty() && are_hyphens(word)
}

/// Whether a word is no name that a line may declare.
pub fn is_no_declared(word: &str) -> bool
    ensures { result ≡ is_no_declared word.now }
{
    is_no_name(word) || is_bracketed(word.as_bytes()) || is_hyphens(word.as_bytes())
}

/// The name of an alternative.
pub fn word(one: &Alternative) -> &str
    ensures { result.now ≡ word_of (seen_alternative one.now) }
{
    match one {
        Alternative::Named(name) => name.text(),
        Alternative::Held(name) => name.text(),
    }
}

/// Whether an alternative is a macro.
fn is_held(one: &Alternative) -> bool
    ensures { result ≡ is_held (seen_alternative one.now) }
{
    match one {
        Alternative::Named(_) => false,
        Alternative::Held(_) => true,
    }
}

/// Whether an alternative is no name.
fn is_unnamed(one: &Alternative) -> bool
    ensures { result ≡ is_no_name (word_of (seen_alternative one.now)) }
{
    is_no_name(word(one))
}

/// Whether an alternative is no value.
fn is_no_value(one: &Alternative) -> bool
    ensures { result ≡ (is_held (seen_alternative one.now) || is_no_name (word_of (seen_alternative one.now))) }
{
    is_held(one) || is_unnamed(one)
}

/// Whether some alternative is no name.
pub fn names_badly(alternatives: &[Alternative]) -> bool
    ensures { result ≡ list_any (λ one. is_no_name (word_of (seen_alternative one))) alternatives.now }
{
    alternatives.iter().any(|one| is_unnamed(one))
}

/// Whether some alternative is a macro or no name.
fn valued_badly(alternatives: &[Alternative]) -> bool
    ensures { result ≡ list_any (λ one. is_held (seen_alternative one) || is_no_name (word_of (seen_alternative one))) alternatives.now }
{
    alternatives.iter().any(|one| is_no_value(one))
}

/// Whether a pair has a role or an alternative that is no name.
#[tactic(auto, using(crate::proofs::FaultLists::list_any_map))]
fn is_badly_named(pair: &RolePair) -> bool
    ensures { result ≡ names_badly (seen_pair pair.now) }
{
    is_no_name(pair.role.text()) || names_badly(&pair.alternatives)
}

/// Whether some pair has a role or an alternative that is no name.
pub fn are_badly_named(pairs: &[RolePair]) -> bool
    ensures { result ≡ list_any (λ pair. names_badly (seen_pair pair)) pairs.now }
{
    pairs.iter().any(|pair| is_badly_named(pair))
}

/// Whether a pair is the pair of an attribute's values.
pub fn is_values(pair: &RolePair) -> bool
    ensures { result ≡ is_values (seen_pair pair.now) }
{
    pair.role.text() == "Value"
}

/// Whether a pair of an attribute has a role, target or value that is no name.
#[tactic(auto, using(crate::proofs::FaultLists::list_any_map))]
fn is_badly_valued(pair: &RolePair) -> bool
    ensures { result ≡ values_badly (seen_pair pair.now) }
{
    if is_values(pair) {
        valued_badly(&pair.alternatives)
    } else {
        is_badly_named(pair)
    }
}

/// Whether some pair of an attribute has a role, target or value that is no name.
pub fn are_badly_valued(pairs: &[RolePair]) -> bool
    ensures { result ≡ list_any (λ pair. values_badly (seen_pair pair)) pairs.now }
{
    pairs.iter().any(|pair| is_badly_valued(pair))
}

/// Whether the mark of a pair is no count.
fn is_badly_marked(pair: &RolePair) -> bool
    ensures { result ≡ is_none (count_of (seen_pair pair.now).mark) }
{
    count_of(&pair.mark).is_none()
}

/// Whether the mark of some pair is no count.
pub fn are_badly_marked(pairs: &[RolePair]) -> bool
    ensures { result ≡ list_any (λ pair. is_none (count_of (seen_pair pair).mark)) pairs.now }
{
    pairs.iter().any(|pair| is_badly_marked(pair))
}

/// Whether there are exactly two pairs of different roles, without marks.
pub fn is_binary(pairs: &[RolePair]) -> bool
    ensures { result ≡ is_binary (map seen_pair pairs.now) }
{
    match pairs {
        [first, second] => {
            first.mark.is_empty()
                && second.mark.is_empty()
                && first.role.text() != second.role.text()
        }
        _ => false,
    }
}

/// Whether there are `Arg1` and then `Arg2`, without marks.
pub fn are_arguments(pairs: &[RolePair]) -> bool
    ensures { result ≡ are_arguments (map seen_pair pairs.now) }
{
    match pairs {
        [first, second] => {
            first.mark.is_empty()
                && second.mark.is_empty()
                && first.role.text() == "Arg1"
                && second.role.text() == "Arg2"
        }
        _ => false,
    }
}

/// Whether there are `Arg`, and then `Value` or nothing, without marks.
pub fn is_attribute(pairs: &[RolePair]) -> bool
    ensures { result ≡ is_attribute (map seen_pair pairs.now) }
{
    match pairs {
        [arg] => arg.mark.is_empty() && arg.role.text() == "Arg",
        [arg, value] => {
            arg.mark.is_empty()
                && value.mark.is_empty()
                && arg.role.text() == "Arg"
                && is_values(value)
        }
        _ => false,
    }
}
