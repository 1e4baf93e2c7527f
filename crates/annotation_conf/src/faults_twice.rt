//! Names that stand twice on one line.
ghost use Rattle.std.specs.Prelude.{◌≡◌, IfOk, map};
ghost use Rattle.conf_model.specs.ConfFaults.{names_of, word_of, stands_twice};
ghost use Rattle.annotation_conf.specs.FileShows.{seen_alternative, seen_pair};
ghost use Rattle.annotation_conf.specs.NamePlaces.{seen_declared};

use crate::faults_pairs::word;
use crate::known_names::DeclaredName;
use crate::pieces::{Alternative, RolePair};
use mark_base::Memory;
use std::alloc::Global;
use std::collections::BTreeMap;

/// Whether some name stands behind itself.
fn stands_twice(alloc: Global, names: &[DeclaredName]) -> Result<bool, Memory>
    ensures { IfOk result (λ twice. twice ≡ stands_twice (names_of (map seen_declared names.now))) }
{
    let mut places: BTreeMap<&str, usize> = BTreeMap::new(alloc);
    for (place, one) in names.iter().enumerate() {
        if places.contains_key(one.name) {
            return Ok(true);
        }
        places.insert(one.name, place)?;
    }
    Ok(false)
}

/// The roles of some pairs.
fn roles<'a>(alloc: Global, pairs: &'a [RolePair]) -> Result<Vec<DeclaredName<'a>>, Memory>
    ensures { IfOk result (λ names. names_of (map seen_declared names.items) ≡ map (λ pair. (seen_pair pair).role) pairs.now) }
{
    let mut names = Vec::new(alloc);
    for pair in pairs {
        names.push(DeclaredName {
            number: 0,
            name: pair.role.text(),
        })?;
    }
    Ok(names)
}

/// The names of some alternatives.
fn words<'a>(
    alloc: Global,
    alternatives: &'a [Alternative],
) -> Result<Vec<DeclaredName<'a>>, Memory>
    ensures { IfOk result (λ names. names_of (map seen_declared names.items) ≡ map (λ one. word_of (seen_alternative one)) alternatives.now) }
{
    let mut names = Vec::new(alloc);
    for one in alternatives {
        names.push(DeclaredName {
            number: 0,
            name: word(one),
        })?;
    }
    Ok(names)
}

/// Whether some role stands twice. Cost: the number of pairs times its logarithm.
pub fn roles_stand_twice(alloc: Global, pairs: &[RolePair]) -> Result<bool, Memory>
    ensures { IfOk result (λ twice. twice ≡ stands_twice (map (λ pair. (seen_pair pair).role) pairs.now)) }
{
    let names = roles(alloc, pairs)?;
    stands_twice(alloc, &names)
}

/// Whether some alternative stands twice. Cost: the number of alternatives times its logarithm.
pub fn words_stand_twice(alloc: Global, alternatives: &[Alternative]) -> Result<bool, Memory>
    ensures { IfOk result (λ twice. twice ≡ stands_twice (map (λ one. word_of (seen_alternative one)) alternatives.now)) }
{
    let names = words(alloc, alternatives)?;
    stands_twice(alloc, &names)
}
