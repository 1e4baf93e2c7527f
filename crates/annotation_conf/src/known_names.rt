//! Names by the lines that declare them.
ghost use Rattle.std.specs.Prelude.{◌≡◌, ℕ, ◌+◌, ◌≤◌, nat_le, length, map, filter, not, IfOk, count_by};
ghost use Rattle.conf_model.specs.ConfFaults.{Declared, stood_before, is_among, names_of, of_types, of_named};
ghost use Rattle.annotation_conf.specs.FirstFaults.{IsRising};
ghost use Rattle.annotation_conf.specs.NamePlaces.{seen_declared, place_among, firsts_among, FindsPlaces};

use mark_base::Memory;
use std::alloc::Global;
use std::collections::BTreeMap;
use std::marker::Model;

/// A name and the number of the line that declares it.
#[derive(Drop)]
pub struct DeclaredName<'a> {
    pub number: u32,
    pub name: &'a str,
}

/// Declared names in the order of their lines.
#[derive(Drop)]
pub struct Names<'a> {
    lines: Vec<DeclaredName<'a>>,
    places: BTreeMap<&'a str, usize>,
}

impl<'a> Model for Names<'a> {
    ghost use Rattle.std.specs.Prelude.{List, map};
    ghost use Rattle.conf_model.specs.ConfFaults.{Declared};

    ghost Value = { List Declared };

    ghost use Rattle.annotation_conf.specs.NamePlaces.{seen_declared, AreKnown};

    ghost view = { λ names. map seen_declared names.lines.items };

    ghost invariant = { λ names. AreKnown (map seen_declared names.lines.items) names.places };
}

/// The place of the first line of each name.
fn gather_places<'a>(
    alloc: Global,
    lines: &[DeclaredName<'a>],
) -> Result<BTreeMap<&'a str, usize>, Memory>
    ensures { IfOk result (FindsPlaces (map seen_declared lines.now)) }
{
    let mut places = BTreeMap::new(alloc);
    for (place, line) in lines.iter().enumerate() {
        if !places.contains_key(line.name) {
            places.insert(line.name, place)?;
        }
    }
    Ok(places)
}

/// Those of some lines whose names no earlier line declares.
fn first_lines<'a>(
    alloc: Global,
    names: &Names<'a>,
    lines: &[DeclaredName<'a>],
) -> Result<Vec<DeclaredName<'a>>, Memory>
    ensures { IfOk result (λ kept. map seen_declared kept.items ≡ filter (λ one. not (stood_before one.number one.name names.now)) (map seen_declared lines.now)) }
{
    let mut kept = Vec::new(alloc);
    for line in lines {
        if !names.stood_before(line.number, line.name) {
            kept.push(DeclaredName {
                number: line.number,
                name: line.name,
            })?;
        }
    }
    Ok(kept)
}

impl<'a> Names<'a> {
    /// Names in the order of their lines. Cost: their number times its logarithm.
    pub fn of(alloc: Global, lines: Vec<DeclaredName<'a>>) -> Result<Names<'a>, Memory>
        requires { IsRising (λ (one : Declared). one.number) 1 (map seen_declared lines.items) }
        ensures { IfOk result (λ names. names ≡ map seen_declared lines.entry.items) }
    {
        let places = gather_places(alloc, &lines)?;
        Ok(Names { lines, places })
    }

    /// The place of the first line that declares a name.
    pub fn place(&self, name: &str) -> Option<usize>
        ensures { result ≡ place_among self.now name.now }
    {
        self.places.get(name).copied()
    }

    /// How many lines there are.
    pub fn len(&self) -> usize
        ensures { result ≡ length self.now }
    {
        self.lines.len()
    }

    /// Whether a name is declared.
    pub fn has(&self, name: &str) -> bool
        ensures { result ≡ is_among (names_of self.now) name.now }
    {
        self.places.contains_key(name)
    }

    /// Whether a line before this number declares a name.
    pub fn stood_before(&self, number: u32, name: &str) -> bool
        ensures { result ≡ stood_before number name.now self.now }
    {
        match self.places.get(name) {
            Some(place) => self.lines[*place].number < number,
            None => false,
        }
    }

    /// How many lines declare names, up to this number.
    pub fn count_up_to(&self, number: u32) -> usize
        ensures value { result ≡ count_by (λ one. nat_le one.number number) self.now }
        ensures bound { result ≤ length self.now }
    {
        self.lines.partition_point(|line| line.number <= number)
    }
    /// Each name by its first line.
    pub fn firsts(&self, alloc: Global) -> Result<Names<'a>, Memory>
        ensures { IfOk result (λ names. names ≡ firsts_among self.now) }
    {
        let lines = first_lines(alloc, self, &self.lines)?;
        Names::of(alloc, lines)
    }
}
