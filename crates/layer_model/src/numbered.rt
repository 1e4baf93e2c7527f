//! Annotations of one letter by their numbers.
ghost use Rattle.std.specs.Prelude.{◌≡◌, ◌≤◌, ℕ, true, Some, OnOk, OnErr};
ghost use Rattle.std.specs.Option.{option_copied};
ghost use Rattle.std.specs.Ordering.{nat_cmp};
ghost use Rattle.std.specs.FinMap as finite;
ghost use Rattle.layer_model.specs.Numbers.{NumbersFit, greatest_of};

use mark_base::Memory;
use std::alloc::Global;
use std::collections::BTreeMap;
use std::marker::Model;

/// Annotations of one letter by their numbers, which are at most 999,999,999.
#[derive(Debug, Drop)]
pub struct Numbered<V> {
    map: BTreeMap<u32, V>,
}

impl<V> Model for Numbered<V> {
    ghost use Rattle.std.specs.Prelude.{ℕ};
    ghost use Rattle.std.specs.Ordering.{nat_cmp};
    ghost use Rattle.std.specs.FinMap as finite;
    ghost use Rattle.std.specs.Coded.{coded_ℕ};
    ghost use Rattle.layer_model.specs.Numbers.{NumbersFit};

    ghost Value = { finite.FinMap nat_cmp V };

    ghost coded = { finite.code coded_ℕ V.code };

    ghost view = { λ numbered. finite.from_entries numbered.map.entries };

    ghost invariant = { λ numbered. NumbersFit (finite.from_entries {R = nat_cmp} numbered.map.entries) };
}

impl<V: Drop> Numbered<V> {
    /// No annotation.
    pub fn new(alloc: Global) -> Self
        ensures { result ≡ finite.empty }
    {
        Numbered {
            map: BTreeMap::new(alloc),
        }
    }

    /// The annotations of a map whose numbers fit.
    pub fn of(map: BTreeMap<u32, V>) -> Self
        requires { NumbersFit (finite.from_entries {R = nat_cmp} map.entries) }
        ensures { result ≡ finite.from_entries map.entries }
    {
        Numbered { map }
    }

    /// The annotations as a map. Its numbers fit.
    pub fn map(&self) -> &BTreeMap<u32, V>
        ensures value { finite.from_entries result.now.entries ≡ self.now }
        ensures fits { NumbersFit self.now }
    {
        &self.map
    }

    /// The annotation of this number. Cost: as the look-up of an ordered map.
    pub fn get(&self, number: u32) -> Option<&V>
        ensures { option_copied result ≡ finite.get self.now number }
    {
        self.map.get(&number)
    }

    /// Whether there is an annotation of this number. Cost: as `get`.
    pub fn has(&self, number: u32) -> bool
        ensures { result ≡ finite.contains_key self.now number }
    {
        self.map.contains_key(&number)
    }

    /// How many annotations there are.
    pub fn count(&self) -> u32
        ensures { result ≡ finite.len self.now }
    {
        self.map.len() as u32
    }

    /// The greatest number.
    pub fn greatest(&self) -> Option<u32>
        ensures { result ≡ greatest_of (finite.keys self.now) }
    {
        // The call tells that the numbers ascend.
        let _count = self.map.len();
        match self.map.last_key_value() {
            Some((number, _)) => Some(*number),
            None => None,
        }
    }

    /// Takes the annotation of this number out. Cost: as `get`.
    pub fn take(&mut self, number: u32) -> Option<V>
        ensures taken { result ≡ finite.get self.old number }
        ensures rest { self.new ≡ finite.remove self.old number }
    {
        self.map.remove(&number)
    }

    /// Puts an annotation under this number. Want of memory leaves all as it was. Cost: as `get`.
    pub fn put(&mut self, number: u32, value: V) -> Result<(), Memory>
        requires { number ≤ 999999999 }
        ensures ok { OnOk result (self.new ≡ finite.insert self.old number value) }
        ensures err { OnErr result (self.new ≡ self.old) }
    {
        self.map.insert(number, value)?;
        Ok(())
    }

    /// Puts another annotation under a number that has one, and answers the one that was there. Cost: as `get`.
    pub fn replace(&mut self, number: u32, value: V) -> V
        requires there { finite.contains_key self.old number ≡ true }
        ensures replaced { finite.get self.old number ≡ Some result }
        ensures rest { self.new ≡ finite.insert self.old number value }
    {
        match self.map.insert(number, value) {
            Ok(Some(before)) => before,
            Ok(None) => unreachable!(),
            Err(_) => unreachable!(),
        }
    }
}
