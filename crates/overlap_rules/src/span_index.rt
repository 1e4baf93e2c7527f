//! Spans by number, among which the first that touches given fragments is found.
ghost use Rattle.std.specs.Prelude.{◌≡◌, ℕ, ◌-◌, ◌+◌, ◌<◌, ◌≤◌, IsTrue, IsFalse, None, OnErr, OnOk, is_some, length};
ghost use Rattle.std.specs.FinMap as map;
ghost use Rattle.overlap_rules.specs.Overlaps.{are_ascending, reach};
ghost use Rattle.overlap_rules.specs.TouchingSpans.{AreAscending, IsFirstTouching, Passes, Fails};
ghost use Rattle.overlap_rules.specs.Buckets.{bucket_of, held_in, IsKept, FoundPasses, IsNoHigher, StandsBetween, StandsNear, IsBelow};

use crate::buckets::{
    Places, first_bucket, last_bucket, put_near, put_starts, take_near, take_starts,
};
use crate::kind_of;
use mark_base::{Frag, FragList, Memory, OvlKind};
use std::alloc::Global;
use std::collections::{BTreeMap, BTreeSet};
use std::marker::Model;

/// The fragments of spans by number. Contracts see it as a finite map from number to fragments.
#[derive(Debug, Drop)]
pub struct SpanIndex {
    alloc: Global,
    spans: BTreeMap<u32, FragList>,
    covered: Places,
    begun: Places,
}

impl Model for SpanIndex {
    ghost use Rattle.std.specs.FinMap as map;
    ghost use Rattle.overlap_rules.specs.TouchingSpans.{Held, held_code};
    ghost use Rattle.overlap_rules.specs.Buckets.{IsKept};

    ghost Value = { Held };

    ghost coded = { held_code };

    ghost view = { λ index. map.from_entries index.spans.entries };

    ghost invariant = { λ index. IsKept (map.from_entries index.spans.entries) index.covered index.begun };
}

impl SpanIndex {
    /// An index that holds no span.
    pub fn new(alloc: Global) -> Self
        ensures { result ≡ map.empty }
    {
        SpanIndex {
            alloc,
            spans: BTreeMap::new(alloc),
            covered: BTreeSet::new(alloc),
            begun: BTreeSet::new(alloc),
        }
    }

    /// Holds the span of a number that has none yet: fragments in ascending order, at least one and
    /// none of them empty, that reach over at most 10,000 characters. Want of memory leaves the index as
    /// it was. Cost: the number of fragments, and for each bucket that they meet the logarithm of the
    /// number of spans.
    pub fn put(&mut self, number: u32, frags: &[Frag]) -> Result<(), Memory>
        requires absent { map.get self.old number ≡ None }
        requires ascending { IsTrue (are_ascending frags.now) }
        requires some { 0 < length frags.now }
        requires short { reach frags.now ≤ 10000 }
        ensures held { OnOk result (self.new ≡ map.insert self.old number frags.now) }
        ensures kept { OnErr result (self.new ≡ self.old) }
    {
        let span = FragList::of(self.alloc, frags)?;
        match hold(
            &mut self.spans,
            &mut self.covered,
            &mut self.begun,
            number,
            span,
            frags,
        ) {
            Ok(()) => Ok(()),
            Err(want) => {
                take_near(&mut self.covered, number, frags);
                take_starts(&mut self.begun, number, frags);
                Err(want)
            }
        }
    }

    /// Lets the span of a number go, and answers whether there was one. Cost: the number of its
    /// fragments, and for each bucket that they meet the logarithm of the number of spans.
    pub fn take(&mut self, number: u32) -> bool
        ensures left { self.new ≡ map.remove self.old number }
        ensures held { result ≡ is_some (map.get self.old number) }
    {
        match self.spans.remove(&number) {
            Some(span) => {
                take_near(&mut self.covered, number, span.items());
                take_starts(&mut self.begun, number, span.items());
                true
            }
            None => false,
        }
    }

    /// The lowest number, other than the one to skip, whose span has a character in common with these
    /// fragments and passes the test, or `None` where there is none. The test is told the number and
    /// how the span lies to the fragments; it is asked only of spans that touch them. The fragments are
    /// as for `put`. Cost: a span that touches the given fragments, or comes within 64 characters of where one of them
    /// begins, is compared once for each of them, and once more for each of its own fragments that begins in
    /// their later buckets; a comparison costs the fragments of both and the logarithm of the number of spans.
    pub fn first_touching<F: Fn(u32, OvlKind) -> bool>(
        &self,
        frags: &[Frag],
        skip: Option<u32>,
        test: F,
    ) -> Option<u32>
        requires callable { F.IsAlwaysCallable test }
        requires ascending { IsTrue (are_ascending frags.now) }
        requires some { 0 < length frags.now }
        requires short { reach frags.now ≤ 10000 }
        ensures { IsFirstTouching (F.post test) self.now frags.now skip result }
    {
        let mut found = None;
        for frag in frags {
            found = lowest_near(
                &self.spans,
                &self.covered,
                &self.begun,
                frag,
                frags,
                skip,
                &test,
                found,
            );
        }
        found
    }
}

/// Holds the span of a number, and puts the number near its fragments. On want of memory the span is not
/// held.
fn hold(
    spans: &mut BTreeMap<u32, FragList>,
    covered: &mut Places,
    begun: &mut Places,
    number: u32,
    span: FragList,
    frags: &[Frag],
) -> Result<(), Memory>
    requires kept { IsKept (held_in spans.old.entries) covered.old begun.old }
    requires span { span ≡ frags.now }
    requires ascending { IsTrue (are_ascending frags.now) }
    ensures kept { IsKept (held_in spans.new.entries) covered.new begun.new }
    ensures held { OnOk result (held_in spans.new.entries ≡ map.insert (held_in spans.old.entries) number frags.now) }
    ensures same { OnErr result (held_in spans.new.entries ≡ held_in spans.old.entries) }
{
    put_near(covered, number, frags)?;
    put_starts(begun, number, frags)?;
    spans.insert(number, span)?;
    Ok(())
}

/// Whether a number's span is held, is not the one to skip, touches the fragments and passes the test.
fn passes<F: Fn(u32, OvlKind) -> bool>(
    spans: &BTreeMap<u32, FragList>,
    number: u32,
    frags: &[Frag],
    skip: Option<u32>,
    test: &F,
) -> bool
    requires callable { F.IsAlwaysCallable test.now }
    requires held { AreAscending (held_in spans.now.entries) }
    requires ascending { IsTrue (are_ascending frags.now) }
    ensures yes { IsTrue result → Passes (F.post test.now) (held_in spans.now.entries) frags.now skip number }
    ensures no { IsFalse result → Fails (F.post test.now) (held_in spans.now.entries) frags.now skip number }
{
    if skip == Some(number) {
        return false;
    }
    match spans.get(&number) {
        Some(span) => {
            let kind = kind_of(span.items(), frags);
            kind != OvlKind::Apart && test(number, kind)
        }
        None => false,
    }
}

/// Whether a number is below the lowest that was found, if one was found.
fn is_below(number: u32, found: Option<u32>) -> bool
    ensures yes { IsTrue result → IsBelow number found }
    ensures no { IsFalse result → IsBelow number found → ⊥ }
{
    match found {
        Some(lowest) => number < lowest,
        None => true,
    }
}

/// The lowest of a number that was found before and of those that pass and stand beside the buckets from the first
/// to that before the last.
fn lowest_between<F: Fn(u32, OvlKind) -> bool>(
    spans: &BTreeMap<u32, FragList>,
    places: &Places,
    buckets: (u32, u32),
    frags: &[Frag],
    skip: Option<u32>,
    test: &F,
    before: Option<u32>,
) -> Option<u32>
    requires callable { F.IsAlwaysCallable test.now }
    requires held { AreAscending (held_in spans.now.entries) }
    requires ascending { IsTrue (are_ascending frags.now) }
    requires some { buckets.0 ≤ buckets.1 }
    requires passes { FoundPasses (F.post test.now) (held_in spans.now.entries) frags.now skip before }
    ensures passes { FoundPasses (F.post test.now) (held_in spans.now.entries) frags.now skip result }
    ensures lower { IsNoHigher before result }
    ensures others { (number last : ℕ) → last < buckets.1 → StandsBetween places.now buckets.0 last number → IsBelow number result → Fails (F.post test.now) (held_in spans.now.entries) frags.now skip number }
{
    let mut found = before;
    for (_, number) in places.range((buckets.0, 0)..(buckets.1, 0)) {
        if is_below(*number, found) && passes(spans, *number, frags, skip, test) {
            found = Some(*number);
        }
    }
    found
}

/// The lowest of a number that was found before and of those that pass and stand near a fragment. A span that shares a
/// character with the fragment covers its first character, or has a fragment that begins in it.
fn lowest_near<F: Fn(u32, OvlKind) -> bool>(
    spans: &BTreeMap<u32, FragList>,
    covered: &Places,
    begun: &Places,
    near: &Frag,
    frags: &[Frag],
    skip: Option<u32>,
    test: &F,
    before: Option<u32>,
) -> Option<u32>
    requires callable { F.IsAlwaysCallable test.now }
    requires held { AreAscending (held_in spans.now.entries) }
    requires ascending { IsTrue (are_ascending frags.now) }
    requires some { near.now.start < near.now.end }
    requires passes { FoundPasses (F.post test.now) (held_in spans.now.entries) frags.now skip before }
    ensures passes { FoundPasses (F.post test.now) (held_in spans.now.entries) frags.now skip result }
    ensures lower { IsNoHigher before result }
    ensures others { (number : ℕ) → StandsNear covered.now begun.now near.now number → IsBelow number result → Fails (F.post test.now) (held_in spans.now.entries) frags.now skip number }
{
    let first = first_bucket(near);
    let behind = last_bucket(near) + 1;
    let found = lowest_between(
        spans,
        covered,
        (first, first + 1),
        frags,
        skip,
        test,
        before,
    );
    lowest_between(spans, begun, (first + 1, behind), frags, skip, test, found)
}
