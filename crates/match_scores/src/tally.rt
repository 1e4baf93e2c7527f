//! What two layers, or two annotators, have in common.
ghost use Rattle.std.specs.Prelude.{◌≡◌, ◌+◌, ◌<◌, ◌≤◌, ◌^◌};
ghost use Rattle.match_scores.specs.declared.sort.Sort.{Sort};
ghost use Rattle.match_scores.specs.Matches.{Part};
ghost use Rattle.match_scores.specs.Tallies.{read, tally_of, part_of};

use crate::sort::Sort;

/// Annotations of one sort: those that both have, and those that each has alone.
#[derive(Clone, Copy)]
pub(crate) struct Tally {
    pub both: u64,
    pub first_only: u64,
    pub second_only: u64,
}

/// The same of each sort.
#[derive(Clone, Copy)]
pub(crate) struct Tallies {
    pub spans: Tally,
    pub events: Tally,
    pub relations: Tally,
}

impl Tally {
    /// Nothing in common, and nothing apart.
    pub(crate) const NONE: Tally = Tally {
        both: 0,
        first_only: 0,
        second_only: 0,
    };

    /// The tally with some annotations less and some more.
    fn moved(self, less: Tally, more: Tally) -> Tally
        requires enough { (part : Part) → part_of less part ≤ part_of self part }
        requires room { (part : Part) → part_of self part + part_of more part < 2 ^ 64 }
        ensures { (part : Part) → part_of result part + part_of less part ≡ part_of self part + part_of more part }
    {
        Tally {
            both: self.both - less.both + more.both,
            first_only: self.first_only - less.first_only + more.first_only,
            second_only: self.second_only - less.second_only + more.second_only,
        }
    }
}

impl Tallies {
    /// Nothing of any sort.
    pub(crate) const NONE: Tallies = Tallies {
        spans: Tally::NONE,
        events: Tally::NONE,
        relations: Tally::NONE,
    };

    /// The tally of a sort.
    pub(crate) fn of(self, sort: Sort) -> Tally
        ensures { result ≡ tally_of self sort }
    {
        match sort {
            Sort::Spans => self.spans,
            Sort::Events => self.events,
            Sort::Relations => self.relations,
        }
    }

    /// The tallies with some annotations less and some more.
    pub(crate) fn moved(self, less: Tallies, more: Tallies) -> Tallies
        requires enough { (sort : Sort) (part : Part) → read less sort part ≤ read self sort part }
        requires room { (sort : Sort) (part : Part) → read self sort part + read more sort part < 2 ^ 64 }
        ensures { (sort : Sort) (part : Part) → read result sort part + read less sort part ≡ read self sort part + read more sort part }
    {
        Tallies {
            spans: self.spans.moved(less.spans, more.spans),
            events: self.events.moved(less.events, more.events),
            relations: self.relations.moved(less.relations, more.relations),
        }
    }
}
