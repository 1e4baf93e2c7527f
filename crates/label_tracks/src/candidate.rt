//! A span as one of those that cover a character.
ghost use Rattle.std.specs.Prelude.{◌≡◌};
ghost use Rattle.label_tracks.specs.Candidates.{candidate_of, comes_before, sooner, start_of, end_of};

use layer_model::Span;
use mark_base::{Frag, TypeId};

/// What decides which of the spans that cover a character comes first: where the span starts, where
/// its last fragment ends, its type and its number.
#[derive(Clone, Copy)]
pub(crate) struct Candidate {
    pub(crate) start: u32,
    pub(crate) end: u32,
    pub(crate) kind: TypeId,
    pub(crate) number: u32,
}

/// Where the first fragment starts, 0 where there is none.
fn start_of(frags: &[Frag]) -> u32
    ensures { result ≡ start_of frags.now }
{
    match frags.first() {
        Some(frag) => frag.start,
        None => 0,
    }
}

/// Where the last fragment ends, 0 where there is none.
fn end_of(frags: &[Frag]) -> u32
    ensures { result ≡ end_of frags.now }
{
    match frags.last() {
        Some(frag) => frag.end,
        None => 0,
    }
}

impl Candidate {
    /// The span of a number as a candidate.
    pub(crate) fn of(number: u32, span: &Span) -> Candidate
        ensures { result ≡ candidate_of number span.now }
    {
        let frags = span.frags.items();
        Candidate {
            start: start_of(frags),
            end: end_of(frags),
            kind: span.kind,
            number,
        }
    }

    /// Whether this candidate comes before another.
    fn comes_before(&self, other: &Candidate) -> bool
        ensures { result ≡ comes_before self.now other.now }
    {
        self.start < other.start
            || (self.start == other.start
                && (other.end < self.end
                    || (self.end == other.end
                        && (self.kind.n < other.kind.n
                            || (self.kind.n == other.kind.n && self.number < other.number)))))
    }
}

/// The one of two candidates that comes first.
pub(crate) fn sooner(found: Option<Candidate>, other: Candidate) -> Option<Candidate>
    ensures { result ≡ sooner found other }
{
    match found {
        None => Some(other),
        Some(first) => {
            if other.comes_before(&first) {
                Some(other)
            } else {
                Some(first)
            }
        }
    }
}
