//! The sorts of annotations that are scored.
ghost use Rattle.std.specs.Prelude.{◌≡◌};
ghost use Rattle.match_scores.specs.Matches.{is_of_sort};

use mark_base::Kind;

/// A sort of annotations that is scored apart.
#[derive(Clone, Copy, Debug, PartialEq, Eq)]
pub enum Sort {
    Spans,
    Events,
    Relations,
}

impl Sort {
    /// Whether the annotations of a letter are of the sort.
    pub(crate) fn has(self, kind: Kind) -> bool
        ensures { result ≡ is_of_sort self kind }
    {
        match self {
            Sort::Spans => matches!(kind, Kind::Text),
            Sort::Events => matches!(kind, Kind::Event),
            Sort::Relations => matches!(kind, Kind::Relation),
        }
    }
}
