//! The score of two annotators.
ghost use Rattle.std.specs.Prelude.{◌≡◌, IfSome};
ghost use Rattle.kappa_alpha.specs.Figures.{Writable};
ghost use Rattle.match_scores.specs.Standing.{line_with};

use crate::tally::Tally;
use kappa_alpha::Fraction;

/// How many annotations of a sort two annotators have in common, over all documents on which both have a
/// layer.
#[derive(Clone, Copy, Debug, PartialEq, Eq)]
pub struct ScoreLine {
    /// Annotations of the first whose content stands in the second's layer too.
    pub both: u64,
    /// The others of the first.
    pub first_only: u64,
    /// Annotations of the second whose content does not stand in the first's layer.
    pub second_only: u64,
    /// `2*both` of `2*both + first_only + second_only`, not reduced; none where that is 0.
    pub score: Option<Fraction>,
}

/// The line of a tally.
pub(crate) fn line_of_tally(tally: Tally) -> ScoreLine
    ensures exact { result ≡ line_with tally.both tally.first_only tally.second_only }
    ensures writable { IfSome result.score (λ score. Writable score) }
{
    let top = 2 * tally.both as u128;
    let bottom = top + tally.first_only as u128 + tally.second_only as u128;
    let score = if bottom == 0 {
        None
    } else {
        Some(Fraction {
            top: top as i128,
            bottom: bottom as i128,
        })
    };
    ScoreLine {
        both: tally.both,
        first_only: tally.first_only,
        second_only: tally.second_only,
        score,
    }
}
