ghost use Rattle.std.specs.Prelude.{◌≡◌, ℕ, ◌≤◌, ◌+◌, List, length, Option, cond, is_some};
ghost use Rattle.kappa_alpha.specs.Columns.{raters_in, weight};
ghost use Rattle.kappa_alpha.specs.Counted.{unit_of, weights_at};

/// What one label of a token counts: in each pair with another rater's label among the
/// coincidences, among the labels, and in the table of the two raters.
#[derive(Clone, Copy)]
pub(crate) struct Weights {
    pub(crate) pair: u32,
    pub(crate) label: u32,
    pub(crate) met: u32,
}

/// A label that is not there counts nothing.
pub(crate) fn absent() -> Weights
    ensures { result ≡ record { pair = 0; label = 0; met = 0 } }
{
    Weights {
        pair: 0,
        label: 0,
        met: 0,
    }
}

/// A label in a token whose pairs count `weight`.
#[tactic(auto, unfolding(crate::specs::Counted::unit_of))]
pub(crate) fn present(weight: u32) -> Weights
    requires { weight ≤ 360360 }
    ensures exact { result ≡ weights_at weight }
{
    Weights {
        pair: weight,
        label: if weight == 0 { 0 } else { 1 },
        met: 1,
    }
}

/// What a pair of raters counts where so many raters label a token: 360360 / (raters - 1).
#[tactic(auto, unfolding(crate::specs::Columns::weight))]
pub(crate) fn weight_of(raters: usize) -> u32
    requires { raters ≤ 16 }
    ensures exact { result ≡ weight raters }
    ensures small { result ≤ 360360 }
{
    if raters < 2 {
        0
    } else {
        360_360 / (raters as u32 - 1)
    }
}

/// What a label counts where a pair counts `weight`.
#[tactic(auto, unfolding(crate::specs::Counted::unit_of))]
pub(crate) fn label_weight(weight: u32) -> u32
    ensures exact { result ≡ unit_of weight }
    ensures small { result ≤ 1 }
{
    if weight == 0 { 0 } else { 1 }
}

/// How many raters label a token.
#[tactic(auto, unfolding(crate::specs::Columns::raters_in))]
pub(crate) fn raters(column: &[Option<u8>]) -> usize
    ensures { result ≡ raters_in column.now }
{
    column.iter().filter(|label| label.is_some()).count()
}

/// How many raters label a token, with one who may label it.
pub(crate) fn raters_with(column: &[Option<u8>], label: Option<u8>) -> usize
    requires { raters_in column.now ≤ 16 }
    ensures { result ≡ raters_in column.now + cond (is_some label) 1 0 }
{
    match label {
        Some(_) => raters(column) + 1,
        None => raters(column),
    }
}
