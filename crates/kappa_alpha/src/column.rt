ghost use Rattle.std.specs.Prelude.{◌≡◌, ℕ, ◌+◌, ◌<◌, List, length, Option, All, IfSome, is_some, cond};
ghost use Rattle.kappa_alpha.specs.Columns.{raters_in};
ghost use Rattle.kappa_alpha.specs.Standing.{label_of, column_of};
ghost use Rattle.kappa_alpha.specs.Steps.{standing, same_label};

use label_tracks::LabelRow;
use mark_base::Steps;
use std::sync::ledger::Ledger;

/// The label of token `i` in a row, if there is one. A look at a row is one step.
pub(crate) fn label<L: Ledger>(row: &Option<LabelRow>, i: u32, steps: &mut Steps<L>) -> Option<u8>
    requires { IfSome row.now (λ r. i < length r) }
    ensures value { result ≡ label_of i row.now }
    ensures step { steps.new ≡ steps.old + cond (is_some result) 1 0 }
{
    match row {
        Some(row) => Some(row.at(i, steps)),
        None => None,
    }
}

/// Whether two labels, each of which may be absent, are one.
pub(crate) fn is_same(x: Option<u8>, y: Option<u8>) -> bool
    ensures { result ≡ same_label x y }
{
    match (x, y) {
        (Some(x), Some(y)) => x == y,
        (None, None) => true,
        _ => false,
    }
}

/// Reads the labels of token `i`, by rater.
pub(crate) fn read_column<L: Ledger>(
    rows: &[Option<LabelRow>],
    i: u32,
    column: &mut [Option<u8>],
    steps: &mut Steps<L>,
)
    requires long { All (λ o. IfSome o (λ r. i < length r)) rows.now }
    requires same { length column.old ≡ length rows.now }
    ensures value { column.new ≡ column_of rows.now i }
    ensures raters { raters_in column.new ≡ standing rows.now }
    ensures steps { steps.new ≡ steps.old + standing rows.now }
{
    for s in 0..rows.len() {
        column[s] = label(&rows[s], i, steps);
    }
}
