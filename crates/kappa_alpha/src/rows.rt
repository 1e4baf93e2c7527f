ghost use Rattle.std.specs.Prelude.{◌≡◌, ℕ, ◌+◌, ◌<◌, ◌≤◌, ◌^◌, List, length, Option, None, All, IfSome, get_or, set, if◌then◌else◌};
ghost use Rattle.kappa_alpha.specs.Columns.{AreBelow, IsBelow};
ghost use Rattle.kappa_alpha.specs.Standing.{column_of, over_tokens};
ghost use Rattle.kappa_alpha.specs.Steps.{standing, same_label, move_steps, row_steps};
ghost use Rattle.kappa_alpha.specs.Counted.{Count, IsIn, IsWhole, SameShape, RowsFit, RowFits, adds, held};

use crate::column::{is_same, label, read_column};
use crate::label_moves::move_label;
use crate::tallies::Tallies;
use label_tracks::LabelRow;
use mark_base::Steps;
use std::sync::ledger::Ledger;

/// Puts the label `y` of a rater in the place of `x`, where they differ, at token `i` of these
/// other rows.
fn replace_token<L: Ledger>(
    tallies: &mut Tallies,
    rows: &[Option<LabelRow>],
    i: u32,
    rater: u8,
    x: Option<u8>,
    y: Option<u8>,
    column: &mut [Option<u8>],
    steps: &mut Steps<L>,
)
    requires shape { IsWhole tallies.old }
    requires long { All (λ o. IfSome o (λ row. i < length row)) rows.now }
    requires column_in { AreBelow tallies.old.coincidences.width (column_of rows.now i) }
    requires few { standing rows.now < 16 }
    requires same { length column.old ≡ length rows.now }
    requires whole { length rows.now ≡ tallies.old.raters }
    requires rater_in { rater < tallies.old.raters }
    requires out { get_or rows.now rater None ≡ None }
    requires x_in { IsBelow tallies.old.coincidences.width x }
    requires y_in { IsBelow tallies.old.coincidences.width y }
    requires enough { (v : Count) → IsIn tallies.old v →
        adds v (set (column_of rows.now i) rater x) ≤ held tallies.old v }
    requires room { (v : Count) → IsIn tallies.old v →
        held tallies.old v + adds v (set (column_of rows.now i) rater y) ≤ 2 ^ 62 }
    ensures shape { SameShape tallies.old tallies.new }
    ensures each { (v : Count) → IsIn tallies.old v →
        held tallies.new v + adds v (set (column_of rows.now i) rater x) ≡
        held tallies.old v + adds v (set (column_of rows.now i) rater y) }
    ensures steps { steps.new ≤ steps.old + (if same_label x y then 0 else standing rows.now +
        move_steps (standing rows.now) x y) }
{
    if is_same(x, y) {
        return;
    }
    read_column(rows, i, column, steps);
    move_label(tallies, column, rater, x, y, steps);
}

/// Puts one row of a rater in the place of another, where each may be absent, beside these other
/// rows of a document.
pub(crate) fn replace_row<L: Ledger>(
    tallies: &mut Tallies,
    rows: &[Option<LabelRow>],
    rater: u8,
    before: &Option<LabelRow>,
    after: &Option<LabelRow>,
    tokens: u32,
    steps: &mut Steps<L>,
)
    requires shape { IsWhole tallies.old }
    requires fit { RowsFit rows.now tokens tallies.old.coincidences.width }
    requires before_fits { RowFits before.now tokens tallies.old.coincidences.width }
    requires after_fits { RowFits after.now tokens tallies.old.coincidences.width }
    requires whole { length rows.now ≡ tallies.old.raters }
    requires rater_in { rater < tallies.old.raters }
    requires out { get_or rows.now rater None ≡ None }
    requires enough { (v : Count) → IsIn tallies.old v →
        over_tokens (adds v) (set rows.now rater before.now) tokens ≤ held tallies.old v }
    requires room { (v : Count) → IsIn tallies.old v →
        held tallies.old v + over_tokens (adds v) (set rows.now rater after.now) tokens ≤ 2 ^ 62 }
    ensures shape { SameShape tallies.old tallies.new }
    ensures each { (v : Count) → IsIn tallies.old v →
        held tallies.new v + over_tokens (adds v) (set rows.now rater before.now) tokens ≡
        held tallies.old v + over_tokens (adds v) (set rows.now rater after.now) tokens }
    ensures steps { steps.new ≤ steps.old + row_steps (standing rows.now) before.now after.now tokens }
{
    let mut labels: [Option<u8>; 16] = [None; 16];
    let column = &mut labels[..rows.len()];
    for i in 0..tokens {
        let x = label(before, i, steps);
        let y = label(after, i, steps);
        replace_token(tallies, rows, i, rater, x, y, column, steps);
    }
}
