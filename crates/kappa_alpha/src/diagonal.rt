ghost use Rattle.std.specs.Prelude.{◌≡◌, ℕ, ◌+◌, ◌<◌, ◌≤◌, ◌^◌, List, length, Option, Some, All, IfSome, is_some, cond};
ghost use Rattle.label_tracks.specs.Grid.{cell_of};
ghost use Rattle.kappa_alpha.specs.Columns.{AreBelow, IsBelow, worth, raters_in};
ghost use Rattle.kappa_alpha.specs.Counted.{tally};

use crate::shift::shift;
use label_tracks::CountGrid;
use mark_base::Steps;
use std::sync::ledger::Ledger;

/// Lets a label count `after` on the diagonal where it counted `before`.
fn shift_one<L: Ledger>(
    labels: &mut CountGrid,
    label: Option<u8>,
    before: u32,
    after: u32,
    steps: &mut Steps<L>,
)
    requires label_in { IsBelow labels.old.width label }
    requires enough { (c : ℕ) → c < labels.old.width → worth before c c label label ≤ cell_of labels.old c c }
    requires room { (c : ℕ) → c < labels.old.width →
        cell_of labels.old c c + worth after c c label label ≤ 2 ^ 62 }
    ensures width { labels.new.width ≡ labels.old.width }
    ensures each { (c : ℕ) → c < labels.old.width →
        cell_of labels.new c c + worth before c c label label ≡
        cell_of labels.old c c + worth after c c label label }
    ensures steps { steps.new ≡ steps.old + cond (is_some label) 1 0 }
{
    if let Some(y) = label {
        shift(labels, y, y, before, after, steps);
    }
}

/// Lets each label of a column count `after` on the diagonal where it counted `before`.
pub(crate) fn shift_diagonal<L: Ledger>(
    labels: &mut CountGrid,
    column: &[Option<u8>],
    before: u32,
    after: u32,
    steps: &mut Steps<L>,
)
    requires column_in { AreBelow labels.old.width column.now }
    requires enough { (c : ℕ) → c < labels.old.width → tally before c column.now ≤ cell_of labels.old c c }
    requires room { (c : ℕ) → c < labels.old.width →
        cell_of labels.old c c + tally after c column.now ≤ 2 ^ 62 }
    ensures width { labels.new.width ≡ labels.old.width }
    ensures each { (c : ℕ) → c < labels.old.width →
        cell_of labels.new c c + tally before c column.now ≡
        cell_of labels.old c c + tally after c column.now }
    ensures steps { steps.new ≡ steps.old + raters_in column.now }
{
    for label in column {
        shift_one(labels, *label, before, after, steps);
    }
}
