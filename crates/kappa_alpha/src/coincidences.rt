ghost use Rattle.std.specs.Prelude.{◌≡◌, ℕ, ◌+◌, ◌*◌, ◌<◌, ◌≤◌, ◌^◌, List, length, Option, All, IfSome, is_some, cond, None};
ghost use Rattle.label_tracks.specs.Grid.{cell_of};
ghost use Rattle.kappa_alpha.specs.Columns.{AreBelow, IsBelow, both, toward, ordered, raters_in};

use crate::shift::shift;
use label_tracks::CountGrid;
use mark_base::Steps;
use std::sync::ledger::Ledger;

/// Lets the pair of two labels, in both orders, count `after` where it counted `before`.
fn shift_both<L: Ledger>(
    grid: &mut CountGrid,
    x: u8,
    other: Option<u8>,
    before: u32,
    after: u32,
    steps: &mut Steps<L>,
)
    requires x_in { x < grid.old.width }
    requires other_in { IsBelow grid.old.width other }
    requires enough { (c k : ℕ) → c < grid.old.width → k < grid.old.width →
        both before c k (Some x) other ≤ cell_of grid.old c k }
    requires room { (c k : ℕ) → c < grid.old.width → k < grid.old.width →
        cell_of grid.old c k + both after c k (Some x) other ≤ 2 ^ 62 }
    ensures width { grid.new.width ≡ grid.old.width }
    ensures each { (c k : ℕ) → c < grid.old.width → k < grid.old.width →
        cell_of grid.new c k + both before c k (Some x) other ≡
        cell_of grid.old c k + both after c k (Some x) other }
    ensures steps { steps.new ≡ steps.old + 2 * cond (is_some other) 1 0 }
{
    if let Some(y) = other {
        shift(grid, x, y, before, after, steps);
        shift(grid, y, x, before, after, steps);
    }
}

/// Lets the pairs of a label with others count `after` where they counted `before`.
pub(crate) fn shift_toward<L: Ledger>(
    grid: &mut CountGrid,
    x: u8,
    others: &[Option<u8>],
    before: u32,
    after: u32,
    steps: &mut Steps<L>,
)
    requires x_in { x < grid.old.width }
    requires others_in { AreBelow grid.old.width others.now }
    requires enough { (c k : ℕ) → c < grid.old.width → k < grid.old.width →
        toward before c k (Some x) others.now ≤ cell_of grid.old c k }
    requires room { (c k : ℕ) → c < grid.old.width → k < grid.old.width →
        cell_of grid.old c k + toward after c k (Some x) others.now ≤ 2 ^ 62 }
    ensures width { grid.new.width ≡ grid.old.width }
    ensures each { (c k : ℕ) → c < grid.old.width → k < grid.old.width →
        cell_of grid.new c k + toward before c k (Some x) others.now ≡
        cell_of grid.old c k + toward after c k (Some x) others.now }
    ensures steps { steps.new ≡ steps.old + 2 * raters_in others.now }
{
    for other in others {
        shift_both(grid, x, *other, before, after, steps);
    }
}

/// The same for a rater who may have no label.
fn shift_first<L: Ledger>(
    grid: &mut CountGrid,
    first: Option<u8>,
    rest: &[Option<u8>],
    before: u32,
    after: u32,
    steps: &mut Steps<L>,
)
    requires first_in { IsBelow grid.old.width first }
    requires rest_in { AreBelow grid.old.width rest.now }
    requires enough { (c k : ℕ) → c < grid.old.width → k < grid.old.width →
        toward before c k first rest.now ≤ cell_of grid.old c k }
    requires room { (c k : ℕ) → c < grid.old.width → k < grid.old.width →
        cell_of grid.old c k + toward after c k first rest.now ≤ 2 ^ 62 }
    ensures width { grid.new.width ≡ grid.old.width }
    ensures each { (c k : ℕ) → c < grid.old.width → k < grid.old.width →
        cell_of grid.new c k + toward before c k first rest.now ≡
        cell_of grid.old c k + toward after c k first rest.now }
    ensures steps { steps.new ≡ steps.old + cond (is_some first) (2 * raters_in rest.now) 0 }
{
    if let Some(x) = first {
        shift_toward(grid, x, rest, before, after, steps);
    }
}

/// Lets every ordered pair of different raters of a token count `after` where it counted `before`.
pub(crate) fn shift_ordered<L: Ledger>(
    grid: &mut CountGrid,
    column: &[Option<u8>],
    before: u32,
    after: u32,
    steps: &mut Steps<L>,
)
    requires column_in { AreBelow grid.old.width column.now }
    requires enough { (c k : ℕ) → c < grid.old.width → k < grid.old.width →
        ordered before c k column.now ≤ cell_of grid.old c k }
    requires room { (c k : ℕ) → c < grid.old.width → k < grid.old.width →
        cell_of grid.old c k + ordered after c k column.now ≤ 2 ^ 62 }
    ensures width { grid.new.width ≡ grid.old.width }
    ensures each { (c k : ℕ) → c < grid.old.width → k < grid.old.width →
        cell_of grid.new c k + ordered before c k column.now ≡
        cell_of grid.old c k + ordered after c k column.now }
    ensures steps { steps.new + raters_in column.now ≡ steps.old + raters_in column.now * raters_in column.now }
{
    for i in 0..column.len() {
        shift_first(grid, column[i], &column[i + 1..], before, after, steps);
    }
}
