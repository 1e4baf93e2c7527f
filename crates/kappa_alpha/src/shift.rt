ghost use Rattle.std.specs.Prelude.{◌≡◌, ℕ, ◌+◌, ◌<◌, ◌≤◌, ◌^◌};
ghost use Rattle.label_tracks.specs.Grid.{cell_of};
ghost use Rattle.kappa_alpha.specs.Columns.{worth};

use label_tracks::CountGrid;
use mark_base::Steps;
use std::sync::ledger::Ledger;

/// Lets the pair of labels `c` and `k` count `after` where it counted `before`.
pub(crate) fn shift<L: Ledger>(
    grid: &mut CountGrid,
    c: u8,
    k: u8,
    before: u32,
    after: u32,
    steps: &mut Steps<L>,
)
    requires c_in { c < grid.old.width }
    requires k_in { k < grid.old.width }
    requires enough { before ≤ cell_of grid.old c k }
    requires room { cell_of grid.old c k + after ≤ 2 ^ 62 }
    ensures width { grid.new.width ≡ grid.old.width }
    ensures each { (x y : ℕ) → x < grid.old.width → y < grid.old.width →
        cell_of grid.new x y + worth before x y (Some c) (Some k) ≡
        cell_of grid.old x y + worth after x y (Some c) (Some k) }
    ensures step { steps.new ≡ steps.old + 1 }
{
    grid.add(c, k, after as i64 - before as i64, steps);
}
