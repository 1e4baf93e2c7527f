ghost use Rattle.std.specs.Prelude.{◌≡◌, ℕ, ◌*◌, ◌<◌, ◌≤◌, ◌^◌, Option, IfSome};
ghost use Rattle.label_tracks.specs.Grid.{cell_of};
ghost use Rattle.kappa_alpha.specs.Figures.{Writable, cells_sum, chance, column_sum, diagonal, kappa_from, row_sum};

use crate::figures::Fraction;
use label_tracks::CountGrid;

/// What kappa is made of: the units, those of them that both raters give one label, and the sum
/// of the products of the marginal counts.
#[derive(Clone, Copy)]
pub(crate) struct TableSums {
    pub(crate) units: u64,
    pub(crate) agreed: u64,
    pub(crate) expected: u128,
}

fn row_total(grid: &CountGrid, k: u8) -> u64
    requires k_in { k < grid.now.width }
    requires narrow { grid.now.width ≤ 64 }
    requires cells { (c k : ℕ) → c < grid.now.width → k < grid.now.width → cell_of grid.now c k ≤ 2 ^ 24 }
    ensures exact { result ≡ row_sum (cell_of grid.now) k grid.now.width }
    ensures small { result ≤ 2 ^ 30 }
{
    let mut total = 0;
    for j in 0..grid.width() {
        total += grid.cell(k, j);
    }
    total
}

fn column_total(grid: &CountGrid, k: u8) -> u64
    requires k_in { k < grid.now.width }
    requires narrow { grid.now.width ≤ 64 }
    requires cells { (c k : ℕ) → c < grid.now.width → k < grid.now.width → cell_of grid.now c k ≤ 2 ^ 24 }
    ensures exact { result ≡ column_sum (cell_of grid.now) k grid.now.width }
    ensures small { result ≤ 2 ^ 30 }
{
    let mut total = 0;
    for j in 0..grid.width() {
        total += grid.cell(j, k);
    }
    total
}

/// The sums of a contingency table.
pub(crate) fn table_sums(grid: &CountGrid) -> TableSums
    requires narrow { grid.now.width ≤ 64 }
    requires cells { (c k : ℕ) → c < grid.now.width → k < grid.now.width → cell_of grid.now c k ≤ 2 ^ 24 }
    ensures units { result.units ≡ cells_sum (cell_of grid.now) grid.now.width grid.now.width }
    ensures agreed { result.agreed ≡ diagonal (cell_of grid.now) grid.now.width }
    ensures expected { result.expected ≡ chance (cell_of grid.now) grid.now.width grid.now.width }
    ensures units_small { result.units ≤ 2 ^ 36 }
    ensures agreed_small { result.agreed ≤ 2 ^ 36 }
    ensures within { result.expected ≤ result.units * result.units }
{
    let mut units: u64 = 0;
    let mut agreed: u64 = 0;
    let mut expected: u128 = 0;
    for k in 0..grid.width() {
        let row = row_total(grid, k);
        let column = column_total(grid, k);
        units += row;
        agreed += grid.cell(k, k);
        expected += row as u128 * column as u128;
    }
    TableSums {
        units,
        agreed,
        expected,
    }
}

/// Cohen's kappa.
pub(crate) fn kappa_of_sums(sums: TableSums) -> Option<Fraction>
    requires units_small { sums.units ≤ 2 ^ 36 }
    requires agreed_small { sums.agreed ≤ 2 ^ 36 }
    requires within { sums.expected ≤ sums.units * sums.units }
    ensures exact { result ≡ kappa_from sums.units sums.agreed sums.expected }
    ensures writable { IfSome result (λ f. Writable f) }
{
    let units = sums.units as u128;
    let bottom = units * units - sums.expected;
    if bottom == 0 {
        return None;
    }
    Some(Fraction {
        top: (units * sums.agreed as u128) as i128 - sums.expected as i128,
        bottom: bottom as i128,
    })
}
