ghost use Rattle.std.specs.Prelude.{◌≡◌, ℕ, ◌+◌, ◌<◌, ◌≤◌, ◌^◌, ◌==◌, ◌&&◌, pos, ◌+ℤ◌, ◌≤ℤ◌, IfOk, false};
ghost use Rattle.label_tracks.specs.Grid.{cell_of};

use mark_base::{Memory, Steps};
use std::alloc::Global;
use std::marker::Model;
use std::sync::ledger::Ledger;

/// A square of counts, one for each ordered pair of labels below its width.
///
/// It takes eight bytes a cell.
#[derive(Drop)]
pub struct CountGrid {
    width: u8,
    cells: Vec<u64>,
}

impl Model for CountGrid {
    ghost use Rattle.std.specs.Prelude.{◌≡◌, ◌*◌, length};
    ghost use Rattle.label_tracks.specs.Grid.{Grid};

    ghost Value = { Grid };

    ghost view = { λ grid. record { width = grid.width; cells = grid.cells.items } };

    ghost invariant = { λ grid. length grid.cells.items ≡ grid.width * grid.width };
}

#[tactic(auto, unfolding(crate::specs::Grid::cell_of))]
impl CountGrid {
    /// A grid of zeros.
    pub fn new(alloc: Global, width: u8) -> Result<CountGrid, Memory>
        ensures width { IfOk result (λ grid. grid.width ≡ width) }
        ensures zeros { IfOk result (λ grid. (c k : ℕ) → cell_of grid c k ≡ 0) }
    {
        let cells = vec![in alloc; 0u64; width as usize * width as usize]?;
        Ok(CountGrid { width, cells })
    }

    /// How many labels the grid counts: each is below this number.
    pub fn width(&self) -> u8
        ensures { result ≡ self.now.width }
    {
        self.width
    }

    /// The count of the labels `c` and `k`, in this order.
    pub fn cell(&self, c: u8, k: u8) -> u64
        requires c_in { c < self.now.width }
        requires k_in { k < self.now.width }
        ensures { result ≡ cell_of self.now c k }
    {
        self.cells[c as usize * self.width as usize + k as usize]
    }

    /// Adds `delta`, which may be negative, to the count of `c` and `k`. One addition is one step.
    pub fn add<L: Ledger>(&mut self, c: u8, k: u8, delta: i64, steps: &mut Steps<L>)
        requires c_in { c < self.old.width }
        requires k_in { k < self.old.width }
        requires low { pos 0 ≤ℤ (pos (cell_of self.old c k) +ℤ delta) }
        requires high { (pos (cell_of self.old c k) +ℤ delta) ≤ℤ pos (2 ^ 62) }
        ensures width { self.new.width ≡ self.old.width }
        ensures here { pos (cell_of self.new c k) ≡ pos (cell_of self.old c k) +ℤ delta }
        ensures elsewhere { (x y : ℕ) → x < self.old.width → y < self.old.width →
            ((x == c) && (y == k)) ≡ false → cell_of self.new x y ≡ cell_of self.old x y }
        ensures step { steps.new ≡ steps.old + 1 }
    {
        steps.tick();
        let at = c as usize * self.width as usize + k as usize;
        let cell = self.cells[at];
        self.cells[at] = if delta < 0 {
            cell - delta.unsigned_abs()
        } else {
            cell + delta as u64
        };
    }
}
