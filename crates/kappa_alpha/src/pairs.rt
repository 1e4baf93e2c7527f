ghost use Rattle.std.specs.Prelude.{◌≡◌, ℕ, ◌+◌, ◌*◌, ◌<◌, ◌≤◌, ◌^◌, List, length, Option, Some, None, All, IfSome, get_or, is_some, cond};
ghost use Rattle.kappa_alpha.specs.Columns.{AreBelow, IsBelow, raters_in};
ghost use Rattle.kappa_alpha.specs.Pairs.{PairsFit, pair_cell, placed, share, shares};

use crate::shift::shift;
use label_tracks::CountGrid;
use mark_base::Steps;
use std::sync::ledger::Ledger;

/// Two raters and their labels: `c` of rater `a`, `k` of rater `b`.
#[derive(Clone, Copy)]
pub(crate) struct Met {
    pub(crate) a: u8,
    pub(crate) b: u8,
    pub(crate) c: u8,
    pub(crate) k: u8,
}

/// Lets a cell of a table of two raters count `after` where it counted `before`.
fn shift_cell<L: Ledger>(
    grids: &mut [CountGrid],
    raters: u8,
    width: u8,
    met: Met,
    before: u32,
    after: u32,
    steps: &mut Steps<L>,
)
    requires fit { PairsFit raters width grids.old }
    requires a_in { met.a < raters }
    requires b_in { met.b < raters }
    requires c_in { met.c < width }
    requires k_in { met.k < width }
    requires enough { before ≤ pair_cell raters grids.old met.a met.b met.c met.k }
    requires room { pair_cell raters grids.old met.a met.b met.c met.k + after ≤ 2 ^ 62 }
    ensures fit { PairsFit raters width grids.new }
    ensures each { (p q x y : ℕ) → p < raters → q < raters → x < width → y < width →
        pair_cell raters grids.new p q x y +
        placed before met.a met.b (Some met.c) (Some met.k) p q x y ≡
        pair_cell raters grids.old p q x y +
        placed after met.a met.b (Some met.c) (Some met.k) p q x y }
    ensures step { steps.new ≡ steps.old + 1 }
{
    let grid = &mut grids[met.a as usize * raters as usize + met.b as usize];
    shift(grid, met.c, met.k, before, after, steps);
}

/// Lets the labels of raters `r` and `s` count `after` in their table where they counted `before`.
fn shift_share<L: Ledger>(
    grids: &mut [CountGrid],
    raters: u8,
    width: u8,
    r: u8,
    x: u8,
    s: u8,
    other: Option<u8>,
    before: u32,
    after: u32,
    steps: &mut Steps<L>,
)
    requires fit { PairsFit raters width grids.old }
    requires r_in { r < raters }
    requires s_in { s < raters }
    requires x_in { x < width }
    requires other_in { IsBelow width other }
    requires apart { r ≡ s → other ≡ None }
    requires enough { (p q c k : ℕ) → p < q → q < raters → c < width → k < width →
        share before r (Some x) s other p q c k ≤ pair_cell raters grids.old p q c k }
    requires room { (p q c k : ℕ) → p < q → q < raters → c < width → k < width →
        pair_cell raters grids.old p q c k + share after r (Some x) s other p q c k ≤ 2 ^ 62 }
    ensures fit { PairsFit raters width grids.new }
    ensures each { (p q c k : ℕ) → p < q → q < raters → c < width → k < width →
        pair_cell raters grids.new p q c k + share before r (Some x) s other p q c k ≡
        pair_cell raters grids.old p q c k + share after r (Some x) s other p q c k }
    ensures steps { steps.new ≡ steps.old + cond (is_some other) 1 0 }
{
    if let Some(y) = other {
        if r < s {
            let met = Met {
                a: r,
                b: s,
                c: x,
                k: y,
            };
            shift_cell(grids, raters, width, met, before, after, steps);
        } else {
            let met = Met {
                a: s,
                b: r,
                c: y,
                k: x,
            };
            shift_cell(grids, raters, width, met, before, after, steps);
        }
    }
}

/// Lets the label `x` of rater `r` count `after` beside each other label where it counted `before`.
pub(crate) fn shift_shares<L: Ledger>(
    grids: &mut [CountGrid],
    raters: u8,
    width: u8,
    r: u8,
    x: u8,
    others: &[Option<u8>],
    before: u32,
    after: u32,
    steps: &mut Steps<L>,
)
    requires fit { PairsFit raters width grids.old }
    requires r_in { r < raters }
    requires whole { length others.now ≡ raters }
    requires x_in { x < width }
    requires others_in { AreBelow width others.now }
    requires out { get_or others.now r None ≡ None }
    requires enough { (p q c k : ℕ) → p < q → q < raters → c < width → k < width →
        shares before r (Some x) others.now raters p q c k ≤ pair_cell raters grids.old p q c k }
    requires room { (p q c k : ℕ) → p < q → q < raters → c < width → k < width →
        pair_cell raters grids.old p q c k + shares after r (Some x) others.now raters p q c k ≤
        2 ^ 62 }
    ensures fit { PairsFit raters width grids.new }
    ensures each { (p q c k : ℕ) → p < q → q < raters → c < width → k < width →
        pair_cell raters grids.new p q c k + shares before r (Some x) others.now raters p q c k ≡
        pair_cell raters grids.old p q c k + shares after r (Some x) others.now raters p q c k }
    ensures steps { steps.new ≡ steps.old + raters_in others.now }
{
    for s in 0..raters {
        shift_share(
            grids,
            raters,
            width,
            r,
            x,
            s,
            others[s as usize],
            before,
            after,
            steps,
        );
    }
}
