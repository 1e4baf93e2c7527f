ghost use Rattle.std.specs.Prelude.{◌≡◌, ℕ, ◌≤◌, IfOk};
ghost use Rattle.kappa_alpha.specs.Counted.{Count, IsCount, IsShaped, held};
ghost use Rattle.kappa_alpha.specs.Pairs.{PairsFit, IsEmpty};

use label_tracks::CountGrid;
use mark_base::Memory;
use std::alloc::Global;

/// The counts that change as rows come and go: grids of coincidences, of labels on the diagonal,
/// and of each two raters, and the tokens that two raters or more label.
#[derive(Drop)]
pub(crate) struct Tallies {
    pub(crate) raters: u8,
    pub(crate) units: u64,
    pub(crate) coincidences: CountGrid,
    pub(crate) labels: CountGrid,
    pub(crate) pairs: Vec<CountGrid>,
}

/// A grid of zeros for each two raters.
fn pair_grids(alloc: Global, raters: u8, categories: u8) -> Result<Vec<CountGrid>, Memory>
    requires { raters ≤ 16 }
    ensures fit { IfOk result (λ grids. PairsFit raters categories grids.items) }
    ensures empty { IfOk result (λ grids. IsEmpty grids.items) }
{
    let mut grids: Vec<CountGrid> = Vec::new(alloc);
    for _ in 0..raters as usize * raters as usize {
        let grid = CountGrid::new(alloc, categories)?;
        grids.push(grid)?;
    }
    Ok(grids)
}

/// Tallies of no rows.
pub(crate) fn no_tallies(alloc: Global, raters: u8, categories: u8) -> Result<Tallies, Memory>
    requires { raters ≤ 16 }
    ensures shape { IfOk result (λ tallies. IsShaped raters categories tallies) }
    ensures empty { IfOk result (λ tallies. (v : Count) → IsCount raters categories v → held tallies v ≡ 0) }
{
    let coincidences = CountGrid::new(alloc, categories)?;
    let labels = CountGrid::new(alloc, categories)?;
    let pairs = pair_grids(alloc, raters, categories)?;
    Ok(Tallies {
        raters,
        units: 0,
        coincidences,
        labels,
        pairs,
    })
}
