ghost use Rattle.std.specs.Prelude.{◌≡◌, ℕ, ◌-◌, ◌*◌, ◌<◌, ◌≤◌, ◌^◌, Option, IfSome};
ghost use Rattle.label_tracks.specs.Grid.{cell_of};
ghost use Rattle.kappa_alpha.specs.Standing.{sum_below};
ghost use Rattle.kappa_alpha.specs.Figures.{Writable, alpha_from, diagonal, same_pairs};

use crate::figures::Fraction;
use label_tracks::CountGrid;

/// What alpha is made of: the diagonal of the coincidences, the labels, and the ordered pairs of
/// equal labels.
#[derive(Clone, Copy)]
pub(crate) struct LabelSums {
    pub(crate) agreed: u64,
    pub(crate) values: u64,
    pub(crate) same: u64,
}

/// The sums over the coincidences and the counts of labels, which stand on a diagonal.
pub(crate) fn label_sums(coincidences: &CountGrid, labels: &CountGrid) -> LabelSums
    requires width { labels.now.width ≡ coincidences.now.width }
    requires narrow { coincidences.now.width ≤ 64 }
    requires cells { (c : ℕ) → c < coincidences.now.width → cell_of coincidences.now c c ≤ 2 ^ 52 }
    requires counts { (c : ℕ) → c < coincidences.now.width → cell_of labels.now c c ≤ 2 ^ 28 }
    ensures agreed { result.agreed ≡ diagonal (cell_of coincidences.now) coincidences.now.width }
    ensures values { result.values ≡ diagonal (cell_of labels.now) coincidences.now.width }
    ensures same { result.same ≡ same_pairs (λ c. cell_of labels.now c c) coincidences.now.width }
    ensures agreed_small { result.agreed ≤ 2 ^ 58 }
    ensures values_small { result.values ≤ 2 ^ 34 }
    ensures within { result.same ≤ result.values * (result.values - 1) }
{
    let mut agreed: u64 = 0;
    let mut values: u64 = 0;
    let mut same: u64 = 0;
    for c in 0..coincidences.width() {
        agreed += coincidences.cell(c, c);
        let count = labels.cell(c, c);
        same += count * count.saturating_sub(1);
        values += count;
    }
    LabelSums {
        agreed,
        values,
        same,
    }
}

/// Krippendorff's alpha for nominal labels.
pub(crate) fn alpha_of_sums(sums: LabelSums) -> Option<Fraction>
    requires agreed_small { sums.agreed ≤ 2 ^ 58 }
    requires values_small { sums.values ≤ 2 ^ 34 }
    requires within { sums.same ≤ sums.values * (sums.values - 1) }
    ensures exact { result ≡ alpha_from sums.agreed sums.values sums.same }
    ensures writable { IfSome result (λ f. Writable f) }
{
    let others = sums.values.saturating_sub(1) as u128;
    let all = sums.values as u128 * others;
    let chance = 360_360 * sums.same as u128;
    let bottom = 360_360 * (all - sums.same as u128);
    if bottom == 0 {
        return None;
    }
    let gained = others * sums.agreed as u128;
    Some(Fraction {
        top: gained as i128 - chance as i128,
        bottom: bottom as i128,
    })
}
