//! Whether names and items strictly ascend.
ghost use Rattle.std.specs.Prelude.{◌≡◌, false, true};
ghost use Rattle.curator_decisions.specs.Decisions.{Ascend};
ghost use Rattle.project_machine.specs.People.{comes_before};

use curator_decisions::{Verdict, item_rank};
use mark_base::Slug;
use unanimous_merge::ItemId;

/// Whether a name comes before another in the order of their bytes.
pub(crate) fn comes_before(first: &Slug, second: &Slug) -> bool
    ensures { result ≡ comes_before first.now second.now }
{
    first.cmp(second).is_lt()
}

/// Whether the items of verdicts strictly ascend.
pub(crate) fn items_ascend(pairs: &[(ItemId, Verdict)]) -> bool
    ensures ascend { result ≡ true → Ascend pairs.now }
    ensures other { result ≡ false → Ascend pairs.now → ⊥ }
{
    for place in 1..pairs.len() {
        let before = item_rank(pairs[place - 1].0);
        let here = item_rank(pairs[place].0);
        if before >= here {
            return false;
        }
    }
    true
}
