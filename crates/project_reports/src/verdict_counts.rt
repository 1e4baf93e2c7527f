//! How many verdicts accept their items.
ghost use Rattle.std.specs.Prelude.{◌≡◌, count_by, false};
ghost use Rattle.std.specs.Option.{option_map_or};
ghost use Rattle.project_machine.specs.SnapshotsTable.{accepts};

use curator_decisions::{Decisions, Verdict};
use unanimous_merge::ItemId;

/// Whether there is a verdict that accepts.
fn is_accepted(decision: Option<(ItemId, Verdict)>) -> bool
    ensures { result ≡ option_map_or (λ one. accepts one.1) decision false }
{
    match decision {
        Some((_, Verdict::Accept)) => true,
        Some((_, Verdict::Reject)) => false,
        None => false,
    }
}

/// How many verdicts accept their items. Cost: their number.
pub(crate) fn count_accepted(decisions: &Decisions) -> u32
    ensures { result ≡ count_by (λ one. accepts one.1) decisions.now }
{
    let mut accepted = 0;
    for i in 0..decisions.count() {
        if is_accepted(decisions.at(i)) {
            accepted += 1;
        }
    }
    accepted
}
