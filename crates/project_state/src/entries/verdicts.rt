//! Verdicts as yes and no.
ghost use Rattle.std.specs.Prelude.{◌≡◌};
ghost use Rattle.project_machine.specs.Entries.{accepts};
ghost use Rattle.project_state.specs.Entries.Asking.{verdict_of};

use curator_decisions::Verdict;

/// Whether an item is accepted.
pub(crate) fn accepts(verdict: Verdict) -> bool
    ensures { result ≡ accepts verdict }
{
    match verdict {
        Verdict::Accept => true,
        Verdict::Reject => false,
    }
}

/// The verdict of yes or no.
pub(crate) fn verdict_of(accept: bool) -> Verdict
    ensures { result ≡ verdict_of accept }
{
    if accept {
        Verdict::Accept
    } else {
        Verdict::Reject
    }
}
