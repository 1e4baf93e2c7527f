//! Who may ask what.
ghost use Rattle.std.specs.Prelude.{◌≡◌, ◌||◌, not};
ghost use Rattle.std.specs.Option.{option_or};
ghost use Rattle.project_machine.specs.declared.book_refusal.BookRefusal.{BookRefusal};
ghost use Rattle.project_machine.specs.declared.book_refusal.Policy.{Policy};
ghost use Rattle.project_machine.specs.Machine.{annotators_only, curators_only, policies, when};
ghost use Rattle.project_machine.specs.ProjectState.{is_annotator, is_curator};
ghost use Rattle.project_machine.specs.Requests.{ReadReport};
ghost use Rattle.project_state.specs.Values.{asked_of};

use mark_base::Slug;
use project_state::{BookRefusal, BookState, Policy, Report, Request};

/// A caller must be an annotator.
fn annotators_only(state: &BookState, caller: &Slug) -> Option<BookRefusal>
    ensures { result ≡ annotators_only state.now.state caller.now }
{
    if state.is_annotator(caller) {
        None
    } else {
        Some(BookRefusal::NotAllowed(Policy::Annotator))
    }
}

/// A caller must be a curator.
fn curators_only(state: &BookState, caller: &Slug) -> Option<BookRefusal>
    ensures { result ≡ curators_only state.now.state caller.now }
{
    if state.is_curator(caller) {
        None
    } else {
        Some(BookRefusal::NotAllowed(Policy::Curator))
    }
}

/// Who may read which table about the whole project.
fn policy_of_report(state: &BookState, caller: &Slug, report: Report) -> Option<BookRefusal>
    ensures { result ≡ policies state.now.state caller.now (ReadReport report) }
{
    match report {
        Report::Progress => None,
        Report::Snapshots => curators_only(state, caller),
        Report::Roster => curators_only(state, caller),
    }
}

/// Who may ask what, beside everyone on the roster.
fn policies(state: &BookState, caller: &Slug, request: &Request) -> Option<BookRefusal>
    ensures { result ≡ policies state.now.state caller.now (asked_of request.now) }
{
    match request {
        Request::ReadConf => None,
        Request::ListDocs => None,
        Request::ReadText { .. } => None,
        Request::AddText { .. } => curators_only(state, caller),
        Request::Checkout { .. } => annotators_only(state, caller),
        Request::TakeOver { .. } => annotators_only(state, caller),
        Request::Commit { .. } => annotators_only(state, caller),
        Request::Park { .. } => annotators_only(state, caller),
        Request::Finish { .. } => annotators_only(state, caller),
        Request::ReadLayer { who, .. } => {
            if state.is_curator(caller) || caller == who {
                None
            } else {
                Some(BookRefusal::NotAllowed(Policy::Own))
            }
        }
        Request::Reopen { .. } => curators_only(state, caller),
        Request::Ignore { .. } => curators_only(state, caller),
        Request::Readmit { .. } => curators_only(state, caller),
        Request::Snap { .. } => curators_only(state, caller),
        Request::TakeSnapshot { .. } => curators_only(state, caller),
        Request::Decide { .. } => curators_only(state, caller),
        Request::Undecide { .. } => curators_only(state, caller),
        Request::Pairs => curators_only(state, caller),
        Request::Alpha => curators_only(state, caller),
        Request::Report(report) => policy_of_report(state, caller, *report),
    }
}

/// Why a caller may not make a request: who is not on the roster makes none, and others those of their role.
/// Cost: the people.
pub(crate) fn refuses_caller(
    state: &BookState,
    caller: &Slug,
    request: &Request,
) -> Option<BookRefusal>
    ensures { result ≡ option_or (when (not (is_annotator state.now.state caller.now || is_curator state.now.state caller.now)) (BookRefusal.NotAllowed Policy.Roster)) (policies state.now.state caller.now (asked_of request.now)) }
{
    if state.is_annotator(caller) || state.is_curator(caller) {
        policies(state, caller, request)
    } else {
        Some(BookRefusal::NotAllowed(Policy::Roster))
    }
}
