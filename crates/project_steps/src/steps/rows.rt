//! What is read of the row of an annotator by name.
ghost use Rattle.std.specs.Prelude.{◌≡◌, is_some};
ghost use Rattle.project_machine.specs.ProjectState.{row_in};

use mark_base::Slug;
use project_state::BookState;

/// Whether a row is finished.
pub(crate) fn is_finished(state: &BookState, name: &Slug, who: &Slug) -> bool
    ensures { result ≡ (row_in state.now.state name.now who.now).finished }
{
    match state.row_in(name, who) {
        Some(row) => row.is_finished(),
        None => false,
    }
}

/// Whether a row is ignored.
pub(crate) fn is_ignored(state: &BookState, name: &Slug, who: &Slug) -> bool
    ensures { result ≡ (row_in state.now.state name.now who.now).ignored }
{
    match state.row_in(name, who) {
        Some(row) => row.is_ignored(),
        None => false,
    }
}

/// Whether a row is out.
pub(crate) fn is_out(state: &BookState, name: &Slug, who: &Slug) -> bool
    ensures { result ≡ is_some (row_in state.now.state name.now who.now).hold }
{
    match state.row_in(name, who) {
        Some(row) => row.is_out(),
        None => false,
    }
}

/// How often a row was committed.
pub(crate) fn revision(state: &BookState, name: &Slug, who: &Slug) -> u64
    ensures { result ≡ (row_in state.now.state name.now who.now).revision }
{
    match state.row_in(name, who) {
        Some(row) => row.revision(),
        None => 0,
    }
}
