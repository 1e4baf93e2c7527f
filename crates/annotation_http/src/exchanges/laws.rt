//! What can be opened as a desk, and what keeps a desk that is held open on its row. The functions but for calls of laws
//! below do nothing; their contracts are the laws.
ghost use Rattle.std.specs.Prelude.{◌≡◌, ◌⊎◌, ℕ, ◌≤◌, List, ◌++◌, Some};
ghost use Rattle.std.specs.List.{All};
ghost use Rattle.project_machine.specs.Asking.{LiesWithin, step_at};
ghost use Rattle.project_machine.specs.History.{after, effect, last};
ghost use Rattle.project_machine.specs.Legal.{IsLegal};
ghost use Rattle.project_machine.specs.Machine.{step};
ghost use Rattle.project_machine.specs.ProjectState.{ProjectState, row};
ghost use Rattle.project_machine.specs.Requests.{Asked, Happened};
ghost use Rattle.annotation_http.specs.Exchanges.Connections.{Holding};
ghost use Rattle.annotation_http.specs.Exchanges.Exchanges.{CanBeOpened};
ghost use Rattle.annotation_http.specs.Exchanges.OpenDesks.{CommitsUpTo, IsOpenOn, IsUnder};

use layer_rules::unflawed_layers;
use project_state::states_can_be_restored;

/// Whatever is asked at a place of a history, a desk can be opened on the layer that is handed out, where one is.
pub fn desks_can_be_opened()
    ensures { (log : List Happened) (caller : List ℕ) (asked : Asked) → IsLegal log → CanBeOpened (step_at log caller asked).answer }
{
    unflawed_layers();
    states_can_be_restored();
}

/// Only a commit under the hold under which a layer is out changes it. So a layer that is out under a hold, behind a
/// history and behind a longer one, is the same in both where no commit under that hold stands between.
pub fn only_commits_under_its_hold_change_a_layer()
    ensures step { (s : ProjectState) (caller who : List ℕ) (asked : Asked) (happened : Happened) (place doc : ℕ) → (step s caller asked).change ≡ Some happened → ((row (effect place happened s) doc who).layer ≡ (row s doc who).layer) ⊎ IsUnder (row s doc who).hold happened }
    ensures history { (seen more : List Happened) (doc hold : ℕ) (who : List ℕ) → IsLegal seen → IsLegal (seen ++ more) → hold ≤ last seen → CommitsUpTo (seen ++ more) hold (last seen) → (row (after (seen ++ more)) doc who).hold ≡ Some hold → ((row (after seen) doc who).hold ≡ Some hold) × ((row (after (seen ++ more)) doc who).layer ≡ (row (after seen) doc who).layer) }
{}

/// A desk that is open on the row of its hold stays so, whatever others do: what a visitor has seen goes on, and none of
/// that is its own.
pub fn held_desks_stay_open()
    ensures { (seen more : List Happened) (mine : List ℕ) (held : Holding) → IsLegal seen → IsLegal (seen ++ more) → All (LiesWithin seen) mine → IsOpenOn seen mine held → IsOpenOn (seen ++ more) mine held }
{}
