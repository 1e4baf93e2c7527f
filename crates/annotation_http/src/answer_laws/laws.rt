//! The law of what can be shown. The function but for calls of laws below does nothing; its contract is the law.
ghost use Rattle.std.specs.Prelude.{ℕ, List};
ghost use Rattle.project_machine.specs.Asking.{Visited, Visiting};
ghost use Rattle.project_machine.specs.History.{after};
ghost use Rattle.project_machine.specs.Legal.{IsLegal};
ghost use Rattle.project_machine.specs.Machine.{step};
ghost use Rattle.project_machine.specs.Requests.{Answered, Asked, Happened};
ghost use Rattle.http_answers.specs.Answers.Answers.{CanBeShown};

use layer_rules::{unflawed_layers, well_formed_layers_cohere};
use project_book::verdicts_are_accepted;
use project_state::states_can_be_restored;

/// Whatever is asked at a place of a history, the answer can be shown: a layer that is read is well-formed, so are the
/// layers of a snapshot and its curated layer, and the figures of agreement have names and can be written. So can what a
/// visitor of a book is answered that has seen a history.
pub fn answers_can_be_shown()
    ensures answered { (log : List Happened) (caller : List ℕ) (asked : Asked) → IsLegal log → CanBeShown (step (after log) caller asked).answer }
    ensures visited { (old new : Visiting) (caller : List ℕ) (asked : Asked) (answer : Answered) → IsLegal old.seen → Visited old new caller asked answer → CanBeShown answer }
{
    unflawed_layers();
    well_formed_layers_cohere();
    states_can_be_restored();
    verdicts_are_accepted();
}
