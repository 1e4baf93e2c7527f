//! A law of requests. The function does nothing; its contract is the law.
ghost use Rattle.std.specs.Prelude.{◌≡◌, ◌⊎◌, List, None, true, ℕ};
ghost use Rattle.project_machine.specs.Machine.{reply, step};
ghost use Rattle.project_machine.specs.ProjectState.{ProjectState};
ghost use Rattle.project_machine.specs.Requests.{Asked};
ghost use Rattle.project_commands.specs.Commands.Requests.{is_refused};

/// Whatever is asked of a project, its answer is the one to what is granted, or a refusal, and behind a refusal nothing
/// happened.
pub fn requests_are_granted_or_refused()
    ensures answers { (s : ProjectState) (caller : List ℕ) (asked : Asked) → ((step s caller asked).answer ≡ reply s caller asked) ⊎ (is_refused (step s caller asked).answer ≡ true) }
    ensures stays { (s : ProjectState) (caller : List ℕ) (asked : Asked) → is_refused (step s caller asked).answer ≡ true → (step s caller asked).change ≡ None }
{}
