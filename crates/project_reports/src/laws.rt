//! A law of the table of progress. The function does nothing; its contract is the law.
ghost use Rattle.std.specs.Prelude.{◌≡◌, map};
ghost use Rattle.std.specs.List.{All, zip};
ghost use Rattle.project_machine.specs.Legal.{IsKept};
ghost use Rattle.project_machine.specs.ProjectState.{Document, ProjectState, annotators};

/// In a project as steps leave it each document has a row for every annotator, by name, also where nothing was begun.
pub fn every_annotator_has_a_row()
    ensures { (s : ProjectState) → IsKept s → All (λ (d : Document). map (λ placed. placed.0) (zip (annotators s) d.rows) ≡ annotators s) s.documents }
{}
