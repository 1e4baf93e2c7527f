//! The definitions at work on small projects. The functions do nothing; their clauses are computed when the crate is
//! checked.
ghost use Rattle.std.specs.Prelude.{◌≡◌, [], ◌∷◌, codes};
ghost use Rattle.curator_decisions.specs.declared.verdict.Verdict.TheVariants as verdict;
ghost use Rattle.agreement_report.specs.Report.{row};
ghost use Rattle.project_machine.specs.ProjectState.{row_at};
ghost use Rattle.project_machine.specs.WorkedSteps.{at_place};
ghost use Rattle.project_machine.specs.ProgressTable.{progress_table};
ghost use Rattle.content_keys.specs.WorkedLayers.{e, t};
ghost use Rattle.unanimous_merge.specs.WorkedSnapshots.{both, name};
ghost use Rattle.project_machine.specs.SnapshotsTable.{decided_fields, snapshots_table};
ghost use Rattle.project_reports.specs.WorkedStates.{fields, parked_row, shown};

/// The table of progress without documents, and the rows of ann at the places of a history of one document: nothing was
/// begun; she has it out, and again behind a commit; she parked it; and she finished it.
pub fn examples_of_progress()
    ensures no_documents { progress_table (at_place 1) ≡ codes "document,annotator,revision,state,ignored,annotations,parked\n" }
    ensures nothing_begun { shown (row_at (at_place 2) 0 0) ≡ fields (codes "0") (codes "none") (codes "false") (codes "0") (codes "0") }
    ensures out { shown (row_at (at_place 3) 0 0) ≡ fields (codes "0") (codes "out") (codes "false") (codes "0") (codes "0") }
    ensures out_again { shown (row_at (at_place 5) 0 0) ≡ fields (codes "1") (codes "out") (codes "false") (codes "0") (codes "0") }
    ensures open { shown (row_at (at_place 6) 0 0) ≡ fields (codes "1") (codes "open") (codes "false") (codes "0") (codes "0") }
    ensures finished { shown (row_at (at_place 7) 0 0) ≡ fields (codes "1") (codes "finished") (codes "false") (codes "0") (codes "0") }
    // Two spans were committed, a curator ignores them, and a command is parked.
    ensures ignored { shown parked_row ≡ fields (codes "2") (codes "open") (codes "true") (codes "2") (codes "1") }
{}

/// The table without snapshots; and what two layers on 'Ann met Bob in Rome' come to, before and behind verdicts of both
/// kinds.
pub fn examples_of_curation()
    ensures no_snapshots { snapshots_table (at_place 11) ≡ codes "snapshot,document,holders,items,unanimous,accepted,rejected,undecided\n" }
    ensures nothing_decided { row (decided_fields both []) ≡ codes "4,3,0,0,1\n" }
    ensures accepted { row (decided_fields both ((name 1 (t 3), verdict.Accept) ∷ [])) ≡ codes "4,3,1,0,0\n" }
    // What is rejected although it is unanimous is counted as both.
    ensures rejected { row (decided_fields both ((name 0 (e 1), verdict.Reject) ∷ [])) ≡ codes "4,3,0,1,1\n" }
    ensures of_each { row (decided_fields both ((name 0 (e 1), verdict.Reject) ∷ (name 1 (t 3), verdict.Accept) ∷ [])) ≡ codes "4,3,1,1,0\n" }
{}
