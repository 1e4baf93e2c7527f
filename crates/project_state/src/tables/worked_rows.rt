//! What changes do to the tables of agreement, on the document `x` of three tokens and its annotators `ann` and
//! `bob`. The function does nothing; its clauses are computed when the crate is checked.
ghost use Rattle.std.specs.Prelude.{◌≡◌, codes};
ghost use Rattle.layer_model.specs.Annotations.{no_marks};
ghost use Rattle.project_machine.specs.Requests.{LayerCommitted, LayerIgnored, LayerReadmitted, TakenOver, TextAdded};
ghost use Rattle.project_machine.specs.Tables.{standing_of};
ghost use Rattle.project_machine.specs.WorkedSteps.{at_place};
ghost use Rattle.project_state.specs.declared.tables.tabling.TableAct.TheVariants as table;
ghost use Rattle.project_state.specs.Tables.Tabling.{labels_given, most_steps, tabling_of};

/// The text comes in; `ann` takes it over and commits the empty layer; her row is ignored and put back, and that of
/// `bob`, who has committed nothing, is put back.
pub fn examples_of_tablings()
    ensures a_text { tabling_of (at_place 1) (TextAdded (codes "cur") (codes "x") (codes "a b c")) ≡ table.Admit 3 }
    ensures a_takeover { most_steps (tabling_of (at_place 3) (TakenOver (codes "ann") 0)) (standing_of (at_place 3) 0) ≡ 0 }
    ensures a_commit { tabling_of (at_place 4) (LayerCommitted (codes "ann") 0 4 no_marks) ≡ table.Post 0 0 (labels_given (at_place 4) 0 no_marks) }
    // A first row among one rater: three times 2 * 1 * 1 + 1 + 2.
    ensures first_labels { most_steps (tabling_of (at_place 4) (LayerCommitted (codes "ann") 0 4 no_marks)) (standing_of (at_place 4) 0) ≡ 15 }
    ensures ignored { tabling_of (at_place 7) (LayerIgnored (codes "cur") 0 (codes "ann")) ≡ table.Drop 0 0 }
    ensures put_back { tabling_of (at_place 7) (LayerReadmitted (codes "cur") 0 (codes "ann")) ≡ table.Post 0 0 (labels_given (at_place 7) 0 no_marks) }
    ensures nothing_to_put_back { tabling_of (at_place 7) (LayerReadmitted (codes "cur") 0 (codes "bob")) ≡ table.Nothing }
{}
