//! The machine at work on one document and two annotators. Each function does nothing; its clauses are computed
//! when the crate is checked.
ghost use Rattle.std.specs.Prelude.{◌≡◌, [], ◌∷◌, None, Some, codes, false, true};
ghost use Rattle.layer_model.specs.Annotations.{Annotations, no_marks};
ghost use Rattle.project_machine.specs.declared.book_refusal.BookRefusal.TheVariants as no;
ghost use Rattle.project_machine.specs.declared.book_refusal.Policy.TheVariants as policy;
ghost use Rattle.project_machine.specs.History.{unfounded};
ghost use Rattle.project_machine.specs.Legal.{IsLegal};
ghost use Rattle.project_machine.specs.Machine.{commit_rule, step};
ghost use Rattle.project_machine.specs.ProjectState.{snapshot_of};
ghost use Rattle.project_machine.specs.Requests.{Added, AddText, Checkout, CheckedOut, Commit, Committed, Finish, Finished, HandedOut, Ignore, Ignored, Layer, LayerCommitted, LayerFinished, LayerIgnored, LayerParked, LayerReopened, ListDocs, Docs, Park, Parked, Readmit, ReadConf, ReadLayer, ReadPairs, Reopen, Snap, SnapshotTaken, Snapped, Taken, TakeOver, TakenOver, TakeSnapshot, TextAdded};
ghost use Rattle.project_machine.specs.WorkedSteps.{at_place, handed, history, lacks_member, makes, of_pairs, pairs_conf, refuses, refuses_of, tells};

/// Requests to a project of the annotators `ann` and `bob` and the curator `cur`, at the places of a history.
pub fn examples_of_steps()
    // What a refusal names is the policy.
    ensures a_stranger { step (at_place 1) (codes "eve") ReadConf ≡ refuses_of (no.NotAllowed policy.Roster) (codes "Roster") }
    ensures not_the_curator { step (at_place 1) (codes "ann") (AddText (codes "x") (codes "a b c")) ≡ refuses_of (no.NotAllowed policy.Curator) (codes "Curator") }
    ensures no_tables { step (at_place 1) (codes "ann") ReadPairs ≡ refuses_of (no.NotAllowed policy.Curator) (codes "Curator") }
    ensures a_text { step (at_place 1) (codes "cur") (AddText (codes "x") (codes "a b c")) ≡ makes (Added 3) (TextAdded (codes "cur") (codes "x") (codes "a b c")) }
    ensures the_same_text { step (at_place 2) (codes "cur") (AddText (codes "x") (codes "a b c")) ≡ refuses no.DocumentThere }
    ensures the_documents { step (at_place 2) (codes "bob") ListDocs ≡ tells (Docs (record { name = codes "x"; characters = 5 } ∷ [])) }
    ensures no_document { step (at_place 2) (codes "ann") (Checkout (codes "y")) ≡ refuses no.NoDocument }
    ensures no_annotator { step (at_place 2) (codes "cur") (Checkout (codes "x")) ≡ refuses_of (no.NotAllowed policy.Annotator) (codes "Annotator") }
    // The hold is the place of the checkout.
    ensures a_checkout { step (at_place 2) (codes "ann") (Checkout (codes "x")) ≡ makes (HandedOut (handed 3)) (CheckedOut (codes "ann") 0) }
    ensures twice_out { step (at_place 3) (codes "ann") (Checkout (codes "x")) ≡ refuses no.LayerOut }
    ensures another_annotator { step (at_place 3) (codes "bob") (Checkout (codes "x")) ≡ makes (HandedOut (handed 4)) (CheckedOut (codes "bob") 0) }
    ensures a_takeover { step (at_place 3) (codes "ann") (TakeOver (codes "x")) ≡ makes (HandedOut (handed 4)) (TakenOver (codes "ann") 0) }
    // The first desk has lost its right.
    ensures the_first_desk { step (at_place 4) (codes "ann") (Commit (codes "x") 3 no_marks) ≡ refuses no.NotYours }
    ensures the_first_park { step (at_place 4) (codes "ann") (Park (codes "x") 3 [] []) ≡ refuses no.NotYours }
    ensures a_commit { step (at_place 4) (codes "ann") (Commit (codes "x") 4 no_marks) ≡ makes (Committed 1) (LayerCommitted (codes "ann") 0 4 no_marks) }
    ensures still_out { step (at_place 5) (codes "ann") (Finish (codes "x")) ≡ refuses no.LayerOut }
    ensures not_own { step (at_place 5) (codes "bob") (ReadLayer (codes "x") (codes "ann")) ≡ refuses_of (no.NotAllowed policy.Own) (codes "Own") }
    ensures own { step (at_place 5) (codes "ann") (ReadLayer (codes "x") (codes "ann")) ≡ tells (Layer no_marks (codes "a b c") unfounded.conf) }
    ensures no_layer { step (at_place 5) (codes "cur") (ReadLayer (codes "x") (codes "bob")) ≡ refuses no.NoLayer }
    ensures a_park { step (at_place 5) (codes "ann") (Park (codes "x") 4 [] []) ≡ makes Parked (LayerParked (codes "ann") 0 4 [] []) }
    ensures nothing_committed { step (at_place 6) (codes "bob") (Finish (codes "x")) ≡ refuses no.NothingCommitted }
    ensures a_finish { step (at_place 6) (codes "ann") (Finish (codes "x")) ≡ makes (Finished true) (LayerFinished (codes "ann") 0) }
    ensures finished { step (at_place 7) (codes "ann") (Checkout (codes "x")) ≡ refuses no.Finished }
    ensures a_reopening { step (at_place 7) (codes "cur") (Reopen (codes "x") (codes "ann")) ≡ makes (Finished false) (LayerReopened (codes "cur") 0 (codes "ann")) }
    ensures ignored { step (at_place 7) (codes "cur") (Ignore (codes "x") (codes "ann")) ≡ makes (Ignored true) (LayerIgnored (codes "cur") 0 (codes "ann")) }
    ensures not_ignored { step (at_place 7) (codes "cur") (Readmit (codes "x") (codes "ann")) ≡ refuses no.NotIgnored }
{}

/// Requests on snapshots: one finished layer is too few, and of two a snapshot is taken, which is read.
pub fn examples_of_snapshots()
    ensures one_finished { step (at_place 7) (codes "cur") (Snap (codes "x")) ≡ refuses_of (no.TooFewFinished 1) (codes "1") }
    ensures two_finished { step (at_place 11) (codes "cur") (Snap (codes "x")) ≡ makes (Snapped 1 2) (SnapshotTaken (codes "cur") 0) }
    ensures none_taken { step (at_place 11) (codes "cur") (TakeSnapshot 1) ≡ refuses no.NoSnapshot }
    ensures no_snapshot_0 { snapshot_of (at_place 12) 0 ≡ None }
    ensures snapshot_1 { snapshot_of (at_place 12) 1 ≡ Some (record { doc = 0; holders = (codes "ann", no_marks) ∷ (codes "bob", no_marks) ∷ []; verdicts = [] }) }
    ensures no_snapshot_2 { snapshot_of (at_place 12) 2 ≡ None }
    ensures none_of_0 { step (at_place 12) (codes "cur") (TakeSnapshot 0) ≡ refuses no.NoSnapshot }
    ensures taken { step (at_place 12) (codes "cur") (TakeSnapshot 1) ≡ tells (Taken (record { holders = (codes "ann", no_marks) ∷ (codes "bob", no_marks) ∷ []; verdicts = []; text = codes "a b c"; conf = unfounded.conf })) }
    ensures not_to_annotators { step (at_place 12) (codes "ann") (TakeSnapshot 1) ≡ refuses_of (no.NotAllowed policy.Curator) (codes "Curator") }
{}

/// A layer whose event E1 has one member where two are wanted is not committed, and the refusal names both.
pub fn examples_of_broken_layers()
    ensures { (layer : Annotations) → commit_rule pairs_conf 5 layer ≡ Some lacks_member → step of_pairs (codes "ann") (Commit (codes "x") 3 layer) ≡ refuses_of (no.Broken lacks_member) (codes "E1 Member") }
{}
/// The history that those steps make is one.
pub fn examples_of_histories()
    ensures { IsLegal history }
{}
