//! The definitions at work on a small snapshot. The functions do nothing; their clauses are computed when the
//! crate is checked.
ghost use Rattle.std.specs.Prelude.{◌≡◌, ℕ, [], ◌∷◌, Some, true, false};
ghost use Rattle.mark_base.specs.declared.ann_id.Kind.TheVariants as letter;
ghost use Rattle.mark_base.specs.ReadIds.{id_at};
ghost use Rattle.conf_model.specs.Configurations.{Configuration};
ghost use Rattle.content_keys.specs.WorkedLayers.{arg, e, event, span, t};
ghost use Rattle.unanimous_merge.specs.WorkedSnapshots.{both, name};
ghost use Rattle.curator_decisions.specs.declared.decision_fault.DecisionFault.TheVariants as no;
ghost use Rattle.curator_decisions.specs.declared.verdict.Verdict.TheVariants.{Accept, Reject};
ghost use Rattle.curator_decisions.specs.Clashes.{clash};
ghost use Rattle.curator_decisions.specs.Curated.{curated_of};
ghost use Rattle.curator_decisions.specs.DecisionFaults.{decide_fault, undecide_fault};
ghost use Rattle.curator_decisions.specs.Decisions.{with_verdict};
ghost use Rattle.curator_decisions.specs.WorkedClashes.{held, two_values};

/// What ann and bob have on 'Ann met Bob in Rome' once nothing is decided, and once bob's location is accepted and
/// the meeting of both rejected.
pub fn examples_of_curated_layers()
    ensures undecided { (curated_of both []).marks ≡ (t 1, span 0 0 3) ∷ (t 2, span 1 4 7) ∷ (e 1, event 1 2 (arg 0 (t 1) ∷ [])) ∷ [] }
    ensures decided { (curated_of both ((name 0 (e 1), Reject) ∷ (name 1 (t 3), Accept) ∷ [])).marks ≡ (t 1, span 0 0 3) ∷ (t 2, span 1 4 7) ∷ (t 3, span 2 15 19) ∷ [] }
    ensures either_order { with_verdict (with_verdict [] (name 1 (t 3)) Accept) (name 0 (e 1)) Reject ≡ with_verdict (with_verdict [] (name 0 (e 1)) Reject) (name 1 (t 3)) Accept }
{}

/// Decisions on that snapshot that are refused, whatever the configuration.
pub fn examples_of_decisions()
    ensures needed { (conf : Configuration) (characters : ℕ) → decide_fault conf characters both [] (name 0 (t 1)) Reject ≡ Some (no.NeedsItem (name 0 (e 1))) }
    ensures not_in { (conf : Configuration) (characters : ℕ) → decide_fault conf characters both [] (name 1 (t 3)) Reject ≡ Some no.NotIn }
    ensures already_in { (conf : Configuration) (characters : ℕ) → decide_fault conf characters both ((name 1 (t 3), Accept) ∷ []) (name 1 (t 3)) Accept ≡ Some no.AlreadyIn }
    ensures not_decided { (conf : Configuration) (characters : ℕ) → undecide_fault conf characters both [] (name 0 (t 2)) ≡ Some no.NotDecided }
    ensures no_item { (conf : Configuration) (characters : ℕ) → decide_fault conf characters both [] (name 2 (t 1)) Accept ≡ Some no.NoItem }
    // Under bob's ID the meeting is no item, since ann has it too.
    ensures not_the_first { (conf : Configuration) (characters : ℕ) → decide_fault conf characters both [] (name 1 (t 1)) Accept ≡ Some no.NoItem }
{}

/// Two values of one attribute on one name, of two holders, clash, whatever the configuration; the value and the
/// name do not.
pub fn examples_of_clashes()
    ensures two_values { (conf : Configuration) → clash conf two_values (held 0 (id_at letter.Attribute 1)) (held 1 (id_at letter.Attribute 1)) ≡ true }
    ensures value_and_name { (conf : Configuration) → clash conf two_values (held 0 (t 1)) (held 0 (id_at letter.Attribute 1)) ≡ false }
{}
