ghost use Rattle.std.specs.Prelude.{◌≡◌, ℕ, ◌+◌, ◌*◌, ◌<◌, ◌≤◌, ◌^◌, List, length, Option, None, All, IfSome, is_some, cond, get_or, set};
ghost use Rattle.kappa_alpha.specs.Columns.{AreBelow, IsBelow, raters_in};
ghost use Rattle.kappa_alpha.specs.Steps.{move_steps};
ghost use Rattle.kappa_alpha.specs.Counted.{Count, IsIn, IsWhole, SameShape, adds, adds_at, adds_beside, held};

use crate::coincidences::{shift_ordered, shift_toward};
use crate::diagonal::shift_diagonal;
use crate::pairs::shift_shares;
use crate::shift::shift;
use crate::tallies::Tallies;
use crate::weight::{Weights, absent, label_weight, present, raters_with, weight_of};
use mark_base::Steps;
use std::sync::ledger::Ledger;

/// Lets a rater's label count `after` in a token where it counted `before`.
fn shift_label<L: Ledger>(
    tallies: &mut Tallies,
    others: &[Option<u8>],
    rater: u8,
    label: Option<u8>,
    before: Weights,
    after: Weights,
    steps: &mut Steps<L>,
)
    requires shape { IsWhole tallies.old }
    requires rater_in { rater < tallies.old.raters }
    requires whole { length others.now ≡ tallies.old.raters }
    requires out { get_or others.now rater None ≡ None }
    requires others_in { AreBelow tallies.old.coincidences.width others.now }
    requires label_in { IsBelow tallies.old.coincidences.width label }
    requires enough { (x : Count) → IsIn tallies.old x →
        adds_beside before x rater label others.now ≤ held tallies.old x }
    requires room { (x : Count) → IsIn tallies.old x →
        held tallies.old x + adds_beside after x rater label others.now ≤ 2 ^ 62 }
    ensures shape { SameShape tallies.old tallies.new }
    ensures each { (x : Count) → IsIn tallies.old x →
        held tallies.new x + adds_beside before x rater label others.now ≡
        held tallies.old x + adds_beside after x rater label others.now }
    ensures steps { steps.new ≡ steps.old + cond (is_some label) (3 * raters_in others.now + 1) 0 }
{
    if let Some(y) = label {
        let (raters, width) = (tallies.raters, tallies.coincidences.width());
        shift_toward(
            &mut tallies.coincidences,
            y,
            others,
            before.pair,
            after.pair,
            steps,
        );
        shift(&mut tallies.labels, y, y, before.label, after.label, steps);
        shift_shares(
            &mut tallies.pairs,
            raters,
            width,
            rater,
            y,
            others,
            before.met,
            after.met,
            steps,
        );
    }
}

/// Lets the other labels of a token count as where its pairs count `after`, when they counted as
/// where its pairs count `before`.
fn reweigh<L: Ledger>(
    tallies: &mut Tallies,
    others: &[Option<u8>],
    before: u32,
    after: u32,
    steps: &mut Steps<L>,
)
    requires shape { IsWhole tallies.old }
    requires others_in { AreBelow tallies.old.coincidences.width others.now }
    requires enough { (x : Count) → IsIn tallies.old x → adds_at before x others.now ≤ held tallies.old x }
    requires room { (x : Count) → IsIn tallies.old x →
        held tallies.old x + adds_at after x others.now ≤ 2 ^ 62 }
    ensures shape { SameShape tallies.old tallies.new }
    ensures each { (x : Count) → IsIn tallies.old x →
        held tallies.new x + adds_at before x others.now ≡
        held tallies.old x + adds_at after x others.now }
    ensures steps { steps.new ≤ steps.old + raters_in others.now * raters_in others.now }
    ensures same { before ≡ after → steps.new ≡ steps.old }
{
    if before == after {
        return;
    }
    let (label_before, label_after) = (label_weight(before), label_weight(after));
    shift_ordered(&mut tallies.coincidences, others, before, after, steps);
    shift_diagonal(
        &mut tallies.labels,
        others,
        label_before,
        label_after,
        steps,
    );
    tallies.units = tallies.units - label_before as u64 + label_after as u64;
}

/// Puts one label of a rater in the place of another, where each may be absent, in a token with
/// these other labels.
pub(crate) fn move_label<L: Ledger>(
    tallies: &mut Tallies,
    others: &[Option<u8>],
    rater: u8,
    before: Option<u8>,
    after: Option<u8>,
    steps: &mut Steps<L>,
)
    requires shape { IsWhole tallies.old }
    requires rater_in { rater < tallies.old.raters }
    requires few { raters_in others.now < 16 }
    requires whole { length others.now ≡ tallies.old.raters }
    requires out { get_or others.now rater None ≡ None }
    requires others_in { AreBelow tallies.old.coincidences.width others.now }
    requires before_in { IsBelow tallies.old.coincidences.width before }
    requires after_in { IsBelow tallies.old.coincidences.width after }
    requires enough { (x : Count) → IsIn tallies.old x →
        adds x (set others.now rater before) ≤ held tallies.old x }
    requires room { (x : Count) → IsIn tallies.old x →
        held tallies.old x + adds x (set others.now rater after) ≤ 2 ^ 62 }
    ensures shape { SameShape tallies.old tallies.new }
    ensures each { (x : Count) → IsIn tallies.old x →
        held tallies.new x + adds x (set others.now rater before) ≡
        held tallies.old x + adds x (set others.now rater after) }
    ensures steps { steps.new ≤ steps.old + move_steps (raters_in others.now) before after }
{
    let weight_before = weight_of(raters_with(others, before));
    let weight_after = weight_of(raters_with(others, after));
    shift_label(
        tallies,
        others,
        rater,
        before,
        present(weight_before),
        absent(),
        steps,
    );
    reweigh(tallies, others, weight_before, weight_after, steps);
    shift_label(
        tallies,
        others,
        rater,
        after,
        absent(),
        present(weight_after),
        steps,
    );
}
