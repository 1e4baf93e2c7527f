//! The running counts of each two annotators, as the layers of a document change.
ghost use Rattle.std.specs.Prelude.{◌≡◌, ℕ, ◌+◌, ◌<◌, ◌≤◌, ◌^◌, length, set, Option, IfOk};
ghost use Rattle.match_scores.specs.declared.sort.Sort.{Sort};
ghost use Rattle.match_scores.specs.Matches.{Part};
ghost use Rattle.match_scores.specs.Places.{Moves, marks_at, met};
ghost use Rattle.match_scores.specs.Tallies.{IsSquare, cell, read};

use crate::layer_in_table::{Marks, tallies_of};
use crate::tally::Tallies;
use mark_base::Memory;
use std::alloc::Global;

/// Counts of nothing for each two of so many raters.
pub(crate) fn no_totals(alloc: Global, raters: u8) -> Result<Vec<Tallies>, Memory>
    requires { raters ≤ 16 }
    ensures square { IfOk result (λ totals. IsSquare raters totals.items) }
    ensures empty { IfOk result (λ totals. (a b : ℕ) (sort : Sort) (part : Part) → cell raters totals.items a b sort part ≡ 0) }
{
    let mut totals: Vec<Tallies> = Vec::new(alloc);
    for _ in 0..raters as usize * raters as usize {
        totals.push(Tallies::NONE)?;
    }
    Ok(totals)
}

/// The counts of raters `a` and `b`.
pub(crate) fn totals_at(totals: &[Tallies], raters: u8, a: u8, b: u8) -> Tallies
    requires square { IsSquare raters totals.now }
    requires apart { a < b }
    requires b_in { b < raters }
    ensures { (sort : Sort) (part : Part) → read result sort part ≡ cell raters totals.now a b sort part }
{
    totals[a as usize * raters as usize + b as usize]
}

/// Takes some annotations from the counts of raters `a` and `b`, and adds some.
fn move_pair(totals: &mut [Tallies], raters: u8, a: u8, b: u8, less: Tallies, more: Tallies)
    requires square { IsSquare raters totals.old }
    requires apart { a < b }
    requires b_in { b < raters }
    requires enough { (sort : Sort) (part : Part) → read less sort part ≤ cell raters totals.old a b sort part }
    requires room { (sort : Sort) (part : Part) → cell raters totals.old a b sort part + read more sort part < 2 ^ 64 }
    ensures here { (sort : Sort) (part : Part) → cell raters totals.new a b sort part + read less sort part ≡ cell raters totals.old a b sort part + read more sort part }
    ensures rest { (p q : ℕ) (sort : Sort) (part : Part) → p < q → q < raters → ((p ≡ a) × (q ≡ b) → ⊥) → cell raters totals.new p q sort part ≡ cell raters totals.old p q sort part }
{
    let place = a as usize * raters as usize + b as usize;
    let total = totals[place];
    totals[place] = total.moved(less, more);
}

/// The places of rater `k` on a document, where one rater has others than stand there.
fn seated<'a>(
    marks: &'a [Option<Marks>],
    rater: u8,
    own: &'a Option<Marks>,
    k: u8,
) -> &'a Option<Marks>
    requires { k < length marks.now }
    ensures { result.now ≡ marks_at (set marks.now rater own.now) k }
{
    if k == rater { own } else { &marks[k as usize] }
}

/// Changes the counts of a rater and each other one, where the rater's layer on a document goes and another
/// comes. Cost: both layers and those of the others on the document.
fn shift(
    totals: &mut [Tallies],
    raters: u8,
    rater: u8,
    marks: &[Option<Marks>],
    before: &Option<Marks>,
    after: &Option<Marks>,
)
    requires square { IsSquare raters totals.old }
    requires rater_in { rater < raters }
    requires long { length marks.now ≡ raters }
    requires enough { (a b : ℕ) (sort : Sort) (part : Part) → a < b → b < raters → met sort part (marks_at (set marks.now rater before.now) a) (marks_at (set marks.now rater before.now) b) ≤ cell raters totals.old a b sort part }
    requires room { (a b : ℕ) (sort : Sort) (part : Part) → a < b → b < raters → cell raters totals.old a b sort part + met sort part (marks_at (set marks.now rater after.now) a) (marks_at (set marks.now rater after.now) b) < 2 ^ 64 }
    ensures { Moves raters totals.old totals.new (set marks.now rater before.now) (set marks.now rater after.now) }
{
    for other in 0..raters {
        if other == rater {
            continue;
        }
        let a = rater.min(other);
        let b = rater.max(other);
        let less = tallies_of(
            seated(marks, rater, before, a),
            seated(marks, rater, before, b),
        );
        let more = tallies_of(
            seated(marks, rater, after, a),
            seated(marks, rater, after, b),
        );
        move_pair(totals, raters, a, b, less, more);
    }
}

/// Puts a rater's places on a document, or none, in the place of those that stand there. Cost: as `shift`.
pub(crate) fn seat(
    totals: &mut [Tallies],
    raters: u8,
    rater: u8,
    marks: &mut [Option<Marks>],
    after: Option<Marks>,
)
    requires square { IsSquare raters totals.old }
    requires rater_in { rater < raters }
    requires long { length marks.old ≡ raters }
    requires enough { (a b : ℕ) (sort : Sort) (part : Part) → a < b → b < raters → met sort part (marks_at marks.old a) (marks_at marks.old b) ≤ cell raters totals.old a b sort part }
    requires room { (a b : ℕ) (sort : Sort) (part : Part) → a < b → b < raters → cell raters totals.old a b sort part + met sort part (marks_at (set marks.old rater after) a) (marks_at (set marks.old rater after) b) < 2 ^ 64 }
    ensures marks { marks.new ≡ set marks.old rater after }
    ensures moves { Moves raters totals.old totals.new marks.old marks.new }
{
    let before = marks[rater as usize].take();
    shift(totals, raters, rater, marks, &before, &after);
    marks[rater as usize] = after;
}
