ghost use Rattle.std.specs.Prelude.{◌≡◌, ℕ, ◌+◌, ◌<◌, ◌≤◌, ◌^◌, List, length, Option, None, get_or, set, replicate, IfOk};
ghost use Rattle.kappa_alpha.specs.Standing.{Document, over_tokens, with_row};
ghost use Rattle.kappa_alpha.specs.Steps.{standing, row_steps};
ghost use Rattle.kappa_alpha.specs.Counted.{Count, IsIn, IsWhole, SameShape, RowsFit, RowFits, adds, held};

use crate::rows::replace_row;
use crate::tallies::Tallies;
use label_tracks::LabelRow;
use mark_base::{Memory, Steps};
use std::alloc::Global;
use std::marker::Model;
use std::sync::ledger::Ledger;

/// The rows that stand on one document, by rater.
#[derive(Drop)]
pub(crate) struct DocumentRows {
    pub(crate) tokens: u32,
    pub(crate) rows: Vec<Option<LabelRow>>,
}

impl Model for DocumentRows {
    ghost use Rattle.kappa_alpha.specs.Standing.{Document};

    ghost Value = { Document };

    ghost view = { λ d. record { tokens = d.tokens; rows = d.rows.items } };
}

/// A document without tokens and rows, whose room for rows is made.
pub(crate) fn blank(alloc: Global, raters: u8) -> Result<DocumentRows, Memory>
    ensures { IfOk result (λ document. document.rows ≡ replicate raters None) }
{
    let mut rows: Vec<Option<LabelRow>> = Vec::with_capacity(alloc, raters as usize)?;
    for _ in 0..raters {
        rows.push(None)?;
    }
    Ok(DocumentRows { tokens: 0, rows })
}

/// Puts a row, or none, in the place of the one that stands, and gives that one.
fn replace_in<L: Ledger>(
    rows: &mut [Option<LabelRow>],
    tokens: u32,
    tallies: &mut Tallies,
    rater: u8,
    row: Option<LabelRow>,
    steps: &mut Steps<L>,
) -> Option<LabelRow>
    requires shape { IsWhole tallies.old }
    requires fit { RowsFit rows.old tokens tallies.old.coincidences.width }
    requires row_fits { RowFits row tokens tallies.old.coincidences.width }
    requires whole { length rows.old ≡ tallies.old.raters }
    requires rater_in { rater < tallies.old.raters }
    requires enough { (v : Count) → IsIn tallies.old v →
        over_tokens (adds v) rows.old tokens ≤ held tallies.old v }
    requires room { (v : Count) → IsIn tallies.old v →
        held tallies.old v + over_tokens (adds v) (set rows.old rater row) tokens ≤ 2 ^ 62 }
    ensures before { result ≡ get_or rows.old rater None }
    ensures replaced { rows.new ≡ set rows.old rater row }
    ensures shape { SameShape tallies.old tallies.new }
    ensures each { (v : Count) → IsIn tallies.old v →
        held tallies.new v + over_tokens (adds v) rows.old tokens ≡
        held tallies.old v + over_tokens (adds v) (set rows.old rater row) tokens }
    ensures steps { steps.new ≤ steps.old + row_steps (standing (set rows.old rater None)) result row tokens }
{
    let before = rows[rater as usize].take();
    replace_row(tallies, rows, rater, &before, &row, tokens, steps);
    rows[rater as usize] = row;
    before
}

impl DocumentRows {
    /// Puts a rater's row, or none, in the place of the one that stands, and gives that one.
    pub(crate) fn replace<L: Ledger>(
        &mut self,
        tallies: &mut Tallies,
        rater: u8,
        row: Option<LabelRow>,
        steps: &mut Steps<L>,
    ) -> Option<LabelRow>
        requires shape { IsWhole tallies.old }
        requires fit { RowsFit self.old.rows self.old.tokens tallies.old.coincidences.width }
        requires row_fits { RowFits row self.old.tokens tallies.old.coincidences.width }
        requires whole { length self.old.rows ≡ tallies.old.raters }
        requires rater_in { rater < tallies.old.raters }
        requires enough { (v : Count) → IsIn tallies.old v →
            over_tokens (adds v) self.old.rows self.old.tokens ≤ held tallies.old v }
        requires room { (v : Count) → IsIn tallies.old v →
            held tallies.old v + over_tokens (adds v)
            (set self.old.rows rater row) self.old.tokens ≤ 2 ^ 62 }
        ensures before { result ≡ get_or self.old.rows rater None }
        ensures replaced { self.new ≡ with_row self.old rater row }
        ensures shape { SameShape tallies.old tallies.new }
        ensures each { (v : Count) → IsIn tallies.old v →
            held tallies.new v + over_tokens (adds v) self.old.rows self.old.tokens ≡
            held tallies.old v + over_tokens (adds v)
            (set self.old.rows rater row) self.old.tokens }
        ensures steps { steps.new ≤ steps.old +
            row_steps (standing (set self.old.rows rater None)) result row self.old.tokens }
    {
        replace_in(
            self.rows.as_mut_slice(),
            self.tokens,
            tallies,
            rater,
            row,
            steps,
        )
    }
}
