ghost use Rattle.std.specs.Prelude.{◌≡◌, ℕ, ◌+◌, ◌*◌, ◌<◌, ◌≤◌, ◌^◌, List, [], length, Option, Some, None, IfSome, IfNone, IfOk, OnOk, OnErr, slice_index, set};
ghost use Rattle.kappa_alpha.specs.Standing.{Standing, admitted, confusion_of, document_at, posted, row_at, tokens_in};
ghost use Rattle.kappa_alpha.specs.Steps.{changed, join_steps, raters_on, relabel_steps, row_steps, standing};
ghost use Rattle.kappa_alpha.specs.Counted.{RowFits};
ghost use Rattle.kappa_alpha.specs.Figures.{Writable, alpha_line, cells_sum, kappa_of, pair_line};

use crate::alpha::{alpha_of_sums, label_sums};
use crate::document::{DocumentRows, blank};
use crate::figures::{AlphaLine, Fraction, PairLine};
use crate::kappa::{kappa_of_sums, table_sums};
use crate::tallies::{Tallies, no_tallies};
use label_tracks::LabelRow;
use mark_base::{Memory, Steps};
use std::alloc::Global;
use std::marker::Model;
use std::sync::ledger::Ledger;

/// The rows of labels that stand, by document and rater, with running tables of their agreement.
///
/// A reading looks at no row. Memory: eight bytes for each two labels of each two raters, and a byte
/// for each label that stands.
#[derive(Drop)]
pub struct Tables {
    raters: u8,
    categories: u8,
    alloc: Global,
    tallies: Tallies,
    documents: Vec<DocumentRows>,
    ready: Vec<DocumentRows>,
}

impl Model for Tables {
    ghost use Rattle.std.specs.Prelude.{length};
    ghost use Rattle.std.specs.Vec.{vec_capacity, vec_len};
    ghost use Rattle.kappa_alpha.specs.Standing.{Standing};
    ghost use Rattle.kappa_alpha.specs.Counted.{AreTables, IsPool};

    ghost Value = { Standing };

    ghost view = { λ t. record {
      raters = t.raters;
      categories = t.categories;
      documents = t.documents.items;
      spare = length t.ready.items;
    } };

    ghost invariant = { λ t. record {
      tables : AreTables t.raters t.categories t.documents.items t.tallies;
      pool : IsPool t.raters (vec_len t.documents) (vec_capacity t.documents) t.ready.items;
    } };
}

impl Tables {
    /// Tables of so many raters and categories, without documents. Raters and labels are numbers
    /// from 0.
    pub fn new(alloc: Global, raters: u8, categories: u8) -> Result<Tables, Memory>
        requires raters_few { raters ≤ 16 }
        requires categories_some { 1 ≤ categories }
        requires categories_few { categories ≤ 64 }
        ensures { IfOk result (λ tables. tables ≡
            record { raters = raters; categories = categories; documents = []; spare = 0 }) }
    {
        let tallies = no_tallies(alloc, raters, categories)?;
        Ok(Tables {
            raters,
            categories,
            alloc,
            tallies,
            documents: Vec::new(alloc),
            ready: Vec::new(alloc),
        })
    }

    /// Makes room for one document more, where there is none, so that `admit` needs no memory. On want
    /// of memory everything is as before.
    pub fn reserve(&mut self) -> Result<(), Memory>
        ensures spare { OnOk result (1 ≤ self.new.spare) }
        ensures kept { self.old.spare ≤ self.new.spare }
        ensures same { self.new ≡ record self.old { spare = self.new.spare } }
        ensures refused { OnErr result (self.new ≡ self.old) }
    {
        if self.ready.is_empty() {
            self.documents.reserve(1)?;
            let document = blank(self.alloc, self.raters)?;
            self.ready.push(document)?;
        }
        Ok(())
    }

    /// How many documents room is made for.
    pub fn spare(&self) -> u32
        ensures { result ≡ self.now.spare }
    {
        self.ready.len() as u32
    }

    /// Takes in a document of so many tokens, on which no row stands, and gives its number, from 0.
    pub fn admit(&mut self, tokens: u32) -> u32
        requires spare { 1 ≤ self.old.spare }
        requires few { length self.old.documents < 4096 }
        requires short { tokens_in self.old.documents + tokens ≤ 8390656 }
        ensures number { result ≡ length self.old.documents }
        ensures admitted { self.new ≡ admitted self.old tokens self.new.spare }
        ensures spare { self.new.spare + 1 ≡ self.old.spare }
    {
        let number = self.documents.len() as u32;
        let Some(mut document) = self.ready.pop() else {
            unreachable!()
        };
        document.tokens = tokens;
        match self.documents.push(document) {
            Ok(()) => number,
            Err(_) => unreachable!(),
        }
    }

    /// Puts a rater's row, or none, in the place of the one that stands, and gives that one.
    fn replace<L: Ledger>(
        &mut self,
        doc: u32,
        rater: u8,
        row: Option<LabelRow>,
        steps: &mut Steps<L>,
    ) -> Option<LabelRow>
        requires doc_in { doc < length self.old.documents }
        requires rater_in { rater < self.old.raters }
        requires row_fits { RowFits row (document_at self.old.documents doc).tokens self.old.categories }
        ensures before { result ≡ row_at self.old doc rater }
        ensures posted { self.new ≡ posted self.old doc rater row }
        ensures rater_in { rater < length (document_at self.old.documents doc).rows }
        ensures steps { steps.new ≤ steps.old +
            row_steps (standing (set
            (document_at self.old.documents doc).rows rater None)) result row
            (document_at self.old.documents doc).tokens }
    {
        let document = &mut self.documents[doc as usize];
        document.replace(&mut self.tallies, rater, row, steps)
    }

    /// Puts a rater's row on a document in the place of the one that stood, and gives that one.
    ///
    /// Cost: the document's tokens. Over a row that stood, two looks a token, and steps in the number
    /// of raters where the label differs; for a first row, steps in the square of that number.
    pub fn post<L: Ledger>(
        &mut self,
        doc: u32,
        rater: u8,
        row: LabelRow,
        steps: &mut Steps<L>,
    ) -> Option<LabelRow>
        requires doc_in { doc < length self.old.documents }
        requires rater_in { rater < self.old.raters }
        requires long { length row ≡ (document_at self.old.documents doc).tokens }
        requires labels_in { (i : ℕ) → i < length row → slice_index row i < self.old.categories }
        ensures before { result ≡ row_at self.old doc rater }
        ensures posted { self.new ≡ posted self.old doc rater (Some row) }
        ensures again { IfSome result (λ stood. steps.new ≤
            steps.old + relabel_steps (length row) (raters_on self.new doc) (changed stood row
            (length row))) }
        ensures first { IfNone result (steps.new ≤
            steps.old + join_steps (length row) (raters_on self.new doc)) }
    {
        self.replace(doc, rater, Some(row), steps)
    }

    /// Takes a rater's row off a document, and gives it: nothing where none stood.
    ///
    /// Cost: as that of a first row.
    pub fn drop_row<L: Ledger>(
        &mut self,
        doc: u32,
        rater: u8,
        steps: &mut Steps<L>,
    ) -> Option<LabelRow>
        requires doc_in { doc < length self.old.documents }
        requires rater_in { rater < self.old.raters }
        ensures before { result ≡ row_at self.old doc rater }
        ensures dropped { self.new ≡ posted self.old doc rater None }
        ensures steps { steps.new ≤ steps.old +
            join_steps (document_at self.old.documents doc).tokens (raters_on self.old doc) }
    {
        self.replace(doc, rater, None, steps)
    }

    /// How many tokens rater `a` labels `c` and rater `b` labels `k`, of those that both label.
    pub fn confusion(&self, a: u8, b: u8, c: u8, k: u8) -> u64
        requires apart { a < b }
        requires b_in { b < self.now.raters }
        requires c_in { c < self.now.categories }
        requires k_in { k < self.now.categories }
        ensures { result ≡ confusion_of self.now.documents a b c k }
    {
        self.tallies.pairs[a as usize * self.raters as usize + b as usize].cell(c, k)
    }

    /// The agreement of raters `a` and `b`. Cost: the square of the categories, as of `kappa`.
    pub fn pair(&self, a: u8, b: u8) -> PairLine
        requires apart { a < b }
        requires b_in { b < self.now.raters }
        ensures exact { result ≡ pair_line self.now a b }
        ensures cells { result.units ≡ cells_sum
            (confusion_of self.now.documents a b) self.now.categories self.now.categories }
        ensures writable { IfSome result.kappa (λ f. Writable f) }
    {
        let sums = table_sums(&self.tallies.pairs[a as usize * self.raters as usize + b as usize]);
        PairLine {
            first: a,
            second: b,
            units: sums.units,
            agreed: sums.agreed,
            kappa: kappa_of_sums(sums),
        }
    }

    /// Cohen's kappa of raters `a` and `b`: none where chance alone gives full agreement.
    pub fn kappa(&self, a: u8, b: u8) -> Option<Fraction>
        requires apart { a < b }
        requires b_in { b < self.now.raters }
        ensures exact { result ≡ kappa_of self.now a b }
        ensures writable { IfSome result (λ f. Writable f) }
    {
        self.pair(a, b).kappa
    }

    /// The agreement of all raters. Cost: the categories.
    pub fn alpha(&self) -> AlphaLine
        ensures exact { result ≡ alpha_line self.now }
        ensures writable { IfSome result.alpha (λ f. Writable f) }
    {
        let sums = label_sums(&self.tallies.coincidences, &self.tallies.labels);
        AlphaLine {
            units: self.tallies.units,
            values: sums.values,
            alpha: alpha_of_sums(sums),
        }
    }
}

/// The tokens of these documents.
fn tokens_of(documents: &[DocumentRows]) -> u64
    requires { tokens_in documents.now < 2 ^ 32 }
    ensures { result ≡ tokens_in documents.now }
{
    let mut total = 0;
    for document in documents {
        total += document.tokens as u64;
    }
    total
}

/// What a caller asks before it calls, where it does not know.
impl Tables {
    /// How many raters there are.
    pub fn raters(&self) -> u8
        ensures { result ≡ self.now.raters }
    {
        self.raters
    }

    /// How many labels there are.
    pub fn categories(&self) -> u8
        ensures { result ≡ self.now.categories }
    {
        self.categories
    }

    /// How many documents were admitted.
    pub fn document_count(&self) -> usize
        ensures { result ≡ length self.now.documents }
    {
        self.documents.len()
    }

    /// How many tokens a document has, by its number from 0; `None` where there is no such document.
    pub fn tokens_on(&self, doc: u32) -> Option<u32>
        ensures some { IfSome result (λ tokens. (doc < length self.now.documents) × (tokens ≡ (document_at self.now.documents doc).tokens)) }
        ensures none { IfNone result (length self.now.documents ≤ doc) }
    {
        if (doc as usize) < self.documents.len() {
            Some(self.documents[doc as usize].tokens)
        } else {
            None
        }
    }

    /// How many tokens all documents have. Cost: a step for each document.
    pub fn token_count(&self) -> u64
        ensures { result ≡ tokens_in self.now.documents }
    {
        tokens_of(self.documents.as_slice())
    }
}
