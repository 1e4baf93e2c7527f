//! The layers that stand, with running scores.
ghost use Rattle.std.specs.Prelude.{◌≡◌, ◌<◌, ◌≤◌, [], length, Some, None, is_some, IfOk, IfSome, OnOk, OnErr};
ghost use Rattle.kappa_alpha.specs.Figures.{Writable};
ghost use Rattle.layer_model.specs.Coherent.{IsCoherent};
ghost use Rattle.match_scores.specs.Standing.{admitted, layer_at, line_of, posted};

use crate::document::Document;
use crate::line::{ScoreLine, line_of_tally};
use crate::sort::Sort;
use crate::tally::Tallies;
use crate::totals::{no_totals, totals_at};
use layer_model::Layer;
use mark_base::Memory;
use std::alloc::Global;
use std::marker::Model;

/// The layers that stand, by document and annotator, with running counts of what each two annotators have
/// in common. Annotators are numbers from 0.
///
/// Memory: a copy of each layer that stands, the places of its contents, and for each document one table of
/// the contents of its layers.
#[derive(Drop)]
pub struct Scores {
    alloc: Global,
    raters: u8,
    totals: Vec<Tallies>,
    documents: Vec<Document>,
}

impl Model for Scores {
    ghost use Rattle.match_scores.specs.Standing.{Standing, standing_code};
    ghost use Rattle.match_scores.specs.Counted.{AreTotals};

    ghost Value = { Standing };

    ghost coded = { standing_code };

    ghost view = { λ scores. record { raters = scores.raters; documents = scores.documents.items } };

    ghost invariant = { λ scores. AreTotals scores.raters scores.documents.items scores.totals.items };
}

impl Scores {
    /// Scores of so many annotators, without documents.
    pub fn new(alloc: Global, raters: u8) -> Result<Scores, Memory>
        requires { raters ≤ 16 }
        ensures { IfOk result (λ scores. scores ≡ record { raters = raters; documents = [] }) }
    {
        let totals = no_totals(alloc, raters)?;
        Ok(Scores {
            alloc,
            raters,
            totals,
            documents: Vec::new(alloc),
        })
    }

    /// How many annotators there are.
    pub fn raters(&self) -> u8
        ensures { result ≡ self.now.raters }
    {
        self.raters
    }

    /// How many documents were admitted.
    pub fn document_count(&self) -> usize
        ensures { result ≡ length self.now.documents }
    {
        self.documents.len()
    }

    /// Takes in a document, on which no layer stands, and gives its number, from 0. On want of memory
    /// everything is as before.
    pub fn admit(&mut self) -> Result<u32, Memory>
        requires { length self.old.documents < 4096 }
        ensures number { IfOk result (λ number. number ≡ length self.old.documents) }
        ensures admitted { OnOk result (self.new ≡ admitted self.old) }
        ensures refused { OnErr result (self.new ≡ self.old) }
    {
        let number = self.documents.len() as u32;
        let document = Document::new(self.alloc, self.raters)?;
        self.documents.push(document)?;
        Ok(number)
    }

    /// Puts a well-formed layer of an annotator on a document in the place of the one that stood. On want of
    /// memory everything is as before.
    ///
    /// Cost: 20 look-ups for each annotation, and the layers of the document; no other document is looked at.
    pub fn post(&mut self, doc: u32, rater: u8, layer: &Layer) -> Result<(), Memory>
        requires doc_in { doc < length self.old.documents }
        requires rater_in { rater < self.old.raters }
        requires whole { IsCoherent layer.now }
        ensures posted { OnOk result (self.new ≡ posted self.old doc rater (Some layer.now)) }
        ensures refused { OnErr result (self.new ≡ self.old) }
    {
        let document = &mut self.documents[doc as usize];
        document.post(
            self.alloc,
            self.totals.as_mut_slice(),
            self.raters,
            rater,
            layer,
        )
    }

    /// Takes an annotator's layer off a document, and says whether one stood. It takes no memory.
    ///
    /// Cost: the layers of the document.
    pub fn withdraw(&mut self, doc: u32, rater: u8) -> bool
        requires doc_in { doc < length self.old.documents }
        requires rater_in { rater < self.old.raters }
        ensures stood { result ≡ is_some (layer_at self.old doc rater) }
        ensures withdrawn { self.new ≡ posted self.old doc rater None }
    {
        let document = &mut self.documents[doc as usize];
        document.withdraw(self.totals.as_mut_slice(), self.raters, rater)
    }

    /// What annotators `a` and `b` have in common of a sort. It takes no memory, and looks at no layer.
    pub fn line(&self, a: u8, b: u8, sort: Sort) -> ScoreLine
        requires apart { a < b }
        requires b_in { b < self.now.raters }
        ensures exact { result ≡ line_of self.now a b sort }
        ensures writable { IfSome result.score (λ score. Writable score) }
    {
        let totals = totals_at(self.totals.as_slice(), self.raters, a, b);
        line_of_tally(totals.of(sort))
    }
}
