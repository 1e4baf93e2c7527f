//! What a project lends by number, without memory: out of range it is `None`, 0 or `false`.
ghost use Rattle.std.specs.Prelude.{◌≡◌, length, option_map, slice_get};
ghost use Rattle.std.specs.Arc.{arc_value};
ghost use Rattle.std.specs.Option.{option_copied};
ghost use Rattle.project_machine.specs.ProjectState.{is_some_out, row_at};
ghost use Rattle.project_state.specs.Lending.{committed_layer, found_row};

use crate::document::StoredDocument;
use crate::row::StoredRow;
use crate::state::BookState;
use char_documents::Doc;
use layer_model::Layer;
use mark_base::Slug;
use std::sync::Arc;

impl BookState {
    /// How many documents there are.
    pub fn documents(&self) -> u32
        ensures { result ≡ length self.now.state.documents }
    {
        self.keeps();
        self.document_list().len() as u32
    }

    /// The document of a number, from 0.
    pub fn document_at(&self, doc: usize) -> Option<&StoredDocument>
        ensures { option_copied result ≡ slice_get self.now.state.documents doc }
    {
        self.document_list().get(doc)
    }

    /// The name of the document of a number, from 0.
    pub fn document_name(&self, doc: u32) -> Option<&Slug>
        ensures { option_copied result ≡ option_map (λ d. d.name) (slice_get self.now.state.documents doc) }
    {
        match self.document_at(doc as usize) {
            Some(document) => Some(document.name()),
            None => None,
        }
    }

    /// The text of the document of a number, from 0.
    pub fn document_text(&self, doc: u32) -> Option<&Arc<Doc>>
        ensures { option_map (λ text. arc_value text.now) result ≡ option_map (λ d. d.text) (slice_get self.now.state.documents doc) }
    {
        match self.document_at(doc as usize) {
            Some(document) => Some(document.text()),
            None => None,
        }
    }

    /// The row of an annotator, by place among the annotators, in the document of a number.
    pub fn row(&self, doc: usize, rater: usize) -> Option<&StoredRow>
        ensures { option_copied result ≡ found_row self.now.state doc rater }
    {
        match self.document_at(doc) {
            Some(document) => document.row(rater),
            None => None,
        }
    }

    /// How often the layer of an annotator on a document was committed.
    #[tactic(auto, using(crate::proofs::StoredLemmas::row_at_missing))]
    pub fn revision(&self, doc: u32, rater: u8) -> u64
        ensures { result ≡ (row_at self.now.state doc rater).revision }
    {
        match self.row(doc as usize, rater as usize) {
            Some(row) => row.revision(),
            None => 0,
        }
    }

    /// The committed layer of an annotator on a document, where one was committed.
    #[tactic(auto, using(crate::proofs::StoredLemmas::row_at_missing))]
    pub fn layer(&self, doc: u32, rater: u8) -> Option<&Arc<Layer>>
        ensures { option_map (λ layer. arc_value layer.now) result ≡ committed_layer (row_at self.now.state doc rater) }
    {
        match self.row(doc as usize, rater as usize) {
            Some(row) => {
                if row.revision() == 0 {
                    None
                } else {
                    Some(row.layer())
                }
            }
            None => None,
        }
    }

    /// Whether the layer of an annotator on a document is left out of the tables.
    #[tactic(auto, using(crate::proofs::StoredLemmas::row_at_missing))]
    pub fn ignored(&self, doc: u32, rater: u8) -> bool
        ensures { result ≡ (row_at self.now.state doc rater).ignored }
    {
        match self.row(doc as usize, rater as usize) {
            Some(row) => row.is_ignored(),
            None => false,
        }
    }

    /// Whether some layer is out. Cost: all rows.
    pub fn is_some_out(&self) -> bool
        ensures { result ≡ is_some_out self.now.state }
    {
        self.document_list()
            .iter()
            .any(|document| document.is_some_out())
    }
}
