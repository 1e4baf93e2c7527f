//! A project at a place of its history.
ghost use Rattle.std.specs.Prelude.{◌≡◌, ◌≤◌, [], IfOk, IfSome, is_some, length, replicate, slice_get, unwrap_or};
ghost use Rattle.std.specs.Arc.{arc_value};
ghost use Rattle.std.specs.Option.{option_copied};
ghost use Rattle.project_machine.specs.ProjectState.{annotators, blank_row, document, is_annotator, is_curator, is_there, number_of, rater_of, row_in};
ghost use Rattle.project_machine.specs.Requests.{Founded};
ghost use Rattle.project_machine.specs.History.{effect, unfounded};
ghost use Rattle.project_state.specs.Stored.{IsStored, characters_in};
ghost use Rattle.project_state.specs.LookUps.{number_by};

use crate::document::StoredDocument;
use crate::row::{StoredRow, blank_rows};
use crate::stored_snapshot::StoredSnapshot;
use crate::{Roster, people};
use conf_model::Conf;
use mark_base::{Memory, Slug};
use std::alloc::Global;
use std::collections::BTreeMap;
use std::marker::Model;
use std::sync::Arc;

/// A project at a place of its history. Contracts see its state, and beside it under which numbers the names of
/// documents stand, and room.
#[derive(Drop)]
pub struct BookState {
    pub(crate) conf: Arc<Conf>,
    pub(crate) level: u8,
    pub(crate) roster: Roster,
    pub(crate) place: u64,
    pub(crate) documents: Vec<StoredDocument>,
    pub(crate) snapshots: Vec<StoredSnapshot>,
    pub(crate) numbers: BTreeMap<Slug, u32>,
    pub(crate) total: u64,
}

impl Model for BookState {
    ghost use Rattle.std.specs.Arc.{arc_value};
    ghost use Rattle.std.specs.Prelude.{vec_len, vec_capacity, ◌-◌};
    ghost use Rattle.std.specs.Prelude.{◌≡◌};
    ghost use Rattle.project_state.specs.Stored.{IsStored, Stored, characters_in};
    ghost use Rattle.project_state.specs.Codes.{stored_code};

    ghost Value = { Stored };

    ghost coded = { stored_code };

    ghost view = { λ s. record { state = record { conf = arc_value s.conf; level = s.level; people = s.roster; place = s.place; documents = s.documents.items; snapshots = s.snapshots.items }; numbers = s.numbers.entries; spare = vec_capacity s.documents - vec_len s.documents; room = vec_capacity s.snapshots - vec_len s.snapshots } };

    ghost invariant = { λ s. IsStored (record { conf = arc_value s.conf; level = s.level; people = s.roster; place = s.place; documents = s.documents.items; snapshots = s.snapshots.items }) s.numbers.entries × (s.total ≡ characters_in (record { conf = arc_value s.conf; level = s.level; people = s.roster; place = s.place; documents = s.documents.items; snapshots = s.snapshots.items })) };
}

impl BookState {
    /// A project as it is founded with a configuration, people, and the level at which types are compared, 255 for
    /// none. It takes no memory.
    pub fn founded(alloc: Global, conf: Arc<Conf>, roster: Roster, level: u8) -> BookState
        ensures state { result.state ≡ effect 1 (Founded (arc_value conf) level roster) unfounded }
        ensures numbers { result.numbers ≡ [] }
    {
        BookState {
            conf,
            level,
            roster,
            place: 1,
            documents: Vec::new(alloc),
            snapshots: Vec::new(alloc),
            numbers: BTreeMap::new(alloc),
            total: 0,
        }
    }

    /// Tells a proof that the state is kept in order. It does nothing.
    pub fn keeps(&self)
        ensures { IsStored self.now.state self.now.numbers }
    {
        let _total = &self.total;
    }

    /// The configuration.
    pub fn conf(&self) -> &Arc<Conf>
        ensures { arc_value result.now ≡ self.now.state.conf }
    {
        &self.conf
    }

    /// The people.
    pub fn roster(&self) -> &Roster
        ensures { result.now ≡ self.now.state.people }
    {
        &self.roster
    }

    /// The level at which types are compared, 255 for none.
    pub fn level(&self) -> u8
        ensures { result ≡ self.now.state.level }
    {
        self.level
    }

    /// The place of the last change.
    pub fn place(&self) -> u64
        ensures { result ≡ self.now.state.place }
    {
        self.place
    }

    /// The documents as they were added.
    pub fn document_list(&self) -> &[StoredDocument]
        ensures { result.now ≡ self.now.state.documents }
    {
        self.documents.as_slice()
    }

    /// The snapshots as they were taken.
    pub fn snapshots(&self) -> &[StoredSnapshot]
        ensures { result.now ≡ self.now.state.snapshots }
    {
        self.snapshots.as_slice()
    }

    /// How many characters all documents have.
    pub fn characters(&self) -> u64
        ensures value { result ≡ characters_in self.now.state }
        ensures low { characters_in self.now.state ≤ 16777216 }
    {
        self.keeps();
        self.total
    }

    /// Whether somebody is an annotator.
    pub fn is_annotator(&self, who: &Slug) -> bool
        ensures { result ≡ is_annotator self.now.state who.now }
    {
        people::is_annotator(self.roster.people(), who)
    }

    /// Whether somebody is a curator.
    pub fn is_curator(&self, who: &Slug) -> bool
        ensures { result ≡ is_curator self.now.state who.now }
    {
        people::is_curator(self.roster.people(), who)
    }

    /// How many annotators there are.
    #[tactic(auto, using(crate::proofs::StoredLemmas::annotators_counted))]
    pub fn annotator_count(&self) -> usize
        ensures { result ≡ length (annotators self.now.state) }
    {
        people::annotator_count(self.roster.people())
    }

    /// The place of an annotator among the annotators, from 0; without one, their count.
    pub fn rater_of(&self, who: &Slug) -> usize
        ensures { result ≡ rater_of self.now.state who.now }
    {
        people::rater_of(self.roster.people(), who)
    }

    /// The number under which a name stands, where it is that document's.
    fn number_by(&self, name: &Slug) -> usize
        ensures { result ≡ number_by self.now.state self.now.numbers name.now }
    {
        let Some(number) = self.numbers.get(name) else {
            return self.documents.len();
        };
        let doc = *number as usize;
        match self.documents.get(doc) {
            Some(document) => {
                if document.is_named(name) {
                    doc
                } else {
                    self.documents.len()
                }
            }
            None => self.documents.len(),
        }
    }

    /// The number of the document of a name, from 0; without one, their count. Cost: a look-up in an ordered map.
    #[tactic(auto, using(crate::proofs::StoredLemmas::number_looked_up))]
    pub fn number_of(&self, name: &Slug) -> usize
        ensures { result ≡ number_of self.now.state name.now }
    {
        self.keeps();
        self.number_by(name)
    }

    /// Whether a document of this name is there. Cost: as `number_of`.
    #[tactic(auto, using(crate::proofs::StoredLemmas::there_by_number))]
    pub fn is_there(&self, name: &Slug) -> bool
        ensures { result ≡ is_there self.now.state name.now }
    {
        self.number_of(name) < self.documents.len()
    }

    /// The document of the number of a name.
    fn document_by_number(&self, name: &Slug) -> Option<&StoredDocument>
        ensures { option_copied result ≡ slice_get self.now.state.documents (number_of self.now.state name.now) }
    {
        self.documents.get(self.number_of(name))
    }

    /// The document of a name. Cost: as `number_of`.
    #[tactic(auto, using(crate::proofs::StoredLemmas::found_there, crate::proofs::StoredLemmas::found_nowhere, crate::proofs::StoredLemmas::found_here))]
    pub fn document(&self, name: &Slug) -> Option<&StoredDocument>
        ensures there { is_some result ≡ is_there self.now.state name.now }
        ensures here { IfSome result (λ found. found.now ≡ document self.now.state (number_of self.now.state name.now)) }
        ensures value { option_copied result ≡ slice_get self.now.state.documents (number_of self.now.state name.now) }
    {
        match self.document_by_number(name) {
            Some(document) => Some(document),
            None => None,
        }
    }

    /// The row of an annotator in the document of a name, where it is there. Cost: as `number_of`.
    #[tactic(auto, using(crate::proofs::StoredLemmas::row_there, crate::proofs::StoredLemmas::row_missing, crate::proofs::StoredLemmas::row_nowhere))]
    pub fn row_in(&self, name: &Slug, who: &Slug) -> Option<&StoredRow>
        ensures { unwrap_or (option_copied result) blank_row ≡ row_in self.now.state name.now who.now }
    {
        match self.document(name) {
            Some(document) => document.row(self.rater_of(who)),
            None => None,
        }
    }

    /// The rows of a document that is added: a blank one for each annotator.
    pub fn new_rows(&self, alloc: Global) -> Result<Vec<StoredRow>, Memory>
        ensures { IfOk result (λ rows. rows.items ≡ replicate (length (annotators self.now.state)) blank_row) }
    {
        blank_rows(alloc, self.annotator_count())
    }
}
