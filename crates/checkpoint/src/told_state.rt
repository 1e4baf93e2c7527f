//! A project of which the pieces are read.
ghost use Rattle.std.specs.Prelude.{◌≡◌, ◌∷◌, ◌++◌, [], IfOk, OnOk, bytes_eq, length, map, not, position};
ghost use Rattle.std.specs.Arc.{arc_value};
ghost use Rattle.std.specs.List.{filter, list_any, position_or_len};
ghost use Rattle.project_machine.specs.ProjectState.{annotators, document, is_annotator, is_there, new_document, rater_of};
ghost use Rattle.project_state.specs.Restoring.{CanBeKept};
ghost use Rattle.checkpoint.specs.Projects.{begun, put_row};

use crate::told_document::ToldDocument;
use char_documents::{Doc, DocFault};
use conf_model::Conf;
use entry_bytes::Person;
use mark_base::{Memory, Slug};
use project_state::{BookState, Roster, StoredDocument, StoredRow, StoredSnapshot};
use std::alloc::Global;
use std::marker::Model;
use std::sync::Arc;

/// A project so far: its documents with blank rows where none was read, and its snapshots that were read.
#[derive(Drop)]
pub struct ToldState {
    conf: Arc<Conf>,
    roster: Roster,
    level: u8,
    place: u64,
    documents: Vec<ToldDocument>,
    snapshots: Vec<StoredSnapshot>,
}

impl Model for ToldState {
    ghost use Rattle.std.specs.Arc.{arc_value};
    ghost use Rattle.project_machine.specs.ProjectState.{ProjectState};
    ghost use Rattle.project_state.specs.Codes.{state_code};

    ghost Value = { ProjectState };

    ghost coded = { state_code };

    ghost view = { λ s. record { conf = arc_value s.conf; level = s.level; people = s.roster; place = s.place; documents = s.documents.items; snapshots = s.snapshots.items } };
}

/// The place of an annotator among the annotators.
fn annotator_place(people: &[Person], who: &Slug) -> Option<usize>
    ensures { result ≡ position (λ person. bytes_eq who.now person.name) (filter (λ person. not person.curator) people.now) }
{
    people
        .iter()
        .filter(|person| !person.curator)
        .position(|person| *who == person.name)
}

/// How many annotators there are.
fn annotator_count(people: &[Person]) -> usize
    ensures { result ≡ length (filter (λ person. not person.curator) people.now) }
{
    people.iter().filter(|person| !person.curator).count()
}

/// The place of an annotator among the annotators, from 0; without one, their count.
#[tactic(auto, using(project_state::proofs::PeopleLemmas::placed_by_name, project_state::proofs::PeopleLemmas::nowhere_by_name))]
fn rater_among(people: &[Person], who: &Slug) -> usize
    ensures { result ≡ position_or_len (bytes_eq who.now) (map (λ person. person.name) (filter (λ person. not person.curator) people.now)) }
{
    match annotator_place(people, who) {
        Some(place) => place,
        None => annotator_count(people),
    }
}

/// Whether somebody is an annotator.
#[tactic(auto, using(project_state::proofs::PeopleLemmas::any_there, project_state::proofs::PeopleLemmas::any_nowhere))]
fn is_among(people: &[Person], who: &Slug) -> bool
    ensures { result ≡ list_any (bytes_eq who.now) (map (λ person. person.name) (filter (λ person. not person.curator) people.now)) }
{
    match annotator_place(people, who) {
        Some(_) => true,
        None => false,
    }
}

/// The text without characters.
fn no_text(alloc: Global) -> Result<Arc<Doc>, Memory>
    ensures { IfOk result (λ text. arc_value text ≡ []) }
{
    match Doc::new(alloc, "") {
        Ok(doc) => Ok(Arc::new(alloc, doc)?),
        Err(DocFault::Memory) => Err(Memory),
        Err(DocFault::TooLong) => unreachable!(),
    }
}

/// Documents as a project keeps them.
#[tactic(auto, using(crate::proofs::StoredLemmas::stored_none, crate::proofs::StoredLemmas::stored_more, crate::proofs::StoredLemmas::stored_all))]
fn stored(alloc: Global, documents: Vec<ToldDocument>) -> Result<Vec<StoredDocument>, Memory>
    ensures { IfOk result (λ stored. stored.items ≡ documents.items) }
{
    let mut rest = documents;
    let mut stored = Vec::new(alloc);
    while let Some(document) = rest.pop() {
        stored.push(document.into_stored())?;
    }
    stored.reverse();
    Ok(stored)
}

impl ToldState {
    /// A project without documents.
    pub(crate) fn begun(
        alloc: Global,
        conf: Arc<Conf>,
        roster: Roster,
        level: u8,
        place: u64,
    ) -> ToldState
        ensures { result ≡ begun place level roster (arc_value conf) }
    {
        ToldState {
            conf,
            roster,
            level,
            place,
            documents: Vec::new(alloc),
            snapshots: Vec::new(alloc),
        }
    }

    /// The configuration.
    pub(crate) fn conf(&self) -> &Arc<Conf>
        ensures { arc_value result.now ≡ self.now.conf }
    {
        &self.conf
    }

    /// The place of the last change.
    pub(crate) fn place(&self) -> u64
        ensures { result ≡ self.now.place }
    {
        self.place
    }

    /// How many documents there are.
    pub(crate) fn documents(&self) -> usize
        ensures { result ≡ length self.now.documents }
    {
        self.documents.len()
    }

    /// The place of an annotator among the annotators, from 0; without one, their count.
    pub(crate) fn rater_of(&self, who: &Slug) -> usize
        ensures { result ≡ rater_of self.now who.now }
    {
        rater_among(self.roster.people(), who)
    }

    /// Whether somebody is an annotator.
    pub(crate) fn is_annotator(&self, who: &Slug) -> bool
        ensures { result ≡ is_annotator self.now who.now }
    {
        is_among(self.roster.people(), who)
    }

    /// Whether a document of this name is there. Cost: the names.
    pub(crate) fn is_there(&self, name: &Slug) -> bool
        ensures { result ≡ is_there self.now name.now }
    {
        self.documents
            .iter()
            .any(|document| *document.name() == *name)
    }

    /// The text of the document of a number, or the empty one where there is none.
    pub(crate) fn text_at(&self, alloc: Global, doc: u32) -> Result<Arc<Doc>, Memory>
        ensures { IfOk result (λ text. arc_value text ≡ (document self.now doc).text) }
    {
        match self.documents.get(doc as usize) {
            Some(document) => Ok(document.text().clone()?),
            None => no_text(alloc),
        }
    }

    /// How many annotators there are.
    #[tactic(auto, using(project_state::proofs::StoredLemmas::annotators_counted))]
    fn raters(&self) -> usize
        ensures { result ≡ length (annotators self.now) }
    {
        annotator_count(self.roster.people())
    }

    /// Adds a document on which nothing was done.
    pub(crate) fn add_text(&mut self, alloc: Global, name: Slug, text: Doc) -> Result<(), Memory>
        ensures { OnOk result (self.new ≡ record self.old { documents = self.old.documents ++ new_document self.old name text ∷ [] }) }
    {
        let document = ToldDocument::blank(alloc, name, text, self.raters())?;
        self.documents.push(document)?;
        Ok(())
    }

    /// It has another row of the annotator of a place in the document of a number.
    pub(crate) fn put_row(&mut self, doc: u32, rater: usize, row: StoredRow)
        ensures { self.new ≡ put_row self.old doc rater row }
    {
        let doc = doc as usize;
        if doc < self.documents.len() {
            self.documents[doc].put(rater, row);
        }
    }

    /// Adds a snapshot.
    pub(crate) fn add_snapshot(&mut self, snapshot: StoredSnapshot) -> Result<(), Memory>
        ensures { OnOk result (self.new ≡ record self.old { snapshots = self.old.snapshots ++ snapshot ∷ [] }) }
    {
        self.snapshots.push(snapshot)?;
        Ok(())
    }

    /// The project, as a book keeps it.
    pub(crate) fn into_state(self, alloc: Global) -> Result<BookState, Memory>
        requires { CanBeKept self.documents }
        ensures { IfOk result (λ kept. kept.state ≡ self) }
    {
        let ToldState {
            conf,
            roster,
            level,
            place,
            documents,
            snapshots,
        } = self;
        let documents = stored(alloc, documents)?;
        match BookState::restored(alloc, conf, roster, level, place, documents, snapshots)? {
            Some(state) => Ok(state),
            None => unreachable!(),
        }
    }
}
