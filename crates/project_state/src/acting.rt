//! How an act is done to a project: first all the memory that it takes, then the act, which takes none.
ghost use Rattle.std.specs.Prelude.{◌≡◌, ℕ, List, ◌+◌, ◌-◌, ◌^◌, ◌<◌, ◌∷◌, ◌++◌, [], Some, OnOk, bytes_eq, false, get_or, length, map, set, vec_capacity, vec_len};
ghost use Rattle.project_machine.specs.Machine.{is_full};
ghost use Rattle.project_machine.specs.ProjectState.{blank_row, is_there, no_document, no_snapshot, row_at, with_row};
ghost use Rattle.project_machine.specs.History.{freed, on_snapshot};
ghost use Rattle.project_state.specs.Acting.{CanAct, HasMemory, done_by, on_rater, performed};
ghost use Rattle.project_state.specs.RowActs.{CanActOnRow, row_behind};
ghost use Rattle.project_state.specs.Stored.{numbered_as};

use crate::act::Act;
use crate::document::StoredDocument;
use crate::row_act::RowAct;
use crate::state::BookState;
use crate::stored_snapshot::StoredSnapshot;
use curator_decisions::Decisions;
use mark_base::{Memory, Slug};
use std::alloc::Global;
use std::collections::BTreeMap;

/// Puts a number under a name.
pub(crate) fn put_number(
    numbers: &mut BTreeMap<Slug, u32>,
    name: &Slug,
    number: u32,
) -> Result<(), Memory>
    ensures there { OnOk result (numbered_as numbers.new.entries name.now ≡ Some number) }
    ensures others { (other : List ℕ) → bytes_eq name.now other ≡ false → numbered_as numbers.new.entries other ≡ numbered_as numbers.old.entries other }
{
    numbers.insert(name.copy()?, number)?;
    Ok(())
}

/// Room for a document, and its number under its name.
fn make_document_room(
    documents: &mut Vec<StoredDocument>,
    numbers: &mut BTreeMap<Slug, u32>,
    name: &Slug,
) -> Result<(), Memory>
    requires { length documents.old.items < 4096 }
    ensures same { documents.new.items ≡ documents.old.items }
    ensures spare { OnOk result (0 < vec_capacity documents.new - vec_len documents.new) }
    ensures there { OnOk result (numbered_as numbers.new.entries name.now ≡ Some (length documents.old.items)) }
    ensures others { (other : List ℕ) → bytes_eq name.now other ≡ false → numbered_as numbers.new.entries other ≡ numbered_as numbers.old.entries other }
{
    documents.try_reserve(1)?;
    put_number(numbers, name, documents.len() as u32)
}

/// Room for a snapshot.
fn make_snapshot_room(snapshots: &mut Vec<StoredSnapshot>) -> Result<(), Memory>
    ensures same { snapshots.new.items ≡ snapshots.old.items }
    ensures room { OnOk result (0 < vec_capacity snapshots.new - vec_len snapshots.new) }
{
    snapshots.try_reserve(1)?;
    Ok(())
}

/// Does an act to a row of a document, where they are there.
fn act_on(alloc: Global, documents: &mut Vec<StoredDocument>, doc: usize, rater: usize, act: RowAct)
    requires { CanActOnRow act (get_or (get_or documents.old.items doc no_document).rows rater blank_row) }
    ensures { documents.new.items ≡ set documents.old.items doc (with_row rater (row_behind act (get_or (get_or documents.old.items doc no_document).rows rater blank_row)) (get_or documents.old.items doc no_document)) }
{
    if doc < documents.len() {
        let document = &mut documents[doc];
        document.act(alloc, rater, act);
    }
}

/// Puts other verdicts in a snapshot, where it is there.
fn decide_on(snapshots: &mut [StoredSnapshot], at: usize, decisions: Decisions)
    ensures { snapshots.new ≡ set snapshots.old at (record (get_or snapshots.old at no_snapshot) { verdicts = decisions }) }
{
    if at < snapshots.len() {
        let snapshot = &mut snapshots[at];
        snapshot.decide(decisions);
    }
}

/// No row of any document is out any more.
fn free_documents(documents: &mut [StoredDocument])
    ensures { documents.new ≡ map freed documents.old }
{
    for document in documents.iter_mut() {
        document.free();
    }
}

impl BookState {
    /// Takes the memory for a document of this name: room, and its number under its name.
    fn make_room_for_document(&mut self, name: &Slug) -> Result<(), Memory>
        requires alone { is_there self.old.state name.now ≡ false }
        requires few { length self.old.state.documents < 4096 }
        ensures same { self.new.state ≡ self.old.state }
        ensures spare { OnOk result (0 < self.new.spare) }
        ensures there { OnOk result (numbered_as self.new.numbers name.now ≡ Some (length self.old.state.documents)) }
    {
        make_document_room(&mut self.documents, &mut self.numbers, name)
    }

    /// Takes the memory for a snapshot.
    fn make_room_for_snapshot(&mut self) -> Result<(), Memory>
        ensures same { self.new.state ≡ self.old.state }
        ensures room { OnOk result (0 < self.new.room) }
    {
        make_snapshot_room(&mut self.snapshots)
    }

    /// Takes all the memory that an act takes, before it is known whether it will be done. The project is as it was,
    /// whether there is memory or not. Cost: a look-up in an ordered map where a document is added, else nothing.
    pub fn make_room(&mut self, act: &Act) -> Result<(), Memory>
        requires { CanAct act.now self.old.state }
        ensures same { self.new.state ≡ self.old.state }
        ensures room { OnOk result (HasMemory act.now self.new) }
    {
        match act {
            Act::AddDocument(added) => self.make_room_for_document(added.name()),
            Act::Snap(_) => self.make_room_for_snapshot(),
            _ => Ok(()),
        }
    }

    /// Adds a document, for which there is room.
    fn add_document(&mut self, added: StoredDocument)
        requires full { is_full self.old.state added.text ≡ false }
        requires spare { 0 < self.old.spare }
        requires numbered { numbered_as self.old.numbers added.name ≡ Some (length self.old.state.documents) }
        ensures { self.new.state ≡ record self.old.state { documents = self.old.state.documents ++ added ∷ [] } }
    {
        self.total += u64::from(added.text().char_count());
        self.documents.push_reserved(added);
    }

    /// Adds a snapshot, for which there is room.
    fn add_snapshot(&mut self, taken: StoredSnapshot)
        requires { 0 < self.old.room }
        ensures { self.new.state ≡ record self.old.state { snapshots = self.old.state.snapshots ++ taken ∷ [] } }
    {
        self.snapshots.push_reserved(taken);
    }

    /// Does an act to a row.
    fn act(&mut self, doc: usize, rater: usize, act: RowAct)
        requires { CanActOnRow act (row_at self.old.state doc rater) }
        ensures { self.new.state ≡ on_rater self.old.state doc rater (row_behind act) }
    {
        let alloc = *self.documents.allocator();
        act_on(alloc, &mut self.documents, doc, rater, act);
    }

    /// Puts other verdicts in a snapshot.
    fn decide(&mut self, number: u64, decisions: Decisions)
        ensures { self.new.state ≡ on_snapshot self.old.state number (λ shot. record shot { verdicts = decisions }) }
    {
        let at = number.saturating_sub(1) as usize;
        decide_on(self.snapshots.as_mut_slice(), at, decisions);
    }

    /// No row is out any more.
    fn free_all(&mut self)
        ensures { self.new.state ≡ record self.old.state { documents = map freed self.old.state.documents } }
    {
        free_documents(self.documents.as_mut_slice());
    }

    /// Does all of an act but to count it.
    fn do_act(&mut self, act: Act)
        requires place { self.old.state.place < 2 ^ 64 - 1 }
        requires can { CanAct act self.old.state }
        requires room { HasMemory act self.old }
        ensures { self.new.state ≡ done_by act self.old.state }
    {
        match act {
            Act::AddDocument(added) => self.add_document(added),
            Act::Hold { doc, rater } => {
                let place = self.place + 1;
                self.act(doc, rater, RowAct::Hold(place));
            }
            Act::Commit { doc, rater, layer } => self.act(doc, rater, RowAct::Commit(layer)),
            Act::Park {
                doc,
                rater,
                done,
                undone,
            } => self.act(doc, rater, RowAct::Park(done, undone)),
            Act::Finish {
                doc,
                rater,
                finished,
            } => self.act(doc, rater, RowAct::Finish(finished)),
            Act::Ignore {
                doc,
                rater,
                ignored,
            } => self.act(doc, rater, RowAct::Ignore(ignored)),
            Act::Snap(taken) => self.add_snapshot(taken),
            Act::Decide { number, decisions } => self.decide(number, decisions),
            Act::FreeAll => self.free_all(),
        }
    }

    /// The project is at the next place.
    fn count_act(&mut self)
        requires { self.old.state.place < 2 ^ 64 - 1 }
        ensures { self.new.state ≡ record self.old.state { place = self.old.state.place + 1 } }
    {
        self.place += 1;
    }

    /// Does an act, for which there is memory. It takes none. Cost: an act on a row copies nothing; `FreeAll` goes
    /// over all rows.
    pub fn perform(&mut self, act: Act)
        requires place { self.old.state.place < 2 ^ 64 - 1 }
        requires can { CanAct act self.old.state }
        requires room { HasMemory act self.old }
        ensures { self.new.state ≡ performed act self.old.state }
    {
        self.do_act(act);
        self.count_act();
    }
}
