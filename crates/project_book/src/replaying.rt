//! A history that is told again by the entries of a journal, one after another.
ghost use Rattle.std.specs.Prelude.{◌≡◌, ◌≢◌, ◌<◌, ◌≤◌, ℕ, List, [], ◌∷◌, IfErr, IfNone, IfOk, IfSome, OnOk, Some, false, length, slice_get, take, true};
ghost use Rattle.std.specs.Arc.{arc_value};
ghost use Rattle.project_machine.specs.Legal.{IsFounding, IsSound};
ghost use Rattle.project_machine.specs.Opening.{IsReplay, freeing_bytes, restored};
ghost use Rattle.project_state.specs.Entries.Asking.{plain_asking};
ghost use Rattle.checkpoint.specs.Runs.{IsCheckpoint};
ghost use Rattle.project_book.specs.Founding.{founded};
ghost use Rattle.project_book.specs.Opening.{BeginsWithPiece};
ghost use Rattle.project_book.specs.Replaying.{BeginsSo, IsAskedBy, IsAskingOf, IsFoundingBy, IsFreeing, IsMadeBy, IsNextKept, IsReading, IsReplayRefusal, IsTakenUp};

use crate::book::Book;
use crate::founding::{Beginning, complete, founding_change, share};
use crate::history::History;
use crate::kept_already::KeptAlready;
use crate::open_fault::OpenFault;
use crate::state_pieces::states_are_told_apart;
use ann_writer::written_layers_are_utf8;
use annotation_conf::sound_configurations_are_read_back;
use checkpoint::{RestoreFault, Restored, checkpoints_are_pieces, checkpoints_are_sound, restore};
use entry_bytes::{Entry, entries_are_told_apart, read_entry, write_entry};
use label_tracks::Groups;
use mark_base::{Bytes, Memory, Steps};
use project_journal::Keeper;
use project_state::{
    Act, Asking, BookState, Change, Founding, asking_of, changes_tell_their_requests, founding_of,
    states_can_be_restored, tables_of,
};
use project_steps::{Judged, Kept, is_typed, judge};
use std::alloc::Global;
use std::marker::Brand;
use std::sync::Arc;
use std::sync::ledger::{Blank, Ledger};

/// The only byte of the entry of a freeing.
const FREEING_TAG: u8 = 12;

/// The first byte of the first entry where a journal begins with a checkpoint.
const STATE_TAG: u8 = 16;

/// Whether bytes are the same.
pub(crate) fn are_same(bytes: &[u8], others: &[u8]) -> bool
    ensures same { result ≡ true → bytes.now ≡ others.now }
    ensures differ { result ≡ false → bytes.now ≢ others.now }
{
    bytes == others
}

/// Whether bytes are those of the entry of a freeing.
fn is_freeing(bytes: &[u8]) -> bool
    ensures freeing { result ≡ true → bytes.now ≡ freeing_bytes }
    ensures other { result ≡ false → bytes.now ≢ freeing_bytes }
{
    are_same(bytes, &[FREEING_TAG])
}

/// Whether bytes are those of the first piece of a checkpoint.
fn begins_state(bytes: &[u8]) -> bool
    ensures state { result ≡ true → slice_get bytes.now 0 ≡ Some 16 }
    ensures other { result ≡ false → slice_get bytes.now 0 ≢ Some 16 }
{
    match bytes.first() {
        Some(tag) => *tag == STATE_TAG,
        None => false,
    }
}

/// A change, where its entry has these bytes.
fn of_bytes(made: Option<Kept>, bytes: &Bytes) -> Option<Kept>
    ensures same { IfSome result (λ found. (made ≡ Some found) × (found.entry ≡ bytes.now)) }
    ensures other { IfNone result (IfSome made (λ kept. kept.entry ≢ bytes.now)) }
{
    let Some(kept) = made else {
        return None;
    };
    if are_same(kept.entry.items(), bytes.items()) {
        Some(kept)
    } else {
        None
    }
}

/// A freeing with its entry.
fn freeing_kept(alloc: Global) -> Result<Kept, Memory>
    ensures change { IfOk result (λ kept. kept.change ≡ Change.FreeAll) }
    ensures entry { IfOk result (λ kept. kept.entry ≡ freeing_bytes) }
    ensures act { IfOk result (λ kept. kept.act ≡ Act.FreeAll) }
{
    let entry = write_entry(alloc, &Entry::FreeAll)?;
    Ok(Kept {
        change: Change::FreeAll,
        entry,
        act: Act::FreeAll,
    })
}

impl<K: Keeper> Book<K> {
    /// The freeing of the layers that are out, where some are.
    pub(crate) fn freeing(&self) -> Result<Option<Kept>, Memory>
        ensures { IfOk result (IsFreeing self.now.log) }
    {
        self.keeps();
        if !self.state.is_some_out() {
            return Ok(None);
        }
        Ok(Some(freeing_kept(self.alloc)?))
    }

    /// The request that makes the next change of these bytes, where one can, by the entry that they were read as.
    fn asking_in(&self, read: &Option<Entry>, bytes: &Bytes) -> Result<Option<Asking>, Memory>
        requires read { IsReading bytes.now read.now }
        requires other { bytes.now ≢ freeing_bytes }
        ensures { IfOk result (IsAskingOf self.now.log bytes.now) }
    {
        self.keeps();
        states_can_be_restored();
        changes_tell_their_requests();
        entries_are_told_apart();
        written_layers_are_utf8();
        match read {
            Some(entry) => {
                let told = asking_of(self.alloc, &self.state, entry)?;
                Ok(told)
            }
            None => Ok(None),
        }
    }

    /// The request that makes the next change of these bytes, where one can.
    fn asking_by(&self, bytes: &Bytes) -> Result<Option<Asking>, Memory>
        requires { bytes.now ≢ freeing_bytes }
        ensures { IfOk result (IsAskingOf self.now.log bytes.now) }
    {
        let read = read_entry(self.alloc, bytes.items())?;
        self.asking_in(&read, bytes)
    }

    /// The freeing of this entry, where it is the next change.
    fn freed_again(&self, bytes: &Bytes) -> Result<Option<Kept>, Memory>
        requires { bytes.now ≡ freeing_bytes }
        ensures { IfOk result (IsNextKept self.now.log bytes.now) }
    {
        self.keeps();
        states_can_be_restored();
        changes_tell_their_requests();
        entries_are_told_apart();
        written_layers_are_utf8();
        let kept = self.freeing()?;
        Ok(kept)
    }

    /// The change that a request makes, where it makes one.
    fn made_by(&self, asking: Asking) -> Result<Option<Kept>, Memory>
        ensures { IfOk result (IsMadeBy self.now.log (plain_asking asking)) }
    {
        self.keeps();
        states_can_be_restored();
        let Asking { caller, request } = asking;
        if !is_typed(&request) {
            return Err(Memory);
        }
        let judged = judge(self.alloc, &self.state, &self.tables, &caller, request)?;
        let Judged { reply: _, kept } = judged;
        Ok(kept)
    }

    /// The change of this entry that a request makes, where it makes one.
    fn asked_again(&self, asking: Asking, bytes: &Bytes) -> Result<Option<Kept>, Memory>
        requires { IsAskedBy self.now.log bytes.now (Some (plain_asking asking)) }
        ensures { IfOk result (IsNextKept self.now.log bytes.now) }
    {
        self.keeps();
        changes_tell_their_requests();
        let made = self.made_by(asking)?;
        Ok(of_bytes(made, bytes))
    }

    /// The next change, where this is the entry of one.
    fn next_kept(&self, bytes: &Bytes) -> Result<Option<Kept>, Memory>
        ensures { IfOk result (IsNextKept self.now.log bytes.now) }
    {
        if is_freeing(bytes.items()) {
            return self.freed_again(bytes);
        }
        match self.asking_by(bytes)? {
            Some(asking) => self.asked_again(asking, bytes),
            None => Ok(None),
        }
    }
}

impl Book<KeptAlready> {
    /// Goes on with the change of an entry, or answers that no change of this entry goes on with the history.
    fn take_up<G: Ledger>(&mut self, bytes: &Bytes, steps: &mut Steps<G>) -> Result<bool, Memory>
        ensures { IfOk result (IsTakenUp self.old.log bytes.now self.new.log) }
    {
        let Some(kept) = self.next_kept(bytes)? else {
            return Ok(false);
        };
        match self.keep(kept, steps) {
            Ok(()) => Ok(true),
            Err(_) => Err(Memory),
        }
    }
}

/// A project behind its founding, whose entry is kept already.
fn founded_again(alloc: Global, founding: Founding) -> Result<Book<KeptAlready>, Memory>
    requires { IsFounding (arc_value founding.conf) founding.level founding.roster }
    ensures { IfOk result (λ book. book.log ≡ founded (arc_value founding.conf) founding.level founding.roster) }
{
    states_can_be_restored();
    let Founding {
        conf,
        roster,
        level,
    } = founding;
    let state = BookState::founded(alloc, share(&conf)?, roster.copy()?, level);
    let change = founding_change(conf, roster, level);
    let beginning = complete(alloc, state, &change, Bytes::from_vec(Vec::new(alloc)))?;
    let Beginning {
        state,
        groups,
        tables,
        log,
        entry: _,
    } = beginning;
    Ok(Book {
        alloc,
        state,
        groups,
        tables,
        log,
        keeper: KeptAlready,
    })
}

/// The founding of these bytes, where they are those of one, by the entry that they were read as.
fn founding_in(
    alloc: Global,
    read: &Option<Entry>,
    bytes: &Bytes,
) -> Result<Option<Founding>, Memory>
    requires read { IsReading bytes.now read.now }
    requires other { slice_get bytes.now 0 ≢ Some 16 }
    ensures { IfOk result (IsFoundingBy bytes.now) }
{
    entries_are_told_apart();
    sound_configurations_are_read_back();
    match read {
        Some(entry) => {
            let told = founding_of(alloc, entry)?;
            Ok(told)
        }
        None => Ok(None),
    }
}

/// The founding of these bytes, where they are those of one.
fn founding_by(alloc: Global, bytes: &Bytes) -> Result<Option<Founding>, Memory>
    requires { slice_get bytes.now 0 ≢ Some 16 }
    ensures { IfOk result (IsFoundingBy bytes.now) }
{
    let read = read_entry(alloc, bytes.items())?;
    founding_in(alloc, &read, bytes)
}

/// The project behind its first entry, where it is that of a founding.
fn begun_by(alloc: Global, bytes: &Bytes) -> Result<Option<Book<KeptAlready>>, Memory>
    requires { slice_get bytes.now 0 ≢ Some 16 }
    ensures { IfOk result (BeginsSo bytes.now) }
{
    match founding_by(alloc, bytes)? {
        Some(founding) => Ok(Some(founded_again(alloc, founding)?)),
        None => Ok(None),
    }
}

/// A project behind its first change, and how many entries that has.
#[derive(Drop)]
struct Started {
    book: Book<KeptAlready>,
    count: usize,
}

/// The history that restores a state at its place. The change shares the state until it is remembered.
fn history_restoring(alloc: Global, state: &Arc<BookState>) -> Result<History, Memory>
    ensures { IfOk result (λ log. log ≡ restored (arc_value state.now).state) }
{
    let change = Change::Restored {
        place: state.place(),
        state: state.clone()?,
    };
    Ok(History::of(&change))
}

/// What was shared, where nobody else owns it any more. `Memory` stands for an owner that is left.
fn unshared(state: Arc<BookState>) -> Result<BookState, Memory>
    ensures { IfOk result (λ one. one ≡ arc_value state) }
{
    match Arc::try_unwrap(state) {
        Ok(state) => Ok(state),
        Err(_) => Err(Memory),
    }
}

/// A project that begins with a state. The history remembers the state, and the project goes on with it: that nobody
/// else owns it then is not proved.
fn restored_again<G: Ledger>(
    alloc: Global,
    state: BookState,
    steps: &mut Steps<G>,
) -> Result<Book<KeptAlready>, Memory>
    requires { IsSound state.state }
    ensures { IfOk result (λ book. book.log ≡ restored state.state) }
{
    let state = Arc::new(alloc, state)?;
    let log = history_restoring(alloc, &state)?;
    let state = unshared(state)?;
    let groups = Groups::of(alloc, state.conf(), state.level())?;
    let tables = tables_of(alloc, &state, &groups, steps)?;
    Ok(Book {
        alloc,
        state,
        groups,
        tables,
        log,
        keeper: KeptAlready,
    })
}

/// The project that the checkpoint tells with which some entries begin, and how many these are; or why it is not read.
fn read_checkpoint(alloc: Global, entries: &[Bytes]) -> Result<Restored, OpenFault>
    requires { BeginsWithPiece entries.now }
    ensures within { IfOk result (λ restored. restored.count ≤ length entries.now) }
    ensures told { IfOk result (λ restored. IsCheckpoint (take restored.count entries.now) restored.state.state) }
    ensures refused { IfErr result (IsReplayRefusal entries.now) }
{
    match restore(alloc, entries) {
        Ok(restored) => Ok(restored),
        Err(RestoreFault::BadEntry(number)) => Err(OpenFault::BadEntry(number)),
        Err(RestoreFault::Memory) => Err(OpenFault::Memory),
    }
}

/// The project behind the checkpoint with which some entries begin, or why there is none.
#[tactic(auto, using(crate::proofs::RestoredLemmas::replay_checkpoint))]
fn begun_restored<G: Ledger>(
    alloc: Global,
    entries: &[Bytes],
    steps: &mut Steps<G>,
) -> Result<Started, OpenFault>
    requires { BeginsWithPiece entries.now }
    ensures within { IfOk result (λ started. started.count ≤ length entries.now) }
    ensures told { IfOk result (λ started. IsReplay (take started.count entries.now) started.book.log) }
    ensures refused { IfErr result (IsReplayRefusal entries.now) }
{
    checkpoints_are_pieces();
    checkpoints_are_sound();
    states_are_told_apart();
    let Restored { state, count } = read_checkpoint(alloc, entries)?;
    let book = restored_again(alloc, state, steps)?;
    Ok(Started { book, count })
}

/// The project behind its first change, or why there is none.
fn begun<G: Ledger>(
    alloc: Global,
    entries: &[Bytes],
    steps: &mut Steps<G>,
) -> Result<Started, OpenFault>
    ensures within { IfOk result (λ started. started.count ≤ length entries.now) }
    ensures told { IfOk result (λ started. IsReplay (take started.count entries.now) started.book.log) }
    ensures refused { IfErr result (IsReplayRefusal entries.now) }
{
    let Some(first) = entries.first() else {
        return Err(OpenFault::BadEntry(1));
    };
    if begins_state(first.items()) {
        return begun_restored(alloc, entries, steps);
    }
    match begun_by(alloc, first)? {
        Some(book) => Ok(Started { book, count: 1 }),
        None => Err(OpenFault::BadEntry(1)),
    }
}

/// Goes on with the changes of all entries behind the first so many, or says which entry is at fault.
fn replay_rest<G: Ledger>(
    book: &mut Book<KeptAlready>,
    entries: &[Bytes],
    count: usize,
    steps: &mut Steps<G>,
) -> Result<(), OpenFault>
    requires within { count ≤ length entries.now }
    requires begun { IsReplay (take count entries.now) book.old.log }
    ensures told { OnOk result (IsReplay entries.now book.new.log) }
    ensures refused { IfErr result (IsReplayRefusal entries.now) }
{
    for place in count..entries.len() {
        if !book.take_up(&entries[place], steps)? {
            return Err(OpenFault::BadEntry(place as u64 + 1));
        }
    }
    Ok(())
}

/// The project behind some entries, with a counter of steps.
fn replay_counted<G: Ledger>(
    alloc: Global,
    entries: &[Bytes],
    blank: Blank,
) -> Result<Book<KeptAlready>, OpenFault>
    requires name { blank.name ≡ G.name }
    requires parts { blank.parts ≡ G.parts }
    requires some { 0 < G.parts }
    ensures told { IfOk result (λ book. IsReplay entries.now book.log) }
    ensures refused { IfErr result (IsReplayRefusal entries.now) }
{
    let mut steps = Steps::<G>::new(blank);
    let started = begun(alloc, entries, &mut steps)?;
    let Started { mut book, count } = started;
    replay_rest(&mut book, entries, count, &mut steps)?;
    Ok(book)
}

/// The project that the entries of a journal tell, or which entry is at fault. Nothing is kept: the entries are.
pub(crate) fn replay(alloc: Global, entries: &[Bytes]) -> Result<Book<KeptAlready>, OpenFault>
    ensures told { IfOk result (λ book. IsReplay entries.now book.log) }
    ensures refused { IfErr result (IsReplayRefusal entries.now) }
{
    replay_counted::<Brand>(alloc, entries, Blank::new(1))
}
