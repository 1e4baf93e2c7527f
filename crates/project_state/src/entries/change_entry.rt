//! The entry of a change.
ghost use Rattle.std.specs.Prelude.{◌≡◌, ◌<◌, length, IfOk, OnOk};
ghost use Rattle.std.specs.Arc.{arc_value};
ghost use Rattle.std.specs.List.{AllByRecursion};
ghost use Rattle.conf_model.specs.ConfText.{conf_text};
ghost use Rattle.layer_rules.specs.WellFormed.{IsWellFormed};
ghost use Rattle.layer_model.specs.Classes.{letter_place};
ghost use Rattle.command_bytes.specs.CommandBytes.{scripts_bytes};
ghost use Rattle.command_bytes.specs.WritableCommands.{CanBeWritten};
ghost use Rattle.project_machine.specs.Entries.{accepts, encoded_text, entry_of, first_piece, founding_entry, lines_in};
ghost use Rattle.project_machine.specs.ProjectState.{document};
ghost use Rattle.project_state.specs.Values.{happened_of};
ghost use Rattle.project_state.specs.Entries.Writing.{CanBeEntered, HasFewPeople};

use crate::entries::lines::{commands_in, lines_in};
use crate::entries::verdicts::accepts;
use crate::{BookState, Change, Roster};
use annotation_conf::write_conf;
use char_documents::Doc;
use conf_model::Conf;
use curator_decisions::Verdict;
use entry_bytes::{Entry, PersonList};
use layer_model::{Layer, letter_place};
use layer_undo::Script;
use mark_base::{AnnId, Memory, Slug, Text};
use std::alloc::Global;
use std::sync::Arc;

/// Tells a proof that a roster has few people. It does nothing.
#[tactic(auto, using(crate::proofs::EntriesProofs::RosterLemmas::few_people))]
fn few_people(roster: &Roster)
    ensures { length roster.now < 256 }
{
    let _count = roster.count();
}

/// A founding at a level, 255 for none.
fn founding_entry(
    alloc: Global,
    conf: &Arc<Conf>,
    roster: &Roster,
    level: u8,
) -> Result<Entry, Memory>
    ensures entry { IfOk result (λ entry. entry ≡ founding_entry (conf_text (arc_value conf.now)) roster.now level) }
    ensures people { length roster.now < 256 }
{
    few_people(roster);
    let conf = write_conf(alloc, conf)?;
    let people = PersonList::of(alloc, roster.people())?;
    if level == 255 {
        Ok(Entry::Found { conf, people })
    } else {
        Ok(Entry::FoundAt {
            conf,
            people,
            level,
        })
    }
}

/// The first piece of a state that is restored.
fn first_piece(alloc: Global, state: &BookState) -> Result<Entry, Memory>
    ensures entry { IfOk result (λ entry. entry ≡ first_piece state.now.state) }
    ensures people { length state.now.state.people < 256 }
{
    few_people(state.roster());
    Ok(Entry::Restored {
        place: state.place(),
        level: state.level(),
        documents: state.documents(),
        snapshots: state.snapshots().len() as u64,
        conf: write_conf(alloc, state.conf())?,
        people: PersonList::of(alloc, state.roster().people())?,
    })
}

/// A document that is added.
fn add_text_entry(alloc: Global, by: &Slug, name: &Slug, text: &Arc<Doc>) -> Result<Entry, Memory>
    ensures { IfOk result (λ entry. entry ≡ Entry.AddText by.now name.now (encoded_text (arc_value text.now))) }
{
    Ok(Entry::AddText {
        by: by.copy()?,
        name: name.copy()?,
        text: Text::of(alloc, text.text())?,
    })
}

/// A layer that is checked out.
fn checkout_entry(by: &Slug, doc: u32) -> Result<Entry, Memory>
    ensures { IfOk result (λ entry. entry ≡ Entry.Checkout by.now doc) }
{
    Ok(Entry::Checkout {
        by: by.copy()?,
        doc,
    })
}

/// A layer that is checked out anew.
fn take_over_entry(by: &Slug, doc: u32) -> Result<Entry, Memory>
    ensures { IfOk result (λ entry. entry ≡ Entry.TakeOver by.now doc) }
{
    Ok(Entry::TakeOver {
        by: by.copy()?,
        doc,
    })
}

/// A layer that is committed.
fn commit_entry(
    alloc: Global,
    state: &BookState,
    by: &Slug,
    doc: u32,
    hold: u64,
    layer: &Arc<Layer>,
) -> Result<Entry, Memory>
    requires there { doc < length state.now.state.documents }
    requires well_formed { IsWellFormed state.now.state.conf (length (document state.now.state doc).text) (arc_value layer.now) }
    ensures { IfOk result (λ entry. entry ≡ Entry.Commit by.now doc hold (lines_in state.now.state doc (arc_value layer.now))) }
{
    Ok(Entry::Commit {
        by: by.copy()?,
        doc,
        hold,
        lines: lines_in(alloc, state, doc, layer)?,
    })
}

/// A layer that is parked.
fn park_entry(
    alloc: Global,
    state: &BookState,
    by: &Slug,
    doc: u32,
    hold: u64,
    done: &Script,
    undone: &Script,
) -> Result<Entry, Memory>
    requires there { doc < length state.now.state.documents }
    requires done { AllByRecursion (CanBeWritten state.now.state.conf (document state.now.state doc).text) done.now }
    requires undone { AllByRecursion (CanBeWritten state.now.state.conf (document state.now.state doc).text) undone.now }
    ensures { IfOk result (λ entry. entry ≡ Entry.Park by.now doc hold (scripts_bytes state.now.state.conf (document state.now.state doc).text done.now undone.now)) }
{
    Ok(Entry::Park {
        by: by.copy()?,
        doc,
        hold,
        commands: commands_in(alloc, state, doc, done, undone)?,
    })
}

/// A layer that is finished.
fn finish_entry(by: &Slug, doc: u32) -> Result<Entry, Memory>
    ensures { IfOk result (λ entry. entry ≡ Entry.Finish by.now doc) }
{
    Ok(Entry::Finish {
        by: by.copy()?,
        doc,
    })
}

/// A layer that is opened again.
fn reopen_entry(by: &Slug, doc: u32, who: &Slug) -> Result<Entry, Memory>
    ensures { IfOk result (λ entry. entry ≡ Entry.Reopen by.now doc who.now) }
{
    Ok(Entry::Reopen {
        by: by.copy()?,
        doc,
        who: who.copy()?,
    })
}

/// A layer that is left out of the tables.
fn ignore_entry(by: &Slug, doc: u32, who: &Slug) -> Result<Entry, Memory>
    ensures { IfOk result (λ entry. entry ≡ Entry.Ignore by.now doc who.now) }
{
    Ok(Entry::Ignore {
        by: by.copy()?,
        doc,
        who: who.copy()?,
    })
}

/// A layer that is put back into the tables.
fn readmit_entry(by: &Slug, doc: u32, who: &Slug) -> Result<Entry, Memory>
    ensures { IfOk result (λ entry. entry ≡ Entry.Readmit by.now doc who.now) }
{
    Ok(Entry::Readmit {
        by: by.copy()?,
        doc,
        who: who.copy()?,
    })
}

/// A snapshot that is taken.
fn snap_entry(by: &Slug, doc: u32) -> Result<Entry, Memory>
    ensures { IfOk result (λ entry. entry ≡ Entry.Snap by.now doc) }
{
    Ok(Entry::Snap {
        by: by.copy()?,
        doc,
    })
}

/// A verdict on an item.
fn decide_entry(
    by: &Slug,
    snapshot: u64,
    holder: u8,
    id: AnnId,
    verdict: Verdict,
) -> Result<Entry, Memory>
    ensures { IfOk result (λ entry. entry ≡ Entry.Decide by.now snapshot holder (letter_place id.kind) id.number (accepts verdict)) }
{
    Ok(Entry::Decide {
        by: by.copy()?,
        snapshot,
        holder,
        kind: letter_place(id.kind),
        number: id.number,
        accept: accepts(verdict),
    })
}

/// A verdict that is taken back.
fn undecide_entry(by: &Slug, snapshot: u64, holder: u8, id: AnnId) -> Result<Entry, Memory>
    ensures { IfOk result (λ entry. entry ≡ Entry.Undecide by.now snapshot holder (letter_place id.kind) id.number) }
{
    Ok(Entry::Undecide {
        by: by.copy()?,
        snapshot,
        holder,
        kind: letter_place(id.kind),
        number: id.number,
    })
}

/// The entry of a change of a project at the place before it. The document of a layer that is committed or parked
/// must be there, and the layer and those that commands load well-formed for it, as they are where a request was
/// accepted (`accepted_changes_can_be_entered`). Cost: the length of the entry, and what `write_ann` says of layers.
pub fn entry_for(alloc: Global, state: &BookState, change: &Change) -> Result<Entry, Memory>
    requires { CanBeEntered state.now.state (happened_of change.now) }
    ensures entry { IfOk result (λ entry. entry ≡ entry_of state.now.state (happened_of change.now)) }
    ensures people { IfOk result HasFewPeople }
{
    match change {
        Change::Found { conf, roster } => founding_entry(alloc, conf, roster, 255),
        Change::FoundAt {
            conf,
            roster,
            level,
        } => founding_entry(alloc, conf, roster, *level),
        Change::Restored { state, .. } => first_piece(alloc, state),
        Change::AddText { by, name, text } => add_text_entry(alloc, by, name, text),
        Change::Checkout { by, doc } => checkout_entry(by, *doc),
        Change::TakeOver { by, doc } => take_over_entry(by, *doc),
        Change::Commit {
            by,
            doc,
            hold,
            layer,
        } => commit_entry(alloc, state, by, *doc, *hold, layer),
        Change::Park {
            by,
            doc,
            hold,
            done,
            undone,
        } => park_entry(alloc, state, by, *doc, *hold, done, undone),
        Change::Finish { by, doc } => finish_entry(by, *doc),
        Change::Reopen { by, doc, who } => reopen_entry(by, *doc, who),
        Change::Snap { by, doc } => snap_entry(by, *doc),
        Change::Decide {
            by,
            snapshot,
            holder,
            id,
            verdict,
        } => decide_entry(by, *snapshot, *holder, *id, *verdict),
        Change::Undecide {
            by,
            snapshot,
            holder,
            id,
        } => undecide_entry(by, *snapshot, *holder, *id),
        Change::FreeAll => Ok(Entry::FreeAll),
        Change::Ignore { by, doc, who } => ignore_entry(by, *doc, who),
        Change::Readmit { by, doc, who } => readmit_entry(by, *doc, who),
    }
}
