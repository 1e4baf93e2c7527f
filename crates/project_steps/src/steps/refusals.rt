//! Why a request is refused.
ghost use Rattle.std.specs.Prelude.{◌≡◌, IfOk, is_some, length};
ghost use Rattle.std.specs.Arc.{arc_value};
ghost use Rattle.layer_rules.specs.WellFormed.{IsWellFormed};
ghost use Rattle.project_machine.specs.Machine.{commit_rule, first_of, has_layer, held, is_full, park_rule, size_of, taken, tests, there};
ghost use Rattle.project_machine.specs.ProjectState.{row_in};
ghost use Rattle.project_machine.specs.Requests.{AddText, Checkout, Commit, Finish, Ignore, Park, ReadLayer, ReadText, Readmit, Reopen, TakeOver, TakeSnapshot};

use crate::steps::rows::{is_finished, is_ignored, is_out, revision};
use char_documents::Doc;
use conf_model::Conf;
use layer_model::{Layer, Rule};
use layer_rules::{CheckFault, check, may_commit, unflawed_layers};
use layer_undo::{DeskStart, Script, check_scripts};
use mark_base::{Memory, Slug};
use project_state::{BookRefusal, BookState, MOST_CHARACTERS, MOST_DOCUMENTS};
use std::alloc::Global;
use std::sync::Arc;

/// The first rule that forbids to commit a layer: that of its least flaw, or else that of an event with too few
/// arguments. Cost: as `check`.
fn commit_rule(alloc: Global, layer: &Layer, doc: &Doc, conf: &Conf) -> Result<Option<Rule>, Memory>
    ensures { IfOk result (λ rule. rule ≡ commit_rule conf.now (length doc.now) layer.now) }
{
    match check(alloc, layer, doc, conf) {
        Ok(()) => Ok(may_commit(layer, conf)),
        Err(fault) => match fault {
            CheckFault::Flaw(flaw) => Ok(Some(flaw.rule)),
            CheckFault::Memory => Err(Memory),
        },
    }
}

/// The first rule by which two scripts are refused from a layer. Cost: as `check_scripts`.
fn park_rule(
    alloc: Global,
    layer: &Layer,
    doc: &Arc<Doc>,
    conf: &Arc<Conf>,
    done: &Script,
    undone: &Script,
) -> Result<Option<Rule>, Memory>
    requires { IsWellFormed (arc_value conf.now) (length (arc_value doc.now)) layer.now }
    ensures { IfOk result (λ rule. rule ≡ park_rule (arc_value conf.now) (length (arc_value doc.now)) layer.now done.now undone.now) }
{
    unflawed_layers();
    match check_scripts(alloc, layer, doc, conf, done, undone) {
        Ok(()) => Ok(None),
        Err(start) => match start {
            DeskStart::At(_, rule) => Ok(Some(rule)),
            DeskStart::Base(_) => unreachable!(),
            DeskStart::Memory => Err(Memory),
        },
    }
}

/// A document of this name must be there.
fn there(state: &BookState, name: &Slug) -> Option<BookRefusal>
    ensures { result ≡ there state.now.state name.now }
{
    if state.is_there(name) {
        None
    } else {
        Some(BookRefusal::NoDocument)
    }
}

/// Somebody named must be an annotator.
fn has_layer(state: &BookState, who: &Slug) -> Option<BookRefusal>
    ensures { result ≡ has_layer state.now.state who.now }
{
    if state.is_annotator(who) {
        None
    } else {
        Some(BookRefusal::NoLayer)
    }
}

/// A row must be out under this hold.
fn held(state: &BookState, name: &Slug, who: &Slug, hold: u64) -> Option<BookRefusal>
    ensures { result ≡ held (row_in state.now.state name.now who.now) hold }
{
    match state.row_in(name, who) {
        Some(row) => {
            if row.is_held(hold) {
                None
            } else {
                Some(BookRefusal::NotYours)
            }
        }
        None => Some(BookRefusal::NotYours),
    }
}

/// Whether a document of this text has no room.
fn is_full(state: &BookState, text: &Doc) -> bool
    ensures { result ≡ is_full state.now.state text.now }
{
    MOST_DOCUMENTS <= state.document_list().len()
        || MOST_CHARACTERS < state.characters() + u64::from(text.char_count())
}

/// A snapshot of this number must have been taken.
fn taken(state: &BookState, number: u64) -> Option<BookRefusal>
    ensures { result ≡ taken state.now.state number }
{
    if number == 0 || (state.snapshots().len() as u64) < number {
        Some(BookRefusal::NoSnapshot)
    } else {
        None
    }
}

/// What is tested where a text is read. Cost: as `number_of`.
pub(crate) fn refuses_read_text(state: &BookState, who: &Slug, doc: &Slug) -> Option<BookRefusal>
    ensures { result ≡ first_of (tests state.now.state who.now (ReadText doc.now)) }
{
    there(state, doc)
}

/// What is tested where a text is added. Cost: as `number_of`.
pub(crate) fn refuses_add_text(
    state: &BookState,
    who: &Slug,
    doc: &Slug,
    text: &Doc,
) -> Option<BookRefusal>
    ensures { result ≡ first_of (tests state.now.state who.now (AddText doc.now text.now)) }
{
    if state.is_there(doc) {
        return Some(BookRefusal::DocumentThere);
    }
    if is_full(state, text) {
        return Some(BookRefusal::ProjectFull);
    }
    None
}

/// What is tested where a layer is checked out. Cost: as `number_of`.
pub(crate) fn refuses_checkout(state: &BookState, who: &Slug, doc: &Slug) -> Option<BookRefusal>
    ensures { result ≡ first_of (tests state.now.state who.now (Checkout doc.now)) }
{
    if let Some(refusal) = there(state, doc) {
        return Some(refusal);
    }
    if is_finished(state, doc, who) {
        return Some(BookRefusal::Finished);
    }
    if is_out(state, doc, who) {
        return Some(BookRefusal::LayerOut);
    }
    None
}

/// What is tested where a layer is taken over. Cost: as `number_of`.
pub(crate) fn refuses_take_over(state: &BookState, who: &Slug, doc: &Slug) -> Option<BookRefusal>
    ensures { result ≡ first_of (tests state.now.state who.now (TakeOver doc.now)) }
{
    if let Some(refusal) = there(state, doc) {
        return Some(refusal);
    }
    if is_finished(state, doc, who) {
        return Some(BookRefusal::Finished);
    }
    None
}

/// What is tested where a layer is committed. Cost: a check of the layer, after which its memory is given back.
pub(crate) fn refuses_commit(
    alloc: Global,
    state: &BookState,
    who: &Slug,
    doc: &Slug,
    hold: u64,
    layer: &Layer,
) -> Result<Option<BookRefusal>, Memory>
    ensures { IfOk result (λ refusal. refusal ≡ first_of (tests state.now.state who.now (Commit doc.now hold layer.now))) }
{
    let Some(document) = state.document(doc) else {
        return Ok(Some(BookRefusal::NoDocument));
    };
    if let Some(refusal) = held(state, doc, who, hold) {
        return Ok(Some(refusal));
    }
    match commit_rule(alloc, layer, document.text(), state.conf())? {
        Some(rule) => Ok(Some(BookRefusal::Broken(rule))),
        None => Ok(None),
    }
}

/// What is tested where a layer is parked. Cost: a copy and a check of the committed layer, and what the commands
/// cost.
pub(crate) fn refuses_park(
    alloc: Global,
    state: &BookState,
    who: &Slug,
    doc: &Slug,
    hold: u64,
    done: &Script,
    undone: &Script,
) -> Result<Option<BookRefusal>, Memory>
    requires { IsWellFormed state.now.state.conf (size_of state.now.state doc.now) (row_in state.now.state doc.now who.now).layer }
    ensures { IfOk result (λ refusal. refusal ≡ first_of (tests state.now.state who.now (Park doc.now hold done.now undone.now))) }
{
    let Some(document) = state.document(doc) else {
        return Ok(Some(BookRefusal::NoDocument));
    };
    if let Some(refusal) = held(state, doc, who, hold) {
        return Ok(Some(refusal));
    }
    let Some(row) = state.row_in(doc, who) else {
        unreachable!()
    };
    match park_rule(
        alloc,
        row.layer(),
        document.text(),
        state.conf(),
        done,
        undone,
    )? {
        Some(rule) => Ok(Some(BookRefusal::Broken(rule))),
        None => Ok(None),
    }
}

/// What is tested where a layer is finished. Cost: as `number_of`.
pub(crate) fn refuses_finish(state: &BookState, who: &Slug, doc: &Slug) -> Option<BookRefusal>
    ensures { result ≡ first_of (tests state.now.state who.now (Finish doc.now)) }
{
    if let Some(refusal) = there(state, doc) {
        return Some(refusal);
    }
    if is_out(state, doc, who) {
        return Some(BookRefusal::LayerOut);
    }
    if is_finished(state, doc, who) {
        return Some(BookRefusal::Finished);
    }
    if revision(state, doc, who) == 0 {
        return Some(BookRefusal::NothingCommitted);
    }
    None
}

/// What is tested where a layer is read. Cost: as `number_of`.
pub(crate) fn refuses_read_layer(
    state: &BookState,
    who: &Slug,
    doc: &Slug,
    whose: &Slug,
) -> Option<BookRefusal>
    ensures { result ≡ first_of (tests state.now.state who.now (ReadLayer doc.now whose.now)) }
{
    if let Some(refusal) = there(state, doc) {
        return Some(refusal);
    }
    if let Some(refusal) = has_layer(state, whose) {
        return Some(refusal);
    }
    if revision(state, doc, whose) == 0 {
        return Some(BookRefusal::NoLayer);
    }
    None
}

/// What is tested where a layer is opened again. Cost: as `number_of`.
pub(crate) fn refuses_reopen(
    state: &BookState,
    who: &Slug,
    doc: &Slug,
    whose: &Slug,
) -> Option<BookRefusal>
    ensures { result ≡ first_of (tests state.now.state who.now (Reopen doc.now whose.now)) }
{
    if let Some(refusal) = there(state, doc) {
        return Some(refusal);
    }
    if let Some(refusal) = has_layer(state, whose) {
        return Some(refusal);
    }
    if !is_finished(state, doc, whose) {
        return Some(BookRefusal::NotFinished);
    }
    None
}

/// What is tested where a layer is left out of the tables. Cost: as `number_of`.
pub(crate) fn refuses_ignore(
    state: &BookState,
    who: &Slug,
    doc: &Slug,
    whose: &Slug,
) -> Option<BookRefusal>
    ensures { result ≡ first_of (tests state.now.state who.now (Ignore doc.now whose.now)) }
{
    if let Some(refusal) = there(state, doc) {
        return Some(refusal);
    }
    if let Some(refusal) = has_layer(state, whose) {
        return Some(refusal);
    }
    if revision(state, doc, whose) == 0 {
        return Some(BookRefusal::NothingCommitted);
    }
    if is_ignored(state, doc, whose) {
        return Some(BookRefusal::AlreadyIgnored);
    }
    None
}

/// What is tested where a layer is put back into the tables. Cost: as `number_of`.
pub(crate) fn refuses_readmit(
    state: &BookState,
    who: &Slug,
    doc: &Slug,
    whose: &Slug,
) -> Option<BookRefusal>
    ensures { result ≡ first_of (tests state.now.state who.now (Readmit doc.now whose.now)) }
{
    if let Some(refusal) = there(state, doc) {
        return Some(refusal);
    }
    if let Some(refusal) = has_layer(state, whose) {
        return Some(refusal);
    }
    if !is_ignored(state, doc, whose) {
        return Some(BookRefusal::NotIgnored);
    }
    None
}

/// What is tested where a snapshot is read.
pub(crate) fn refuses_take_snapshot(
    state: &BookState,
    who: &Slug,
    number: u64,
) -> Option<BookRefusal>
    ensures { result ≡ first_of (tests state.now.state who.now (TakeSnapshot number)) }
{
    taken(state, number)
}
