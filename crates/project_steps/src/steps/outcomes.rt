//! What is made of each request of one who may make it.
ghost use Rattle.std.specs.Prelude.{◌≡◌, IfOk, true};
ghost use Rattle.std.specs.Arc.{arc_value};
ghost use Rattle.layer_rules.specs.WellFormed.{IsWellFormed};
ghost use Rattle.project_machine.specs.Machine.{size_of};
ghost use Rattle.project_machine.specs.ProjectState.{is_annotator, row_in};
ghost use Rattle.project_machine.specs.Requests.{AddText, Checkout, Commit, Finish, Ignore, Park, ReadLayer, ReadText, Readmit, Reopen, TakeOver};
ghost use Rattle.project_steps.specs.Steps.Accepting.{IsOutcome};

use crate::steps::accept::{
    accept_add_text, accept_checkout, accept_commit, accept_finish, accept_ignore, accept_park,
    accept_read_layer, accept_read_text, accept_readmit, accept_reopen, accept_take_over,
};
use crate::steps::accepted::Outcome;
use crate::steps::refusals::{
    refuses_add_text, refuses_checkout, refuses_commit, refuses_finish, refuses_ignore,
    refuses_park, refuses_read_layer, refuses_read_text, refuses_readmit, refuses_reopen,
    refuses_take_over,
};
use char_documents::Doc;
use layer_model::Layer;
use layer_undo::Script;
use mark_base::{Memory, Slug};
use project_state::BookState;
use std::alloc::Global;
use std::sync::Arc;

/// A text is read.
pub(crate) fn read_text(state: &BookState, by: &Slug, doc: &Slug) -> Result<Outcome, Memory>
    ensures { IfOk result (IsOutcome state.now.state by.now (ReadText doc.now)) }
{
    match refuses_read_text(state, by, doc) {
        Some(refusal) => Ok(Outcome::Refused(refusal)),
        None => Ok(Outcome::Accepted(accept_read_text(state, by, doc)?)),
    }
}

/// A text is added.
pub(crate) fn add_text(
    alloc: Global,
    state: &BookState,
    by: &Slug,
    doc: Slug,
    text: Doc,
) -> Result<Outcome, Memory>
    ensures { IfOk result (IsOutcome state.now.state by.now (AddText doc text)) }
{
    match refuses_add_text(state, by, &doc, &text) {
        Some(refusal) => Ok(Outcome::Refused(refusal)),
        None => Ok(Outcome::Accepted(accept_add_text(alloc, state, by, doc, text)?)),
    }
}

/// A layer is checked out.
pub(crate) fn checkout(
    alloc: Global,
    state: &BookState,
    by: &Slug,
    doc: &Slug,
) -> Result<Outcome, Memory>
    ensures { IfOk result (IsOutcome state.now.state by.now (Checkout doc.now)) }
{
    match refuses_checkout(state, by, doc) {
        Some(refusal) => Ok(Outcome::Refused(refusal)),
        None => Ok(Outcome::Accepted(accept_checkout(alloc, state, by, doc)?)),
    }
}

/// A layer is taken over.
pub(crate) fn take_over(
    alloc: Global,
    state: &BookState,
    by: &Slug,
    doc: &Slug,
) -> Result<Outcome, Memory>
    ensures { IfOk result (IsOutcome state.now.state by.now (TakeOver doc.now)) }
{
    match refuses_take_over(state, by, doc) {
        Some(refusal) => Ok(Outcome::Refused(refusal)),
        None => Ok(Outcome::Accepted(accept_take_over(alloc, state, by, doc)?)),
    }
}

/// A layer is committed. Cost: a check of the layer.
pub(crate) fn commit(
    alloc: Global,
    state: &BookState,
    by: &Slug,
    doc: &Slug,
    hold: u64,
    layer: Arc<Layer>,
) -> Result<Outcome, Memory>
    requires { is_annotator state.now.state by.now ≡ true }
    ensures { IfOk result (IsOutcome state.now.state by.now (Commit doc.now hold (arc_value layer))) }
{
    match refuses_commit(alloc, state, by, doc, hold, &layer)? {
        Some(refusal) => Ok(Outcome::Refused(refusal)),
        None => Ok(Outcome::Accepted(accept_commit(state, by, doc, hold, layer)?)),
    }
}

/// A layer is parked. Cost: a check of the committed layer, and what the commands cost.
pub(crate) fn park(
    alloc: Global,
    state: &BookState,
    by: &Slug,
    doc: &Slug,
    hold: u64,
    done: Script,
    undone: Script,
) -> Result<Outcome, Memory>
    requires { IsWellFormed state.now.state.conf (size_of state.now.state doc.now) (row_in state.now.state doc.now by.now).layer }
    ensures { IfOk result (IsOutcome state.now.state by.now (Park doc.now hold done undone)) }
{
    match refuses_park(alloc, state, by, doc, hold, &done, &undone)? {
        Some(refusal) => Ok(Outcome::Refused(refusal)),
        None => Ok(Outcome::Accepted(accept_park(state, by, doc, hold, done, undone)?)),
    }
}

/// A layer is finished.
pub(crate) fn finish(state: &BookState, by: &Slug, doc: &Slug) -> Result<Outcome, Memory>
    ensures { IfOk result (IsOutcome state.now.state by.now (Finish doc.now)) }
{
    match refuses_finish(state, by, doc) {
        Some(refusal) => Ok(Outcome::Refused(refusal)),
        None => Ok(Outcome::Accepted(accept_finish(state, by, doc)?)),
    }
}

/// A layer is read.
pub(crate) fn read_layer(
    alloc: Global,
    state: &BookState,
    by: &Slug,
    doc: &Slug,
    who: &Slug,
) -> Result<Outcome, Memory>
    ensures { IfOk result (IsOutcome state.now.state by.now (ReadLayer doc.now who.now)) }
{
    match refuses_read_layer(state, by, doc, who) {
        Some(refusal) => Ok(Outcome::Refused(refusal)),
        None => Ok(Outcome::Accepted(accept_read_layer(alloc, state, by, doc, who)?)),
    }
}

/// A layer is opened again.
pub(crate) fn reopen(state: &BookState, by: &Slug, doc: &Slug, who: Slug) -> Result<Outcome, Memory>
    ensures { IfOk result (IsOutcome state.now.state by.now (Reopen doc.now who)) }
{
    match refuses_reopen(state, by, doc, &who) {
        Some(refusal) => Ok(Outcome::Refused(refusal)),
        None => Ok(Outcome::Accepted(accept_reopen(state, by, doc, who)?)),
    }
}

/// A layer is left out of the tables.
pub(crate) fn ignore(state: &BookState, by: &Slug, doc: &Slug, who: Slug) -> Result<Outcome, Memory>
    ensures { IfOk result (IsOutcome state.now.state by.now (Ignore doc.now who)) }
{
    match refuses_ignore(state, by, doc, &who) {
        Some(refusal) => Ok(Outcome::Refused(refusal)),
        None => Ok(Outcome::Accepted(accept_ignore(state, by, doc, who)?)),
    }
}

/// A layer is put back into the tables.
pub(crate) fn readmit(
    state: &BookState,
    by: &Slug,
    doc: &Slug,
    who: Slug,
) -> Result<Outcome, Memory>
    ensures { IfOk result (IsOutcome state.now.state by.now (Readmit doc.now who)) }
{
    match refuses_readmit(state, by, doc, &who) {
        Some(refusal) => Ok(Outcome::Refused(refusal)),
        None => Ok(Outcome::Accepted(accept_readmit(state, by, doc, who)?)),
    }
}
