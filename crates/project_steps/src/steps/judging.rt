//! One step of a project, before it is kept.
ghost use Rattle.std.specs.Prelude.{◌≡◌, IfOk};
ghost use Rattle.project_machine.specs.Legal.{IsKept};
ghost use Rattle.project_machine.specs.Tables.{standing_of};
ghost use Rattle.project_state.specs.Values.{asked_of};
ghost use Rattle.project_steps.specs.Steps.Accepting.{IsOutcome};
ghost use Rattle.project_steps.specs.Steps.Judging.{CanBeMade, IsEntered, IsJudged, IsPermitted, IsRefused};

use crate::steps::accept::{accept_list_docs, accept_read_conf};
use crate::steps::accepted::{Accepted, Made, Outcome};
use crate::steps::agreement::{accept_alpha, accept_pairs};
use crate::steps::decide::{decide, take_snapshot, undecide};
use crate::steps::outcomes::{
    add_text, checkout, commit, finish, ignore, park, read_layer, read_text, readmit, reopen,
    take_over,
};
use crate::steps::policies::refuses_caller;
use crate::steps::reports::accept_report;
use crate::steps::snap::snap;
use crate::steps::texts::{decided_number, refusal_text};
use kappa_alpha::Tables;
use layer_rules::unflawed_layers;
use mark_base::{Bytes, Memory, Slug};
use project_state::{
    Act, BookRefusal, BookState, Change, Reply, Request, Written, accepted_changes_can_be_entered,
    change_bytes,
};
use std::alloc::Global;

/// A change that is to be kept, with its entry and what it does to the project.
#[derive(Drop)]
pub struct Kept {
    pub change: Change,
    pub entry: Bytes,
    pub act: Act,
}

/// What a request is answered, and the change that is to be kept before it is answered so.
#[derive(Drop)]
pub struct Judged {
    pub reply: Reply,
    pub kept: Option<Kept>,
}

/// What is made of a request of one who may make it.
fn outcome_of(
    alloc: Global,
    state: &BookState,
    tables: &Tables,
    by: &Slug,
    request: Request,
) -> Result<Outcome, Memory>
    requires kept { IsKept state.now.state }
    requires tables { tables.now ≡ standing_of state.now.state tables.now.spare }
    requires permitted { IsPermitted state.now.state by.now (asked_of request) }
    ensures { IfOk result (IsOutcome state.now.state by.now (asked_of request)) }
{
    unflawed_layers();
    match request {
        Request::ReadConf => Ok(Outcome::Accepted(accept_read_conf(state, by)?)),
        Request::ListDocs => Ok(Outcome::Accepted(accept_list_docs(alloc, state, by)?)),
        Request::ReadText { doc } => read_text(state, by, &doc),
        Request::AddText { doc, text } => add_text(alloc, state, by, doc, text),
        Request::Checkout { doc } => checkout(alloc, state, by, &doc),
        Request::TakeOver { doc } => take_over(alloc, state, by, &doc),
        Request::Commit { doc, hold, layer } => commit(alloc, state, by, &doc, hold, layer),
        Request::Park {
            doc,
            hold,
            done,
            undone,
        } => park(alloc, state, by, &doc, hold, done, undone),
        Request::Finish { doc } => finish(state, by, &doc),
        Request::ReadLayer { doc, who } => read_layer(alloc, state, by, &doc, &who),
        Request::Reopen { doc, who } => reopen(state, by, &doc, who),
        Request::Ignore { doc, who } => ignore(state, by, &doc, who),
        Request::Readmit { doc, who } => readmit(state, by, &doc, who),
        Request::Snap { doc } => snap(alloc, state, by, &doc),
        Request::TakeSnapshot { number } => take_snapshot(alloc, state, by, number),
        Request::Decide {
            number,
            holder,
            id,
            verdict,
        } => decide(state, by, number, &holder, id, verdict),
        Request::Undecide { number, holder, id } => undecide(state, by, number, &holder, id),
        Request::Pairs => Ok(Outcome::Accepted(accept_pairs(alloc, state, tables, by)?)),
        Request::Alpha => Ok(Outcome::Accepted(accept_alpha(state, tables, by))),
        Request::Report(report) => {
            Ok(Outcome::Accepted(accept_report(alloc, state, by, report)?))
        }
    }
}

/// A refusal with what it names. Nothing is kept.
fn refused(
    alloc: Global,
    state: &BookState,
    decided: Option<u64>,
    refusal: BookRefusal,
) -> Result<Judged, Memory>
    ensures { IfOk result (IsRefused state.now.state decided refusal) }
{
    Ok(Judged {
        reply: Reply::Refused(refusal, refusal_text(alloc, state, decided, refusal)?),
        kept: None,
    })
}

/// What is answered and kept where a request is accepted: its answer and its change, but where the entry of the change
/// is too long. Cost: the bytes of the entry.
fn entered(
    alloc: Global,
    state: &BookState,
    decided: Option<u64>,
    accepted: Accepted,
) -> Result<Judged, Memory>
    requires { CanBeMade state.now.state accepted }
    ensures { IfOk result (IsEntered state.now.state decided accepted) }
{
    let Accepted { reply, made } = accepted;
    let Some(made) = made else {
        return Ok(Judged { reply, kept: None });
    };
    match change_bytes(alloc, state, &made.change)? {
        Written::TooLong(bytes) => {
            refused(alloc, state, decided, BookRefusal::EntryTooLong(bytes))
        }
        Written::Bytes(entry) => {
            let Made { change, act } = made;
            Ok(Judged {
                reply,
                kept: Some(Kept { change, entry, act }),
            })
        }
    }
}

/// One step of a project at its state: what a caller is answered, and the change that is to be kept first. The
/// agreement is read from tables that stand at the state. Cost: what the request reads or changes.
pub fn judge(
    alloc: Global,
    state: &BookState,
    tables: &Tables,
    caller: &Slug,
    request: Request,
) -> Result<Judged, Memory>
    requires kept { IsKept state.now.state }
    requires tables { tables.now ≡ standing_of state.now.state tables.now.spare }
    ensures { IfOk result (IsJudged state.now.state caller.now (asked_of request)) }
{
    accepted_changes_can_be_entered();
    let decided = decided_number(&request);
    if let Some(refusal) = refuses_caller(state, caller, &request) {
        return refused(alloc, state, decided, refusal);
    }
    match outcome_of(alloc, state, tables, caller, request)? {
        Outcome::Refused(refusal) => refused(alloc, state, decided, refusal),
        Outcome::Accepted(accepted) => entered(alloc, state, decided, accepted),
    }
}
