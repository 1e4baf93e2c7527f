//! What is made of requests on snapshots.
ghost use Rattle.std.specs.Prelude.{◌≡◌, ◌<◌, ◌-◌, IfOk, IfErr, length, None, OnOk, Some};
ghost use Rattle.curator_decisions.specs.DecisionFaults.{decide_fault, undecide_fault};
ghost use Rattle.curator_decisions.specs.Deciding.{IsFirstFault};
ghost use Rattle.curator_decisions.specs.Decisions.{with_verdict, without_verdict};
ghost use Rattle.unanimous_merge.specs.Readings.{readings};
ghost use Rattle.project_machine.specs.Legal.{IsKept, IsSnapshotKept};
ghost use Rattle.project_machine.specs.ProjectState.{holder_of, item_in, snapshot, text_of};
ghost use Rattle.project_machine.specs.Requests.{Decide, TakeSnapshot, Undecide};
ghost use Rattle.project_machine.specs.Machine.{view_of};
ghost use Rattle.project_state.specs.Values as plain;
ghost use Rattle.project_steps.specs.Steps.Accepting.{Accepts, IsOutcome};

use crate::steps::accepted::{Accepted, Made, Outcome};
use crate::steps::parts::{share, share_conf};
use crate::steps::shots::{copy_snapshot, holder_of, snapshot_numbered};
use curator_decisions::{DecisionFault, Decisions, Verdict};
use layer_rules::well_formed_layers_cohere;
use mark_base::{AnnId, Memory, Slug};
use project_state::{Act, BookRefusal, BookState, Change, Reply, SnapshotView, StoredSnapshot};
use std::alloc::Global;
use unanimous_merge::ItemId;

/// A snapshot is read. Cost: its holders and its verdicts.
pub(crate) fn take_snapshot(
    alloc: Global,
    state: &BookState,
    by: &Slug,
    number: u64,
) -> Result<Outcome, Memory>
    requires { IsKept state.now.state }
    ensures { IfOk result (IsOutcome state.now.state by.now (TakeSnapshot number)) }
{
    let Some(taken) = snapshot_numbered(state, number) else {
        return Ok(Outcome::Refused(BookRefusal::NoSnapshot));
    };
    let view = view_of(alloc, state, taken)?;
    Ok(Outcome::Accepted(Accepted {
        reply: Reply::Taken(view),
        made: None,
    }))
}

/// A snapshot as it is read.
fn view_of(alloc: Global, state: &BookState, taken: &StoredSnapshot) -> Result<SnapshotView, Memory>
    requires { IsSnapshotKept state.now.state taken.now }
    ensures { IfOk result (λ view. plain.view_of view ≡ view_of state.now.state taken.now) }
{
    let Some(document) = state.document_list().get(taken.doc() as usize) else {
        unreachable!()
    };
    Ok(SnapshotView {
        snapshot: copy_snapshot(alloc, taken.layers())?,
        decisions: taken.decisions().copy()?,
        doc: share(document.text())?,
        conf: share_conf(state)?,
    })
}

/// The verdicts of a snapshot with one more. Cost: as of `Decisions::decide`.
fn verdict_set(
    state: &BookState,
    taken: &StoredSnapshot,
    item: ItemId,
    verdict: Verdict,
) -> Result<Decisions, DecisionFault>
    requires { IsSnapshotKept state.now.state taken.now }
    ensures decided { IfOk result (λ decisions. decisions ≡ with_verdict taken.now.verdicts item verdict) }
    ensures accepted { OnOk result (decide_fault state.now.state.conf (length (text_of state.now.state taken.now)) (readings taken.now.holders) taken.now.verdicts item verdict ≡ None) }
    ensures refused { IfErr result (IsFirstFault (decide_fault state.now.state.conf (length (text_of state.now.state taken.now)) (readings taken.now.holders) taken.now.verdicts item verdict)) }
{
    well_formed_layers_cohere();
    let Some(document) = state.document_list().get(taken.doc() as usize) else {
        unreachable!()
    };
    let mut decisions = taken.decisions().copy()?;
    decisions.decide(taken.layers(), document.text(), state.conf(), item, verdict)?;
    Ok(decisions)
}

/// The verdicts of a snapshot without that on an item. Cost: as of `Decisions::undecide`.
fn verdict_taken(
    state: &BookState,
    taken: &StoredSnapshot,
    item: ItemId,
) -> Result<Decisions, DecisionFault>
    requires { IsSnapshotKept state.now.state taken.now }
    ensures decided { IfOk result (λ decisions. decisions ≡ without_verdict taken.now.verdicts item) }
    ensures accepted { OnOk result (undecide_fault state.now.state.conf (length (text_of state.now.state taken.now)) (readings taken.now.holders) taken.now.verdicts item ≡ None) }
    ensures refused { IfErr result (IsFirstFault (undecide_fault state.now.state.conf (length (text_of state.now.state taken.now)) (readings taken.now.holders) taken.now.verdicts item)) }
{
    well_formed_layers_cohere();
    let Some(document) = state.document_list().get(taken.doc() as usize) else {
        unreachable!()
    };
    let mut decisions = taken.decisions().copy()?;
    decisions.undecide(taken.layers(), document.text(), state.conf(), item)?;
    Ok(decisions)
}

/// An item is accepted or rejected, with the verdicts that stand then.
fn accept_decide(
    by: &Slug,
    number: u64,
    item: ItemId,
    verdict: Verdict,
    decisions: Decisions,
) -> Result<Accepted, Memory>
    ensures { IfOk result (λ accepted. accepted ≡ record { reply = Reply.Decided (length decisions); made = Some (record { change = Change.Decide by.now number item.holder item.id verdict; act = Act.Decide number decisions }) }) }
{
    let change = Change::Decide {
        by: by.copy()?,
        snapshot: number,
        holder: item.holder,
        id: item.id,
        verdict,
    };
    Ok(Accepted {
        reply: Reply::Decided {
            count: decisions.count(),
        },
        made: Some(Made {
            change,
            act: Act::Decide { number, decisions },
        }),
    })
}

/// The verdict on an item is taken back, with the verdicts that stand then.
fn accept_undecide(
    by: &Slug,
    number: u64,
    item: ItemId,
    decisions: Decisions,
) -> Result<Accepted, Memory>
    ensures { IfOk result (λ accepted. accepted ≡ record { reply = Reply.Decided (length decisions); made = Some (record { change = Change.Undecide by.now number item.holder item.id; act = Act.Decide number decisions }) }) }
{
    let change = Change::Undecide {
        by: by.copy()?,
        snapshot: number,
        holder: item.holder,
        id: item.id,
    };
    Ok(Accepted {
        reply: Reply::Decided {
            count: decisions.count(),
        },
        made: Some(Made {
            change,
            act: Act::Decide { number, decisions },
        }),
    })
}

/// An item is accepted or rejected. Cost: as of `Decisions::decide`.
pub(crate) fn decide(
    state: &BookState,
    by: &Slug,
    number: u64,
    holder: &Slug,
    id: AnnId,
    verdict: Verdict,
) -> Result<Outcome, Memory>
    requires { IsKept state.now.state }
    ensures { IfOk result (IsOutcome state.now.state by.now (Decide number holder.now id verdict)) }
{
    let Some(taken) = snapshot_numbered(state, number) else {
        return Ok(Outcome::Refused(BookRefusal::NoSnapshot));
    };
    let place = holder_of(taken, holder);
    if taken.layers().count() <= place {
        return Ok(Outcome::Refused(BookRefusal::Decision(DecisionFault::NoItem)));
    }
    let item = ItemId {
        holder: place as u8,
        id,
    };
    match verdict_set(state, taken, item, verdict) {
        Ok(decisions) => Ok(Outcome::Accepted(accept_decide(
            by, number, item, verdict, decisions,
        )?)),
        Err(fault) => {
            if fault == DecisionFault::Memory {
                return Err(Memory);
            }
            Ok(Outcome::Refused(BookRefusal::Decision(fault)))
        }
    }
}

/// The verdict on an item is taken back. Cost: as of `Decisions::undecide`.
pub(crate) fn undecide(
    state: &BookState,
    by: &Slug,
    number: u64,
    holder: &Slug,
    id: AnnId,
) -> Result<Outcome, Memory>
    requires { IsKept state.now.state }
    ensures { IfOk result (IsOutcome state.now.state by.now (Undecide number holder.now id)) }
{
    let Some(taken) = snapshot_numbered(state, number) else {
        return Ok(Outcome::Refused(BookRefusal::NoSnapshot));
    };
    let place = holder_of(taken, holder);
    if taken.layers().count() <= place {
        return Ok(Outcome::Refused(BookRefusal::Decision(DecisionFault::NoItem)));
    }
    let item = ItemId {
        holder: place as u8,
        id,
    };
    match verdict_taken(state, taken, item) {
        Ok(decisions) => Ok(Outcome::Accepted(accept_undecide(by, number, item, decisions)?)),
        Err(fault) => {
            if fault == DecisionFault::Memory {
                return Err(Memory);
            }
            Ok(Outcome::Refused(BookRefusal::Decision(fault)))
        }
    }
}
