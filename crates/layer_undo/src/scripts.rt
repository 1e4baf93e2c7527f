//! Two scripts, tried on a layer.
ghost use Rattle.std.specs.Prelude.{◌≡◌, ◌≤◌, ◌+◌, ◌++◌, IfErr, IfOk, IsOk, None, Ok, OnOk, length, nat_lt, reverse};
ghost use Rattle.std.specs.Arc.{arc_value};
ghost use Rattle.layer_rules.specs.WellFormed.{IsWellFormed};
ghost use Rattle.layer_undo.specs.Replays.{first_refusal, replay_from};
ghost use Rattle.layer_undo.specs.Starts.{IsDeskStart, IsStop};
ghost use Rattle.layer_undo.specs.Trails.{IsKept, IsTrail};

use crate::replay::{open_copy, reopen, replay_back, replay_forward, replay_on};
use crate::{DeskStart, Script};
use char_documents::Doc;
use conf_model::Conf;
use layer_core::{Back, Command, Work};
use layer_model::{Layer, Rule};
use std::alloc::Global;
use std::sync::Arc;

/// How many commands a desk has at most, done and undone together.
pub(crate) const MOST_COMMANDS: usize = 4_096;

/// Whether two scripts have more commands than a desk takes.
fn are_too_many(done: &[Command], undone: &[Command]) -> bool
    ensures { result ≡ nat_lt 4096 (length done.now + length undone.now) }
{
    done.len() > MOST_COMMANDS || undone.len() > MOST_COMMANDS - done.len()
}

/// Tries undone commands from their end on a copy of a layer, where the last has this index. Cost: a copy
/// and a check of the layer, and as much as the commands cost.
fn try_undone(
    alloc: Global,
    layer: &Layer,
    doc: &Arc<Doc>,
    conf: &Arc<Conf>,
    at: u32,
    undone: &[Command],
) -> Result<(), DeskStart>
    requires well_formed { IsWellFormed (arc_value conf.now) (length (arc_value doc.now)) layer.now }
    requires few { at + length undone.now ≤ 4096 }
    ensures accepted { OnOk result (IsOk (replay_from (arc_value conf.now) (length (arc_value doc.now)) at layer.now (reverse undone.now))) }
    ensures stopped { IfErr result (IsStop (replay_from (arc_value conf.now) (length (arc_value doc.now)) at layer.now (reverse undone.now))) }
{
    if undone.is_empty() {
        return Ok(());
    }
    let mut redone = reopen(alloc, layer, doc, conf)?;
    replay_back(&mut redone, at, undone)
}

/// Carries done commands out on a work, tries undone ones behind them, and tells what leads back from the
/// done ones.
fn carry_scripts(
    alloc: Global,
    work: &mut Work,
    doc: &Arc<Doc>,
    conf: &Arc<Conf>,
    done: &[Command],
    undone: &[Command],
) -> Result<Vec<Back>, DeskStart>
    requires few { length done.now + length undone.now ≤ 4096 }
    requires conf { work.old.conf ≡ arc_value conf.now }
    requires text { work.old.text ≡ arc_value doc.now }
    ensures done { OnOk result (replay_from work.old.conf (length work.old.text) 0 work.old.layer done.now ≡ Ok work.new.layer) }
    ensures trail { IfOk result (λ backs. IsTrail work.old.conf (length work.old.text) work.old.layer done.now backs.items) }
    ensures accepted { OnOk result (IsOk (replay_from work.old.conf (length work.old.text) 0 work.old.layer (done.now ++ reverse undone.now))) }
    ensures stopped { IfErr result (IsStop (replay_from work.old.conf (length work.old.text) 0 work.old.layer (done.now ++ reverse undone.now))) }
    ensures conf { work.new.conf ≡ work.old.conf }
    ensures text { work.new.text ≡ work.old.text }
{
    let backs = replay_forward(alloc, work, 0, done)?;
    try_undone(alloc, work.layer(), doc, conf, done.len() as u32, undone)?;
    Ok(backs)
}

/// A work on which the done commands of two scripts were carried out, and what leads back from each.
#[derive(Drop)]
pub(crate) struct Tried {
    pub work: Work,
    pub backs: Vec<Back>,
}

/// The work of a desk with these scripts: the done commands are carried out on a copy of the base, and
/// the undone ones are tried behind them.
pub(crate) fn try_scripts(
    alloc: Global,
    base: &Layer,
    doc: &Arc<Doc>,
    conf: &Arc<Conf>,
    done: &[Command],
    undone: &[Command],
) -> Result<Tried, DeskStart>
    ensures kept { IfOk result (λ tried. IsKept (record { conf = arc_value conf.now; text = arc_value doc.now; base = base.now; done = done.now; undone = undone.now }) tried.work tried.backs.items) }
    ensures refused { IfErr result (IsDeskStart (arc_value conf.now) (length (arc_value doc.now)) base.now done.now undone.now) }
{
    let mut work = open_copy(alloc, base, doc, conf)?;
    let _layer = work.layer();
    if are_too_many(done, undone) {
        return Err(DeskStart::At(MOST_COMMANDS as u32, Rule::DeskFull));
    }
    let backs = carry_scripts(alloc, &mut work, doc, conf, done, undone)?;
    Ok(Tried { work, backs })
}

/// Carries the commands of two scripts out in turn on a work, done and then undone from its end, and keeps
/// no way back.
fn carry_both(work: &mut Work, done: &[Command], undone: &[Command]) -> Result<(), DeskStart>
    requires { length done.now + length undone.now ≤ 4096 }
    ensures accepted { OnOk result (IsOk (replay_from work.old.conf (length work.old.text) 0 work.old.layer (done.now ++ reverse undone.now))) }
    ensures stopped { IfErr result (IsStop (replay_from work.old.conf (length work.old.text) 0 work.old.layer (done.now ++ reverse undone.now))) }
{
    replay_on(work, 0, done)?;
    replay_back(work, done.len() as u32, undone)?;
    Ok(())
}

/// Tries two scripts on a layer, as [`Desk::open`](crate::Desk::open) does, and keeps nothing. Cost: a
/// copy and a check of the base, and then as much as the commands of both scripts cost; in memory the copy
/// and what one command takes.
pub fn check_scripts(
    alloc: Global,
    base: &Layer,
    doc: &Arc<Doc>,
    conf: &Arc<Conf>,
    done: &Script,
    undone: &Script,
) -> Result<(), DeskStart>
    ensures well_formed { OnOk result (IsWellFormed (arc_value conf.now) (length (arc_value doc.now)) base.now) }
    ensures accepted { OnOk result (first_refusal (arc_value conf.now) (length (arc_value doc.now)) base.now done.now undone.now ≡ None) }
    ensures refused { IfErr result (IsDeskStart (arc_value conf.now) (length (arc_value doc.now)) base.now done.now undone.now) }
{
    let mut work = open_copy(alloc, base, doc, conf)?;
    let _layer = work.layer();
    if are_too_many(done.items(), undone.items()) {
        return Err(DeskStart::At(MOST_COMMANDS as u32, Rule::DeskFull));
    }
    carry_both(&mut work, done.items(), undone.items())
}
