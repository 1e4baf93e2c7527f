//! Commands that are carried out in turn on a layer.
ghost use Rattle.std.specs.Prelude.{◌≡◌, ◌+◌, ◌<◌, ◌∷◌, ◌++◌, [], ◌≤◌, ℕ, List, true, vec_len, IfOk, IfErr, IsOk, OnErr, OnOk, Ok, Some, length, reverse};
ghost use Rattle.std.specs.Arc.{arc_value};
ghost use Rattle.layer_rules.specs.CheckFaults.{IsCheckFault};
ghost use Rattle.layer_rules.specs.WellFormed.{IsWellFormed};
ghost use Rattle.layer_core.specs.Backs.{fits_back, led_back};
ghost use Rattle.layer_core.specs.declared.back.Back.{Back};
ghost use Rattle.layer_core.specs.declared.command.Command.{Command};
ghost use Rattle.layer_undo.specs.Desks.{last_of};
ghost use Rattle.layer_undo.specs.Replays.{replay_from};
ghost use Rattle.layer_undo.specs.Starts.{IsStop, IsWantOfMemory};
ghost use Rattle.layer_core.specs.Commands.{apply};
ghost use Rattle.layer_core.specs.Works.{IsRefusal};
ghost use Rattle.layer_undo.specs.Trails.{IsOneMore, IsReverted, IsTrail};

use crate::DeskStart;
use crate::script_moves::make_way;
use char_documents::Doc;
use conf_model::Conf;
use layer_core::{Back, Command, Done, Refusal, Work};
use layer_model::Layer;
use layer_rules::{CheckFault, unflawed_layers};
use mark_base::Memory;
use std::alloc::Global;
use std::sync::Arc;

/// One more owner of a value.
fn share<T: Drop>(value: &Arc<T>) -> Result<Arc<T>, Memory>
    ensures { IfOk result (λ shared. arc_value shared ≡ arc_value value.now) }
{
    let shared = value.clone()?;
    Ok(shared)
}

/// A work on a copy of a layer. Cost: a copy and a check of the layer.
pub(crate) fn open_copy(
    alloc: Global,
    layer: &Layer,
    doc: &Arc<Doc>,
    conf: &Arc<Conf>,
) -> Result<Work, CheckFault>
    ensures opened { IfOk result (λ work. work ≡ record { conf = arc_value conf.now; text = arc_value doc.now; layer = layer.now }) }
    ensures fault { IfErr result (IsCheckFault (arc_value conf.now) (length (arc_value doc.now)) layer.now) }
{
    let copy = layer.copy()?;
    let doc = share(doc)?;
    let conf = share(conf)?;
    Work::open(alloc, copy, doc, conf)
}

/// A work on a copy of a layer that is well-formed. Cost: as `open_copy`.
pub(crate) fn reopen(
    alloc: Global,
    layer: &Layer,
    doc: &Arc<Doc>,
    conf: &Arc<Conf>,
) -> Result<Work, Memory>
    requires { IsWellFormed (arc_value conf.now) (length (arc_value doc.now)) layer.now }
    ensures { IfOk result (λ work. work ≡ record { conf = arc_value conf.now; text = arc_value doc.now; layer = layer.now }) }
{
    unflawed_layers();
    match open_copy(alloc, layer, doc, conf) {
        Ok(work) => Ok(work),
        Err(CheckFault::Memory) => Err(Memory),
        Err(CheckFault::Flaw(_)) => unreachable!(),
    }
}

/// Carries the command of this index out. A refusal leaves the work as it was.
fn carry_out(work: &mut Work, at: u32, command: &Command) -> Result<(), DeskStart>
    ensures done { OnOk result (replay_from work.old.conf (length work.old.text) at work.old.layer (command.now ∷ []) ≡ Ok work.new.layer) }
    ensures stopped { IfErr result (IsStop (replay_from work.old.conf (length work.old.text) at work.old.layer (command.now ∷ []))) }
    ensures kept { OnErr result (work.new ≡ work.old) }
    ensures conf { work.new.conf ≡ work.old.conf }
    ensures text { work.new.text ≡ work.old.text }
{
    match work.carry_out(command) {
        Ok(_) => Ok(()),
        Err(Refusal::Rule(rule)) => Err(DeskStart::At(at, rule)),
        Err(Refusal::Memory) => Err(DeskStart::Memory),
    }
}

/// Carries the command of this index out, and tells what leads back. A refusal leaves the work as it was.
fn carry_out_back(work: &mut Work, at: u32, command: &Command) -> Result<Back, DeskStart>
    ensures done { OnOk result (replay_from work.old.conf (length work.old.text) at work.old.layer (command.now ∷ []) ≡ Ok work.new.layer) }
    ensures trail { IfOk result (λ back. IsTrail work.old.conf (length work.old.text) work.old.layer (command.now ∷ []) (back ∷ [])) }
    ensures stopped { IfErr result (IsStop (replay_from work.old.conf (length work.old.text) at work.old.layer (command.now ∷ []))) }
    ensures kept { OnErr result (work.new ≡ work.old) }
    ensures conf { work.new.conf ≡ work.old.conf }
    ensures text { work.new.text ≡ work.old.text }
{
    match work.carry_out_back(command) {
        Ok((_, back)) => Ok(back),
        Err(Refusal::Rule(rule)) => Err(DeskStart::At(at, rule)),
        Err(Refusal::Memory) => Err(DeskStart::Memory),
    }
}

/// Carries a command out, and puts what leads back behind the other ways back. A refusal leaves the work and the
/// ways back as they were. Cost: as the command.
pub(crate) fn carry_on(
    work: &mut Work,
    backs: &mut Vec<Back>,
    command: &Command,
) -> Result<Done, Refusal>
    ensures done { IfOk result (λ done. apply work.old.conf (length work.old.text) work.old.layer command.now ≡ Ok (record { layer = work.new.layer; made = done.made })) }
    ensures back { OnOk result (IsOneMore work.old work.new backs.old.items backs.new.items) }
    ensures refused { IfErr result (IsRefusal work.old.conf (length work.old.text) work.old.layer command.now) }
    ensures kept { OnErr result (work.new ≡ work.old) }
    ensures same { OnErr result (backs.new.items ≡ backs.old.items) }
    ensures conf { work.new.conf ≡ work.old.conf }
    ensures text { work.new.text ≡ work.old.text }
{
    make_way(backs)?;
    let (done, back) = work.carry_out_back(command)?;
    backs.push_reserved(back);
    Ok(done)
}

/// Carries these commands out in turn, where the first has this index, and tells what leads back from
/// each. Cost: as that many commands.
pub(crate) fn replay_forward(
    alloc: Global,
    work: &mut Work,
    at: u32,
    commands: &[Command],
) -> Result<Vec<Back>, DeskStart>
    requires { at + length commands.now ≤ 4294967295 }
    ensures done { OnOk result (replay_from work.old.conf (length work.old.text) at work.old.layer commands.now ≡ Ok work.new.layer) }
    ensures trail { IfOk result (λ backs. IsTrail work.old.conf (length work.old.text) work.old.layer commands.now backs.items) }
    ensures stopped { IfErr result (IsStop (replay_from work.old.conf (length work.old.text) at work.old.layer commands.now)) }
    ensures conf { work.new.conf ≡ work.old.conf }
    ensures text { work.new.text ≡ work.old.text }
{
    let mut backs = Vec::new(alloc);
    let mut index = at;
    let mut left = commands;
    while let [command, rest @ ..] = left {
        make_way(&mut backs)?;
        let back = carry_out_back(work, index, command)?;
        backs.push_reserved(back);
        index += 1;
        left = rest;
    }
    Ok(backs)
}

/// Carries these commands out in turn, where the first has this index, and keeps no way back. Cost: as that
/// many commands.
pub(crate) fn replay_on(work: &mut Work, at: u32, commands: &[Command]) -> Result<(), DeskStart>
    requires { at + length commands.now ≤ 4294967295 }
    ensures done { OnOk result (replay_from work.old.conf (length work.old.text) at work.old.layer commands.now ≡ Ok work.new.layer) }
    ensures stopped { IfErr result (IsStop (replay_from work.old.conf (length work.old.text) at work.old.layer commands.now)) }
    ensures conf { work.new.conf ≡ work.old.conf }
    ensures text { work.new.text ≡ work.old.text }
{
    let mut index = at;
    let mut left = commands;
    while let [command, rest @ ..] = left {
        carry_out(work, index, command)?;
        index += 1;
        left = rest;
    }
    Ok(())
}

/// Carries these commands out from the last to the first, where the last has this index. Cost: as that
/// many commands.
pub(crate) fn replay_back(work: &mut Work, at: u32, commands: &[Command]) -> Result<(), DeskStart>
    requires { at + length commands.now ≤ 4294967295 }
    ensures done { OnOk result (replay_from work.old.conf (length work.old.text) at work.old.layer (reverse commands.now) ≡ Ok work.new.layer) }
    ensures stopped { IfErr result (IsStop (replay_from work.old.conf (length work.old.text) at work.old.layer (reverse commands.now))) }
    ensures conf { work.new.conf ≡ work.old.conf }
    ensures text { work.new.text ≡ work.old.text }
{
    let mut index = at;
    let mut left = commands;
    while let [rest @ .., command] = left {
        carry_out(work, index, command)?;
        index += 1;
        left = rest;
    }
    Ok(())
}

/// The want of memory that stopped commands of which none is refused.
fn want_of_memory(stop: DeskStart) -> Memory
    requires { IsWantOfMemory stop }
{
    match stop {
        DeskStart::Memory => Memory,
        DeskStart::At(_, _) => unreachable!(),
        DeskStart::Base(_) => unreachable!(),
    }
}

/// Carries a command out that is not refused, and tells what leads back. Want of memory leaves the work as
/// it was. Cost: as the command.
fn repeat_one(work: &mut Work, at: u32, command: &Command) -> Result<Back, Memory>
    requires { IsOk (replay_from work.old.conf (length work.old.text) at work.old.layer (command.now ∷ [])) }
    ensures done { OnOk result (replay_from work.old.conf (length work.old.text) at work.old.layer (command.now ∷ []) ≡ Ok work.new.layer) }
    ensures trail { IfOk result (λ back. IsTrail work.old.conf (length work.old.text) work.old.layer (command.now ∷ []) (back ∷ [])) }
    ensures kept { OnErr result (work.new ≡ work.old) }
    ensures conf { work.new.conf ≡ work.old.conf }
    ensures text { work.new.text ≡ work.old.text }
{
    match carry_out_back(work, at, command) {
        Ok(back) => Ok(back),
        Err(stop) => Err(want_of_memory(stop)),
    }
}

/// Carries the last of some commands out, which is not refused, and tells what leads back. Want of memory
/// leaves the work as it was. Cost: as the command.
pub(crate) fn repeat_last(work: &mut Work, at: u32, commands: &[Command]) -> Result<Back, Memory>
    requires some { 0 < length commands.now }
    requires accepted { (command : Command) → last_of commands.now ≡ Some command → IsOk (replay_from work.old.conf (length work.old.text) at work.old.layer (command ∷ [])) }
    ensures done { OnOk result ((command : Command) → last_of commands.now ≡ Some command → replay_from work.old.conf (length work.old.text) at work.old.layer (command ∷ []) ≡ Ok work.new.layer) }
    ensures trail { IfOk result (λ back. (command : Command) → last_of commands.now ≡ Some command → IsTrail work.old.conf (length work.old.text) work.old.layer (command ∷ []) (back ∷ [])) }
    ensures kept { OnErr result (work.new ≡ work.old) }
    ensures conf { work.new.conf ≡ work.old.conf }
    ensures text { work.new.text ≡ work.old.text }
{
    match commands.last() {
        Some(command) => repeat_one(work, at, command),
        None => unreachable!(),
    }
}

/// Goes the last of some ways back. Want of memory leaves all as it was. Cost: as `Work::revert`.
pub(crate) fn revert_last(work: &mut Work, backs: &mut Vec<Back>) -> Result<(), Memory>
    requires some { 0 < vec_len backs.old }
    requires fits { (fewer : List Back) (back : Back) → backs.old.items ≡ fewer ++ back ∷ [] → fits_back back ≡ true }
    requires well_formed { (fewer : List Back) (back : Back) → backs.old.items ≡ fewer ++ back ∷ [] → IsWellFormed work.old.conf (length work.old.text) (led_back back work.old.layer) }
    ensures done { OnOk result (IsReverted work.old work.new backs.old.items backs.new.items) }
    ensures kept { OnErr result (work.new ≡ work.old) }
    ensures same { OnErr result (backs.new.items ≡ backs.old.items) }
{
    let Some(back) = backs.pop() else {
        unreachable!()
    };
    match work.revert(back) {
        Ok(()) => Ok(()),
        Err((back, memory)) => {
            backs.push_reserved(back);
            Err(memory)
        }
    }
}
