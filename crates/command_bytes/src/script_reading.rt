//! Commands and scripts, read from bytes.
ghost use Rattle.std.specs.Prelude.{◌≡◌, List, Some, IfOk, IfSome, IfNone, option_map};
ghost use Rattle.layer_core.specs.declared.command.Command.{Command};
ghost use Rattle.command_bytes.specs.CommandBytes.{scripts_bytes};
ghost use Rattle.command_bytes.specs.WritableCommands.{AreScripts};
ghost use Rattle.command_bytes.specs.CommandReading.{ReadsCommand, command_fields_at, command_at, list_on, list_at, scripts_at, scripts_of};

use crate::read_commands::take_plain;
use crate::read_fields::Cursor;
use crate::read_load::take_load;
use char_documents::Doc;
use conf_model::Conf;
use layer_core::Command;
use layer_undo::Script;
use mark_base::Memory;
use std::alloc::Global;

/// The commands done, and those undone.
#[derive(Drop)]
pub struct Scripts {
    pub done: Script,
    pub undone: Script,
}

/// Takes the fields behind the number of a command.
#[tactic(auto, unfolding(crate::specs::CommandReading::command_fields_at))]
fn take_fields(
    alloc: Global,
    cursor: &mut Cursor<'_>,
    number: u8,
    doc: &Doc,
    conf: &Conf,
) -> Result<Option<Command>, Memory>
    ensures { ReadsCommand (command_fields_at conf.now doc.now number) cursor.old cursor.new result }
{
    if number == 16 {
        take_load(alloc, cursor, doc, conf)
    } else {
        take_plain(alloc, cursor, number)
    }
}

/// Takes a command behind its number.
#[tactic(auto, unfolding(crate::specs::CommandReading::command_at))]
fn take_command(
    alloc: Global,
    cursor: &mut Cursor<'_>,
    doc: &Doc,
    conf: &Conf,
) -> Result<Option<Command>, Memory>
    ensures { ReadsCommand (command_at conf.now doc.now) cursor.old cursor.new result }
{
    match cursor.take_u8() {
        Some(number) => take_fields(alloc, cursor, number, doc, conf),
        None => Ok(None),
    }
}

/// Takes so many commands.
fn take_commands(
    alloc: Global,
    cursor: &mut Cursor<'_>,
    count: u32,
    doc: &Doc,
    conf: &Conf,
) -> Result<Option<Vec<Command>>, Memory>
    ensures { IfOk result (λ found. list_on (command_at conf.now doc.now) count cursor.old ≡ option_map (λ commands. (commands.items, cursor.new)) found) }
{
    let mut commands = Vec::new(alloc);
    for _ in 0..count {
        match take_command(alloc, cursor, doc, conf)? {
            Some(command) => commands.push(command)?,
            None => return Ok(None),
        }
    }
    Ok(Some(commands))
}

/// Takes commands behind their number.
#[tactic(auto, unfolding(crate::specs::CommandReading::list_at))]
fn take_script(
    alloc: Global,
    cursor: &mut Cursor<'_>,
    doc: &Doc,
    conf: &Conf,
) -> Result<Option<Script>, Memory>
    ensures { IfOk result (λ found. list_at (command_at conf.now doc.now) cursor.old ≡ option_map (λ script. (script, cursor.new)) found) }
{
    let Some(count) = cursor.take_u32() else {
        return Ok(None);
    };
    match take_commands(alloc, cursor, count, doc, conf)? {
        Some(commands) => Ok(Some(Script::from_vec(alloc, commands))),
        None => Ok(None),
    }
}

/// Takes two scripts.
#[tactic(auto, unfolding(crate::specs::CommandReading::scripts_at))]
fn take_scripts(
    alloc: Global,
    cursor: &mut Cursor<'_>,
    doc: &Doc,
    conf: &Conf,
) -> Result<Option<Scripts>, Memory>
    ensures { IfOk result (λ found. scripts_at conf.now doc.now cursor.old ≡ option_map (λ scripts. ((scripts.done, scripts.undone), cursor.new)) found) }
{
    let Some(done) = take_script(alloc, cursor, doc, conf)? else {
        return Ok(None);
    };
    match take_script(alloc, cursor, doc, conf)? {
        Some(undone) => Ok(Some(Scripts { done, undone })),
        None => Ok(None),
    }
}

/// The two scripts that bytes are.
#[tactic(auto, unfolding(crate::specs::CommandReading::scripts_of))]
fn scripts_in(
    alloc: Global,
    bytes: &[u8],
    doc: &Doc,
    conf: &Conf,
) -> Result<Option<Scripts>, Memory>
    ensures { IfOk result (λ found. scripts_of conf.now doc.now bytes.now ≡ option_map (λ scripts. (scripts.done, scripts.undone)) found) }
{
    let mut cursor = Cursor::new(bytes);
    let Some(scripts) = take_scripts(alloc, &mut cursor, doc, conf)? else {
        return Ok(None);
    };
    if cursor.is_at_end() {
        Ok(Some(scripts))
    } else {
        Ok(None)
    }
}

/// Reads the two scripts of an entry, those done and those undone, for the configuration and the text that they
/// were written for. None where the bytes are those of no two scripts; a layer is loaded only from the lines that
/// it is written as. Cost: the number of the bytes, and what `read_ann` and `ann_bytes` say of the layers.
pub fn read_scripts(
    alloc: Global,
    bytes: &[u8],
    doc: &Doc,
    conf: &Conf,
) -> Result<Option<Scripts>, Memory>
    // What is read are two scripts of which these are the bytes.
    ensures found { IfOk result (λ found. IfSome found (λ scripts. AreScripts conf.now doc.now scripts.done scripts.undone × (scripts_bytes conf.now doc.now scripts.done scripts.undone ≡ bytes.now))) }
    // Nothing is read only where the bytes are those of no two scripts.
    ensures none { IfOk result (λ found. IfNone found ((done undone : List Command) → AreScripts conf.now doc.now done undone → scripts_bytes conf.now doc.now done undone ≡ bytes.now → ⊥)) }
    // It is what reading from left to right finds.
    ensures exact { IfOk result (λ found. scripts_of conf.now doc.now bytes.now ≡ option_map (λ scripts. (scripts.done, scripts.undone)) found) }
{
    scripts_in(alloc, bytes, doc, conf)
}
