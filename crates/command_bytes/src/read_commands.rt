//! Commands that load no layer, each read from the front of bytes behind its tag.
ghost use Rattle.std.specs.Prelude.{Some};
ghost use Rattle.command_bytes.specs.CommandReading.{ReadsCommand, add_span_at, retype_span_at, move_span_at, add_event_at, add_arg_at, remove_arg_at, add_relation_at, set_attribute_at, clear_attribute_at, equate_at, unequate_at, set_note_at, set_reference_at, delete_at, purge_at, plain_at};

use crate::read_fields::Cursor;
use layer_core::Command;
use mark_base::Memory;
use std::alloc::Global;

/// A span that is added.
#[tactic(auto, unfolding(crate::specs::CommandReading::add_span_at))]
fn add_span(alloc: Global, cursor: &mut Cursor<'_>) -> Result<Option<Command>, Memory>
    ensures { ReadsCommand add_span_at cursor.old cursor.new result }
{
    let Some(kind) = cursor.take_name(alloc)? else {
        return Ok(None);
    };
    let Some(frags) = cursor.take_frags(alloc)? else {
        return Ok(None);
    };
    Ok(Some(Command::AddSpan { kind, frags }))
}

/// Another type for a span.
#[tactic(auto, unfolding(crate::specs::CommandReading::retype_span_at))]
fn retype_span(alloc: Global, cursor: &mut Cursor<'_>) -> Result<Option<Command>, Memory>
    ensures { ReadsCommand retype_span_at cursor.old cursor.new result }
{
    let Some(id) = cursor.take_id() else {
        return Ok(None);
    };
    let Some(kind) = cursor.take_name(alloc)? else {
        return Ok(None);
    };
    Ok(Some(Command::RetypeSpan { id, kind }))
}

/// Other fragments for a span.
#[tactic(auto, unfolding(crate::specs::CommandReading::move_span_at))]
fn move_span(alloc: Global, cursor: &mut Cursor<'_>) -> Result<Option<Command>, Memory>
    ensures { ReadsCommand move_span_at cursor.old cursor.new result }
{
    let Some(id) = cursor.take_id() else {
        return Ok(None);
    };
    let Some(frags) = cursor.take_frags(alloc)? else {
        return Ok(None);
    };
    Ok(Some(Command::MoveSpan { id, frags }))
}

/// An event that is added.
#[tactic(auto, unfolding(crate::specs::CommandReading::add_event_at))]
fn add_event(alloc: Global, cursor: &mut Cursor<'_>) -> Result<Option<Command>, Memory>
    ensures { ReadsCommand add_event_at cursor.old cursor.new result }
{
    let Some(kind) = cursor.take_name(alloc)? else {
        return Ok(None);
    };
    let Some(trigger) = cursor.take_id() else {
        return Ok(None);
    };
    let Some(args) = cursor.take_args(alloc)? else {
        return Ok(None);
    };
    Ok(Some(Command::AddEvent {
        kind,
        trigger,
        args,
    }))
}

/// An argument that is added.
#[tactic(auto, unfolding(crate::specs::CommandReading::add_arg_at))]
fn add_arg(alloc: Global, cursor: &mut Cursor<'_>) -> Result<Option<Command>, Memory>
    ensures { ReadsCommand add_arg_at cursor.old cursor.new result }
{
    let Some(id) = cursor.take_id() else {
        return Ok(None);
    };
    let Some(arg) = cursor.take_arg(alloc)? else {
        return Ok(None);
    };
    Ok(Some(Command::AddArg { id, arg }))
}

/// An argument that is taken out.
#[tactic(auto, unfolding(crate::specs::CommandReading::remove_arg_at))]
fn remove_arg(alloc: Global, cursor: &mut Cursor<'_>) -> Result<Option<Command>, Memory>
    ensures { ReadsCommand remove_arg_at cursor.old cursor.new result }
{
    let Some(id) = cursor.take_id() else {
        return Ok(None);
    };
    let Some(arg) = cursor.take_arg(alloc)? else {
        return Ok(None);
    };
    Ok(Some(Command::RemoveArg { id, arg }))
}

/// A relation that is added.
#[tactic(auto, unfolding(crate::specs::CommandReading::add_relation_at))]
fn add_relation(alloc: Global, cursor: &mut Cursor<'_>) -> Result<Option<Command>, Memory>
    ensures { ReadsCommand add_relation_at cursor.old cursor.new result }
{
    let Some(kind) = cursor.take_name(alloc)? else {
        return Ok(None);
    };
    let Some(first) = cursor.take_id() else {
        return Ok(None);
    };
    let Some(second) = cursor.take_id() else {
        return Ok(None);
    };
    Ok(Some(Command::AddRelation {
        kind,
        first,
        second,
    }))
}

/// An attribute that is set.
#[tactic(auto, unfolding(crate::specs::CommandReading::set_attribute_at))]
fn set_attribute(alloc: Global, cursor: &mut Cursor<'_>) -> Result<Option<Command>, Memory>
    ensures { ReadsCommand set_attribute_at cursor.old cursor.new result }
{
    let Some(kind) = cursor.take_name(alloc)? else {
        return Ok(None);
    };
    let Some(target) = cursor.take_id() else {
        return Ok(None);
    };
    let Some(value) = cursor.take_value(alloc)? else {
        return Ok(None);
    };
    Ok(Some(Command::SetAttribute {
        kind,
        target,
        value,
    }))
}

/// An attribute that is taken away.
#[tactic(auto, unfolding(crate::specs::CommandReading::clear_attribute_at))]
fn clear_attribute(cursor: &mut Cursor<'_>) -> Result<Option<Command>, Memory>
    ensures { ReadsCommand clear_attribute_at cursor.old cursor.new result }
{
    let Some(id) = cursor.take_id() else {
        return Ok(None);
    };
    Ok(Some(Command::ClearAttribute { id }))
}

/// Spans that are one class.
#[tactic(auto, unfolding(crate::specs::CommandReading::equate_at))]
fn equate(alloc: Global, cursor: &mut Cursor<'_>) -> Result<Option<Command>, Memory>
    ensures { ReadsCommand equate_at cursor.old cursor.new result }
{
    let Some(kind) = cursor.take_name(alloc)? else {
        return Ok(None);
    };
    let Some(members) = cursor.take_ids(alloc)? else {
        return Ok(None);
    };
    Ok(Some(Command::Equate { kind, members }))
}

/// A span that is taken out of its class.
#[tactic(auto, unfolding(crate::specs::CommandReading::unequate_at))]
fn unequate(alloc: Global, cursor: &mut Cursor<'_>) -> Result<Option<Command>, Memory>
    ensures { ReadsCommand unequate_at cursor.old cursor.new result }
{
    let Some(kind) = cursor.take_name(alloc)? else {
        return Ok(None);
    };
    let Some(id) = cursor.take_id() else {
        return Ok(None);
    };
    Ok(Some(Command::Unequate { kind, id }))
}

/// A note that is set.
#[tactic(auto, unfolding(crate::specs::CommandReading::set_note_at))]
fn set_note(alloc: Global, cursor: &mut Cursor<'_>) -> Result<Option<Command>, Memory>
    ensures { ReadsCommand set_note_at cursor.old cursor.new result }
{
    let Some(target) = cursor.take_id() else {
        return Ok(None);
    };
    let Some(kind) = cursor.take_name(alloc)? else {
        return Ok(None);
    };
    let Some(text) = cursor.take_text(alloc)? else {
        return Ok(None);
    };
    Ok(Some(Command::SetNote { target, kind, text }))
}

/// A reference that is set.
#[tactic(auto, unfolding(crate::specs::CommandReading::set_reference_at))]
fn set_reference(alloc: Global, cursor: &mut Cursor<'_>) -> Result<Option<Command>, Memory>
    ensures { ReadsCommand set_reference_at cursor.old cursor.new result }
{
    let Some(target) = cursor.take_id() else {
        return Ok(None);
    };
    let Some(store) = cursor.take_text(alloc)? else {
        return Ok(None);
    };
    let Some(entry) = cursor.take_text(alloc)? else {
        return Ok(None);
    };
    let Some(text) = cursor.take_text(alloc)? else {
        return Ok(None);
    };
    Ok(Some(Command::SetReference {
        target,
        store,
        entry,
        text,
    }))
}

/// An annotation that is taken away.
#[tactic(auto, unfolding(crate::specs::CommandReading::delete_at))]
fn delete(cursor: &mut Cursor<'_>) -> Result<Option<Command>, Memory>
    ensures { ReadsCommand delete_at cursor.old cursor.new result }
{
    let Some(id) = cursor.take_id() else {
        return Ok(None);
    };
    Ok(Some(Command::Delete { id }))
}

/// An annotation that is taken away with all that names it.
#[tactic(auto, unfolding(crate::specs::CommandReading::purge_at))]
fn purge(cursor: &mut Cursor<'_>) -> Result<Option<Command>, Memory>
    ensures { ReadsCommand purge_at cursor.old cursor.new result }
{
    let Some(id) = cursor.take_id() else {
        return Ok(None);
    };
    Ok(Some(Command::Purge { id }))
}

/// Takes the fields behind the number of a command that is no load.
#[tactic(auto, unfolding(crate::specs::CommandReading::plain_at))]
pub(crate) fn take_plain(
    alloc: Global,
    cursor: &mut Cursor<'_>,
    number: u8,
) -> Result<Option<Command>, Memory>
    ensures { ReadsCommand (plain_at number) cursor.old cursor.new result }
{
    match number {
        1 => add_span(alloc, cursor),
        2 => retype_span(alloc, cursor),
        3 => move_span(alloc, cursor),
        4 => add_event(alloc, cursor),
        5 => add_arg(alloc, cursor),
        6 => remove_arg(alloc, cursor),
        7 => add_relation(alloc, cursor),
        8 => set_attribute(alloc, cursor),
        9 => clear_attribute(cursor),
        10 => equate(alloc, cursor),
        11 => unequate(alloc, cursor),
        12 => set_note(alloc, cursor),
        13 => set_reference(alloc, cursor),
        14 => delete(cursor),
        15 => purge(cursor),
        _ => Ok(None),
    }
}
