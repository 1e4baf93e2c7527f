//! The bodies that spell commands on events.
ghost use Rattle.std.specs.Prelude.{◌≡◌, IfOk};
ghost use Rattle.serde_json.specs.View.{view};
ghost use Rattle.command_json.specs.BodyForms.{spelt_by, add_event, add_arg, remove_arg};

use crate::body_fields::{ann_id_at, argument_at, has_only, name_at};
use crate::lists::arguments_at;
use layer_core::Command;
use mark_base::Memory;
use serde_json::Value;
use std::alloc::Global;

/// A new event.
pub(crate) fn add_event(alloc: Global, body: &Value) -> Result<Option<Command>, Memory>
    ensures { IfOk result (λ found. found ≡ spelt_by (view body.now) add_event) }
{
    if !has_only(body, &["do", "type", "trigger", "args"]) {
        return Ok(None);
    }
    let Some(kind) = name_at(alloc, body, "type")? else {
        return Ok(None);
    };
    let Some(trigger) = ann_id_at(body, "trigger") else {
        return Ok(None);
    };
    let Some(args) = arguments_at(alloc, body, "args")? else {
        return Ok(None);
    };
    Ok(Some(Command::AddEvent {
        kind,
        trigger,
        args,
    }))
}

/// One more argument of an event.
pub(crate) fn add_arg(alloc: Global, body: &Value) -> Result<Option<Command>, Memory>
    ensures { IfOk result (λ found. found ≡ spelt_by (view body.now) add_arg) }
{
    if !has_only(body, &["do", "id", "arg"]) {
        return Ok(None);
    }
    let Some(id) = ann_id_at(body, "id") else {
        return Ok(None);
    };
    let Some(arg) = argument_at(alloc, body, "arg")? else {
        return Ok(None);
    };
    Ok(Some(Command::AddArg { id, arg }))
}

/// An argument of an event is taken out.
pub(crate) fn remove_arg(alloc: Global, body: &Value) -> Result<Option<Command>, Memory>
    ensures { IfOk result (λ found. found ≡ spelt_by (view body.now) remove_arg) }
{
    if !has_only(body, &["do", "id", "arg"]) {
        return Ok(None);
    }
    let Some(id) = ann_id_at(body, "id") else {
        return Ok(None);
    };
    let Some(arg) = argument_at(alloc, body, "arg")? else {
        return Ok(None);
    };
    Ok(Some(Command::RemoveArg { id, arg }))
}
