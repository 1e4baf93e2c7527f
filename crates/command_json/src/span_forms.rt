//! The bodies that spell commands on spans.
ghost use Rattle.std.specs.Prelude.{◌≡◌, IfOk};
ghost use Rattle.serde_json.specs.View.{view};
ghost use Rattle.command_json.specs.BodyForms.{spelt_by, add_span, retype, move_span};

use crate::body_fields::{ann_id_at, frags_at, has_only, name_at};
use layer_core::Command;
use mark_base::Memory;
use serde_json::Value;
use std::alloc::Global;

/// A new span.
pub(crate) fn add_span(alloc: Global, body: &Value) -> Result<Option<Command>, Memory>
    ensures { IfOk result (λ found. found ≡ spelt_by (view body.now) add_span) }
{
    if !has_only(body, &["do", "type", "at"]) {
        return Ok(None);
    }
    let Some(kind) = name_at(alloc, body, "type")? else {
        return Ok(None);
    };
    let Some(frags) = frags_at(alloc, body, "at")? else {
        return Ok(None);
    };
    Ok(Some(Command::AddSpan { kind, frags }))
}

/// Another type for a span.
pub(crate) fn retype(alloc: Global, body: &Value) -> Result<Option<Command>, Memory>
    ensures { IfOk result (λ found. found ≡ spelt_by (view body.now) retype) }
{
    if !has_only(body, &["do", "id", "type"]) {
        return Ok(None);
    }
    let Some(id) = ann_id_at(body, "id") else {
        return Ok(None);
    };
    let Some(kind) = name_at(alloc, body, "type")? else {
        return Ok(None);
    };
    Ok(Some(Command::RetypeSpan { id, kind }))
}

/// Other fragments for a span.
pub(crate) fn move_span(alloc: Global, body: &Value) -> Result<Option<Command>, Memory>
    ensures { IfOk result (λ found. found ≡ spelt_by (view body.now) move_span) }
{
    if !has_only(body, &["do", "id", "at"]) {
        return Ok(None);
    }
    let Some(id) = ann_id_at(body, "id") else {
        return Ok(None);
    };
    let Some(frags) = frags_at(alloc, body, "at")? else {
        return Ok(None);
    };
    Ok(Some(Command::MoveSpan { id, frags }))
}
