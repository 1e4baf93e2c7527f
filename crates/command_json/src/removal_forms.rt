//! The bodies that spell commands that take away an annotation of any sort.
ghost use Rattle.std.specs.Prelude.{◌≡◌, IfOk};
ghost use Rattle.serde_json.specs.View.{view};
ghost use Rattle.command_json.specs.BodyForms.{spelt_by, delete, purge};

use crate::body_fields::{ann_id_at, has_only};
use layer_core::Command;
use mark_base::Memory;
use serde_json::Value;
use std::alloc::Global;

/// An annotation is taken away.
pub(crate) fn delete(alloc: Global, body: &Value) -> Result<Option<Command>, Memory>
    ensures { IfOk result (λ found. found ≡ spelt_by (view body.now) delete) }
{
    if !has_only(body, &["do", "id"]) {
        return Ok(None);
    }
    let Some(id) = ann_id_at(body, "id") else {
        return Ok(None);
    };
    Ok(Some(Command::Delete { id }))
}

/// An annotation is taken away with all that names it.
pub(crate) fn purge(alloc: Global, body: &Value) -> Result<Option<Command>, Memory>
    ensures { IfOk result (λ found. found ≡ spelt_by (view body.now) purge) }
{
    if !has_only(body, &["do", "id"]) {
        return Ok(None);
    }
    let Some(id) = ann_id_at(body, "id") else {
        return Ok(None);
    };
    Ok(Some(Command::Purge { id }))
}
