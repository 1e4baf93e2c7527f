//! The bodies that spell commands on notes and references.
ghost use Rattle.std.specs.Prelude.{◌≡◌, IfOk};
ghost use Rattle.serde_json.specs.View.{view};
ghost use Rattle.command_json.specs.BodyForms.{spelt_by, set_note, set_reference};

use crate::body_fields::{ann_id_at, copied_text, entry_at, has_only, name_at};
use crate::spelling::StoreEntry;
use layer_core::Command;
use mark_base::Memory;
use serde_json::Value;
use std::alloc::Global;

/// A note.
pub(crate) fn set_note(alloc: Global, body: &Value) -> Result<Option<Command>, Memory>
    ensures { IfOk result (λ found. found ≡ spelt_by (view body.now) set_note) }
{
    if !has_only(body, &["do", "of", "type", "text"]) {
        return Ok(None);
    }
    let Some(target) = ann_id_at(body, "of") else {
        return Ok(None);
    };
    let Some(kind) = name_at(alloc, body, "type")? else {
        return Ok(None);
    };
    let Some(text) = copied_text(alloc, body, "text")? else {
        return Ok(None);
    };
    Ok(Some(Command::SetNote { target, kind, text }))
}

/// A reference to an entry of a store.
pub(crate) fn set_reference(alloc: Global, body: &Value) -> Result<Option<Command>, Memory>
    ensures { IfOk result (λ found. found ≡ spelt_by (view body.now) set_reference) }
{
    if !has_only(body, &["do", "of", "entry", "text"]) {
        return Ok(None);
    }
    let Some(target) = ann_id_at(body, "of") else {
        return Ok(None);
    };
    let Some(StoreEntry { store, entry }) = entry_at(alloc, body, "entry")? else {
        return Ok(None);
    };
    let Some(text) = copied_text(alloc, body, "text")? else {
        return Ok(None);
    };
    Ok(Some(Command::SetReference {
        target,
        store,
        entry,
        text,
    }))
}
