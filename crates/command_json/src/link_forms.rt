//! The bodies that spell commands on relations, attributes and classes.
ghost use Rattle.std.specs.Prelude.{◌≡◌, IfOk};
ghost use Rattle.serde_json.specs.View.{view};
ghost use Rattle.command_json.specs.BodyForms.{spelt_by, add_relation, set_attribute, clear_attribute, equate, unequate};

use crate::body_fields::{ann_id_at, has_only, name_at, name_if_there};
use crate::lists::ann_ids_at;
use layer_core::Command;
use mark_base::Memory;
use serde_json::Value;
use std::alloc::Global;

/// A new relation.
pub(crate) fn add_relation(alloc: Global, body: &Value) -> Result<Option<Command>, Memory>
    ensures { IfOk result (λ found. found ≡ spelt_by (view body.now) add_relation) }
{
    if !has_only(body, &["do", "type", "first", "second"]) {
        return Ok(None);
    }
    let Some(kind) = name_at(alloc, body, "type")? else {
        return Ok(None);
    };
    let Some(first) = ann_id_at(body, "first") else {
        return Ok(None);
    };
    let Some(second) = ann_id_at(body, "second") else {
        return Ok(None);
    };
    Ok(Some(Command::AddRelation {
        kind,
        first,
        second,
    }))
}

/// An attribute with a value, or with none where `value` is absent.
pub(crate) fn set_attribute(alloc: Global, body: &Value) -> Result<Option<Command>, Memory>
    ensures { IfOk result (λ found. found ≡ spelt_by (view body.now) set_attribute) }
{
    if !has_only(body, &["do", "type", "of", "value"]) {
        return Ok(None);
    }
    let Some(kind) = name_at(alloc, body, "type")? else {
        return Ok(None);
    };
    let Some(target) = ann_id_at(body, "of") else {
        return Ok(None);
    };
    let Some(value) = name_if_there(alloc, body, "value")? else {
        return Ok(None);
    };
    Ok(Some(Command::SetAttribute {
        kind,
        target,
        value,
    }))
}

/// An attribute is taken away.
pub(crate) fn clear_attribute(alloc: Global, body: &Value) -> Result<Option<Command>, Memory>
    ensures { IfOk result (λ found. found ≡ spelt_by (view body.now) clear_attribute) }
{
    if !has_only(body, &["do", "id"]) {
        return Ok(None);
    }
    let Some(id) = ann_id_at(body, "id") else {
        return Ok(None);
    };
    Ok(Some(Command::ClearAttribute { id }))
}

/// A class of spans.
pub(crate) fn equate(alloc: Global, body: &Value) -> Result<Option<Command>, Memory>
    ensures { IfOk result (λ found. found ≡ spelt_by (view body.now) equate) }
{
    if !has_only(body, &["do", "type", "members"]) {
        return Ok(None);
    }
    let Some(kind) = name_at(alloc, body, "type")? else {
        return Ok(None);
    };
    let Some(members) = ann_ids_at(alloc, body, "members")? else {
        return Ok(None);
    };
    Ok(Some(Command::Equate { kind, members }))
}

/// A span is taken out of its class.
pub(crate) fn unequate(alloc: Global, body: &Value) -> Result<Option<Command>, Memory>
    ensures { IfOk result (λ found. found ≡ spelt_by (view body.now) unequate) }
{
    if !has_only(body, &["do", "type", "id"]) {
        return Ok(None);
    }
    let Some(kind) = name_at(alloc, body, "type")? else {
        return Ok(None);
    };
    let Some(id) = ann_id_at(body, "id") else {
        return Ok(None);
    };
    Ok(Some(Command::Unequate { kind, id }))
}
