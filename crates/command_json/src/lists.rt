//! The lists among the fields of a body, whose items are texts.
ghost use Rattle.std.specs.Prelude.{◌≡◌, IfOk, option_map, option_and_then};
ghost use Rattle.serde_json.specs.Find.{as_str};
ghost use Rattle.serde_json.specs.View.{view, items_view};
ghost use Rattle.mark_base.specs.ReadIds.{id_read};
ghost use Rattle.command_json.specs.Spellings.{argument_read};
ghost use Rattle.command_json.specs.BodyFields.{each_read, list_at, ann_ids_at, arguments_at};

use crate::spelling::argument_read;
use mark_base::{AnnId, IdList, Memory, NamedArg, NamedArgs};
use serde_json::Value;
use std::alloc::Global;

/// The list at a key.
fn list_at<'v>(body: &'v Value, key: &str) -> Option<&'v Vec<Value>>
    ensures { option_map (λ list. items_view list.now.items) result ≡ list_at key.now (view body.now) }
{
    body.get(key).and_then(Value::as_array)
}

/// The ID that an item of a list spells.
fn id_of(item: &Value) -> Option<AnnId>
    ensures { result ≡ option_and_then id_read (as_str (view item.now)) }
{
    match item.as_str() {
        Some(text) => AnnId::read(text.as_bytes()),
        None => None,
    }
}

/// The IDs that the items of a list spell.
fn each_id(alloc: Global, items: &[Value]) -> Result<Option<Vec<AnnId>>, Memory>
    ensures { IfOk result (λ ids. option_map (λ list. list.items) ids ≡ each_read id_read (items_view items.now)) }
{
    let mut ids = Vec::new(alloc);
    for item in items {
        match id_of(item) {
            Some(id) => ids.push(id)?,
            None => return Ok(None),
        }
    }
    Ok(Some(ids))
}

/// The IDs in the list at a key.
pub(crate) fn ann_ids_at(alloc: Global, body: &Value, key: &str) -> Result<Option<IdList>, Memory>
    ensures { IfOk result (λ ids. ids ≡ ann_ids_at key.now (view body.now)) }
{
    let Some(items) = list_at(body, key) else {
        return Ok(None);
    };
    match each_id(alloc, items)? {
        Some(ids) => Ok(Some(IdList::from_vec(ids))),
        None => Ok(None),
    }
}

/// The argument that an item of a list spells.
fn argument_in(alloc: Global, item: &Value) -> Result<Option<NamedArg>, Memory>
    ensures { IfOk result (λ arg. arg ≡ option_and_then argument_read (as_str (view item.now))) }
{
    match item.as_str() {
        Some(text) => argument_read(alloc, text),
        None => Ok(None),
    }
}

/// The arguments that the items of a list spell.
fn each_argument(alloc: Global, items: &[Value]) -> Result<Option<Vec<NamedArg>>, Memory>
    ensures { IfOk result (λ args. option_map (λ list. list.items) args ≡ each_read argument_read (items_view items.now)) }
{
    let mut args = Vec::new(alloc);
    for item in items {
        match argument_in(alloc, item)? {
            Some(arg) => args.push(arg)?,
            None => return Ok(None),
        }
    }
    Ok(Some(args))
}

/// The arguments in the list at a key.
pub(crate) fn arguments_at(
    alloc: Global,
    body: &Value,
    key: &str,
) -> Result<Option<NamedArgs>, Memory>
    ensures { IfOk result (λ args. args ≡ arguments_at key.now (view body.now)) }
{
    let Some(items) = list_at(body, key) else {
        return Ok(None);
    };
    match each_argument(alloc, items)? {
        Some(args) => Ok(Some(NamedArgs::from_vec(args))),
        None => Ok(None),
    }
}
