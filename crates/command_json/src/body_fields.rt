//! The fields of a body, which is a JSON object.
ghost use Rattle.std.specs.Prelude.{◌≡◌, map, IfOk, option_map};
ghost use Rattle.std.specs.List.{list_all};
ghost use Rattle.serde_json.specs.View.{view, members_view};
ghost use Rattle.command_json.specs.BodyFields.{keys_of, is_listed, has_only, text_at, name_at, name_if_there, ann_id_at, frags_at, argument_at, entry_at};

use crate::spelling::{StoreEntry, argument_read, entry_read, frags_read, name_read};
use mark_base::{AnnId, FragList, Memory, Name, NamedArg, Text};
use serde_json::{Map, Value};
use std::alloc::Global;

/// Whether a key is among some.
fn is_listed(keys: &[&str], key: &str) -> bool
    ensures { result ≡ is_listed (map (λ listed. listed.now) keys.now) key.now }
{
    for listed in keys {
        if key == *listed {
            return true;
        }
    }
    false
}

/// Whether each key of an object is among some.
fn all_listed(keys: &[&str], members: &Map<String, Value>) -> bool
    ensures { result ≡ list_all (is_listed (map (λ listed. listed.now) keys.now)) (keys_of (members_view members.now.entries)) }
{
    for key in members.keys() {
        if !is_listed(keys, key.as_str()) {
            return false;
        }
    }
    true
}

/// Whether the body is an object that has no field but these.
pub(crate) fn has_only(body: &Value, keys: &[&str]) -> bool
    ensures { result ≡ has_only (map (λ listed. listed.now) keys.now) (view body.now) }
{
    match body.as_object() {
        Some(members) => all_listed(keys, members),
        None => false,
    }
}

/// The text at a key.
pub(crate) fn text_at<'v>(body: &'v Value, key: &str) -> Option<&'v str>
    ensures { option_map (λ text. text.now) result ≡ text_at key.now (view body.now) }
{
    body.get(key).and_then(Value::as_str)
}

/// A copy of the text at a key.
pub(crate) fn copied_text(alloc: Global, body: &Value, key: &str) -> Result<Option<Text>, Memory>
    ensures { IfOk result (λ text. text ≡ text_at key.now (view body.now)) }
{
    match text_at(body, key) {
        Some(text) => Ok(Some(Text::of(alloc, text)?)),
        None => Ok(None),
    }
}

/// The name at a key.
pub(crate) fn name_at(alloc: Global, body: &Value, key: &str) -> Result<Option<Name>, Memory>
    ensures { IfOk result (λ name. name ≡ name_at key.now (view body.now)) }
{
    match text_at(body, key) {
        Some(text) => name_read(alloc, text),
        None => Ok(None),
    }
}

/// The name at a key that may be absent: none in the outer option where the value is no name, none in the
/// inner one where there is no value.
pub(crate) fn name_if_there(
    alloc: Global,
    body: &Value,
    key: &str,
) -> Result<Option<Option<Name>>, Memory>
    ensures { IfOk result (λ name. name ≡ name_if_there key.now (view body.now)) }
{
    if body.get(key).is_none() {
        return Ok(Some(None));
    }
    match name_at(alloc, body, key)? {
        Some(name) => Ok(Some(Some(name))),
        None => Ok(None),
    }
}

/// The ID at a key.
pub(crate) fn ann_id_at(body: &Value, key: &str) -> Option<AnnId>
    ensures { result ≡ ann_id_at key.now (view body.now) }
{
    match text_at(body, key) {
        Some(text) => AnnId::read(text.as_bytes()),
        None => None,
    }
}

/// The fragments at a key.
pub(crate) fn frags_at(alloc: Global, body: &Value, key: &str) -> Result<Option<FragList>, Memory>
    ensures { IfOk result (λ frags. frags ≡ frags_at key.now (view body.now)) }
{
    match text_at(body, key) {
        Some(text) => frags_read(alloc, text),
        None => Ok(None),
    }
}

/// The argument at a key.
pub(crate) fn argument_at(
    alloc: Global,
    body: &Value,
    key: &str,
) -> Result<Option<NamedArg>, Memory>
    ensures { IfOk result (λ arg. arg ≡ argument_at key.now (view body.now)) }
{
    match text_at(body, key) {
        Some(text) => argument_read(alloc, text),
        None => Ok(None),
    }
}

/// The entry of a store at a key.
pub(crate) fn entry_at(alloc: Global, body: &Value, key: &str) -> Result<Option<StoreEntry>, Memory>
    ensures { IfOk result (λ entry. entry ≡ entry_at key.now (view body.now)) }
{
    match text_at(body, key) {
        Some(text) => entry_read(alloc, text),
        None => Ok(None),
    }
}
