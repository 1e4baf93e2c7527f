//! The JSON of a body, and its fields.
ghost use Rattle.std.specs.Prelude.{◌≡◌, map, IfOk, option_map};
ghost use Rattle.std.specs.List.{list_all};
ghost use Rattle.serde_json.specs.Read.{read};
ghost use Rattle.serde_json.specs.View.{view, members_view};
ghost use Rattle.command_json.specs.Bodies.{value_of};
ghost use Rattle.command_json.specs.BodyFields.{has_only, is_listed, keys_of, text_at};

use mark_base::Memory;
use serde_json::{Map, Value};
use std::alloc::Global;

/// The JSON value of a text.
fn value_in(alloc: Global, text: &str) -> Result<Option<Value>, Memory>
    ensures { IfOk result (λ found. option_map view found ≡ read text.now) }
{
    match Value::from_str(alloc, text) {
        Ok(value) => Ok(Some(value)),
        Err(error) => {
            if error.is_memory() {
                Err(Memory)
            } else {
                Ok(None)
            }
        }
    }
}

/// The JSON value of a body.
pub(crate) fn value_of(alloc: Global, body: &[u8]) -> Result<Option<Value>, Memory>
    ensures { IfOk result (λ found. option_map view found ≡ value_of body.now) }
{
    match str::from_utf8(body) {
        Ok(text) => value_in(alloc, text),
        Err(_) => Ok(None),
    }
}

/// Whether a key is among some.
fn is_listed(keys: &[&str], key: &str) -> bool
    ensures { result ≡ is_listed (map (λ listed. listed.now) keys.now) key.now }
{
    for listed in keys {
        if key == *listed {
            return true;
        }
    }
    false
}

/// Whether each key of an object is among some.
fn all_listed(keys: &[&str], members: &Map<String, Value>) -> bool
    ensures { result ≡ list_all (is_listed (map (λ listed. listed.now) keys.now)) (keys_of (members_view members.now.entries)) }
{
    for key in members.keys() {
        if !is_listed(keys, key.as_str()) {
            return false;
        }
    }
    true
}

/// Whether the body is an object that has no field but these.
pub(crate) fn has_only(body: &Value, keys: &[&str]) -> bool
    ensures { result ≡ has_only (map (λ listed. listed.now) keys.now) (view body.now) }
{
    match body.as_object() {
        Some(members) => all_listed(keys, members),
        None => false,
    }
}

/// The text at a key.
pub(crate) fn text_at<'v>(body: &'v Value, key: &str) -> Option<&'v str>
    ensures { option_map (λ text. text.now) result ≡ text_at key.now (view body.now) }
{
    body.get(key).and_then(Value::as_str)
}
