//! The command that a body spells.
ghost use Rattle.std.specs.Prelude.{◌≡◌, Some, None, IfOk, IfErr, option_map, option_and_then};
ghost use Rattle.serde_json.specs.View.{view};
ghost use Rattle.command_json.specs.BodyForms.{form_of, spelt_by};
ghost use Rattle.command_json.specs.Bodies.{command_in, value_of, command_of};
ghost use Rattle.command_json.specs.declared.command_fault.CommandFault.TheVariants.{BadBody};

use crate::body_fields::text_at;
use crate::command_fault::CommandFault;
use crate::event_forms::{add_arg, add_event, remove_arg};
use crate::link_forms::{add_relation, clear_attribute, equate, set_attribute, unequate};
use crate::note_forms::{set_note, set_reference};
use crate::removal_forms::{delete, purge};
use crate::span_forms::{add_span, move_span, retype};
use layer_core::Command;
use mark_base::Memory;
use serde_json::Value;
use std::alloc::Global;

/// The command that a body with this word at `do` spells.
fn command_by(alloc: Global, word: &str, body: &Value) -> Result<Option<Command>, Memory>
    ensures { IfOk result (λ found. found ≡ option_and_then (spelt_by (view body.now)) (form_of word.now)) }
{
    match word {
        "add-span" => add_span(alloc, body),
        "retype" => retype(alloc, body),
        "move" => move_span(alloc, body),
        "add-event" => add_event(alloc, body),
        "add-arg" => add_arg(alloc, body),
        "remove-arg" => remove_arg(alloc, body),
        "add-relation" => add_relation(alloc, body),
        "set-attribute" => set_attribute(alloc, body),
        "clear-attribute" => clear_attribute(alloc, body),
        "equate" => equate(alloc, body),
        "unequate" => unequate(alloc, body),
        "set-note" => set_note(alloc, body),
        "set-reference" => set_reference(alloc, body),
        "delete" => delete(alloc, body),
        "purge" => purge(alloc, body),
        _ => Ok(None),
    }
}

/// The command that a JSON value spells.
fn command_in(alloc: Global, body: &Value) -> Result<Option<Command>, Memory>
    ensures { IfOk result (λ found. found ≡ command_in (view body.now)) }
{
    match text_at(body, "do") {
        Some(word) => command_by(alloc, word, body),
        None => Ok(None),
    }
}

/// The JSON value of a body.
fn read_value(alloc: Global, body: &[u8]) -> Result<Option<Value>, Memory>
    ensures { IfOk result (λ found. option_map view found ≡ value_of body.now) }
{
    match Value::from_slice(alloc, body) {
        Ok(value) => Ok(Some(value)),
        Err(error) => {
            if error.is_memory() {
                Err(Memory)
            } else {
                Ok(None)
            }
        }
    }
}

/// The command that a body spells, where it spells one.
#[tactic(auto, unfolding(crate::specs::Bodies::command_of))]
fn spelt_command(alloc: Global, body: &[u8]) -> Result<Option<Command>, Memory>
    ensures { IfOk result (λ found. found ≡ command_of body.now) }
{
    match read_value(alloc, body)? {
        Some(value) => command_in(alloc, &value),
        None => Ok(None),
    }
}

/// Reads a command from the body of a message: a JSON object of one of the forms of `specs/BodyForms.antt`, in
/// which the last value of a repeated key counts. Names, IDs and fragments are tested by their spelling alone,
/// and not against a configuration or a layer. Bytes that are not UTF-8 are a body of no form, and so is JSON
/// that nests deeper than 127 levels or has a number beyond the range of a float, wherever that stands.
/// Cost: the length of the body times the logarithm of the number of its keys.
pub fn read_command(alloc: Global, body: &[u8]) -> Result<Command, CommandFault>
    ensures command { IfOk result (λ command. command_of body.now ≡ Some command) }
    ensures fault { IfErr result (λ fault. fault ≡ BadBody → command_of body.now ≡ None) }
{
    match spelt_command(alloc, body)? {
        Some(command) => Ok(command),
        None => Err(CommandFault::BadBody),
    }
}
