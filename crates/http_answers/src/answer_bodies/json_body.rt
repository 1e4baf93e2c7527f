//! Answers in JSON.
ghost use Rattle.std.specs.Prelude.{◌≡◌, false, map, IfOk};
ghost use Rattle.http.specs.StatusCode.{IsStatusCode};
ghost use Rattle.serde_json.specs.View.{view};
ghost use Rattle.serde_json.specs.Written.{has_float};
ghost use Rattle.http_answers.specs.AnswerBodies.JsonAnswers.{docs_value, json, line_value, one_number, one_truth, out_value, snapped_value};

use http_wire::{Answer, Media};
use mark_base::{Bytes, Memory};
use project_machine::DocLine;
use serde_json::{Value, json};
use std::alloc::Global;

/// An answer whose body is a value without a float.
pub(crate) fn json_answer(alloc: Global, status: u16, value: &Value) -> Result<Answer, Memory>
    requires { has_float (view value.now) ≡ false }
    ensures { IfOk result (λ answer. answer ≡ json status (view value.now)) }
{
    let body = value.to_string(alloc)?;
    Ok(Answer {
        status,
        media: Media::Json,
        body: Bytes::from_vec(body.into_bytes()),
    })
}

/// One number as a value.
fn number_value(alloc: Global, key: &str, number: u64) -> Result<Value, Memory>
    ensures { IfOk result (λ value. view value ≡ one_number key.now number) }
{
    let value = json!(in alloc; {key: number})?;
    Ok(value)
}

/// One number under its key, as `{"revision":1}`. Cost: the length of the body.
pub fn number_answer(alloc: Global, status: u16, key: &str, number: u64) -> Result<Answer, Memory>
    ensures { IfOk result (λ answer. answer ≡ json status (one_number key.now number)) }
{
    let value = number_value(alloc, key, number)?;
    json_answer(alloc, status, &value)
}

/// One truth value as a value.
fn truth_value(alloc: Global, key: &str, truth: bool) -> Result<Value, Memory>
    ensures { IfOk result (λ value. view value ≡ one_truth key.now truth) }
{
    let value = json!(in alloc; {key: truth})?;
    Ok(value)
}

/// One truth value under its key, as `{"parked":true}`, with the status 200. Cost: the length of the body.
pub fn truth_answer(alloc: Global, key: &str, truth: bool) -> Result<Answer, Memory>
    ensures { IfOk result (λ answer. answer ≡ json 200 (one_truth key.now truth)) }
{
    let value = truth_value(alloc, key, truth)?;
    json_answer(alloc, 200, &value)
}

/// What is handed out, as a value.
fn out_value(alloc: Global, done: usize, revision: u64, undone: usize) -> Result<Value, Memory>
    ensures { IfOk result (λ value. view value ≡ out_value done revision undone) }
{
    let value = json!(in alloc; {"done": done, "revision": revision, "undone": undone})?;
    Ok(value)
}

/// A layer that is handed out: how many commands are done and undone, and how often the layer was committed. Cost: the
/// length of the body.
pub fn out_answer(
    alloc: Global,
    done: usize,
    revision: u64,
    undone: usize,
) -> Result<Answer, Memory>
    ensures { IfOk result (λ answer. answer ≡ json 200 (out_value done revision undone)) }
{
    let value = out_value(alloc, done, revision, undone)?;
    json_answer(alloc, 200, &value)
}

/// A snapshot that was taken, as a value.
fn snapped_value(alloc: Global, number: u64, layers: u32) -> Result<Value, Memory>
    ensures { IfOk result (λ value. view value ≡ snapped_value number layers) }
{
    let value = json!(in alloc; {"layers": layers, "snapshot": number})?;
    Ok(value)
}

/// A snapshot that was taken: how many layers it holds, and its number, from 1. Cost: the length of the body.
pub fn snapped_answer(alloc: Global, number: u64, layers: u32) -> Result<Answer, Memory>
    ensures { IfOk result (λ answer. answer ≡ json 201 (snapped_value number layers)) }
{
    let value = snapped_value(alloc, number, layers)?;
    json_answer(alloc, 201, &value)
}

/// A document in the list of documents, as a value.
fn line_value(alloc: Global, line: &DocLine) -> Result<Value, Memory>
    ensures { IfOk result (λ value. view value ≡ line_value line.now) }
{
    let value = json!(in alloc; {"characters": line.characters, "name": line.name.text()})?;
    Ok(value)
}

/// The documents of a list, as values.
fn line_values(alloc: Global, lines: &[DocLine]) -> Result<Vec<Value>, Memory>
    ensures { IfOk result (λ values. map view values.items ≡ map line_value lines.now) }
{
    let mut values = Vec::new(alloc);
    for line in lines {
        values.push(line_value(alloc, line)?)?;
    }
    Ok(values)
}

/// The list of documents, as a value.
fn docs_value(alloc: Global, lines: &[DocLine]) -> Result<Value, Memory>
    ensures { IfOk result (λ value. view value ≡ docs_value lines.now) }
{
    let values = Value::Array(line_values(alloc, lines)?);
    let value = json!(in alloc; {"docs": values})?;
    Ok(value)
}

/// The list of documents, in its order, each with its name and how many characters its text has. Memory held at a time
/// is that of the value and of the body. Cost: the length of the body.
#[tactic(auto, using(crate::proofs::AnswerBodiesProofs::JsonLemmas::docs_bare))]
pub fn docs_answer(alloc: Global, lines: &[DocLine]) -> Result<Answer, Memory>
    ensures { IfOk result (λ answer. answer ≡ json 200 (docs_value lines.now)) }
{
    let value = docs_value(alloc, lines)?;
    json_answer(alloc, 200, &value)
}
