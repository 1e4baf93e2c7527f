//! The answers to what is refused.
ghost use Rattle.std.specs.Prelude.{◌≡◌, ◌++◌, ◌∷◌, [], codes, decimal, string_bytes, IfOk, None, Some};
ghost use Rattle.json.specs.Print.{quoted};
ghost use Rattle.http.specs.StatusCode.{IsStatusCode};
ghost use Rattle.serde_json.specs.View.{view};
ghost use Rattle.layer_model.specs.Rules.{rule_name};
ghost use Rattle.layer_rules.specs.CarriedByRule.{carried_by_rule};
ghost use Rattle.http_answers.specs.Desk.Refusals.{fault_answer, line_members, line_refusal, refusal_of, rule_answer};

use crate::answer_bodies::rule_status;
use ann_reader::AnnWhat;
use conf_model::Conf;
use http_wire::{Answer, Media};
use layer_model::Rule;
use layer_rules::carried_by_rule;
use mark_base::{Bytes, Memory, Text};
use serde_json::{Value, json};
use std::alloc::Global;

/// An answer in JSON.
pub(crate) fn json_answer(status: u16, body: String) -> Answer
    ensures status { result.status ≡ status }
    ensures media { result.media ≡ Media.Json }
    ensures body { result.body ≡ string_bytes body }
{
    Answer {
        status,
        media: Media::Json,
        body: Bytes::from_vec(body.into_bytes()),
    }
}

/// A refusal that names something.
fn naming_refusal(alloc: Global, status: u16, name: &str, named: &str) -> Result<Answer, Memory>
    ensures { IfOk result (λ answer. answer ≡ refusal_of status name.now (Some named.now)) }
{
    let value = json!(in alloc; {"of": named, "refused": name})?;
    let body = value.to_string(alloc)?;
    Ok(json_answer(status, body))
}

/// A refusal, and what it names where it names something.
fn refusal_of(
    alloc: Global,
    status: u16,
    name: &str,
    named: &Option<Text>,
) -> Result<Answer, Memory>
    ensures { IfOk result (λ answer. answer ≡ refusal_of status name.now named.now) }
{
    match named {
        Some(named) => naming_refusal(alloc, status, name, named.text()),
        None => Answer::refusal(alloc, status, name),
    }
}

/// A rule is broken.
pub(crate) fn rule_answer(alloc: Global, conf: &Conf, rule: Rule) -> Result<Answer, Memory>
    ensures answer { IfOk result (λ answer. answer ≡ rule_answer conf.now rule) }
    ensures status { IfOk result (λ answer. IsStatusCode answer.status) }
{
    let named = carried_by_rule(alloc, conf, rule)?;
    refusal_of(alloc, rule_status(rule), rule.name(), &named)
}

/// The value of a refusal of a file at a line, which names something.
fn line_value(alloc: Global, line: u32, name: &str, named: &str) -> Result<Value, Memory>
    ensures { IfOk result (λ value. view value ≡ line_members line name.now named.now) }
{
    let value = json!(in alloc; {"refused": name, "of": named, "line": line})?;
    Ok(value)
}

/// A refusal of a file at a line, which names something.
fn naming_line_refusal(alloc: Global, line: u32, name: &str, named: &str) -> Result<Answer, Memory>
    ensures { IfOk result (λ answer. answer ≡ line_refusal line name.now (Some named.now)) }
{
    let value = line_value(alloc, line, name, named)?;
    let body = value.to_string(alloc)?;
    Ok(json_answer(422, body))
}

/// A refusal of a file at a line.
fn bare_line_refusal(alloc: Global, line: u32, name: &str) -> Result<Answer, Memory>
    ensures { IfOk result (λ answer. answer ≡ line_refusal line name.now None) }
{
    let value = json!(in alloc; {"line": line, "refused": name})?;
    let body = value.to_string(alloc)?;
    Ok(json_answer(422, body))
}

/// A refusal of a file at a line, and what it names where it names something.
fn line_refusal(
    alloc: Global,
    line: u32,
    name: &str,
    named: &Option<Text>,
) -> Result<Answer, Memory>
    ensures { IfOk result (λ answer. answer ≡ line_refusal line name.now named.now) }
{
    match named {
        Some(named) => naming_line_refusal(alloc, line, name, named.text()),
        None => bare_line_refusal(alloc, line, name),
    }
}

/// A text differs at a place.
fn wrong_text(alloc: Global, line: u32, place: u32) -> Result<Answer, Memory>
    ensures { IfOk result (λ answer. answer ≡ line_refusal line (codes "WrongText") (Some (decimal place))) }
{
    let named = place.to_string(alloc)?;
    naming_line_refusal(alloc, line, "WrongText", named.as_str())
}

/// A line breaks a rule.
fn broken_line(alloc: Global, conf: &Conf, line: u32, rule: Rule) -> Result<Answer, Memory>
    ensures { IfOk result (λ answer. answer ≡ line_refusal line (rule_name rule) (carried_by_rule conf.now rule)) }
{
    let named = carried_by_rule(alloc, conf, rule)?;
    line_refusal(alloc, line, rule.name(), &named)
}

/// A fault of an .ann file.
pub(crate) fn fault_answer(
    alloc: Global,
    conf: &Conf,
    line: u32,
    what: AnnWhat,
) -> Result<Answer, Memory>
    ensures answer { IfOk result (λ answer. answer ≡ fault_answer conf.now line what) }
    ensures status { IfOk result (λ answer. IsStatusCode answer.status) }
{
    match what {
        AnnWhat::NotUtf8 => bare_line_refusal(alloc, line, "NotUtf8"),
        AnnWhat::BadLine => bare_line_refusal(alloc, line, "BadLine"),
        AnnWhat::BadId => bare_line_refusal(alloc, line, "BadId"),
        AnnWhat::IdTwice => bare_line_refusal(alloc, line, "IdTwice"),
        AnnWhat::WrongText(place) => wrong_text(alloc, line, place),
        AnnWhat::Broken(rule) => broken_line(alloc, conf, line, rule),
    }
}
