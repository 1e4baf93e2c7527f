//! The bodies of decisions and undecisions.
ghost use Rattle.std.specs.Prelude.{◌≡◌, IfOk};
ghost use Rattle.serde_json.specs.View.{view};
ghost use Rattle.http_answers.specs.Requests.Bodies.{decision_body, decision_in, undecision_body, undecision_in, verdict_in, verdict_read};

use crate::requests::item_named::{ItemNamed, item_in};
use crate::requests::json_fields::{has_only, text_at, value_of};
use curator_decisions::Verdict;
use mark_base::Memory;
use serde_json::Value;
use std::alloc::Global;

/// A decision: an item and the verdict on it.
#[derive(Debug, Drop)]
pub struct DecisionBody {
    pub item: ItemNamed,
    pub verdict: Verdict,
}

/// The verdict of a word.
fn verdict_read(word: &str) -> Option<Verdict>
    ensures { result ≡ verdict_read word.now }
{
    match word {
        "accept" => Some(Verdict::Accept),
        "reject" => Some(Verdict::Reject),
        _ => None,
    }
}

/// The verdict in a body.
fn verdict_in(body: &Value) -> Option<Verdict>
    ensures { result ≡ verdict_in (view body.now) }
{
    match text_at(body, "verdict") {
        Some(word) => verdict_read(word),
        None => None,
    }
}

/// The decision that a JSON object says.
fn decision_in(alloc: Global, body: &Value) -> Result<Option<DecisionBody>, Memory>
    ensures { IfOk result (λ said. said ≡ decision_in (view body.now)) }
{
    if !has_only(body, &["item", "verdict"]) {
        return Ok(None);
    }
    let Some(item) = item_in(alloc, body)? else {
        return Ok(None);
    };
    let Some(verdict) = verdict_in(body) else {
        return Ok(None);
    };
    Ok(Some(DecisionBody { item, verdict }))
}

/// The item that a JSON object says.
fn undecision_in(alloc: Global, body: &Value) -> Result<Option<ItemNamed>, Memory>
    ensures { IfOk result (λ said. said ≡ undecision_in (view body.now)) }
{
    if !has_only(body, &["item"]) {
        return Ok(None);
    }
    item_in(alloc, body)
}

/// The decision that a body says.
#[tactic(auto, unfolding(crate::specs::Requests::Bodies::decision_body))]
pub(crate) fn decision_body(alloc: Global, body: &[u8]) -> Result<Option<DecisionBody>, Memory>
    ensures { IfOk result (λ said. said ≡ decision_body body.now) }
{
    match value_of(alloc, body)? {
        Some(value) => decision_in(alloc, &value),
        None => Ok(None),
    }
}

/// The item that the body of an undecision says.
#[tactic(auto, unfolding(crate::specs::Requests::Bodies::undecision_body))]
pub(crate) fn undecision_body(alloc: Global, body: &[u8]) -> Result<Option<ItemNamed>, Memory>
    ensures { IfOk result (λ said. said ≡ undecision_body body.now) }
{
    match value_of(alloc, body)? {
        Some(value) => undecision_in(alloc, &value),
        None => Ok(None),
    }
}
