//! The refusals of a project as answers.
ghost use Rattle.std.specs.Prelude.{◌≡◌, IfOk, Some};
ghost use Rattle.http.specs.StatusCode.{IsStatusCode};
ghost use Rattle.serde_json.specs.Data.{string, object, member, no_members};
ghost use Rattle.serde_json.specs.View.{view};
ghost use Rattle.std.specs.Prelude.{codes};
ghost use Rattle.http_answers.specs.AnswerBodies.Refusals.{book_refusal, decision_name, decision_status, name_of, named_by, policy_status, refusal_of, rule_status, status_of};

use crate::answer_bodies::json_body::json_answer;
use curator_decisions::DecisionFault;
use http_wire::Answer;
use layer_model::Rule;
use mark_base::{Memory, Text};
use project_machine::{BookRefusal, Policy};
use serde_json::{Value, json};
use std::alloc::Global;

/// A refusal and what it names, as a value.
fn naming_value(alloc: Global, name: &str, named: &str) -> Result<Value, Memory>
    ensures { IfOk result (λ value. view value ≡ object (member (codes "of") (string named.now) (member (codes "refused") (string name.now) no_members))) }
{
    let value = json!(in alloc; {"of": named, "refused": name})?;
    Ok(value)
}

/// A refusal that names something.
fn naming_refusal(alloc: Global, status: u16, name: &str, named: &str) -> Result<Answer, Memory>
    ensures { IfOk result (λ answer. answer ≡ refusal_of status name.now (Some named.now)) }
{
    let value = naming_value(alloc, name, named)?;
    json_answer(alloc, status, &value)
}

/// A refusal, and what it names where it names something.
fn refusal_of(alloc: Global, status: u16, name: &str, named: &str) -> Result<Answer, Memory>
    ensures { IfOk result (λ answer. answer ≡ refusal_of status name.now (named_by named.now)) }
{
    if named.is_empty() {
        Answer::refusal(alloc, status, name)
    } else {
        naming_refusal(alloc, status, name, named)
    }
}

/// The status of a broken rule.
pub(crate) fn rule_status(rule: Rule) -> u16
    ensures value { result ≡ rule_status rule }
    ensures status { IsStatusCode result }
{
    if rule.number() > 24 { 409 } else { 422 }
}

/// The status of a policy that is not met.
fn policy_status(policy: Policy) -> u16
    ensures value { result ≡ policy_status policy }
    ensures status { IsStatusCode result }
{
    match policy {
        Policy::Roster => 401,
        Policy::Annotator | Policy::Curator | Policy::Own => 403,
    }
}

/// The status of a decision's fault.
fn decision_status(fault: DecisionFault) -> u16
    ensures value { result ≡ decision_status fault }
    ensures status { IsStatusCode result }
{
    match fault {
        DecisionFault::NoItem => 404,
        DecisionFault::AlreadyIn | DecisionFault::NotIn | DecisionFault::NotDecided => 409,
        DecisionFault::NeedsItem(_) => 409,
        DecisionFault::Broken(_) => 422,
        DecisionFault::Memory => 503,
    }
}

/// The status of a refusal.
fn status_of(refusal: BookRefusal) -> u16
    ensures value { result ≡ status_of refusal }
    ensures status { IsStatusCode result }
{
    match refusal {
        BookRefusal::NotAllowed(policy) => policy_status(policy),
        BookRefusal::NoDocument | BookRefusal::NoLayer | BookRefusal::NoSnapshot => 404,
        BookRefusal::Broken(rule) => rule_status(rule),
        BookRefusal::Decision(fault) => decision_status(fault),
        BookRefusal::ProjectFull => 507,
        BookRefusal::EntryTooLong(_) => 413,
        BookRefusal::Keeper => 500,
        BookRefusal::Memory => 503,
        BookRefusal::LayerOut | BookRefusal::NotYours | BookRefusal::Finished => 409,
        BookRefusal::NothingCommitted | BookRefusal::NotFinished => 409,
        BookRefusal::TooFewFinished(_) | BookRefusal::DocumentThere => 409,
        BookRefusal::AlreadyIgnored | BookRefusal::NotIgnored => 409,
    }
}

/// The innermost name of a decision's fault.
fn decision_name(fault: DecisionFault) -> &'static str
    ensures { result.now ≡ decision_name fault }
{
    match fault {
        DecisionFault::NoItem => "NoItem",
        DecisionFault::AlreadyIn => "AlreadyIn",
        DecisionFault::NotIn => "NotIn",
        DecisionFault::NotDecided => "NotDecided",
        DecisionFault::NeedsItem(_) => "NeedsItem",
        DecisionFault::Broken(rule) => rule.name(),
        DecisionFault::Memory => "Memory",
    }
}

/// The innermost name of a refusal, as `NotAllowed` or, of a broken rule, the rule's.
pub fn refusal_name(refusal: BookRefusal) -> &'static str
    ensures { result.now ≡ name_of refusal }
{
    match refusal {
        BookRefusal::NotAllowed(_) => "NotAllowed",
        BookRefusal::NoDocument => "NoDocument",
        BookRefusal::NoLayer => "NoLayer",
        BookRefusal::NoSnapshot => "NoSnapshot",
        BookRefusal::LayerOut => "LayerOut",
        BookRefusal::NotYours => "NotYours",
        BookRefusal::Finished => "Finished",
        BookRefusal::NothingCommitted => "NothingCommitted",
        BookRefusal::NotFinished => "NotFinished",
        BookRefusal::TooFewFinished(_) => "TooFewFinished",
        BookRefusal::Broken(rule) => rule.name(),
        BookRefusal::Decision(fault) => decision_name(fault),
        BookRefusal::DocumentThere => "DocumentThere",
        BookRefusal::ProjectFull => "ProjectFull",
        BookRefusal::EntryTooLong(_) => "EntryTooLong",
        BookRefusal::Keeper => "Keeper",
        BookRefusal::Memory => "Memory",
        BookRefusal::AlreadyIgnored => "AlreadyIgnored",
        BookRefusal::NotIgnored => "NotIgnored",
    }
}

/// The answer to a refusal of a project, with what it names.
pub fn book_refusal(alloc: Global, refusal: BookRefusal, named: &Text) -> Result<Answer, Memory>
    ensures answer { IfOk result (λ answer. answer ≡ book_refusal refusal named.now) }
    ensures status { IfOk result (λ answer. IsStatusCode answer.status) }
{
    refusal_of(
        alloc,
        status_of(refusal),
        refusal_name(refusal),
        named.text(),
    )
}
