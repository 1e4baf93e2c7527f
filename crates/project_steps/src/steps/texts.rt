//! What a refusal names.
ghost use Rattle.std.specs.Prelude.{◌≡◌, ◌++◌, ◌-◌, [], IfOk, codes, decimal, get_or, unwrap_or};
ghost use Rattle.layer_rules.specs.CarriedByRule.{id_text, carried_by_rule};
ghost use Rattle.layer_model.specs.Annotations.{no_marks};
ghost use Rattle.project_machine.specs.Machine.{fault_text, of_text, policy_text};
ghost use Rattle.project_machine.specs.ProjectState.{no_snapshot, snapshot};
ghost use Rattle.project_machine.specs.Requests.{Asked};
ghost use Rattle.project_state.specs.Values.{asked_of};
ghost use Rattle.project_steps.specs.Steps.Judging.{decided_number, snapshot_decided};

use conf_model::Conf;
use curator_decisions::DecisionFault;
use layer_model::Rule;
use layer_rules::{carried_by_rule, id_text};
use mark_base::{Memory, Text};
use project_state::{BookRefusal, BookState, Policy, Request, StoredSnapshot};
use std::alloc::Global;
use unanimous_merge::ItemId;

/// A policy by its name.
fn policy_text(policy: Policy) -> &'static str
    ensures { result.now ≡ policy_text policy }
{
    match policy {
        Policy::Roster => "Roster",
        Policy::Annotator => "Annotator",
        Policy::Curator => "Curator",
        Policy::Own => "Own",
    }
}

/// A number in decimal digits.
fn decimal_text(alloc: Global, number: u64) -> Result<Text, Memory>
    ensures { IfOk result (λ text. text ≡ decimal number) }
{
    let digits = number.to_string(alloc)?;
    Ok(Text::from_string(digits))
}

/// No text.
fn no_text(alloc: Global) -> Text
    ensures { result ≡ [] }
{
    Text::from_string(String::new(alloc))
}

/// What a rule names, or nothing.
fn rule_text(alloc: Global, conf: &Conf, rule: Rule) -> Result<Text, Memory>
    ensures { IfOk result (λ text. text ≡ unwrap_or (carried_by_rule conf.now rule) []) }
{
    match carried_by_rule(alloc, conf, rule)? {
        Some(text) => Ok(text),
        None => Ok(no_text(alloc)),
    }
}

/// The name of the holder of a place, or nothing where there is none.
#[tactic(auto, using(project_state::proofs::StoredLemmas::holder_there, project_state::proofs::StoredLemmas::holder_missing))]
fn holder_name(taken: &StoredSnapshot, holder: u8) -> &str
    ensures { result.now ≡ (get_or taken.now.holders holder ([], no_marks)).0 }
{
    match taken.layers().holder(u32::from(holder)) {
        Some(name) => name.text(),
        None => "",
    }
}

/// An item: the name of its holder, and its ID there.
fn item_text(alloc: Global, taken: &StoredSnapshot, item: ItemId) -> Result<Text, Memory>
    ensures { IfOk result (λ text. text ≡ (get_or taken.now.holders item.holder ([], no_marks)).0 ++ (codes "/" ++ id_text item.id)) }
{
    let mut out = String::from_str(alloc, holder_name(taken, item.holder))?;
    out.push_str("/")?;
    out.push_str(id_text(alloc, item.id)?.text())?;
    Ok(Text::from_string(out))
}

/// What a fault of a decision names.
fn fault_text(
    alloc: Global,
    taken: &StoredSnapshot,
    conf: &Conf,
    fault: DecisionFault,
) -> Result<Text, Memory>
    ensures { IfOk result (λ text. text ≡ fault_text conf.now taken.now fault) }
{
    match fault {
        DecisionFault::NeedsItem(item) => item_text(alloc, taken, item),
        DecisionFault::Broken(rule) => rule_text(alloc, conf, rule),
        _ => Ok(no_text(alloc)),
    }
}

/// What a fault of a decision names where there is no snapshot.
fn text_without_snapshot(alloc: Global, conf: &Conf, fault: DecisionFault) -> Result<Text, Memory>
    ensures { IfOk result (λ text. text ≡ fault_text conf.now no_snapshot fault) }
{
    match fault {
        DecisionFault::NeedsItem(item) => {
            let mut out = String::from_str(alloc, "/")?;
            out.push_str(id_text(alloc, item.id)?.text())?;
            Ok(Text::from_string(out))
        }
        DecisionFault::Broken(rule) => rule_text(alloc, conf, rule),
        _ => Ok(no_text(alloc)),
    }
}

/// What a fault of a decision on the snapshot of a number names.
#[tactic(auto, using(project_state::proofs::StoredLemmas::got, project_state::proofs::StoredLemmas::missed))]
fn numbered_fault_text(
    alloc: Global,
    state: &BookState,
    number: u64,
    fault: DecisionFault,
) -> Result<Text, Memory>
    ensures { IfOk result (λ text. text ≡ fault_text state.now.state.conf (snapshot state.now.state number) fault) }
{
    let place = if number == 0 { 0 } else { number - 1 };
    match state.snapshots().get(place as usize) {
        Some(taken) => fault_text(alloc, taken, state.conf(), fault),
        None => text_without_snapshot(alloc, state.conf(), fault),
    }
}

/// The number of the snapshot on which a request asks for a decision, if it asks for one.
pub(crate) fn decided_number(request: &Request) -> Option<u64>
    ensures { result ≡ decided_number (asked_of request.now) }
{
    match request {
        Request::Decide { number, .. } => Some(*number),
        Request::Undecide { number, .. } => Some(*number),
        _ => None,
    }
}

/// What a fault of a decision names that is asked for on the snapshot of a number, or on none.
fn decision_text(
    alloc: Global,
    state: &BookState,
    decided: Option<u64>,
    fault: DecisionFault,
) -> Result<Text, Memory>
    ensures { IfOk result (λ text. text ≡ fault_text state.now.state.conf (snapshot_decided state.now.state decided) fault) }
{
    match decided {
        Some(number) => numbered_fault_text(alloc, state, number, fault),
        None => text_without_snapshot(alloc, state.conf(), fault),
    }
}

/// What a refusal of a request names that asks for a decision on the snapshot of a number, or for none: a policy, a
/// number, an item, or what a rule names; else nothing.
#[tactic(auto, using(crate::proofs::StepsProofs::TextLemmas::decided_there))]
pub(crate) fn refusal_text(
    alloc: Global,
    state: &BookState,
    decided: Option<u64>,
    refusal: BookRefusal,
) -> Result<Text, Memory>
    ensures { IfOk result (λ text. (asked : Asked) → decided_number asked ≡ decided → text ≡ of_text state.now.state asked refusal) }
{
    match refusal {
        BookRefusal::NotAllowed(wanted) => Text::of(alloc, policy_text(wanted)),
        BookRefusal::TooFewFinished(finished) => decimal_text(alloc, u64::from(finished)),
        BookRefusal::Broken(rule) => rule_text(alloc, state.conf(), rule),
        BookRefusal::Decision(fault) => decision_text(alloc, state, decided, fault),
        BookRefusal::EntryTooLong(bytes) => decimal_text(alloc, bytes),
        _ => Ok(no_text(alloc)),
    }
}
