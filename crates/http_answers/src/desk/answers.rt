//! The answers of a desk.
ghost use Rattle.std.specs.Prelude.{◌≡◌, ◌++◌, codes, decimal, length, IfOk};
ghost use Rattle.http.specs.StatusCode.{IsStatusCode};
ghost use Rattle.http_answers.specs.Desk.DeskAnswers.{counts_answer, lines_answer, made_answer, no_memory};

use crate::desk::refusals::json_answer;
use ann_writer::ann_bytes;
use char_documents::Doc;
use conf_model::Conf;
use http_wire::{Answer, Media};
use layer_rules::id_text;
use layer_undo::Desk;
use mark_base::{AnnId, Memory};
use serde_json::json;
use std::alloc::Global;

/// A command made this annotation.
fn made_one(alloc: Global, id: AnnId) -> Result<Answer, Memory>
    ensures { IfOk result (λ answer. answer ≡ made_answer (Some id)) }
{
    let id = id_text(alloc, id)?;
    let value = json!(in alloc; {"made": id.text()})?;
    let body = value.to_string(alloc)?;
    Ok(json_answer(200, body))
}

/// A command made no annotation.
fn made_none(alloc: Global) -> Result<Answer, Memory>
    ensures { IfOk result (λ answer. answer ≡ made_answer None) }
{
    let body = String::from_str(alloc, "{\"made\":null}")?;
    Ok(json_answer(200, body))
}

/// What a command made.
pub(crate) fn made_answer(alloc: Global, made: Option<AnnId>) -> Result<Answer, Memory>
    ensures answer { IfOk result (λ answer. answer ≡ made_answer made) }
    ensures status { IfOk result (λ answer. IsStatusCode answer.status) }
{
    match made {
        Some(id) => made_one(alloc, id),
        None => made_none(alloc),
    }
}

/// How many commands are done and undone.
pub(crate) fn counts_answer(alloc: Global, desk: &Desk) -> Result<Answer, Memory>
    ensures answer { IfOk result (λ answer. answer ≡ counts_answer desk.now) }
    ensures status { IfOk result (λ answer. IsStatusCode answer.status) }
{
    let done = desk.done_count();
    let undone = desk.undone_count();
    let value = json!(in alloc; {"done": done, "undone": undone})?;
    let body = value.to_string(alloc)?;
    Ok(json_answer(200, body))
}

/// The layer as .ann lines.
pub(crate) fn lines_answer(
    alloc: Global,
    desk: &Desk,
    text: &Doc,
    conf: &Conf,
) -> Result<Answer, Memory>
    requires conf { conf.now ≡ desk.now.conf }
    requires text { text.now ≡ desk.now.text }
    ensures answer { IfOk result (λ answer. answer ≡ lines_answer desk.now) }
    ensures status { IfOk result (λ answer. IsStatusCode answer.status) }
{
    let body = ann_bytes(alloc, desk.layer(), text, conf)?;
    Ok(Answer {
        status: 200,
        media: Media::Plain,
        body,
    })
}

/// That memory ran out for what was asked.
pub fn no_memory(alloc: Global) -> Result<Answer, Memory>
    ensures answer { IfOk result (λ answer. answer ≡ no_memory) }
    ensures status { IfOk result (λ answer. IsStatusCode answer.status) }
{
    Answer::refusal(alloc, 503, "Memory")
}
