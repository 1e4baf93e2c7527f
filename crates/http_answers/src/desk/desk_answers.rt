//! What a desk answers to what is asked of it.
ghost use Rattle.std.specs.Prelude.{◌≡◌, ◌≤◌, length, IfOk, OnErr};
ghost use Rattle.http.specs.StatusCode.{IsStatusCode};
ghost use Rattle.http_answers.specs.Desk.DeskAnswers.{IsLeft, IsOutcome, asked, commanded, lines_answer, loaded, redone, undone};

use crate::desk::answers::{counts_answer, lines_answer, made_answer, no_memory};
use crate::desk::refusals::{fault_answer, rule_answer};
use ann_reader::{AnnFault, files_of_a_layer, read_ann};
use char_documents::Doc;
use command_json::{CommandFault, read_command};
use conf_model::Conf;
use http_wire::Answer;
use layer_core::{Command, Refusal};
use layer_undo::Desk;
use mark_base::Memory;
use std::alloc::Global;

/// Carries out a command.
fn perform(alloc: Global, desk: &mut Desk, conf: &Conf, command: Command) -> Result<Answer, Memory>
    requires conf { conf.now ≡ desk.old.conf }
    ensures said { IfOk result (λ answer. IsOutcome (commanded desk.old command) desk.old answer desk.new) }
    ensures status { IfOk result (λ answer. IsStatusCode answer.status) }
    ensures left { OnErr result (IsLeft (commanded desk.old command) desk.old desk.new) }
    ensures conf { desk.new.conf ≡ desk.old.conf }
    ensures text { desk.new.text ≡ desk.old.text }
{
    match desk.perform(command) {
        Ok(done) => made_answer(alloc, done.made),
        Err(Refusal::Rule(rule)) => rule_answer(alloc, conf, rule),
        Err(Refusal::Memory) => no_memory(alloc),
    }
}

/// Carries out the command that a body spells as JSON. A refusal names the first broken rule, or `BadBody` where the
/// body spells no command, and leaves the desk as it was. Where memory runs out for the command, 503 is answered and
/// the desk is as it was; where it runs out for the answer alone, the command may have been carried out.
/// Cost: the body, and what the command costs.
pub fn do_command(
    alloc: Global,
    desk: &mut Desk,
    conf: &Conf,
    body: &[u8],
) -> Result<Answer, Memory>
    requires conf { conf.now ≡ desk.old.conf }
    ensures said { IfOk result (λ answer. IsOutcome (asked desk.old body.now) desk.old answer desk.new) }
    ensures status { IfOk result (λ answer. IsStatusCode answer.status) }
    ensures left { OnErr result (IsLeft (asked desk.old body.now) desk.old desk.new) }
    ensures conf { desk.new.conf ≡ desk.old.conf }
    ensures text { desk.new.text ≡ desk.old.text }
{
    match read_command(alloc, body) {
        Ok(command) => perform(alloc, desk, conf, command),
        Err(CommandFault::BadBody) => Answer::refusal(alloc, 400, "BadBody"),
        Err(CommandFault::Memory) => no_memory(alloc),
    }
}

/// Undoes the last command done. `NothingToUndo` is answered where there is none.
/// Cost: as `Desk::undo`.
pub fn undo_last(alloc: Global, desk: &mut Desk, conf: &Conf) -> Result<Answer, Memory>
    requires conf { conf.now ≡ desk.old.conf }
    ensures said { IfOk result (λ answer. IsOutcome (undone desk.old) desk.old answer desk.new) }
    ensures status { IfOk result (λ answer. IsStatusCode answer.status) }
    ensures left { OnErr result (IsLeft (undone desk.old) desk.old desk.new) }
    ensures conf { desk.new.conf ≡ desk.old.conf }
    ensures text { desk.new.text ≡ desk.old.text }
{
    match desk.undo() {
        Ok(()) => counts_answer(alloc, desk),
        Err(Refusal::Rule(rule)) => rule_answer(alloc, conf, rule),
        Err(Refusal::Memory) => no_memory(alloc),
    }
}

/// Carries out the last command undone once more. `NothingToRedo` is answered where there is none.
/// Cost: as `Desk::redo`.
pub fn redo_last(alloc: Global, desk: &mut Desk, conf: &Conf) -> Result<Answer, Memory>
    requires conf { conf.now ≡ desk.old.conf }
    ensures said { IfOk result (λ answer. IsOutcome (redone desk.old) desk.old answer desk.new) }
    ensures status { IfOk result (λ answer. IsStatusCode answer.status) }
    ensures left { OnErr result (IsLeft (redone desk.old) desk.old desk.new) }
    ensures conf { desk.new.conf ≡ desk.old.conf }
    ensures text { desk.new.text ≡ desk.old.text }
{
    match desk.redo() {
        Ok(()) => counts_answer(alloc, desk),
        Err(Refusal::Rule(rule)) => rule_answer(alloc, conf, rule),
        Err(Refusal::Memory) => no_memory(alloc),
    }
}

/// Takes the layer of an .ann file in place of the one that stands, as one command. The file is read first: its first
/// fault is told with its line, from 1, and comes before a full desk.
/// Cost: as `read_ann`, and the check of the layer.
pub fn load_file(
    alloc: Global,
    desk: &mut Desk,
    text: &Doc,
    conf: &Conf,
    body: &[u8],
) -> Result<Answer, Memory>
    requires conf { conf.now ≡ desk.old.conf }
    requires text { text.now ≡ desk.old.text }
    requires short { length body.now ≤ 16777216 }
    ensures said { IfOk result (λ answer. IsOutcome (loaded desk.old body.now) desk.old answer desk.new) }
    ensures status { IfOk result (λ answer. IsStatusCode answer.status) }
    ensures left { OnErr result (IsLeft (loaded desk.old body.now) desk.old desk.new) }
    ensures conf { desk.new.conf ≡ desk.old.conf }
    ensures text { desk.new.text ≡ desk.old.text }
{
    files_of_a_layer();
    match read_ann(alloc, body, text, conf) {
        Ok(layer) => {
            layer.keeps();
            perform(alloc, desk, conf, Command::Load { layer })
        }
        Err(AnnFault::At { line, what }) => fault_answer(alloc, conf, line, what),
        Err(AnnFault::Memory) => no_memory(alloc),
    }
}

/// Shows the layer as canonical .ann lines.
/// Cost: the lines.
pub fn show_lines(alloc: Global, desk: &Desk, text: &Doc, conf: &Conf) -> Result<Answer, Memory>
    requires conf { conf.now ≡ desk.now.conf }
    requires text { text.now ≡ desk.now.text }
    ensures answer { IfOk result (λ answer. answer ≡ lines_answer desk.now) }
    ensures status { IfOk result (λ answer. IsStatusCode answer.status) }
{
    lines_answer(alloc, desk, text, conf)
}
