//! Requests of commands to a project.
ghost use Rattle.std.specs.Prelude.{◌≡◌, ◌≢◌, [], None, true, IfErr, IfOk, IsErrOf, OnOk};
ghost use Rattle.http_answers.specs.Answers.Answers.{CanBeShown};
ghost use Rattle.project_machine.specs.declared.book_refusal.BookRefusal.TheVariants as no;
ghost use Rattle.project_machine.specs.Asking.{IsStep};
ghost use Rattle.layer_undo.specs.Desks.{IsDesk};
ghost use Rattle.project_machine.specs.Requests.{AddText, Checkout, HandedOut, Refused};
ghost use Rattle.project_state.specs.Values.{answer_of, asked_of, out_of};
ghost use Rattle.project_book.specs.Keeping.{TellsKeeper};
ghost use Rattle.annotation_http.specs.Exchanges.Connections.{desk_on, holding_of};
ghost use Rattle.annotation_http.specs.Exchanges.Exchanges.{CanBeOpened};
ghost use Rattle.project_commands.specs.Commands.Requests.{AddsText, ChecksOut, Grants, IsGranted, IsReplied, RefusesTo, is_refused, named_in, refusal_in, trouble_of};

use crate::commands::laws::requests_are_granted_or_refused;
use annotation_http::{Held, answers_can_be_shown, desks_can_be_opened, open_held};
use char_documents::Doc;
use mark_base::{Slug, Steps, Text};
use program_inputs::Trouble;
use project_book::{Book, BookRefusal, Out, Reply, Request};
use project_journal::Keeper;
use std::alloc::Global;
use std::sync::ledger::Ledger;

/// What the refusal of a project comes to, with what it names.
pub(crate) fn trouble_of(refusal: BookRefusal, named: Text) -> Trouble
    ensures value { result ≡ trouble_of refusal named }
    ensures no_file { result ≢ Trouble.FileFailed }
    ensures no_read { result ≢ Trouble.ReadFault }
    ensures no_write { result ≢ Trouble.WriteFault }
    ensures no_use { result ≢ Trouble.DiskInUse }
{
    match refusal {
        BookRefusal::Keeper => Trouble::DiskFailed,
        BookRefusal::Memory => Trouble::Memory,
        refusal => Trouble::Refused { refusal, named },
    }
}

/// One request of a caller to a project.
pub(crate) fn ask<K: Keeper, G: Ledger>(
    book: &mut Book<K>,
    caller: &Slug,
    request: Request,
    steps: &mut Steps<G>,
) -> Reply
    ensures step { IsStep book.old.log caller.now (asked_of request) (answer_of result) book.new.log }
    ensures replied { IsReplied book.old.log caller.now (asked_of request) (answer_of result) }
    ensures opened { CanBeOpened (answer_of result) }
    ensures shown { CanBeShown (answer_of result) }
    ensures keeper { TellsKeeper K.faults K.faultless book.old.keeper book.new.keeper (answer_of result ≡ Refused no.Keeper []) }
    ensures certain { K.doubt book.old.keeper ≡ None → answer_of result ≢ Refused no.Keeper [] → K.doubt book.new.keeper ≡ None }
{
    requests_are_granted_or_refused();
    desks_can_be_opened();
    answers_can_be_shown();
    book.keeps();
    book.ask(caller, request, steps)
}

/// The refusal that a reply is, if it is one.
fn refusal_in(reply: &Reply) -> Option<BookRefusal>
    ensures { result ≡ refusal_in (answer_of reply.now) }
{
    match reply {
        Reply::Refused(refusal, _) => Some(*refusal),
        _ => None,
    }
}

/// What a reply names that is a refusal.
fn named_in(reply: Reply) -> Text
    requires { is_refused (answer_of reply) ≡ true }
    ensures { result ≡ named_in (answer_of reply) }
{
    match reply {
        Reply::Refused(_, named) => named,
        _ => unreachable!(),
    }
}

/// One request of a caller to a project, and what is granted. Cost: see [`Book::ask`].
pub fn ask_granted<K: Keeper, G: Ledger>(
    book: &mut Book<K>,
    caller: &Slug,
    request: Request,
    steps: &mut Steps<G>,
) -> Result<Reply, Trouble>
    ensures granted { IfOk result (λ reply. IsGranted book.old.log caller.now (asked_of request) (answer_of reply) book.new.log) }
    ensures opened { IfOk result (λ reply. CanBeOpened (answer_of reply)) }
    ensures shown { IfOk result (λ reply. CanBeShown (answer_of reply)) }
    ensures refused { IfErr result (RefusesTo book.old.log caller.now (asked_of request)) }
    ensures keeper { TellsKeeper K.faults K.faultless book.old.keeper book.new.keeper (IsErrOf result Trouble.DiskFailed) }
    ensures certain { K.doubt book.old.keeper ≡ None → OnOk result (K.doubt book.new.keeper ≡ None) }
    ensures no_file { IfErr result (λ trouble. trouble ≢ Trouble.FileFailed) }
    ensures no_read { IfErr result (λ trouble. trouble ≢ Trouble.ReadFault) }
    ensures no_write { IfErr result (λ trouble. trouble ≢ Trouble.WriteFault) }
    ensures no_use { IfErr result (λ trouble. trouble ≢ Trouble.DiskInUse) }
{
    let reply = ask(book, caller, request, steps);
    match refusal_in(&reply) {
        Some(refusal) => Err(trouble_of(refusal, named_in(reply))),
        None => Ok(reply),
    }
}

/// Adds a document to a project for a caller, and tells how many tokens its text has. Cost: the text.
pub fn add_text<K: Keeper, G: Ledger>(
    book: &mut Book<K>,
    caller: &Slug,
    doc: Slug,
    text: Doc,
    steps: &mut Steps<G>,
) -> Result<u32, Trouble>
    ensures added { IfOk result (λ tokens. AddsText book.old.log caller.now doc text tokens book.new.log) }
    ensures refused { IfErr result (RefusesTo book.old.log caller.now (AddText doc text)) }
    ensures keeper { TellsKeeper K.faults K.faultless book.old.keeper book.new.keeper (IsErrOf result Trouble.DiskFailed) }
    ensures certain { K.doubt book.old.keeper ≡ None → OnOk result (K.doubt book.new.keeper ≡ None) }
    ensures no_file { IfErr result (λ trouble. trouble ≢ Trouble.FileFailed) }
    ensures no_read { IfErr result (λ trouble. trouble ≢ Trouble.ReadFault) }
    ensures no_write { IfErr result (λ trouble. trouble ≢ Trouble.WriteFault) }
    ensures no_use { IfErr result (λ trouble. trouble ≢ Trouble.DiskInUse) }
{
    match ask_granted(book, caller, Request::AddText { doc, text }, steps)? {
        Reply::Added { tokens } => Ok(tokens),
        _ => unreachable!(),
    }
}

/// A layer that is handed out to an annotator.
fn take_out<K: Keeper, G: Ledger>(
    book: &mut Book<K>,
    who: &Slug,
    doc: Slug,
    steps: &mut Steps<G>,
) -> Result<Out, Trouble>
    ensures out { IfOk result (λ out. Grants book.old.log who.now (Checkout doc) (HandedOut (out_of out)) book.new.log) }
    ensures opened { IfOk result (λ out. IsDesk (desk_on (out_of out))) }
    ensures refused { IfErr result (RefusesTo book.old.log who.now (Checkout doc)) }
    ensures keeper { TellsKeeper K.faults K.faultless book.old.keeper book.new.keeper (IsErrOf result Trouble.DiskFailed) }
    ensures certain { K.doubt book.old.keeper ≡ None → OnOk result (K.doubt book.new.keeper ≡ None) }
    ensures no_file { IfErr result (λ trouble. trouble ≢ Trouble.FileFailed) }
    ensures no_read { IfErr result (λ trouble. trouble ≢ Trouble.ReadFault) }
    ensures no_write { IfErr result (λ trouble. trouble ≢ Trouble.WriteFault) }
    ensures no_use { IfErr result (λ trouble. trouble ≢ Trouble.DiskInUse) }
{
    match ask_granted(book, who, Request::Checkout { doc }, steps)? {
        Reply::Out(out) => Ok(out),
        _ => unreachable!(),
    }
}

/// Checks a layer out for an annotator, and opens its desk. Cost: the layer, and its parked commands once.
pub fn check_out<K: Keeper, G: Ledger>(
    alloc: Global,
    book: &mut Book<K>,
    who: Slug,
    doc: Slug,
    steps: &mut Steps<G>,
) -> Result<Held, Trouble>
    ensures out { IfOk result (λ held. ChecksOut book.old.log who doc (holding_of held) book.new.log) }
    ensures refused { IfErr result (RefusesTo book.old.log who (Checkout doc)) }
    ensures keeper { TellsKeeper K.faults K.faultless book.old.keeper book.new.keeper (IsErrOf result Trouble.DiskFailed) }
    ensures certain { K.doubt book.old.keeper ≡ None → OnOk result (K.doubt book.new.keeper ≡ None) }
    ensures no_file { IfErr result (λ trouble. trouble ≢ Trouble.FileFailed) }
    ensures no_read { IfErr result (λ trouble. trouble ≢ Trouble.ReadFault) }
    ensures no_write { IfErr result (λ trouble. trouble ≢ Trouble.WriteFault) }
    ensures no_use { IfErr result (λ trouble. trouble ≢ Trouble.DiskInUse) }
{
    let named = doc.copy()?;
    let out = take_out(book, &who, named, steps)?;
    let held = open_held(alloc, who, doc, out)?;
    Ok(held)
}
