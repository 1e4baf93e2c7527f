//! What a project shows its curator.
ghost use Rattle.std.specs.Prelude.{◌≡◌, None, IfOk};
ghost use Rattle.project_machine.specs.History.{after};
ghost use Rattle.project_machine.specs.Machine.{change};
ghost use Rattle.project_machine.specs.ProjectState.{snapshot};
ghost use Rattle.project_machine.specs.Machine as machine;
ghost use Rattle.project_state.specs.Values.{answer_of, asked_of, view_of};
ghost use Rattle.http_answers.specs.Answers.Answers.{CanBeShown, CanBeViewed};
ghost use Rattle.demo_project.specs.Reading.{IsRead};
ghost use Rattle.demo_project.specs.Summary.{curated_spans, spans_in};

use annotation_http::answers_can_be_shown;
use mark_base::{Kind, Memory, Slug, Steps};
use project_book::{Book, Reply, Request, SnapshotView};
use project_journal::Keeper;
use std::sync::ledger::Ledger;

/// Asks for something that changes nothing.
pub(crate) fn read<K: Keeper, G: Ledger>(
    book: &mut Book<K>,
    caller: &Slug,
    request: Request,
    steps: &mut Steps<G>,
) -> Reply
    requires { change (after book.old.log) caller.now (asked_of request) ≡ None }
    ensures read { IsRead book.old.log caller.now (asked_of request) (answer_of result) book.new.log }
    ensures shown { CanBeShown (answer_of result) }
{
    answers_can_be_shown();
    book.keeps();
    book.ask(caller, request, steps)
}

/// The snapshot of a number, which was taken.
fn read_snapshot<K: Keeper, G: Ledger>(
    book: &mut Book<K>,
    caller: &Slug,
    number: u64,
    steps: &mut Steps<G>,
) -> Result<SnapshotView, Memory>
    ensures same { book.new.log ≡ book.old.log }
    ensures view { IfOk result (λ view. view_of view ≡ machine.view_of (after book.old.log) (snapshot (after book.old.log) number)) }
    ensures shown { IfOk result (λ view. CanBeViewed (view_of view)) }
{
    match read(book, caller, Request::TakeSnapshot { number }, steps) {
        Reply::Taken(view) => Ok(view),
        _ => Err(Memory),
    }
}

/// How many spans the curated layer of the snapshot of a number has.
fn curated_spans<K: Keeper, G: Ledger>(
    book: &mut Book<K>,
    caller: &Slug,
    number: u64,
    steps: &mut Steps<G>,
) -> Result<u32, Memory>
    ensures same { book.new.log ≡ book.old.log }
    ensures spans { IfOk result (λ spans. spans ≡ curated_spans (after book.old.log) (snapshot (after book.old.log) number)) }
{
    let view = read_snapshot(book, caller, number, steps)?;
    let layer = view.decisions.curated(&view.snapshot)?;
    Ok(layer.count(Kind::Text))
}

/// How many spans the curated layers of all snapshots have. Where more than 65,535 were taken, want of memory is answered.
pub(crate) fn all_curated_spans<K: Keeper, G: Ledger>(
    book: &mut Book<K>,
    caller: &Slug,
    steps: &mut Steps<G>,
) -> Result<u64, Memory>
    ensures same { book.new.log ≡ book.old.log }
    ensures spans { IfOk result (λ spans. spans ≡ spans_in (after book.old.log) (after book.old.log).snapshots) }
{
    let mut spans: u64 = 0;
    for taken in 0..65_535 {
        match book.snapshot(taken + 1) {
            Some(_) => {}
            None => return Ok(spans),
        }
        spans += u64::from(curated_spans(book, caller, taken + 1, steps)?);
    }
    Err(Memory)
}
