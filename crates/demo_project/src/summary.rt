//! The summary of a history.
ghost use Rattle.std.specs.Prelude.{◌≡◌, ◌++◌, IfOk, OnOk, length, string_bytes};
ghost use Rattle.kappa_alpha.specs.Standing.{tokens_in};
ghost use Rattle.project_machine.specs.History.{after, last};
ghost use Rattle.demo_project.specs.Summary.{counts_text, spans_in, summary_of, tokens_of_all};

use crate::figures::{push_count, push_figures};
use crate::founding::slug_of;
use crate::snapshots::all_curated_spans;
use kappa_alpha::Tables;
use mark_base::{Bytes, Memory, Slug, Steps};
use project_book::Book;
use project_journal::Keeper;
use std::alloc::Global;
use std::sync::ledger::Ledger;

/// How many tokens all documents have.
fn tokens_in(tables: &Tables) -> Result<u64, Memory>
    ensures { IfOk result (λ tokens. tokens ≡ tokens_in tables.now.documents) }
{
    let mut tokens: u64 = 0;
    for doc in 0..u32::MAX {
        match tables.tokens_on(doc) {
            Some(more) => tokens += u64::from(more),
            None => return Ok(tokens),
        }
    }
    Err(Memory)
}

/// How much stands behind a history.
#[derive(Drop)]
struct Counts {
    documents: u64,
    tokens: u64,
    answers: u64,
    changes: u64,
    curated: u64,
}

/// Appends how much stands behind a history.
#[tactic(auto, unfolding(crate::specs::Summary::counts_text))]
fn push_counts(lines: &mut String, counts: Counts) -> Result<(), Memory>
    ensures { OnOk result (string_bytes lines.new ≡ string_bytes lines.old ++ counts_text counts.documents counts.tokens counts.answers counts.changes counts.curated) }
{
    push_count(lines, "documents ", counts.documents)?;
    push_count(lines, "tokens ", counts.tokens)?;
    push_count(lines, "answers ", counts.answers)?;
    push_count(lines, "changes ", counts.changes)?;
    push_count(lines, "curated ", counts.curated)?;
    Ok(())
}

/// Counts what stands behind a history.
fn counts_of<K: Keeper, G: Ledger>(
    book: &mut Book<K>,
    caller: &Slug,
    answers: u64,
    steps: &mut Steps<G>,
) -> Result<Counts, Memory>
    ensures same { book.new.log ≡ book.old.log }
    ensures documents { IfOk result (λ counts. counts.documents ≡ length (after book.old.log).documents) }
    ensures tokens { IfOk result (λ counts. counts.tokens ≡ tokens_of_all (after book.old.log)) }
    ensures answers { IfOk result (λ counts. counts.answers ≡ answers) }
    ensures changes { IfOk result (λ counts. counts.changes ≡ last book.old.log) }
    ensures curated { IfOk result (λ counts. counts.curated ≡ spans_in (after book.old.log) (after book.old.log).snapshots) }
{
    let documents = book.tables().document_count() as u64;
    let tokens = tokens_in(book.tables())?;
    let changes = book.place();
    let curated = all_curated_spans(book, caller, steps)?;
    Ok(Counts {
        documents,
        tokens,
        answers,
        changes,
        curated,
    })
}

/// The summary of the history of a project, of a session with so many answers.
pub(crate) fn summary_of<K: Keeper, G: Ledger>(
    alloc: Global,
    book: &mut Book<K>,
    answers: u64,
    steps: &mut Steps<G>,
) -> Result<Bytes, Memory>
    ensures { IfOk result (λ lines. lines ≡ summary_of book.old.log answers) }
{
    let caller = slug_of(alloc, "cur")?;
    let mut lines = String::new(alloc);
    let counts = counts_of(book, &caller, answers, steps)?;
    push_counts(&mut lines, counts)?;
    push_figures(alloc, &mut lines, book, &caller, steps)?;
    Ok(Bytes::from_vec(lines.into_bytes()))
}
