//! Spans as runs of tokens.
ghost use Rattle.std.specs.Prelude.{◌≡◌, ◌<◌, ◌^◌, ◌+◌, ◌++◌, length, map, IfOk, OnOk};
ghost use Rattle.label_tracks.specs.Candidates.{start_of, end_of};
ghost use Rattle.token_columns.specs.Labels.{run_of, spans_of};
ghost use Rattle.token_columns.specs.ReadColumns.{extended, opened};
ghost use Rattle.token_columns.specs.ReadRuns.{closed, closed_by};

use crate::label::Label;
use layer_model::{Layer, Span};
use mark_base::{Frag, Memory, TypeId};
use std::alloc::Global;

/// A span by its type, where it starts and where it ends.
#[derive(Clone, Copy, Debug, PartialEq, Eq)]
pub(crate) struct Run {
    pub kind: TypeId,
    pub start: u32,
    pub end: u32,
}

/// A span by its number, how many fragments it has, and from where to where it goes.
#[derive(Clone, Copy, Debug, PartialEq, Eq)]
pub(crate) struct Placed {
    pub number: u32,
    pub pieces: usize,
    pub run: Run,
}

/// Where the first fragment starts, 0 where there is none.
fn start_of(frags: &[Frag]) -> u32
    ensures { result ≡ start_of frags.now }
{
    match frags.first() {
        Some(frag) => frag.start,
        None => 0,
    }
}

/// Where the last fragment ends, 0 where there is none.
fn end_of(frags: &[Frag]) -> u32
    ensures { result ≡ end_of frags.now }
{
    match frags.last() {
        Some(frag) => frag.end,
        None => 0,
    }
}

/// A span as a run.
fn run_of(span: &Span) -> Run
    ensures { result ≡ run_of span.now }
{
    let frags = span.frags.items();
    Run {
        kind: span.kind,
        start: start_of(frags),
        end: end_of(frags),
    }
}

/// The spans of a layer, by number. Cost: their number.
pub(crate) fn spans_of(alloc: Global, layer: &Layer) -> Result<Vec<Placed>, Memory>
    ensures { IfOk result (λ spans. spans.items ≡ spans_of layer.now) }
{
    let mut spans = Vec::new(alloc);
    for (number, span) in layer.spans() {
        spans.push(Placed {
            number: *number,
            pieces: span.frags.items().len(),
            run: run_of(span),
        })?;
    }
    Ok(spans)
}

/// Spans without their numbers. Cost: their number.
pub(crate) fn runs_of(alloc: Global, spans: &[Placed]) -> Result<Vec<Run>, Memory>
    ensures { IfOk result (λ runs. runs.items ≡ map (λ span. span.run) spans.now) }
{
    let mut runs = Vec::with_capacity(alloc, spans.len())?;
    for span in spans {
        runs.push(span.run)?;
    }
    Ok(runs)
}

/// How many runs there are with the open one.
pub(crate) fn begun(runs: &[Run], last: Option<Run>) -> usize
    requires { length runs.now < 2 ^ 62 }
    ensures { result ≡ length runs.now + length (closed last) }
{
    match last {
        Some(_) => runs.len() + 1,
        None => runs.len(),
    }
}

/// A run with a token more, where there is one.
fn extended(last: Option<Run>, token: Frag) -> Option<Run>
    ensures { result ≡ extended last token }
{
    match last {
        Some(run) => Some(Run {
            kind: run.kind,
            start: run.start,
            end: token.end,
        }),
        None => None,
    }
}

/// The run that a token of a label leaves open, behind one that may be open.
pub(crate) fn opened(last: Option<Run>, token: Frag, label: Label) -> Option<Run>
    ensures { result ≡ opened last token label }
{
    match label {
        Label::Out => None,
        Label::Begin(kind) => Some(Run {
            kind,
            start: token.start,
            end: token.end,
        }),
        Label::Inside(_) => extended(last, token),
    }
}

/// Adds a run, where one is open.
pub(crate) fn close(runs: &mut Vec<Run>, last: Option<Run>) -> Result<(), Memory>
    ensures { OnOk result (runs.new.items ≡ runs.old.items ++ closed last) }
{
    if let Some(run) = last {
        runs.push(run)?;
    }
    Ok(())
}

/// Adds the run that a label closes, where one is open.
pub(crate) fn close_by(runs: &mut Vec<Run>, last: Option<Run>, label: Label) -> Result<(), Memory>
    ensures { OnOk result (runs.new.items ≡ runs.old.items ++ closed_by last label) }
{
    match label {
        Label::Out | Label::Begin(_) => close(runs, last),
        Label::Inside(_) => Ok(()),
    }
}
