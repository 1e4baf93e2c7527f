//! The answer that a reply is on its route.
ghost use Rattle.std.specs.Prelude.{◌≡◌, true, false, length, All, IfOk, IfSome, encode_utf8_all};
ghost use Rattle.http.specs.StatusCode.{IsStatusCode};
ghost use Rattle.conf_model.specs.ConfText.{conf_text};
ghost use Rattle.layer_rules.specs.WellFormed.{IsWellFormed};
ghost use Rattle.ann_writer.specs.AnnOf.{ann_of};
ghost use Rattle.kappa_alpha.specs.Figures.{Writable};
ghost use Rattle.agreement_report.specs.Report.{IsShown, alpha_table, pairs_table};
ghost use Rattle.project_state.specs.Values.{answer_of, out_of, view_of};
ghost use Rattle.http_answers.specs.Answers.Answers.{CanBeShown, CanBeViewed, answer_on, csv, handed_out, is_curated, plain, snapshot_answer};

use crate::answer_bodies::{
    book_refusal, docs_answer, number_answer, out_answer, snapped_answer, truth_answer,
};
use crate::routes::{BookRoute, Route, SnapshotRoute};
use agreement_report::{alpha_csv, pairs_csv};
use ann_writer::ann_bytes;
use annotation_conf::write_conf;
use char_documents::Doc;
use conf_model::Conf;
use http_wire::{Answer, Media};
use items_report::items_csv;
use kappa_alpha::{AlphaLine, PairLine};
use layer_model::Layer;
use mark_base::{Bytes, Memory, Slug};
use project_state::{Out, Reply, SnapshotView};
use std::alloc::Global;

/// A body as plain text.
fn plain(body: Bytes) -> Answer
    ensures { result ≡ plain body }
{
    Answer {
        status: 200,
        media: Media::Plain,
        body,
    }
}

/// A body as a table.
fn csv(body: Bytes) -> Answer
    ensures { result ≡ csv body }
{
    Answer {
        status: 200,
        media: Media::Csv,
        body,
    }
}

/// The configuration, in its canonical text.
fn conf_answer(alloc: Global, conf: &Conf) -> Result<Answer, Memory>
    ensures { IfOk result (λ answer. answer ≡ plain (conf_text conf.now)) }
{
    let text = write_conf(alloc, conf)?;
    Ok(plain(Bytes::from_vec(text.into_string().into_bytes())))
}

/// The text of a document.
fn text_answer(alloc: Global, doc: &Doc) -> Result<Answer, Memory>
    ensures { IfOk result (λ answer. answer ≡ plain (encode_utf8_all doc.now)) }
{
    let body = Bytes::of(alloc, doc.text().as_bytes())?;
    Ok(plain(body))
}

/// A layer as .ann lines.
fn layer_answer(alloc: Global, layer: &Layer, doc: &Doc, conf: &Conf) -> Result<Answer, Memory>
    requires { IsWellFormed conf.now (length doc.now) layer.now }
    ensures { IfOk result (λ answer. answer ≡ plain (ann_of conf.now doc.now layer.now)) }
{
    let body = ann_bytes(alloc, layer, doc, conf)?;
    Ok(plain(body))
}

/// Whether a route shows the curated layer of a snapshot.
fn is_curated(route: &Route) -> bool
    ensures { result ≡ is_curated route.now }
{
    match route {
        Route::Book(BookRoute::Snapshot(SnapshotRoute::Curated, _)) => true,
        _ => false,
    }
}

/// The curated layer of a snapshot as .ann lines.
fn curated_answer(alloc: Global, view: &SnapshotView) -> Result<Answer, Memory>
    requires { CanBeViewed (view_of view.now) }
    ensures { IfOk result (λ answer. answer ≡ snapshot_answer true (view_of view.now)) }
{
    let layer = view.decisions.curated(&view.snapshot)?;
    layer_answer(alloc, &layer, &view.doc, &view.conf)
}

/// The items of a snapshot as a table.
fn items_answer(alloc: Global, view: &SnapshotView) -> Result<Answer, Memory>
    requires { CanBeViewed (view_of view.now) }
    ensures { IfOk result (λ answer. answer ≡ snapshot_answer false (view_of view.now)) }
{
    let body = items_csv(
        alloc,
        &view.snapshot,
        &view.decisions,
        &view.doc,
        &view.conf,
    )?;
    Ok(csv(body))
}

/// A snapshot as its curated layer, or as its items.
fn snapshot_answer(alloc: Global, route: &Route, view: &SnapshotView) -> Result<Answer, Memory>
    requires { CanBeViewed (view_of view.now) }
    ensures answer { IfOk result (λ answer. answer ≡ snapshot_answer (is_curated route.now) (view_of view.now)) }
    ensures status { IfOk result (λ answer. IsStatusCode answer.status) }
{
    if is_curated(route) {
        curated_answer(alloc, view)
    } else {
        items_answer(alloc, view)
    }
}

/// The agreement of each two annotators.
fn pairs_answer(alloc: Global, names: &[Slug], lines: &[PairLine]) -> Result<Answer, Memory>
    requires { All (λ line. IsShown (length names.now) line) lines.now }
    ensures { IfOk result (λ answer. answer ≡ csv (pairs_table names.now lines.now)) }
{
    let body = pairs_csv(alloc, names, lines)?;
    Ok(csv(body))
}

/// The agreement of all annotators.
fn alpha_answer(alloc: Global, line: &AlphaLine) -> Result<Answer, Memory>
    requires { IfSome line.now.alpha (λ f. Writable f) }
    ensures { IfOk result (λ answer. answer ≡ csv (alpha_table line.now)) }
{
    let body = alpha_csv(alloc, line)?;
    Ok(csv(body))
}

/// A table about the whole project.
fn table_answer(bytes: &Bytes) -> Result<Answer, Memory>
    ensures answer { IfOk result (λ answer. answer ≡ csv bytes.now) }
    ensures status { IfOk result (λ answer. IsStatusCode answer.status) }
{
    let body = bytes.copy()?;
    Ok(csv(body))
}

/// A layer that is handed out.
fn handed_out(alloc: Global, out: &Out) -> Result<Answer, Memory>
    ensures answer { IfOk result (λ answer. answer ≡ handed_out (out_of out.now)) }
    ensures status { IfOk result (λ answer. IsStatusCode answer.status) }
{
    let done = out.done.items().len();
    let undone = out.undone.items().len();
    out_answer(alloc, done, out.revision, undone)
}

/// The answer that a reply of a project is on its route: status, media type and body. The route tells alone whether a
/// snapshot that was taken is shown as its items or as its curated layer. What is shared, as a text or a layer, is not
/// copied beyond the bytes of the answer.
/// Cost: the bytes of the answer; of items, what `items_csv` tells, and of a curated layer what `curated` tells.
pub fn answer_of(alloc: Global, route: &Route, reply: &Reply) -> Result<Answer, Memory>
    requires { CanBeShown (answer_of reply.now) }
    ensures answer { IfOk result (λ answer. answer ≡ answer_on route.now (answer_of reply.now)) }
    ensures status { IfOk result (λ answer. IsStatusCode answer.status) }
{
    match reply {
        Reply::Conf(conf) => conf_answer(alloc, conf),
        Reply::Docs(lines) => docs_answer(alloc, lines.items()),
        Reply::Text(doc) => text_answer(alloc, doc),
        Reply::Added { tokens } => number_answer(alloc, 201, "tokens", u64::from(*tokens)),
        Reply::Out(out) => handed_out(alloc, out),
        Reply::Committed { revision } => number_answer(alloc, 200, "revision", *revision),
        Reply::Parked => truth_answer(alloc, "parked", true),
        Reply::Finished(finished) => truth_answer(alloc, "finished", *finished),
        Reply::Layer(layer, doc, conf) => layer_answer(alloc, layer, doc, conf),
        Reply::Ignored(ignored) => truth_answer(alloc, "ignored", *ignored),
        Reply::Snapped { number, layers } => snapped_answer(alloc, *number, *layers),
        Reply::Taken(view) => snapshot_answer(alloc, route, view),
        Reply::Decided { count } => number_answer(alloc, 200, "decided", u64::from(*count)),
        Reply::Pairs(names, lines) => pairs_answer(alloc, names.items(), lines.items()),
        Reply::Alpha(line) => alpha_answer(alloc, line),
        Reply::Table(bytes) => table_answer(bytes),
        Reply::Refused(refusal, named) => book_refusal(alloc, *refusal, named),
    }
}
