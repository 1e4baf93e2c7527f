//! The request of a route and its body.
ghost use Rattle.std.specs.Prelude.{◌≡◌, IfErr, IfOk, Ok};
ghost use Rattle.project_state.specs.Values.{asked_of};
ghost use Rattle.http_answers.specs.Requests.Bodies.{IsFault};
ghost use Rattle.http_answers.specs.Requests.Requests.{asked_of_document, asked_of_layer, asked_of_project, asked_of_snapshot, asked_on};

use crate::requests::body_fault::BodyFault;
use crate::requests::decision_body::{decision_body, undecision_body};
use crate::requests::text_body::text_body;
use crate::routes::{BookRoute, DocumentRoute, LayerRoute, ProjectRoute, SnapshotRoute};
use mark_base::{Memory, Slug};
use project_state::{Report, Request};
use std::alloc::Global;

/// What a route of the project itself asks.
fn request_of_project(route: ProjectRoute) -> Request
    ensures { asked_of result ≡ asked_of_project route }
{
    match route {
        ProjectRoute::Conf => Request::ReadConf,
        ProjectRoute::Documents => Request::ListDocs,
        ProjectRoute::Pairs => Request::Pairs,
        ProjectRoute::Alpha => Request::Alpha,
        ProjectRoute::Progress => Request::Report(Report::Progress),
        ProjectRoute::Snapshots => Request::Report(Report::Snapshots),
        ProjectRoute::Roster => Request::Report(Report::Roster),
    }
}

/// A document more, whose text is the body.
fn text_request(alloc: Global, doc: Slug, body: &[u8]) -> Result<Request, BodyFault>
    ensures asked { IfOk result (λ request. asked_of_document DocumentRoute.AddText doc body.now ≡ Ok (asked_of request)) }
    ensures fault { IfErr result (IsFault (asked_of_document DocumentRoute.AddText doc body.now)) }
{
    match text_body(alloc, body) {
        Ok(text) => Ok(Request::AddText { doc, text }),
        Err(fault) => Err(fault),
    }
}

/// What a route on a document asks.
fn request_of_document(
    alloc: Global,
    route: DocumentRoute,
    doc: &Slug,
    body: &[u8],
) -> Result<Request, BodyFault>
    ensures asked { IfOk result (λ request. asked_of_document route doc.now body.now ≡ Ok (asked_of request)) }
    ensures fault { IfErr result (IsFault (asked_of_document route doc.now body.now)) }
{
    let Ok(doc) = doc.copy() else {
        return Err(BodyFault::Memory);
    };
    match route {
        DocumentRoute::ReadText => Ok(Request::ReadText { doc }),
        DocumentRoute::AddText => text_request(alloc, doc, body),
        DocumentRoute::Checkout => Ok(Request::Checkout { doc }),
        DocumentRoute::TakeOver => Ok(Request::TakeOver { doc }),
        DocumentRoute::Finish => Ok(Request::Finish { doc }),
        DocumentRoute::Snap => Ok(Request::Snap { doc }),
    }
}

/// What a route on the layer of an annotator asks.
fn request_of_layer(route: LayerRoute, doc: &Slug, who: &Slug) -> Result<Request, Memory>
    ensures { IfOk result (λ request. asked_of request ≡ asked_of_layer route doc.now who.now) }
{
    let doc = doc.copy()?;
    let who = who.copy()?;
    Ok(match route {
        LayerRoute::Read => Request::ReadLayer { doc, who },
        LayerRoute::Reopen => Request::Reopen { doc, who },
        LayerRoute::Ignore => Request::Ignore { doc, who },
        LayerRoute::Readmit => Request::Readmit { doc, who },
    })
}

/// A verdict on an item of a snapshot.
fn decision_request(alloc: Global, number: u64, body: &[u8]) -> Result<Request, BodyFault>
    ensures asked { IfOk result (λ request. asked_of_snapshot SnapshotRoute.Decide number body.now ≡ Ok (asked_of request)) }
    ensures fault { IfErr result (IsFault (asked_of_snapshot SnapshotRoute.Decide number body.now)) }
{
    match decision_body(alloc, body) {
        Ok(Some(said)) => Ok(Request::Decide {
            number,
            holder: said.item.holder,
            id: said.item.id,
            verdict: said.verdict,
        }),
        Ok(None) => Err(BodyFault::BadBody),
        Err(Memory) => Err(BodyFault::Memory),
    }
}

/// The verdict on an item of a snapshot taken back.
fn undecision_request(alloc: Global, number: u64, body: &[u8]) -> Result<Request, BodyFault>
    ensures asked { IfOk result (λ request. asked_of_snapshot SnapshotRoute.Undecide number body.now ≡ Ok (asked_of request)) }
    ensures fault { IfErr result (IsFault (asked_of_snapshot SnapshotRoute.Undecide number body.now)) }
{
    match undecision_body(alloc, body) {
        Ok(Some(item)) => Ok(Request::Undecide {
            number,
            holder: item.holder,
            id: item.id,
        }),
        Ok(None) => Err(BodyFault::BadBody),
        Err(Memory) => Err(BodyFault::Memory),
    }
}

/// What a route on a snapshot asks.
fn request_of_snapshot(
    alloc: Global,
    route: SnapshotRoute,
    number: u64,
    body: &[u8],
) -> Result<Request, BodyFault>
    ensures asked { IfOk result (λ request. asked_of_snapshot route number body.now ≡ Ok (asked_of request)) }
    ensures fault { IfErr result (IsFault (asked_of_snapshot route number body.now)) }
{
    match route {
        SnapshotRoute::Items => Ok(Request::TakeSnapshot { number }),
        SnapshotRoute::Curated => Ok(Request::TakeSnapshot { number }),
        SnapshotRoute::Decide => decision_request(alloc, number, body),
        SnapshotRoute::Undecide => undecision_request(alloc, number, body),
    }
}

/// What a route of the project asks, with the body of its message. A body is read on three routes alone: the text of
/// `PUT /docs/{d}/text`, and the JSON of decisions and undecisions; on every other route it is passed over. A text
/// that is not UTF-8 is told before one that is too long.
/// Cost: the body, read once, and of JSON times the logarithm of the number of its keys.
pub fn request_of(alloc: Global, route: &BookRoute, body: &[u8]) -> Result<Request, BodyFault>
    ensures asked { IfOk result (λ request. asked_on route.now body.now ≡ Ok (asked_of request)) }
    ensures fault { IfErr result (IsFault (asked_on route.now body.now)) }
{
    match route {
        BookRoute::Project(route) => Ok(request_of_project(*route)),
        BookRoute::Document(route, doc) => request_of_document(alloc, *route, doc, body),
        BookRoute::Layer(route, doc, who) => match request_of_layer(*route, doc, who) {
            Ok(request) => Ok(request),
            Err(Memory) => Err(BodyFault::Memory),
        },
        BookRoute::Snapshot(route, number) => request_of_snapshot(alloc, *route, *number, body),
    }
}
