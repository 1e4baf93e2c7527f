//! The routes at a path by a method, once what the path names is read.
ghost use Rattle.std.specs.Prelude.{◌≡◌};
ghost use Rattle.http_answers.specs.Routes.Found.{at_project, at_document, at_layer, at_snapshot, at_desk};

use crate::routes::found::Found;
use crate::routes::methods::Methods;
use crate::routes::route::{
    BookRoute, DeskRoute, DocumentRoute, LayerRoute, ProjectRoute, Route, SnapshotRoute,
};
use mark_base::Slug;

/// A route of the project, which names nothing.
pub(crate) fn at_project(methods: &Methods<ProjectRoute>, method: &str) -> Found
    ensures { result ≡ at_project methods.now method.now }
{
    match methods.asked_by(method) {
        Some(route) => Found::At(Route::Book(BookRoute::Project(route))),
        None => Found::NoMethod,
    }
}

/// A route on a document.
pub(crate) fn at_document(
    methods: &Methods<DocumentRoute>,
    doc: Option<Slug>,
    method: &str,
) -> Found
    ensures { result ≡ at_document methods.now doc method.now }
{
    let Some(doc) = doc else {
        return Found::NoRoute;
    };
    match methods.asked_by(method) {
        Some(route) => Found::At(Route::Book(BookRoute::Document(route, doc))),
        None => Found::NoMethod,
    }
}

/// A route on the layer of an annotator.
pub(crate) fn at_layer(
    methods: &Methods<LayerRoute>,
    doc: Option<Slug>,
    who: Option<Slug>,
    method: &str,
) -> Found
    ensures { result ≡ at_layer methods.now doc who method.now }
{
    let Some(doc) = doc else {
        return Found::NoRoute;
    };
    let Some(who) = who else {
        return Found::NoRoute;
    };
    match methods.asked_by(method) {
        Some(route) => Found::At(Route::Book(BookRoute::Layer(route, doc, who))),
        None => Found::NoMethod,
    }
}

/// A route on a snapshot.
pub(crate) fn at_snapshot(
    methods: &Methods<SnapshotRoute>,
    number: Option<u64>,
    method: &str,
) -> Found
    ensures { result ≡ at_snapshot methods.now number method.now }
{
    let Some(number) = number else {
        return Found::NoRoute;
    };
    match methods.asked_by(method) {
        Some(route) => Found::At(Route::Book(BookRoute::Snapshot(route, number))),
        None => Found::NoMethod,
    }
}

/// A route of the desk.
pub(crate) fn at_desk(methods: &Methods<DeskRoute>, method: &str) -> Found
    ensures { result ≡ at_desk methods.now method.now }
{
    match methods.asked_by(method) {
        Some(route) => Found::At(Route::Desk(route)),
        None => Found::NoMethod,
    }
}
