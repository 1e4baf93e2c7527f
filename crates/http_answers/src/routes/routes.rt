//! All routes, and the one of a method and a path.
ghost use Rattle.std.specs.Prelude.{◌≡◌, map, IfOk, OnOk};
ghost use Rattle.http_answers.specs.Routes.Routes.{desk_lines, document_lines, layer_lines, line, project_lines, snapshot_lines, table, with_line, with_lines};
ghost use Rattle.http_answers.specs.Routes.Found.{found_at, found_by};
ghost use Rattle.http_answers.specs.Routes.Segments.{segments};

use crate::routes::by_method::{at_desk, at_document, at_layer, at_project, at_snapshot};
use crate::routes::found::Found;
use crate::routes::methods::Methods;
use crate::routes::resource::Resource;
use crate::routes::route::{DeskRoute, DocumentRoute, LayerRoute, ProjectRoute, SnapshotRoute};
use crate::routes::segments::{number_at, segments, slug_at};
use mark_base::Memory;
use matchit::{InsertError, Router};
use std::alloc::Global;

/// All routes.
#[derive(Drop)]
pub struct Routes {
    router: Router<Resource>,
    ghost whole: { router ≡ table },
}

/// Adds a path, unless it conflicts with one that is there.
fn add_path(router: &mut Router<Resource>, path: &str, resource: Resource) -> Result<(), Memory>
    ensures { OnOk result (router.new ≡ with_line router.old (line path.now resource)) }
{
    match router.insert(path, resource) {
        Ok(()) => Ok(()),
        Err(InsertError::OutOfMemory) => Err(Memory),
        Err(InsertError::Conflict { with: _ }) => Ok(()),
        Err(InsertError::InvalidParam) => Ok(()),
        Err(InsertError::InvalidParamSegment) => Ok(()),
        Err(InsertError::InvalidCatchAll) => Ok(()),
    }
}

/// What stands at a path of the project itself.
fn project_path(
    router: &mut Router<Resource>,
    path: &str,
    methods: Methods<ProjectRoute>,
) -> Result<(), Memory>
    ensures { OnOk result (router.new ≡ with_line router.old (line path.now (Resource.Project methods))) }
{
    add_path(router, path, Resource::Project(methods))
}

/// Adds the paths of the project itself.
fn add_project_paths(router: &mut Router<Resource>) -> Result<(), Memory>
    ensures { OnOk result (router.new ≡ with_lines router.old project_lines) }
{
    project_path(router, "/conf", Methods::gets(ProjectRoute::Conf))?;
    project_path(router, "/docs", Methods::gets(ProjectRoute::Documents))?;
    project_path(
        router,
        "/agreement/pairs",
        Methods::gets(ProjectRoute::Pairs),
    )?;
    project_path(
        router,
        "/agreement/alpha",
        Methods::gets(ProjectRoute::Alpha),
    )?;
    project_path(router, "/progress", Methods::gets(ProjectRoute::Progress))?;
    project_path(router, "/snapshots", Methods::gets(ProjectRoute::Snapshots))?;
    project_path(router, "/roster", Methods::gets(ProjectRoute::Roster))?;
    Ok(())
}

/// What stands at a path of a document.
fn document_path(
    router: &mut Router<Resource>,
    path: &str,
    methods: Methods<DocumentRoute>,
) -> Result<(), Memory>
    ensures { OnOk result (router.new ≡ with_line router.old (line path.now (Resource.Document methods))) }
{
    add_path(router, path, Resource::Document(methods))
}

/// Adds the paths of a document.
fn add_document_paths(router: &mut Router<Resource>) -> Result<(), Memory>
    ensures { OnOk result (router.new ≡ with_lines router.old document_lines) }
{
    document_path(
        router,
        "/docs/{d}/text",
        Methods::gets_and_puts(DocumentRoute::ReadText, DocumentRoute::AddText),
    )?;
    document_path(
        router,
        "/docs/{d}/checkout",
        Methods::posts(DocumentRoute::Checkout),
    )?;
    document_path(
        router,
        "/docs/{d}/takeover",
        Methods::posts(DocumentRoute::TakeOver),
    )?;
    document_path(
        router,
        "/docs/{d}/finish",
        Methods::posts(DocumentRoute::Finish),
    )?;
    document_path(
        router,
        "/docs/{d}/snapshots",
        Methods::posts(DocumentRoute::Snap),
    )?;
    Ok(())
}

/// What stands at a path of the layer of an annotator.
fn layer_path(
    router: &mut Router<Resource>,
    path: &str,
    methods: Methods<LayerRoute>,
) -> Result<(), Memory>
    ensures { OnOk result (router.new ≡ with_line router.old (line path.now (Resource.Layer methods))) }
{
    add_path(router, path, Resource::Layer(methods))
}

/// Adds the paths of the layer of an annotator.
fn add_layer_paths(router: &mut Router<Resource>) -> Result<(), Memory>
    ensures { OnOk result (router.new ≡ with_lines router.old layer_lines) }
{
    layer_path(
        router,
        "/docs/{d}/layers/{a}",
        Methods::gets(LayerRoute::Read),
    )?;
    layer_path(
        router,
        "/docs/{d}/layers/{a}/reopen",
        Methods::posts(LayerRoute::Reopen),
    )?;
    layer_path(
        router,
        "/docs/{d}/layers/{a}/ignore",
        Methods::posts(LayerRoute::Ignore),
    )?;
    layer_path(
        router,
        "/docs/{d}/layers/{a}/readmit",
        Methods::posts(LayerRoute::Readmit),
    )?;
    Ok(())
}

/// What stands at a path of a snapshot.
fn snapshot_path(
    router: &mut Router<Resource>,
    path: &str,
    methods: Methods<SnapshotRoute>,
) -> Result<(), Memory>
    ensures { OnOk result (router.new ≡ with_line router.old (line path.now (Resource.Snapshot methods))) }
{
    add_path(router, path, Resource::Snapshot(methods))
}

/// Adds the paths of a snapshot.
fn add_snapshot_paths(router: &mut Router<Resource>) -> Result<(), Memory>
    ensures { OnOk result (router.new ≡ with_lines router.old snapshot_lines) }
{
    snapshot_path(
        router,
        "/snapshots/{n}/items",
        Methods::gets(SnapshotRoute::Items),
    )?;
    snapshot_path(
        router,
        "/snapshots/{n}/curated",
        Methods::gets(SnapshotRoute::Curated),
    )?;
    snapshot_path(
        router,
        "/snapshots/{n}/decisions",
        Methods::posts(SnapshotRoute::Decide),
    )?;
    snapshot_path(
        router,
        "/snapshots/{n}/undecisions",
        Methods::posts(SnapshotRoute::Undecide),
    )?;
    Ok(())
}

/// What stands at a path of a desk.
fn desk_path(
    router: &mut Router<Resource>,
    path: &str,
    methods: Methods<DeskRoute>,
) -> Result<(), Memory>
    ensures { OnOk result (router.new ≡ with_line router.old (line path.now (Resource.Desk methods))) }
{
    add_path(router, path, Resource::Desk(methods))
}

/// Adds the paths of a desk.
fn add_desk_paths(router: &mut Router<Resource>) -> Result<(), Memory>
    ensures { OnOk result (router.new ≡ with_lines router.old desk_lines) }
{
    desk_path(router, "/desk", Methods::gets(DeskRoute::Show))?;
    desk_path(router, "/desk/do", Methods::posts(DeskRoute::Do))?;
    desk_path(router, "/desk/undo", Methods::posts(DeskRoute::Undo))?;
    desk_path(router, "/desk/redo", Methods::posts(DeskRoute::Redo))?;
    desk_path(router, "/desk/load", Methods::posts(DeskRoute::Load))?;
    desk_path(router, "/desk/commit", Methods::posts(DeskRoute::Commit))?;
    desk_path(router, "/desk/park", Methods::posts(DeskRoute::Park))?;
    Ok(())
}

/// What a resource leads to by a method.
fn found_at(
    alloc: Global,
    segments: &[&str],
    method: &str,
    resource: &Resource,
) -> Result<Found, Memory>
    ensures { IfOk result (λ found. found ≡ found_at (map (λ segment. segment.now) segments.now) method.now resource.now) }
{
    match resource {
        Resource::Project(methods) => Ok(at_project(methods, method)),
        Resource::Document(methods) => {
            let doc = slug_at(alloc, segments, 2)?;
            Ok(at_document(methods, doc, method))
        }
        Resource::Layer(methods) => {
            let doc = slug_at(alloc, segments, 2)?;
            let who = slug_at(alloc, segments, 4)?;
            Ok(at_layer(methods, doc, who, method))
        }
        Resource::Snapshot(methods) => {
            let number = number_at(segments, 2);
            Ok(at_snapshot(methods, number, method))
        }
        Resource::Desk(methods) => Ok(at_desk(methods, method)),
    }
}

impl Routes {
    /// The table of all routes. Cost: each path is compared with those before it; make the table once.
    #[tactic(auto, unfolding(crate::specs::Routes::Routes::table))]
    pub fn new(alloc: Global) -> Result<Routes, Memory> {
        let mut router = Router::new(alloc);
        add_project_paths(&mut router)?;
        add_document_paths(&mut router)?;
        add_layer_paths(&mut router)?;
        add_snapshot_paths(&mut router)?;
        add_desk_paths(&mut router)?;
        Ok(Routes { router })
    }

    /// What a method and a path lead to: a path without a route is told before a method that no route there has, and
    /// a name in the path that is no slug, or no number of 1 to 18 digits, is no route. The path is taken as it was
    /// sent, without its query. Cost: the length of the path.
    pub fn find(&self, alloc: Global, method: &str, path: &str) -> Result<Found, Memory>
        ensures { IfOk result (λ found. found ≡ found_by method.now path.now) }
    {
        match self.router.at(path) {
            Ok(line) => {
                let segments = segments(alloc, path)?;
                found_at(alloc, &segments, method, line.value)
            }
            Err(_) => Ok(Found::NoRoute),
        }
    }
}
