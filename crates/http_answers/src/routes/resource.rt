//! What stands at a path.
use crate::routes::methods::Methods;
use crate::routes::route::{DeskRoute, DocumentRoute, LayerRoute, ProjectRoute, SnapshotRoute};

/// What stands at a path, with its routes: the names in the path say of what.
#[derive(Clone, Copy)]
pub enum Resource {
    /// The path names nothing.
    Project(Methods<ProjectRoute>),
    /// The path names a document.
    Document(Methods<DocumentRoute>),
    /// The path names a document and an annotator.
    Layer(Methods<LayerRoute>),
    /// The path names a snapshot by its number.
    Snapshot(Methods<SnapshotRoute>),
    /// The path names nothing, and its routes are those of the desk.
    Desk(Methods<DeskRoute>),
}
