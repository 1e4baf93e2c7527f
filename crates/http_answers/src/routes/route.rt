//! Routes, with what their paths name.
use mark_base::Slug;

/// A route of a project that names nothing.
#[derive(Clone, Copy, Debug, PartialEq, Eq)]
pub enum ProjectRoute {
    /// `GET /conf`: the configuration.
    Conf,
    /// `GET /docs`: the documents.
    Documents,
    /// `GET /agreement/pairs`: the agreement of each two annotators.
    Pairs,
    /// `GET /agreement/alpha`: the agreement of all annotators.
    Alpha,
    /// `GET /progress`: who is done, as CSV.
    Progress,
    /// `GET /snapshots`: how far curation is, as CSV.
    Snapshots,
    /// `GET /roster`: the people, as a roster file has them.
    Roster,
}

/// A route on a document.
#[derive(Clone, Copy, Debug, PartialEq, Eq)]
pub enum DocumentRoute {
    /// `GET /docs/{d}/text`
    ReadText,
    /// `PUT /docs/{d}/text`: a document more.
    AddText,
    /// `POST /docs/{d}/checkout`
    Checkout,
    /// `POST /docs/{d}/takeover`
    TakeOver,
    /// `POST /docs/{d}/finish`
    Finish,
    /// `POST /docs/{d}/snapshots`: a snapshot of the finished layers.
    Snap,
}

/// A route on the layer of an annotator.
#[derive(Clone, Copy, Debug, PartialEq, Eq)]
pub enum LayerRoute {
    /// `GET /docs/{d}/layers/{a}`
    Read,
    /// `POST /docs/{d}/layers/{a}/reopen`
    Reopen,
    /// `POST /docs/{d}/layers/{a}/ignore`
    Ignore,
    /// `POST /docs/{d}/layers/{a}/readmit`
    Readmit,
}

/// A route on a snapshot.
#[derive(Clone, Copy, Debug, PartialEq, Eq)]
pub enum SnapshotRoute {
    /// `GET /snapshots/{n}/items`: its items, as CSV.
    Items,
    /// `GET /snapshots/{n}/curated`: the curated layer, as .ann lines.
    Curated,
    /// `POST /snapshots/{n}/decisions`
    Decide,
    /// `POST /snapshots/{n}/undecisions`
    Undecide,
}

/// A route of the desk that a connection holds.
#[derive(Clone, Copy, Debug, PartialEq, Eq)]
pub enum DeskRoute {
    /// `GET /desk`: the layer, as .ann lines.
    Show,
    /// `POST /desk/do`: a command, as JSON.
    Do,
    /// `POST /desk/undo`
    Undo,
    /// `POST /desk/redo`
    Redo,
    /// `POST /desk/load`: an .ann file in place of the layer.
    Load,
    /// `POST /desk/commit`
    Commit,
    /// `POST /desk/park`
    Park,
}

/// A route that asks the project, with the document, the document and the annotator, or the number of the snapshot
/// that its path names.
#[derive(Debug, Drop)]
pub enum BookRoute {
    Project(ProjectRoute),
    Document(DocumentRoute, Slug),
    Layer(LayerRoute, Slug, Slug),
    Snapshot(SnapshotRoute, u64),
}

/// A route.
#[derive(Debug, Drop)]
pub enum Route {
    Book(BookRoute),
    Desk(DeskRoute),
}
