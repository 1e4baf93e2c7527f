//! What a change does to a project, with all the memory that it needs.
use crate::document::StoredDocument;
use crate::stored_snapshot::StoredSnapshot;
use curator_decisions::Decisions;
use layer_model::Layer;
use layer_undo::Script;
use std::sync::Arc;

/// What a change does to a project. It has with it all that it puts there, so nothing can be refused once the
/// change is kept. `doc` is the number of a document from 0, `rater` the place of an annotator among the annotators
/// from 0, and `number` that of a snapshot from 1.
#[derive(Drop)]
pub enum Act {
    /// A document is added.
    AddDocument(StoredDocument),
    /// A row is out under the next place.
    Hold {
        doc: usize,
        rater: usize,
    },
    /// A layer is committed in a row; nothing is parked there any more.
    Commit {
        doc: usize,
        rater: usize,
        layer: Arc<Layer>,
    },
    /// The commands of a row are parked; it is out no more.
    Park {
        doc: usize,
        rater: usize,
        done: Script,
        undone: Script,
    },
    /// A row is finished, or open again.
    Finish {
        doc: usize,
        rater: usize,
        finished: bool,
    },
    /// A row is left out of the tables, or put back.
    Ignore {
        doc: usize,
        rater: usize,
        ignored: bool,
    },
    /// A snapshot is taken.
    Snap(StoredSnapshot),
    /// A snapshot has other decisions.
    Decide {
        number: u64,
        decisions: Decisions,
    },
    /// No row is out any more.
    FreeAll,
}
