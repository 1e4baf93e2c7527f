//! What is asked of a project.
use char_documents::Doc;
use curator_decisions::Verdict;
use layer_model::Layer;
use layer_undo::Script;
use mark_base::{AnnId, Slug};
use project_machine::Report;
use std::sync::Arc;

/// A request of a caller. `doc` names a document, `who` the annotator whose layer it is, `number` is a snapshot's,
/// from 1, and an item of it is named by its holder and its ID there. `hold` is the place of the change by which
/// the layer was checked out.
#[derive(Drop)]
pub enum Request {
    /// The configuration.
    ReadConf,
    /// The documents, as they were added.
    ListDocs,
    /// The text of a document.
    ReadText {
        doc: Slug,
    },
    /// A document more.
    AddText {
        doc: Slug,
        text: Doc,
    },
    /// The caller's layer, to work on.
    Checkout {
        doc: Slug,
    },
    /// The caller's layer, out or not; who has it out loses it.
    TakeOver {
        doc: Slug,
    },
    /// A layer in place of the caller's, which stays out.
    Commit {
        doc: Slug,
        hold: u64,
        layer: Arc<Layer>,
    },
    /// The caller's layer given back, with the commands done and undone since the last commit.
    Park {
        doc: Slug,
        hold: u64,
        done: Script,
        undone: Script,
    },
    /// The caller's layer is finished.
    Finish {
        doc: Slug,
    },
    /// A committed layer.
    ReadLayer {
        doc: Slug,
        who: Slug,
    },
    /// A finished layer is opened again.
    Reopen {
        doc: Slug,
        who: Slug,
    },
    /// A layer is left out of the agreement tables.
    Ignore {
        doc: Slug,
        who: Slug,
    },
    /// An ignored layer is put back.
    Readmit {
        doc: Slug,
        who: Slug,
    },
    /// A snapshot of the finished layers of a document.
    Snap {
        doc: Slug,
    },
    /// A snapshot that was taken.
    TakeSnapshot {
        number: u64,
    },
    /// A verdict on an item of a snapshot.
    Decide {
        number: u64,
        holder: Slug,
        id: AnnId,
        verdict: Verdict,
    },
    /// The verdict on an item taken back.
    Undecide {
        number: u64,
        holder: Slug,
        id: AnnId,
    },
    /// The agreement of each two annotators.
    Pairs,
    /// The agreement of all annotators.
    Alpha,
    /// A table about the whole project.
    Report(Report),
}
