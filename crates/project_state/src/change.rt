//! What happens to a project.
use crate::Roster;
use crate::state::BookState;
use char_documents::Doc;
use conf_model::Conf;
use curator_decisions::Verdict;
use layer_model::Layer;
use layer_undo::Script;
use mark_base::{AnnId, Slug};
use std::sync::Arc;

/// A change of a project. `by` is the person who asked for it. Documents are numbered from 0, snapshots from 1. A
/// `hold` is the place of the change that checked a layer out, and a `holder` the place of an annotator in a
/// snapshot, from 0.
#[derive(Drop)]
pub enum Change {
    /// The founding; types are compared as they stand.
    Found {
        conf: Arc<Conf>,
        roster: Roster,
    },
    /// The founding at a level of the type hierarchy, 0 to 254.
    FoundAt {
        conf: Arc<Conf>,
        roster: Roster,
        level: u8,
    },
    /// A whole state at its place, with which a history begins in place of a founding.
    Restored {
        place: u64,
        state: Arc<BookState>,
    },
    /// A document is added.
    AddText {
        by: Slug,
        name: Slug,
        text: Arc<Doc>,
    },
    /// A layer is checked out.
    Checkout {
        by: Slug,
        doc: u32,
    },
    /// A layer is checked out anew, out or not.
    TakeOver {
        by: Slug,
        doc: u32,
    },
    /// A layer is committed, and stays out.
    Commit {
        by: Slug,
        doc: u32,
        hold: u64,
        layer: Arc<Layer>,
    },
    /// A layer is given back with its commands, those done and those undone.
    Park {
        by: Slug,
        doc: u32,
        hold: u64,
        done: Script,
        undone: Script,
    },
    /// A layer is finished.
    Finish {
        by: Slug,
        doc: u32,
    },
    /// A finished layer of `who` is opened again.
    Reopen {
        by: Slug,
        doc: u32,
        who: Slug,
    },
    /// A snapshot of the finished layers of a document is taken.
    Snap {
        by: Slug,
        doc: u32,
    },
    /// An item of a snapshot is accepted or rejected.
    Decide {
        by: Slug,
        snapshot: u64,
        holder: u8,
        id: AnnId,
        verdict: Verdict,
    },
    /// The verdict on an item is taken back.
    Undecide {
        by: Slug,
        snapshot: u64,
        holder: u8,
        id: AnnId,
    },
    /// All layers that are out are given back.
    FreeAll,
    /// A layer of `who` is taken out of the agreement tables.
    Ignore {
        by: Slug,
        doc: u32,
        who: Slug,
    },
    /// A layer of `who` is put back into the agreement tables.
    Readmit {
        by: Slug,
        doc: u32,
        who: Slug,
    },
}
