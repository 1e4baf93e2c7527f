//! What a project answers.
use crate::BookRefusal;
use crate::doc_list::DocList;
use crate::pair_list::PairList;
use char_documents::Doc;
use conf_model::Conf;
use curator_decisions::Decisions;
use kappa_alpha::AlphaLine;
use layer_model::{Layer, Snapshot};
use layer_undo::Script;
use mark_base::{Bytes, SlugList, Text};
use std::sync::Arc;

/// A layer that is handed out: its hold, how often it was committed, the committed layer, the commands that were
/// parked, and what the layer is for.
#[derive(Drop)]
pub struct Out {
    pub hold: u64,
    pub revision: u64,
    pub base: Arc<Layer>,
    pub done: Script,
    pub undone: Script,
    pub doc: Arc<Doc>,
    pub conf: Arc<Conf>,
}

/// A snapshot as it is read: a copy that no later change touches.
#[derive(Drop)]
pub struct SnapshotView {
    pub snapshot: Snapshot,
    pub decisions: Decisions,
    pub doc: Arc<Doc>,
    pub conf: Arc<Conf>,
}

/// The answer to a request.
#[derive(Drop)]
pub enum Reply {
    /// The configuration.
    Conf(Arc<Conf>),
    /// The documents.
    Docs(DocList),
    /// The text of a document.
    Text(Arc<Doc>),
    /// A document was added, whose text has so many tokens.
    Added { tokens: u32 },
    /// A layer to work on.
    Out(Out),
    /// A layer was committed, so often by now.
    Committed { revision: u64 },
    /// A layer was given back.
    Parked,
    /// Whether a layer is finished now.
    Finished(bool),
    /// A committed layer, and what it is for.
    Layer(Arc<Layer>, Arc<Doc>, Arc<Conf>),
    /// Whether a layer is ignored now.
    Ignored(bool),
    /// The number of a snapshot that was taken, from 1, and how many layers it holds.
    Snapped { number: u64, layers: u32 },
    /// A snapshot.
    Taken(SnapshotView),
    /// How many verdicts stand on a snapshot.
    Decided { count: u32 },
    /// The names of the annotators in order, and the agreement of each two.
    Pairs(SlugList, PairList),
    /// The agreement of all annotators.
    Alpha(AlphaLine),
    /// A table about the whole project, as CSV.
    Table(Bytes),
    /// A refusal and what it names, which is empty where it names nothing.
    Refused(BookRefusal, Text),
}
