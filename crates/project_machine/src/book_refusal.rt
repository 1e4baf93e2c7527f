//! Why a project refuses a request.
use curator_decisions::DecisionFault;
use layer_model::Rule;

/// Who may make a request.
#[derive(Clone, Copy, Debug, PartialEq, Eq)]
pub enum Policy {
    /// Everyone on the roster.
    Roster,
    /// An annotator.
    Annotator,
    /// A curator.
    Curator,
    /// A curator, or the annotator whose layer it is.
    Own,
}

/// Why a project refuses a request.
#[derive(Clone, Copy, Debug, PartialEq, Eq)]
pub enum BookRefusal {
    /// The caller does not meet this policy.
    NotAllowed(Policy),
    /// There is no document of this name.
    NoDocument,
    /// The person named is no annotator, or nothing is committed that could be read.
    NoLayer,
    /// There is no snapshot of this number.
    NoSnapshot,
    /// The layer is checked out.
    LayerOut,
    /// The layer is not checked out under this hold.
    NotYours,
    /// The layer is finished.
    Finished,
    /// No layer was committed.
    NothingCommitted,
    /// The layer is not finished.
    NotFinished,
    /// So many layers of the document are finished, and a snapshot wants two.
    TooFewFinished(u32),
    /// The layer or a command breaks this rule.
    Broken(Rule),
    /// The decision has this fault, which is never want of memory.
    Decision(DecisionFault),
    /// There is a document of this name.
    DocumentThere,
    /// There are 4,096 documents, or all texts together would have more than 16,777,216 characters.
    ProjectFull,
    /// The change would be kept in so many bytes, which are more than the 16,777,216 that a journal takes.
    EntryTooLong(u64),
    /// The keeper failed, and counted it. The project is as it was.
    Keeper,
    /// Memory ran out. The project is as it was.
    Memory,
    /// The layer is ignored.
    AlreadyIgnored,
    /// The layer is not ignored.
    NotIgnored,
}
