//! The entries of a project's journal.
use crate::person::PersonList;
use mark_base::{Bytes, Slug, Text};

/// An entry of a project's journal: a change of the project, or a piece of the whole project's state.
///
/// `by` is the person who made a change. Documents are numbered from 0, snapshots from 1. A `hold` is the
/// place of the change that checked a layer out. A `holder` is an annotator's place in a snapshot, from 0, and
/// a `kind` the place of an annotation's kind in `mark_base::Kind`, from 0.
#[derive(Debug, Drop)]
pub enum Entry {
    /// The founding: the text of the configuration, and the people in the order of their names.
    Found {
        conf: Text,
        people: PersonList,
    },
    /// A document is added.
    AddText {
        by: Slug,
        name: Slug,
        text: Text,
    },
    /// A layer is checked out.
    Checkout {
        by: Slug,
        doc: u32,
    },
    /// A layer that is out is checked out anew.
    TakeOver {
        by: Slug,
        doc: u32,
    },
    /// A layer is committed, as its .ann lines.
    Commit {
        by: Slug,
        doc: u32,
        hold: u64,
        lines: Text,
    },
    /// A layer is parked with its commands, those done and those undone.
    Park {
        by: Slug,
        doc: u32,
        hold: u64,
        commands: Bytes,
    },
    /// A layer is finished.
    Finish {
        by: Slug,
        doc: u32,
    },
    /// A finished layer of `who` is opened again.
    Reopen {
        by: Slug,
        doc: u32,
        who: Slug,
    },
    /// A snapshot of a document's finished layers is taken.
    Snap {
        by: Slug,
        doc: u32,
    },
    /// An item of a snapshot is accepted or rejected.
    Decide {
        by: Slug,
        snapshot: u64,
        holder: u8,
        kind: u8,
        number: u32,
        accept: bool,
    },
    /// A decision on an item of a snapshot is taken back.
    Undecide {
        by: Slug,
        snapshot: u64,
        holder: u8,
        kind: u8,
        number: u32,
    },
    /// All layers that are out are given back.
    FreeAll,
    /// A layer of `who` is taken out of the agreement tables.
    Ignore {
        by: Slug,
        doc: u32,
        who: Slug,
    },
    /// A layer of `who` is put back into the agreement tables.
    Readmit {
        by: Slug,
        doc: u32,
        who: Slug,
    },
    /// A founding at a level of the type hierarchy, 0 to 254.
    FoundAt {
        conf: Text,
        people: PersonList,
        level: u8,
    },
    /// The first piece of a state: its place in the log, the level (255 for none), how many documents and
    /// snapshots follow, the text of the configuration, and the people.
    Restored {
        place: u64,
        level: u8,
        documents: u32,
        snapshots: u64,
        conf: Text,
        people: PersonList,
    },
    /// A document of a state.
    Document {
        name: Slug,
        text: Text,
    },
    /// An annotator's row of a document: how often it was committed, and its flags, 1 for finished plus 2 for
    /// ignored.
    Row {
        doc: u32,
        who: Slug,
        revision: u64,
        flags: u8,
    },
    /// The committed layer of the row before it, as .ann lines.
    Layer {
        lines: Text,
    },
    /// The parked commands of the row before it, those done and those undone.
    Draft {
        commands: Bytes,
    },
    /// A snapshot of a state, and how many layers it holds.
    Snapshot {
        doc: u32,
        layers: u8,
    },
    /// A layer that the snapshot before it holds, as .ann lines.
    HeldLayer {
        who: Slug,
        lines: Text,
    },
    /// The decisions on the snapshot before it: their count, and each item with its verdict.
    Decided {
        pairs: Bytes,
    },
    /// The last piece of a state.
    End,
}
