//! What an act does to one row.
use layer_model::Layer;
use layer_undo::Script;
use std::sync::Arc;

/// What an act does to the row that it names.
#[derive(Drop)]
pub(crate) enum RowAct {
    /// It is out under this hold.
    Hold(u64),
    /// A layer is committed; nothing is parked any more.
    Commit(Arc<Layer>),
    /// Commands are parked, done and undone; it is out no more.
    Park(Script, Script),
    /// It is finished, or open again.
    Finish(bool),
    /// It is left out of the tables, or put back.
    Ignore(bool),
}
