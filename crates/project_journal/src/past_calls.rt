//! What the calls of a disk in memory have done, for contracts alone to read.
use std::snapshot::Snapshot;

/// What a call of a disk does to its file.
#[derive(Drop)]
pub enum Effect {
    /// At that offset it writes so many bytes.
    Wrote(u64, u64),
    /// It makes the file that long.
    Cut(u64),
    /// It makes the file durable.
    Synced,
}

/// A call that was made, and what a read gave after it. The content takes no memory.
#[derive(Drop)]
pub struct PastCall {
    pub effect: Effect,
    pub after: Snapshot<Vec<u8>>,
}
