//! A worker, which serves connections with a pass of its own.
use turn_hall::Pass;

/// Why a worker stopped.
#[derive(Clone, Copy, Debug, PartialEq, Eq)]
pub enum WorkerEnd {
    /// The door has no more connections.
    DoorEnded,
    /// The door failed, and counted it.
    DoorFailed,
    /// The worker's pass may not ask often enough for one more connection.
    Drawn,
}

/// A worker, which serves connections with a pass of its own, and why it stopped, where it has served.
#[derive(Drop)]
pub struct Worker {
    /// The pass that it serves with.
    pub pass: Option<Pass>,
    /// Why it stopped.
    pub end: Option<WorkerEnd>,
}
