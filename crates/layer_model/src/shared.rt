//! What stands behind an `Arc` or passes between threads can: this is where a type that cannot is refused.
use crate::layer::Layer;
use crate::snapshot::Snapshot;

/// Asks that a value may pass between threads and be seen from several at once.
fn is_shared<T: Send + Sync>(_value: &T) {}

/// Layers and snapshots are shared.
fn are_shared(layer: &Layer, snapshot: &Snapshot) {
    is_shared(layer);
    is_shared(snapshot);
}
