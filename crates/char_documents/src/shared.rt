//! What stands behind an `Arc` passes between threads: this is where a type that cannot is refused.
use crate::Doc;

/// Asks that a value may pass between threads and be seen from several at once.
fn is_shared<T: Send + Sync>(_value: &T) {}

/// Documents are shared.
fn are_shared(doc: &Doc) {
    is_shared(doc);
}
