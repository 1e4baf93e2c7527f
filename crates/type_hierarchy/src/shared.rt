//! What stands behind an `Arc` passes between threads: this is where a type that cannot is refused.
use crate::Types;

/// Asks that a value may pass between threads and be seen from several at once.
fn is_shared<T: Send + Sync>(_value: &T) {}

/// Trees of types are shared.
fn are_shared(types: &Types) {
    is_shared(types);
}
