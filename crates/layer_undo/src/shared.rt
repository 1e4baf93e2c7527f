//! What passes between threads can: this is where a type that cannot is refused.
use crate::Script;

/// Asks that a value may pass between threads and be seen from several at once.
fn is_shared<T: Send + Sync>(_value: &T) {}

/// Scripts are shared.
fn are_shared(script: &Script) {
    is_shared(script);
}
