//! What passes between threads can: this is where a type that cannot is refused.
use crate::Command;

/// Asks that a value may pass between threads and be seen from several at once.
fn is_shared<T: Send + Sync>(_value: &T) {}

/// Commands are shared.
fn are_shared(command: &Command) {
    is_shared(command);
}
