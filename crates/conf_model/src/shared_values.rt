//! Configurations are shared by threads: behind one `Arc` all of them read the same.
use crate::Conf;

/// Takes what may go to another thread, and be read by several at once.
fn is_shared<T: Send + Sync>(_value: &T) {}

/// A configuration may be shared.
fn configurations_are_shared(conf: &Conf) {
    is_shared(conf)
}
