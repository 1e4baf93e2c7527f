//! A curator's verdict on an item.

/// What a curator decides of an item: that the curated layer has it, or that it has not.
#[derive(Clone, Copy, Debug, PartialEq, Eq)]
pub enum Verdict {
    Accept,
    Reject,
}
