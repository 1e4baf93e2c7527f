//! A normalization.
use mark_base::{AnnId, Text};

/// A normalization: the annotation refers to an entry of a store outside, as `Wikipedia:534366`, and
/// the text shows what that entry is (brat standoff manual, "Normalization annotations").
#[derive(Clone, Debug, Drop)]
pub struct Normal {
    pub target: AnnId,
    pub store: Text,
    pub entry: Text,
    pub text: Text,
}
