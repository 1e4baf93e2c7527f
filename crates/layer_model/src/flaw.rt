//! A broken rule and its place in a layer.
use crate::rule::Rule;
use mark_base::AnnId;

/// Where a layer breaks a rule.
#[derive(Clone, Copy, Debug, PartialEq, Eq)]
pub enum FlawPlace {
    /// At the annotation of this ID.
    Mark(AnnId),
    /// At the class of this place, counted from 0.
    Class(u32),
}

/// A rule that a layer breaks, and where.
#[derive(Clone, Copy, Debug, PartialEq, Eq)]
pub struct Flaw {
    pub rule: Rule,
    pub at: FlawPlace,
}
