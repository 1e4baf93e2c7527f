//! How the characters of two annotations lie to one another.

/// How two sets of characters overlap.
#[derive(Clone, Copy, Debug, PartialEq, Eq, PartialOrd, Ord)]
pub enum OvlKind {
    /// They have no character in common.
    Apart,
    /// They are the same.
    Equal,
    /// The first has all of the second and more.
    Contains,
    /// The second has all of the first and more.
    Inside,
    /// They have some in common, and each has some that the other lacks.
    Cross,
}
