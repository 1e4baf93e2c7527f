//! Tables about a whole project.

/// A table about a whole project. Curators read each whole, and an annotator the own rows of the first.
#[derive(Clone, Copy, Debug, PartialEq, Eq)]
pub enum Report {
    /// Who is done: a row for each document and annotator.
    Progress,
    /// How far curation is: a row for each snapshot.
    Snapshots,
    /// Who takes part: a row for each person, as a roster file has them.
    Roster,
}
