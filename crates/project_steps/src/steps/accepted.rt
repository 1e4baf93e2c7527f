//! What is made of a request.
use project_state::{Act, BookRefusal, Change, Reply};

/// A change that a request makes, and what it does to the project.
#[derive(Drop)]
pub struct Made {
    pub change: Change,
    pub act: Act,
}

/// The answer to a request that is not refused, and the change that it makes, if it makes one.
#[derive(Drop)]
pub struct Accepted {
    pub reply: Reply,
    pub made: Option<Made>,
}

/// What is made of a request: it is refused by the first test that it does not pass, or accepted.
#[derive(Drop)]
pub enum Outcome {
    Refused(BookRefusal),
    Accepted(Accepted),
}
