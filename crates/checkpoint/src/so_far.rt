//! What the pieces leave that were read so far.
ghost use Rattle.std.specs.Prelude.{◌≡◌};
ghost use Rattle.checkpoint.specs.Reading.{closed_by, comes_next, is_start, is_told, is_whole};

use crate::open_shot::OpenShot;
use crate::told_state::ToldState;
use mark_base::Slug;
use project_state::StoredRow;

/// How much was read of a row.
#[derive(Clone, Copy)]
pub enum Stage {
    /// Its own piece.
    Named,
    /// And its layer.
    Committed,
    /// And what is parked in it, with a layer or without one.
    Parked,
}

/// The row that was read last: where it belongs, and what was read of it.
#[derive(Drop)]
pub struct OpenRow {
    pub doc: u32,
    pub rater: usize,
    pub who: Slug,
    pub row: StoredRow,
    pub stage: Stage,
}

/// What is open behind the pieces so far.
#[derive(Drop)]
pub enum Part {
    /// No row and no snapshot was begun.
    Start,
    /// A row, which is not yet in its place.
    Row(OpenRow),
    /// A snapshot of which the verdicts were not read.
    Shot(OpenShot),
    /// Nothing, behind the verdicts on a snapshot.
    Shots,
    /// Nothing, behind the last piece.
    Ended,
}

/// What the pieces so far leave: the project that they tell, how many documents are wanted, for how many characters there
/// is room, how many snapshots are wanted, and what is open.
#[derive(Drop)]
pub struct SoFar {
    pub state: ToldState,
    pub texts: u32,
    pub room: usize,
    pub shots: u64,
    pub part: Part,
}

/// Whether a row lacks no piece.
pub(crate) fn is_told(stage: Stage) -> bool
    ensures { result ≡ is_told stage }
{
    match stage {
        Stage::Named => false,
        Stage::Committed => true,
        Stage::Parked => true,
    }
}

/// Whether no row and no snapshot was begun.
pub(crate) fn is_start(part: &Part) -> bool
    ensures { result ≡ is_start part.now }
{
    match part {
        Part::Start => true,
        _ => false,
    }
}

/// Whether nothing that is open lacks a piece.
pub(crate) fn is_whole(part: &Part) -> bool
    ensures { result ≡ is_whole part.now }
{
    match part {
        Part::Start => true,
        Part::Row(row) => is_told(row.stage),
        Part::Shot(_) => false,
        Part::Shots => true,
        Part::Ended => false,
    }
}

/// Whether the row of a place can be the next.
pub(crate) fn comes_next(part: &Part, doc: u32, rater: usize) -> bool
    ensures { result ≡ comes_next part.now doc rater }
{
    match part {
        Part::Start => true,
        Part::Row(row) => {
            let later = row.doc < doc || (row.doc == doc && row.rater < rater);
            is_told(row.stage) && later
        }
        _ => false,
    }
}

/// The project with what is open in its place.
pub(crate) fn closed(state: ToldState, part: Part) -> ToldState
    ensures { result ≡ closed_by part state }
{
    let mut state = state;
    match part {
        Part::Row(row_read) => {
            let OpenRow {
                doc,
                rater,
                who: _,
                row,
                stage: _,
            } = row_read;
            state.put_row(doc, rater, row);
            state
        }
        _ => state,
    }
}
