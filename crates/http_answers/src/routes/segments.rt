//! The segments of a path, and what they name.
ghost use Rattle.std.specs.Prelude.{◌≡◌, ◌==◌, map, IfOk, Some, None, if◌then◌else◌};
ghost use Rattle.std.specs.List.{slice_split};
ghost use Rattle.std.specs.Str.Parse.{digits_value};
ghost use Rattle.http_answers.specs.Routes.Segments.{is_number, number_read, number_at, segments, slug_read, slug_at};

use mark_base::{Memory, NameFault, Slug};
use std::alloc::{AllocError, Global};

/// The segments of a path, which slashes separate.
pub(crate) fn segments(alloc: Global, path: &str) -> Result<Vec<&str>, AllocError>
    ensures { IfOk result (λ pieces. map (λ piece. piece.now) pieces.items ≡ segments path.now) }
{
    path.split('/').collect(alloc)
}

/// The slug that a segment is.
fn slug_read(alloc: Global, text: &str) -> Result<Option<Slug>, Memory>
    ensures { IfOk result (λ slug. slug ≡ slug_read text.now) }
{
    match Slug::new(alloc, text) {
        Ok(slug) => Ok(Some(slug)),
        Err(NameFault::Memory) => Err(Memory),
        Err(NameFault::Empty) => Ok(None),
        Err(NameFault::TooLong) => Ok(None),
        Err(NameFault::BadChar(_)) => Ok(None),
    }
}

/// The slug that the segment at a place is.
pub(crate) fn slug_at(
    alloc: Global,
    segments: &[&str],
    place: usize,
) -> Result<Option<Slug>, Memory>
    ensures { IfOk result (λ slug. slug ≡ slug_at (map (λ segment. segment.now) segments.now) place) }
{
    match segments.get(place) {
        Some(segment) => slug_read(alloc, segment),
        None => Ok(None),
    }
}

/// The digits of the longest number in a path.
const MOST_DIGITS: usize = 18;

/// The number that a segment is: 1 to 18 decimal digits.
fn number_read(digits: &[u8]) -> Option<u64>
    ensures { result ≡ number_read digits.now }
{
    if digits.is_empty() || digits.len() > MOST_DIGITS {
        return None;
    }
    let mut number: u64 = 0;
    for digit in digits {
        if !digit.is_ascii_digit() {
            return None;
        }
        number = number * 10 + u64::from(*digit - b'0');
    }
    Some(number)
}

/// The number that the segment at a place is.
pub(crate) fn number_at(segments: &[&str], place: usize) -> Option<u64>
    ensures { result ≡ number_at (map (λ segment. segment.now) segments.now) place }
{
    match segments.get(place) {
        Some(segment) => number_read(segment.as_bytes()),
        None => None,
    }
}
