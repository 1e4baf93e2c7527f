//! Letters of IDs as bytes.
ghost use Rattle.std.specs.Prelude.{◌≡◌, None, Some, nat_lt, if◌then◌else◌};
ghost use Rattle.mark_base.specs.ReadIds.{id_at};
ghost use Rattle.command_bytes.specs.CommandReading.{id_of, letter_at};

use mark_base::{AnnId, Kind};

/// The letter of a place among T, E, R, A, M, N and #, from 0.
fn letter_at(place: u8) -> Option<Kind>
    ensures { result ≡ letter_at place }
{
    match place {
        0 => Some(Kind::Text),
        1 => Some(Kind::Event),
        2 => Some(Kind::Relation),
        3 => Some(Kind::Attribute),
        4 => Some(Kind::Legacy),
        5 => Some(Kind::Normal),
        6 => Some(Kind::Note),
        _ => None,
    }
}

/// The ID of a letter and a number.
fn id_with(kind: Kind, number: u32) -> Option<AnnId>
    ensures { result ≡ (if nat_lt 999999999 number then None else Some (id_at kind number)) }
{
    AnnId::new(kind, number)
}

/// The ID of a letter's place among T, E, R, A, M, N and #, from 0, and a number, which is at most 999,999,999; `None`
/// where there is no such letter or ID.
pub fn id_of(place: u8, number: u32) -> Option<AnnId>
    ensures { result ≡ id_of (place, number) }
{
    let kind = letter_at(place)?;
    id_with(kind, number)
}
