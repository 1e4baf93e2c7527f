//! Letters of IDs in their order.
ghost use Rattle.std.specs.Prelude.{◌≡◌, ◌<◌};
ghost use Rattle.layer_model.specs.Classes.{letter_place};

use mark_base::Kind;

/// The place of a letter among T, E, R, A, M, N and #, from 0.
pub fn letter_place(kind: Kind) -> u8
    ensures place { result ≡ letter_place kind }
    ensures small { result < 7 }
{
    match kind {
        Kind::Text => 0,
        Kind::Event => 1,
        Kind::Relation => 2,
        Kind::Attribute => 3,
        Kind::Legacy => 4,
        Kind::Normal => 5,
        Kind::Note => 6,
    }
}
