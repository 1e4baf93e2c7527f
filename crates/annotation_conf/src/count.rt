//! How often a role may be filled.
ghost use Rattle.std.specs.Prelude.{◌≡◌, ◌∷◌, [], option_map};
ghost use Rattle.conf_model.specs.ConfPairs.{number_of, range_of, count_of};
ghost use Rattle.annotation_conf.specs.CountShows.{seen_count, braces_count};

use crate::line_parts::{cut_at, enclosed};

/// How often a role may be filled: at least and at most so often.
#[derive(Clone, Copy, Debug, PartialEq, Eq)]
pub struct Count {
    pub least: u32,
    pub most: u32,
}

/// A number of 0 to 99 without a leading zero.
fn number_of(characters: &[char]) -> Option<u32>
    ensures { result ≡ number_of characters.now }
{
    match characters {
        [ones] if ones.is_ascii_digit() => Some(*ones as u32 - 48),
        [tens, ones] if *tens != '0' && tens.is_ascii_digit() && ones.is_ascii_digit() => {
            Some((*tens as u32 - 48) * 10 + (*ones as u32 - 48))
        }
        _ => None,
    }
}

/// The count of two numbers.
fn range_of(least: Option<u32>, most: Option<u32>) -> Option<Count>
    ensures { option_map seen_count result ≡ range_of least most }
{
    let least = least?;
    let most = most?;
    if least <= most && most > 0 {
        Some(Count { least, most })
    } else {
        None
    }
}

/// The count of a mark of one character.
fn sign_count(sign: char) -> Option<Count>
    ensures { option_map seen_count result ≡ count_of (sign ∷ []) }
{
    match sign {
        '?' => Some(Count { least: 0, most: 1 }),
        '*' => Some(Count {
            least: 0,
            most: u32::MAX,
        }),
        '+' => Some(Count {
            least: 1,
            most: u32::MAX,
        }),
        _ => None,
    }
}

/// The count that stands in braces.
fn braces_count(inside: &[char]) -> Option<Count>
    ensures { option_map seen_count result ≡ braces_count inside.now }
{
    if inside.contains(&'-') {
        let (least, most) = cut_at(inside, '-');
        range_of(number_of(least), number_of(most))
    } else {
        let number = number_of(inside);
        range_of(number, number)
    }
}

/// The count that a mark stands for.
pub fn count_of(mark: &[char]) -> Option<Count>
    ensures { option_map seen_count result ≡ count_of mark.now }
{
    match mark {
        [] => Some(Count { least: 1, most: 1 }),
        [sign] => sign_count(*sign),
        _ => braces_count(enclosed(mark, '{', '}')?),
    }
}
