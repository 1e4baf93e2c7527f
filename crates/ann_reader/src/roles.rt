//! The roles of an event, as the words of its line name them.
ghost use Rattle.std.specs.Prelude.{◌≡◌, ◌<◌, length, bytes_eq};
ghost use Rattle.std.specs.List.{position_from};
ghost use Rattle.conf_model.specs.Lookups.{role_named};
ghost use Rattle.ann_reader.specs.Roles.{role_before, role_before_number, role_read, digit_counts};

use conf_model::Conf;
use mark_base::{TypeId, is_canonical};

/// The role of this name.
fn role_named(conf: &Conf, event: TypeId, name: &[u8]) -> Option<u16>
    ensures { result ≡ role_named conf.now event.n name.now }
{
    for place in 0..conf.role_count(event) {
        match conf.role_name(event, place) {
            Some(found) => {
                if found.text().as_bytes() == name {
                    return Some(place);
                }
            }
            None => return None,
        }
    }
    None
}

/// The role that the front of a word names, where the so many bytes behind it are a number.
fn role_before(conf: &Conf, event: TypeId, word: &[u8], digits: usize) -> Option<u16>
    ensures { result ≡ role_before conf.now event.n word.now digits }
{
    if digits >= word.len() {
        return None;
    }
    let split = word.len() - digits;
    if is_canonical(&word[split..]) {
        role_named(conf, event, &word[..split])
    } else {
        None
    }
}

/// The first that is found, for numbers of so many digits in turn.
fn role_before_number(conf: &Conf, event: TypeId, word: &[u8], counts: &[usize]) -> Option<u16>
    ensures { result ≡ role_before_number conf.now event.n word.now counts.now }
{
    for digits in counts {
        if let Some(role) = role_before(conf, event, word, *digits) {
            return Some(role);
        }
    }
    None
}

/// The role of an event type that a word of an E line names: the role of that name, or else the one of
/// the longest front of the word that is a role's name with a number of 1 to 9 digits behind it, as
/// `Theme2` (brat standoff manual, "Event annotations"). Cost: at most ten times the number of roles of
/// the type.
#[tactic(auto, unfolding(crate::specs::Roles::role_read))]
pub fn role_read(conf: &Conf, event: TypeId, word: &str) -> Option<u16>
    ensures { result ≡ role_read conf.now event.n word.now }
{
    let word = word.as_bytes();
    match role_named(conf, event, word) {
        Some(role) => Some(role),
        None => role_before_number(conf, event, word, &[1, 2, 3, 4, 5, 6, 7, 8, 9]),
    }
}
