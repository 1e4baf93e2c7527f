//! The words of the command `serve`, and what its end comes to.
ghost use Rattle.std.specs.Prelude.{◌≡◌, map, option_and_then, option_map, string_bytes};
ghost use Rattle.command_words.specs.Asked.{number_read};
ghost use Rattle.annotation_program.specs.Serving.{port_of, serving_by, serving_of, trouble_of};

use command_words::{has_hyphen, number_read};
use program_inputs::Trouble;
use serve_command::ServeEnd;

/// The file and the port that words ask to serve.
#[derive(Clone, Copy, Debug)]
pub(crate) struct Serving<'w> {
    pub(crate) book: &'w str,
    pub(crate) port: u16,
}

/// The port that a word spells, from 1 to 65535.
fn port_read(word: &str) -> Option<u16>
    ensures { result ≡ option_and_then port_of (number_read word.now) }
{
    match number_read(word) {
        Some(number) => {
            if 0 < number && number < 65536 {
                Some(number as u16)
            } else {
                None
            }
        }
        None => None,
    }
}

/// The file and the port of three words.
fn serving_by<'w>(name: &str, book: &'w str, port: &str) -> Option<Serving<'w>>
    ensures { option_map (λ it. (it.book.now, it.port)) result ≡ serving_by name.now book.now port.now }
{
    if name != "serve" {
        return None;
    }
    if has_hyphen(book) || has_hyphen(port) {
        return None;
    }
    match port_read(port) {
        Some(port) => Some(Serving { book, port }),
        None => None,
    }
}

/// The file and the port that the words ask to serve, if they ask that.
pub(crate) fn serving_of(words: &[String]) -> Option<Serving<'_>>
    ensures { option_map (λ it. (it.book.now, it.port)) result ≡ serving_of (map string_bytes words.now) }
{
    match words {
        [name, a, b] => serving_by(name.as_str(), a.as_str(), b.as_str()),
        _ => None,
    }
}

/// What the end of serving comes to.
pub(crate) fn trouble_of(done: Result<(), ServeEnd>) -> Result<(), Trouble>
    ensures { result ≡ trouble_of done }
{
    match done {
        Ok(()) => Ok(()),
        Err(ServeEnd::Trouble(why)) => Err(why),
        Err(ServeEnd::DoorRefused | ServeEnd::DoorFailed) => Err(Trouble::DoorFailed),
    }
}
