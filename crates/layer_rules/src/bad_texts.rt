//! The rules on texts, stores and entries.
ghost use Rattle.std.specs.Prelude.{◌≡◌, ◌||◌, ◌==◌, chars};
ghost use Rattle.std.specs.Char.{is_whitespace};
ghost use Rattle.std.specs.List.{list_any};
ghost use Rattle.layer_rules.specs.BadTexts.{is_bad_entry, is_bad_store, is_bad_text};

use mark_base::char_count;

/// Whether some byte is a line feed or a carriage return.
fn breaks_line(text: &[u8]) -> bool
    ensures { result ≡ list_any (λ c. c == 10 || c == 13) text.now }
{
    text.iter().any(|byte| *byte == b'\n' || *byte == b'\r')
}

/// Whether some byte is a colon.
fn has_colon(text: &[u8]) -> bool
    ensures { result ≡ list_any (λ c. c == 58) text.now }
{
    text.iter().any(|byte| *byte == b':')
}

/// Whether some character is white space.
fn has_whitespace(text: &str) -> bool
    ensures { result ≡ list_any is_whitespace (chars text.now) }
{
    text.chars().any(|c| c.is_whitespace())
}

/// The characters of the longest text of a note or a normalization.
const LONGEST_TEXT: usize = 4_000;

/// Whether a text of a note or a normalization may not stand: it has more than 4,000 characters, or breaks
/// its line. Cost: the text.
pub fn is_bad_text(text: &str) -> bool
    ensures { result ≡ is_bad_text text.now }
{
    char_count(text) > LONGEST_TEXT || breaks_line(text.as_bytes())
}

/// Whether an entry of a store may not stand: it is empty, or has white space. Cost: the entry.
pub fn is_bad_entry(entry: &str) -> bool
    ensures { result ≡ is_bad_entry entry.now }
{
    entry.is_empty() || has_whitespace(entry)
}

/// Whether the name of a store may not stand: it is no entry, or has a colon. Cost: the name.
pub fn is_bad_store(store: &str) -> bool
    ensures { result ≡ is_bad_store store.now }
{
    is_bad_entry(store) || has_colon(store.as_bytes())
}
