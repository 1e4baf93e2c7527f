//! The texts of the documents, letter by letter.
ghost use Rattle.std.specs.Prelude.{◌≡◌, ◌++◌, ◌<◌, OnOk, IfOk};
ghost use Rattle.demo_project.specs.Texts.{letter, text_of, word_of};

use mark_base::Memory;
use std::alloc::Global;

/// How many words a text has.
const WORDS: u32 = 400;

/// A letter of a word.
fn letter(number: u32, doc: u32, word: u32, place: u32) -> u8
    ensures { result ≡ letter number doc word place }
{
    let sum = u64::from(number) + 7 * u64::from(doc) + 3 * u64::from(word) + 5 * u64::from(place);
    (sum % 26) as u8 + b'a'
}

/// Appends a word and the space behind it.
fn push_word(text: &mut Vec<u8>, number: u32, doc: u32, word: u32) -> Result<(), Memory>
    ensures { OnOk result (text.new.items ≡ text.old.items ++ word_of number doc word) }
{
    for place in 0..4 {
        text.push(letter(number, doc, word, place))?;
    }
    text.push(b' ')?;
    Ok(())
}

/// The text of a document.
pub(crate) fn text_of(alloc: Global, number: u32, doc: u32) -> Result<Vec<u8>, Memory>
    ensures { IfOk result (λ text. text.items ≡ text_of number doc) }
{
    let mut text = Vec::new(alloc);
    for word in 0..WORDS {
        push_word(&mut text, number, doc, word)?;
    }
    Ok(text)
}
