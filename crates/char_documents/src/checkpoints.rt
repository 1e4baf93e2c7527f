//! The way from a character's index to its byte.
ghost use Rattle.std.specs.Prelude.{◌≡◌, ◌≤◌, ◌+◌, ◌*◌, length, chars, drop, encode_utf8_all, IfOk};
ghost use Rattle.char_documents.specs.Checkpoints.{byte_of, IsMarked};

use mark_base::Memory;
use std::alloc::Global;

/// How many characters lie between two checkpoints.
const SPACING: usize = 256;

/// What stands behind the first characters of a text. Cost: their number.
fn behind(text: &str, count: usize) -> &str
    requires { count ≤ length (chars text.now) }
    ensures bytes { result.now ≡ encode_utf8_all (drop count (chars text.now)) }
    ensures characters { chars result.now ≡ drop count (chars text.now) }
{
    let mut rest = text.chars();
    for _ in 0..count {
        rest.next();
    }
    rest.as_str()
}

/// The checkpoint behind the one of a number, from 0, in a text of so many characters. Cost: at most 256 characters are
/// passed, and none where each is one byte.
fn next_mark(text: &str, count: usize, number: usize, mark: usize) -> usize
    requires counted { count ≡ length (chars text.now) }
    requires marked { mark ≡ byte_of text.now (256 * number) }
    requires within { 256 * (number + 1) ≤ count }
    ensures { result ≡ byte_of text.now (256 * (number + 1)) }
{
    if text.len() == count {
        return SPACING * (number + 1);
    }
    text.len() - behind(&text[mark..], SPACING).len()
}

/// The checkpoints of a text of so many characters. Cost: its length, or the number of checkpoints where each
/// character is one byte.
pub fn checkpoints(alloc: Global, text: &str, count: usize) -> Result<Vec<usize>, Memory>
    requires { count ≡ length (chars text.now) }
    ensures { IfOk result (λ marks. IsMarked text.now marks.items) }
{
    let mut marks = Vec::new(alloc);
    marks.push(0)?;
    let mut mark = 0;
    for number in 0..count / SPACING {
        mark = next_mark(text, count, number, mark);
        marks.push(mark)?;
    }
    Ok(marks)
}

/// The byte at which the character of an index begins, in a text of so many characters: the index itself where each
/// character is one byte, and else by way of the checkpoint before it. Cost: at most 255 characters are passed.
pub fn byte_of(text: &str, count: usize, marks: &[usize], index: usize) -> usize
    requires counted { count ≡ length (chars text.now) }
    requires marked { IsMarked text.now marks.now }
    requires within { index ≤ length (chars text.now) }
    ensures { result ≡ byte_of text.now index }
{
    if text.len() == count {
        return index;
    }
    let mark = marks[index / SPACING];
    text.len() - behind(&text[mark..], index % SPACING).len()
}
