//! The lines of an .ann file, and the fields of a line.
ghost use Rattle.std.specs.Prelude.{◌≡◌, ◌≤◌, ◌<◌, ◌-◌, ◌==◌, ◌++◌, [], ◌∷◌, length, map, take, drop, slice_index, IfOk, OnOk, MatchOption};
ghost use Rattle.std.specs.List.{before_first, after_first, list_any, position_or_len, suffix_len};
ghost use Rattle.ann_reader.specs.Lines.{is_blank, lines_from, lines_of, is_gap, without_gap, without_return, without_end};
ghost use Rattle.ann_reader.specs.LineShows.{seen_line};

use mark_base::Memory;
use std::alloc::Global;

/// A line by its number, from 1, and its text without the line feed.
#[derive(Drop)]
pub(crate) struct Line<'a> {
    pub number: u32,
    pub text: &'a str,
}

/// Whether there are only spaces, TABs and carriage returns.
fn is_blank(bytes: &[u8]) -> bool
    ensures { result ≡ is_blank bytes.now }
{
    bytes
        .iter()
        .all(|byte| *byte == b' ' || *byte == b'\t' || *byte == b'\r')
}

/// Keeps a line that is not blank.
fn keep_line<'a>(lines: &mut Vec<Line<'a>>, number: u32, text: &'a str) -> Result<(), Memory>
    ensures { OnOk result (map seen_line lines.new.items ≡ map seen_line lines.old.items ++ lines_from number (text.now ∷ [])) }
{
    if !is_blank(text.as_bytes()) {
        lines.push(Line { number, text })?;
    }
    Ok(())
}

/// The lines of a text that are not blank. Cost: the text.
pub(crate) fn lines(alloc: Global, text: &str) -> Result<Vec<Line>, Memory>
    requires { length text.now ≤ 16777216 }
    ensures { IfOk result (λ lines. map seen_line lines.items ≡ lines_of text.now) }
{
    let mut lines = Vec::new(alloc);
    let mut number: u32 = 1;
    let mut rest = text;
    loop {
        let end = place_of(rest.as_bytes(), b'\n');
        keep_line(&mut lines, number, front(rest, end))?;
        if end >= rest.len() {
            return Ok(lines);
        }
        number += 1;
        rest = back(rest, end + 1);
    }
}

/// The front of a text, up to an ASCII character or its end.
pub(crate) fn front(text: &str, end: usize) -> &str
    requires within { end ≤ length text.now }
    requires ascii { end < length text.now → slice_index text.now end < 128 }
    ensures { result.now ≡ take end text.now }
{
    &text[..end]
}

/// The rest of a text behind its start or an ASCII character.
pub(crate) fn back(text: &str, start: usize) -> &str
    requires within { start ≤ length text.now }
    requires ascii { 0 < start → slice_index text.now (start - 1) < 128 }
    ensures { result.now ≡ drop start text.now }
{
    &text[start..]
}

/// The place of the first such byte, or the length.
pub(crate) fn place_of(bytes: &[u8], wanted: u8) -> usize
    ensures value { result ≡ position_or_len (λ b. b == wanted) bytes.now }
    ensures within { result ≤ length bytes.now }
    ensures found { result < length bytes.now → slice_index bytes.now result ≡ wanted }
{
    for (place, byte) in bytes.iter().enumerate() {
        if *byte == wanted {
            return place;
        }
    }
    bytes.len()
}

/// Whether a byte stands in a text.
pub(crate) fn has_byte(bytes: &[u8], wanted: u8) -> bool
    ensures { result ≡ list_any (λ b. b == wanted) bytes.now }
{
    bytes.iter().any(|byte| *byte == wanted)
}

/// What stands before the first such ASCII character, or all where there is none.
pub(crate) fn before(text: &str, wanted: u8) -> &str
    requires { wanted < 128 }
    ensures { result.now ≡ before_first (λ b. b == wanted) text.now }
{
    front(text, place_of(text.as_bytes(), wanted))
}

/// What stands behind the first such ASCII character, or nothing where there is none.
pub(crate) fn behind(text: &str, wanted: u8) -> &str
    requires { wanted < 128 }
    ensures { result.now ≡ after_first (λ b. b == wanted) text.now }
{
    let place = place_of(text.as_bytes(), wanted);
    if place < text.len() {
        back(text, place + 1)
    } else {
        ""
    }
}

/// What stands before the first such ASCII character and what stands behind it, where there is one. Cost: what stands
/// before it.
pub(crate) fn cut(text: &str, wanted: u8) -> Option<(&str, &str)>
    requires { wanted < 128 }
    ensures { MatchOption result (position_or_len (λ b. b == wanted) text.now ≡ length text.now)
        (λ parts. (position_or_len (λ b. b == wanted) text.now < length text.now)
        × (parts.0.now ≡ before_first (λ b. b == wanted) text.now) × (parts.1.now ≡ after_first (λ b. b == wanted) text.now)) }
{
    let place = place_of(text.as_bytes(), wanted);
    if place < text.len() {
        Some((front(text, place), back(text, place + 1)))
    } else {
        None
    }
}

/// The length without the spaces and TABs at the end.
fn gap_start(bytes: &[u8]) -> usize
    ensures value { result ≡ length bytes.now - suffix_len is_gap bytes.now }
    ensures within { result ≤ length bytes.now }
    ensures ascii { result < length bytes.now → slice_index bytes.now result < 128 }
{
    let mut end = bytes.len();
    while end > 0 && (bytes[end - 1] == b' ' || bytes[end - 1] == b'\t') {
        end -= 1;
    }
    end
}

/// A text without the spaces and TABs at its end.
fn without_gap(text: &str) -> &str
    ensures { result.now ≡ without_gap text.now }
{
    front(text, gap_start(text.as_bytes()))
}

/// A text without one carriage return at its end.
pub(crate) fn without_return(text: &str) -> &str
    ensures { result.now ≡ without_return text.now }
{
    let bytes = text.as_bytes();
    if bytes.is_empty() || bytes[bytes.len() - 1] != b'\r' {
        return text;
    }
    front(text, bytes.len() - 1)
}

/// A text without the spaces and TABs at its end, and at most one carriage return among them.
pub(crate) fn without_end(text: &str) -> &str
    ensures { result.now ≡ without_end text.now }
{
    without_gap(without_return(without_gap(text)))
}
