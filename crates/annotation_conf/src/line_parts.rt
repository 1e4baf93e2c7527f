//! The characters of a line, and parts of them.
ghost use Rattle.std.specs.Prelude.{◌≡◌, ◌≤◌, ◌==◌, ◌||◌, length, drop, take, slice_index, bytes_eq, not, true, false, IfOk, MatchOption, encode_utf8_all, map};
ghost use Rattle.std.specs.Char.{is_whitespace};
ghost use Rattle.std.specs.Str.{chars, skip_leading_whitespace};
ghost use Rattle.std.specs.Str.Lines.{lines};
ghost use Rattle.std.specs.List.{before_first, after_first, position, position_or_len, slice_split};
ghost use Rattle.conf_model.specs.ConfLines.{is_enclosed, enclosed};
ghost use Rattle.conf_model.specs.ConfPairs.{begins_mark};

use mark_base::{Memory, Text};
use std::alloc::{AllocError, Global};

/// The lines of a text.
pub fn split_lines(alloc: Global, text: &str) -> Result<Vec<&str>, AllocError>
    ensures { IfOk result (λ split. map (λ line. line.now) split.items ≡ lines text.now) }
{
    text.lines().collect(alloc)
}

/// The characters of a text.
pub fn characters(alloc: Global, text: &str) -> Result<Vec<char>, AllocError>
    ensures { IfOk result (λ characters. characters.items ≡ chars text.now) }
{
    text.chars().collect(alloc)
}

/// The text of some characters.
pub fn encoded(alloc: Global, characters: &[char]) -> Result<Text, Memory>
    ensures { IfOk result (λ text. text ≡ encode_utf8_all characters.now) }
{
    let text: String = characters.iter().copied().collect(alloc)?;
    Ok(Text::from_string(text))
}

/// A copy of some characters.
pub fn copied(alloc: Global, characters: &[char]) -> Result<Vec<char>, Memory>
    ensures { IfOk result (λ copy. copy.items ≡ characters.now) }
{
    Ok(Vec::from_slice(alloc, characters)?)
}

/// Whether these characters spell a word of ASCII.
pub fn spells(characters: &[char], word: &str) -> bool
    ensures { result ≡ bytes_eq characters.now word.now }
{
    let bytes = word.as_bytes();
    if characters.len() != bytes.len() {
        return false;
    }
    for (place, character) in characters.iter().enumerate() {
        if *character as u32 != bytes[place] as u32 {
            return false;
        }
    }
    true
}

/// The place of the first such character.
fn find_character(characters: &[char], wanted: char) -> Option<usize>
    ensures { result ≡ position (λ c. c == wanted) characters.now }
{
    characters.iter().position(|c| *c == wanted)
}

/// The place of the first such character, or the length.
pub fn place_of(characters: &[char], wanted: char) -> usize
    ensures { result ≡ position_or_len (λ c. c == wanted) characters.now }
{
    match find_character(characters, wanted) {
        Some(place) => place,
        None => characters.len(),
    }
}

/// The place of the first character that is no TAB.
fn find_indented(characters: &[char]) -> Option<usize>
    ensures { result ≡ position (λ c. not (c == 9)) characters.now }
{
    characters.iter().position(|c| *c != '\t')
}

/// How many TABs stand before other characters.
pub fn tabs_before(characters: &[char]) -> usize
    ensures count { result ≡ position_or_len (λ c. not (c == 9)) characters.now }
    ensures within { result ≤ length characters.now }
{
    match find_indented(characters) {
        Some(place) => place,
        None => characters.len(),
    }
}

/// The place of the first white space.
fn find_white(characters: &[char]) -> Option<usize>
    ensures { result ≡ position is_whitespace characters.now }
{
    characters.iter().position(|c| c.is_whitespace())
}

/// The place of the first white space, or the length.
pub fn name_end(characters: &[char]) -> usize
    ensures { result ≡ position_or_len is_whitespace characters.now }
{
    match find_white(characters) {
        Some(place) => place,
        None => characters.len(),
    }
}

/// Whether a mark begins with this character.
fn begins_mark(character: char) -> bool
    ensures { result ≡ begins_mark character }
{
    character == '?' || character == '*' || character == '+' || character == '{'
}

/// The place where a mark begins.
fn find_mark(characters: &[char]) -> Option<usize>
    ensures { result ≡ position begins_mark characters.now }
{
    characters.iter().position(|c| begins_mark(*c))
}

/// The place where a mark begins, or the length.
pub fn mark_start(characters: &[char]) -> usize
    ensures { result ≡ position_or_len begins_mark characters.now }
{
    match find_mark(characters) {
        Some(place) => place,
        None => characters.len(),
    }
}

/// The place of the first character that is no white space.
fn find_word(characters: &[char]) -> Option<usize>
    ensures { result ≡ position (λ c. not (is_whitespace c)) characters.now }
{
    characters.iter().position(|c| !c.is_whitespace())
}

/// The characters without the white space before them.
pub fn trimmed(characters: &[char]) -> &[char]
    ensures { result.now ≡ skip_leading_whitespace characters.now }
{
    match find_word(characters) {
        Some(place) => &characters[place..],
        None => &[],
    }
}

/// The characters before and after the first such character.
pub fn cut_at(characters: &[char], wanted: char) -> (&[char], &[char])
    ensures before { result.0.now ≡ before_first (λ c. c == wanted) characters.now }
    ensures after { result.1.now ≡ after_first (λ c. c == wanted) characters.now }
{
    let place = place_of(characters, wanted);
    if place < characters.len() {
        (&characters[..place], &characters[place + 1..])
    } else {
        (characters, &[])
    }
}

/// The characters between these two, where they begin and end so.
pub fn enclosed(characters: &[char], opens: char, closes: char) -> Option<&[char]>
    ensures { MatchOption result (is_enclosed opens closes characters.now ≡ false) (λ inside. (is_enclosed opens closes characters.now ≡ true) × (inside.now ≡ enclosed characters.now)) }
{
    if characters.len() < 2 {
        return None;
    }
    let last = characters.len() - 1;
    if characters[0] != opens || characters[last] != closes {
        return None;
    }
    Some(&characters[1..last])
}

/// The parts that such characters separate.
pub fn split_at(
    alloc: Global,
    characters: &[char],
    wanted: char,
) -> Result<Vec<&[char]>, AllocError>
    ensures { IfOk result (λ parts. map (λ part. part.now) parts.items ≡ slice_split (λ c. c == wanted) characters.now) }
{
    characters.split(|c| *c == wanted).collect(alloc)
}
