//! The words of a field, and how fragments are spelt.
ghost use Rattle.std.specs.Prelude.{◌≡◌, ◌≤◌, ◌<◌, ◌-◌, ◌==◌, map, length, drop, slice_index, IfOk, option_map};
ghost use Rattle.std.specs.List.{slice_split, prefix_len};
ghost use Rattle.mark_base.specs.AnnIds.{number_read};
ghost use Rattle.ann_reader.specs.Words.{is_space, is_padded, words_of, frag_of, frag_read, all_of};
ghost use Rattle.ann_reader.specs.LineForms.{frags_read};

use crate::line::{back, cut};
use mark_base::{Frag, Memory, number_read, split_fragments};
use std::alloc::{AllocError, Global};

/// Whether a space stands before the first word or behind the last.
pub(crate) fn is_padded(bytes: &[u8]) -> bool
    ensures { result ≡ is_padded bytes.now }
{
    match bytes {
        [] => false,
        [first, ..] => *first == b' ' || bytes[bytes.len() - 1] == b' ',
    }
}

/// What spaces separate.
fn split_words(alloc: Global, text: &str) -> Result<Vec<&str>, AllocError>
    ensures { IfOk result (λ words. map (λ word. word.now) words.items ≡ slice_split is_space text.now) }
{
    text.split(' ').collect(alloc)
}

/// The words of a field, none where a space stands before the first or behind the last. Cost: the field.
pub(crate) fn words(alloc: Global, field: &str) -> Result<Vec<&str>, Memory>
    ensures { IfOk result (λ words. map (λ word. word.now) words.items ≡ words_of field.now) }
{
    let mut words = Vec::new(alloc);
    if is_padded(field.as_bytes()) {
        return Ok(words);
    }
    let pieces = split_words(alloc, field)?;
    for piece in &pieces {
        if !piece.is_empty() {
            words.push(*piece)?;
        }
    }
    Ok(words)
}

/// How many spaces stand at the start.
fn spaces_before(bytes: &[u8]) -> usize
    ensures value { result ≡ prefix_len is_space bytes.now }
    ensures within { result ≤ length bytes.now }
    ensures ascii { 0 < result → slice_index bytes.now (result - 1) < 128 }
{
    for (place, byte) in bytes.iter().enumerate() {
        if *byte != b' ' {
            return place;
        }
    }
    bytes.len()
}

/// A text without the spaces at its start.
pub(crate) fn without_spaces(text: &str) -> &str
    ensures { result.now ≡ drop (prefix_len is_space text.now) text.now }
{
    back(text, spaces_before(text.as_bytes()))
}

/// The first byte, or 0 where there is none.
pub(crate) fn first_byte(bytes: &[u8]) -> u8
    ensures { result ≡ slice_index bytes.now 0 }
{
    match bytes {
        [] => 0,
        [first, ..] => *first,
    }
}

/// The fragment of two words.
fn frag_of(start: &str, end: &str) -> Option<Frag>
    ensures { result ≡ frag_of (number_read start.now) (number_read end.now) }
{
    let start = number_read(start.as_bytes())?;
    let end = number_read(end.as_bytes())?;
    Some(Frag { start, end })
}

/// The fragment that a piece spells, which is two words. Cost: the piece.
fn frag_read(piece: &str) -> Option<Frag>
    ensures { result ≡ frag_read (words_of piece.now) }
{
    if is_padded(piece.as_bytes()) {
        return None;
    }
    match cut(piece, b' ') {
        Some((start, rest)) => frag_of(start, without_spaces(rest)),
        None => None,
    }
}

/// The fragments that pieces spell, where each spells one.
fn all_frags(alloc: Global, pieces: &[&str]) -> Result<Option<Vec<Frag>>, Memory>
    ensures { IfOk result (λ frags. option_map (λ list. list.items) frags ≡ all_of (map (λ piece. frag_read (words_of piece)) (map (λ piece. piece.now) pieces.now))) }
{
    let mut frags = Vec::new(alloc);
    for piece in pieces {
        match frag_read(piece) {
            Some(frag) => frags.push(frag)?,
            None => return Ok(None),
        }
    }
    Ok(Some(frags))
}

/// The fragments that `;` separates, each a start and an end. Cost: the text.
pub(crate) fn frags_read(alloc: Global, text: &str) -> Result<Option<Vec<Frag>>, Memory>
    ensures { IfOk result (λ frags. option_map (λ list. list.items) frags ≡ frags_read text.now) }
{
    let pieces = split_fragments(alloc, text)?;
    all_frags(alloc, &pieces)
}
