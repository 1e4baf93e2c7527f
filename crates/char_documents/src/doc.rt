//! A document.
ghost use Rattle.std.specs.Prelude.{◌≡◌, ◌≤◌, ◌<◌, ◌++◌, chars, length, map, string_bytes, encode_utf8_all, IfOk, IfErr, IfSome, OnOk, is_some, true, false};
ghost use Rattle.char_documents.specs.Texts.{all_lie_in, covered, lies_in, reference_text, separator, shown};
ghost use Rattle.char_documents.specs.Tokens.{tokens_of};

use crate::checkpoints::{byte_of, checkpoints};
use crate::tokens::tokens;
use mark_base::{Frag, Memory, Text, char_count};
use std::alloc::{AllocError, Global};
use std::marker::Model;

/// The characters of the longest text.
const LONGEST_TEXT: usize = 200_000;

/// Why a text is no document.
#[derive(Clone, Copy, Debug, PartialEq, Eq)]
pub enum DocFault {
    /// The text has more than 200,000 characters.
    TooLong,
    /// Memory ran out.
    Memory,
}

/// Why fragments have no reference text.
#[derive(Clone, Copy, Debug, PartialEq, Eq)]
pub enum RefFault {
    /// A fragment starts behind its end, or ends behind the text.
    OutOfText,
    /// Memory ran out.
    Memory,
}

impl From<Memory> for DocFault {
    ghost use Rattle.std.specs.Prelude.{◌≡◌};
    ghost use Rattle.char_documents.specs.declared.doc.DocFault.{DocFault};

    ghost from_gives = { λ _ fault. fault ≡ DocFault.Memory };

    fn from(_: Memory) -> Self {
        DocFault::Memory
    }
}

impl From<AllocError> for DocFault {
    ghost use Rattle.std.specs.Prelude.{◌≡◌};
    ghost use Rattle.char_documents.specs.declared.doc.DocFault.{DocFault};

    ghost from_gives = { λ _ fault. fault ≡ DocFault.Memory };

    fn from(_: AllocError) -> Self {
        DocFault::Memory
    }
}

impl From<AllocError> for RefFault {
    ghost use Rattle.std.specs.Prelude.{◌≡◌};
    ghost use Rattle.char_documents.specs.declared.doc.RefFault.{RefFault};

    ghost from_gives = { λ _ fault. fault ≡ RefFault.Memory };

    fn from(_: AllocError) -> Self {
        RefFault::Memory
    }
}

/// The text of a document, which never changes. Contracts see it as the list of its characters.
#[derive(Debug, Drop)]
pub struct Doc {
    text: String,
    count: u32,
    marks: Vec<usize>,
    tokens: Vec<Frag>,
}

impl Model for Doc {
    ghost use Rattle.std.specs.Prelude.{List, ℕ, string_bytes, chars};
    ghost use Rattle.char_documents.specs.Documents.{IsDocument};

    ghost Value = { List ℕ };

    ghost view = { λ doc. chars (string_bytes doc.text) };

    ghost invariant = { λ doc. IsDocument (string_bytes doc.text) doc.count doc.marks.items doc.tokens.items };
}

/// A character as a reference text shows it: a line end is a space.
fn shown(c: char) -> char
    ensures { result ≡ shown c }
{
    match c {
        '\n' | '\r' => ' ',
        _ => c,
    }
}

/// A piece as a reference text shows it.
fn shown_text(alloc: Global, piece: &str) -> Result<String, AllocError>
    ensures { IfOk result (λ text. string_bytes text ≡ encode_utf8_all (map shown (chars piece.now))) }
{
    piece.chars().map(|c| shown(c)).collect(alloc)
}

/// Appends what stands before the piece of this place: nothing before the first, else a space.
fn push_separator(text: &mut String, place: usize) -> Result<(), AllocError>
    ensures { OnOk result (string_bytes text.new ≡ string_bytes text.old ++ separator place) }
{
    if place > 0 {
        text.push(' ')?;
    }
    Ok(())
}

impl Doc {
    /// The document of this text. Cost: the length of the text.
    pub fn new(alloc: Global, text: &str) -> Result<Doc, DocFault>
        ensures characters { IfOk result (λ doc. doc ≡ chars text.now) }
        ensures short { OnOk result (length (chars text.now) ≤ 200000) }
        ensures long { IfErr result (λ fault. fault ≡ DocFault.TooLong → 200000 < length (chars text.now)) }
    {
        let count = char_count(text);
        if count > LONGEST_TEXT {
            return Err(DocFault::TooLong);
        }
        let marks = checkpoints(alloc, text, count)?;
        let tokens = tokens(alloc, text)?;
        let text = String::from_str(alloc, text)?;
        Ok(Doc {
            text,
            count: count as u32,
            marks,
            tokens,
        })
    }

    /// How many characters the text has, at most 200,000.
    pub fn char_count(&self) -> u32
        ensures value { result ≡ length self.now }
        ensures bound { length self.now ≤ 200000 }
    {
        self.count
    }

    /// The text.
    pub fn text(&self) -> &str
        ensures bytes { result.now ≡ encode_utf8_all self.now }
        ensures characters { chars result.now ≡ self.now }
    {
        self.text.as_str()
    }

    /// The tokens of the text, in order: the maximal runs of characters that are not white space.
    pub fn tokens(&self) -> &[Frag]
        ensures { result.now ≡ tokens_of self.now }
    {
        self.tokens.as_slice()
    }

    /// What a fragment covers, or `None` where it starts behind its end or ends behind the text.
    /// Cost: at most 255 characters are passed for each end, whatever the length of the text, and none where each
    /// character of the text is one byte.
    pub fn slice(&self, frag: Frag) -> Option<&str>
        ensures within { is_some result ≡ lies_in self.now frag }
        ensures bytes { IfSome result (λ piece. piece.now ≡ encode_utf8_all (covered self.now frag)) }
        ensures characters { IfSome result (λ piece. chars piece.now ≡ covered self.now frag) }
    {
        if frag.start > frag.end || frag.end > self.count {
            return None;
        }
        let text = self.text.as_str();
        let count = self.count as usize;
        let start = byte_of(text, count, &self.marks, frag.start as usize);
        let end = byte_of(text, count, &self.marks, frag.end as usize);
        Some(&text[start..end])
    }

    /// The reference text of fragments: what each covers, with every line feed and carriage return as
    /// a space, and one space between each two. Cost: what they cover.
    pub fn reference(&self, frags: &[Frag]) -> Result<Text, RefFault>
        ensures text { IfOk result (λ text. text ≡ encode_utf8_all (reference_text self.now frags.now)) }
        ensures within { OnOk result (all_lie_in self.now frags.now ≡ true) }
        ensures out { IfErr result (λ fault. fault ≡ RefFault.OutOfText → all_lie_in self.now frags.now ≡ false) }
    {
        let alloc = *self.text.allocator();
        let mut text = String::new(alloc);
        for (place, frag) in frags.iter().enumerate() {
            let Some(piece) = self.slice(*frag) else {
                return Err(RefFault::OutOfText);
            };
            push_separator(&mut text, place)?;
            text.push_str(shown_text(alloc, piece)?.as_str())?;
        }
        Ok(Text::from_string(text))
    }
}
