//! The pieces of documents.
ghost use Rattle.std.specs.Prelude.{◌≡◌, ◌≤◌, IfOk, chars, length};
ghost use Rattle.checkpoint.specs.Reading.{text_fits};
ghost use Rattle.checkpoint.specs.Runs.{IsReadAs};

use crate::bounds::LONGEST_TEXT;
use crate::so_far::{SoFar, is_start};
use char_documents::{Doc, DocFault};
use entry_bytes::Entry;
use mark_base::{Memory, Slug, Text, char_count};
use std::alloc::Global;

/// Whether a document of this name and text can follow.
fn text_fits(so_far: &SoFar, name: &Slug, text: &Text) -> bool
    ensures { result ≡ text_fits so_far.now name.now text.now }
{
    let count = char_count(text.text());
    let wanted = is_start(&so_far.part) && 0 < so_far.texts;
    let new = !so_far.state.is_there(name);
    let short = count <= LONGEST_TEXT;
    let room = count <= so_far.room;
    wanted && new && short && room
}

/// The document of a text of at most 200,000 characters.
fn doc_of(alloc: Global, text: &Text) -> Result<Doc, Memory>
    requires { length (chars text.now) ≤ 200000 }
    ensures { IfOk result (λ doc. doc ≡ chars text.now) }
{
    match Doc::new(alloc, text.text()) {
        Ok(doc) => Ok(doc),
        Err(DocFault::Memory) => Err(Memory),
        Err(DocFault::TooLong) => unreachable!(),
    }
}

/// Reads the piece of a document of this name and text.
pub(crate) fn read_text(
    alloc: Global,
    so_far: SoFar,
    name: &Slug,
    text: &Text,
) -> Result<Option<SoFar>, Memory>
    ensures { IfOk result (IsReadAs so_far (Entry.Document name.now text.now)) }
{
    if !text_fits(&so_far, name, text) {
        return Ok(None);
    }
    let SoFar {
        mut state,
        texts,
        room,
        shots,
        part,
    } = so_far;
    let room = room - char_count(text.text());
    let doc = doc_of(alloc, text)?;
    state.add_text(alloc, name.copy()?, doc)?;
    Ok(Some(SoFar {
        state,
        texts: texts - 1,
        room,
        shots,
        part,
    }))
}
