//! The texts of T lines against the reference texts.
ghost use Rattle.std.specs.Prelude.{◌≡◌, ◌==◌, true, false, None, bytes_eq, chars, map, is_some, IfOk, IfSome, if◌then◌else◌};
ghost use Rattle.std.specs.List.{common_prefix_len, list_any};
ghost use Rattle.char_documents.specs.Texts.{all_lie_in, covered, reference_text};
ghost use Rattle.ann_reader.specs.AnnFaults.{as_space, differing, text_differs};
ghost use Rattle.ann_reader.specs.FormShows.{seen_form};
ghost use Rattle.ann_reader.specs.PlainTexts.{IsPlain};

use crate::line::has_byte;
use crate::line_form::Form;
use char_documents::{Doc, RefFault};
use mark_base::{Frag, Memory};
use std::alloc::{AllocError, Global};

/// A carriage return as a space, and any other character as it stands.
fn as_space(c: char) -> char
    ensures { result ≡ as_space c }
{
    if c == '\r' { ' ' } else { c }
}

/// The characters of the text of a line, each carriage return as a space.
fn spaced(alloc: Global, text: &str) -> Result<Vec<char>, AllocError>
    ensures { IfOk result (λ shown. shown.items ≡ map as_space (chars text.now)) }
{
    text.chars().map(|c| as_space(c)).collect(alloc)
}

/// The characters of a text.
fn characters(alloc: Global, text: &str) -> Result<Vec<char>, AllocError>
    ensures { IfOk result (λ characters. characters.items ≡ chars text.now) }
{
    text.chars().collect(alloc)
}

/// Whether two texts have the same characters.
fn same_characters(a: &[char], b: &[char]) -> bool
    ensures { result ≡ bytes_eq a.now b.now }
{
    a == b
}

/// How many characters two texts begin with in common.
fn common_len(a: &[char], b: &[char]) -> usize
    ensures { result ≡ common_prefix_len (λ x y. x == y) a.now b.now }
{
    let mut place: usize = 0;
    while place < a.len() && place < b.len() && a[place] == b[place] {
        place += 1;
    }
    place
}

/// The first place at which two texts differ, the end of the shorter one where it is a front of the other.
fn differing(a: &[char], b: &[char]) -> Option<u32>
    ensures { result ≡ differing a.now b.now }
{
    if same_characters(a, b) {
        None
    } else {
        Some(common_len(a, b).min(4_294_967_295) as u32)
    }
}

/// The characters of the reference text of fragments, where they lie in the text.
fn reference_characters(
    alloc: Global,
    doc: &Doc,
    frags: &[Frag],
) -> Result<Option<Vec<char>>, Memory>
    ensures within { IfOk result (λ wanted. is_some wanted ≡ all_lie_in doc.now frags.now) }
    ensures value { IfOk result (λ wanted. IfSome wanted (λ list. list.items ≡ reference_text doc.now frags.now)) }
{
    // The characters of a text of UTF-8 are scalar values, so those of its parts are read back from their bytes.
    let _whole = doc.text();
    match doc.reference(frags) {
        Ok(reference) => Ok(Some(characters(alloc, reference.text())?)),
        Err(RefFault::OutOfText) => Ok(None),
        Err(RefFault::Memory) => Err(Memory),
    }
}

/// The bytes of a document of ASCII, which are its characters.
pub(crate) fn plain_text(doc: &Doc) -> Option<&[u8]>
    ensures { IfSome result (λ bytes. IsPlain doc.now bytes.now) }
{
    let text = doc.text();
    if text.is_ascii() {
        Some(text.as_bytes())
    } else {
        None
    }
}

/// Whether a text is what a fragment covers of some bytes, and no line feed stands in it.
fn is_covered(plain: &[u8], frag: Frag, text: &[u8]) -> bool
    ensures same { result ≡ true → text.now ≡ covered plain.now frag }
    ensures no_line_feed { result ≡ true → list_any (λ b. b == 10) text.now ≡ false }
{
    let start = frag.start as usize;
    let end = frag.end as usize;
    if start > end || end > plain.len() {
        return false;
    }
    &plain[start..end] == text && !has_byte(text, b'\n')
}

/// Whether a text is what its one fragment covers of a document of ASCII. Where it is, it is the reference text, which
/// need not be made.
fn is_plainly_shown(doc: &Doc, plain: Option<&[u8]>, frags: &[Frag], text: &str) -> bool
    requires { IfSome plain (λ bytes. IsPlain doc.now bytes.now) }
    ensures { result ≡ true → differing (map as_space (chars text.now)) (reference_text doc.now frags.now) ≡ None }
{
    let _ = doc;
    match plain {
        Some(bytes) => match frags {
            [frag] => is_covered(bytes, *frag, text.as_bytes()),
            _ => false,
        },
        None => false,
    }
}

/// The first place, in characters, at which a text is not the reference text of fragments.
fn differs(
    alloc: Global,
    doc: &Doc,
    plain: Option<&[u8]>,
    frags: &[Frag],
    text: &str,
) -> Result<Option<u32>, Memory>
    requires { IfSome plain (λ bytes. IsPlain doc.now bytes.now) }
    ensures { IfOk result (λ place. place ≡ (if all_lie_in doc.now frags.now then differing (map as_space (chars text.now)) (reference_text doc.now frags.now) else None)) }
{
    if is_plainly_shown(doc, plain, frags, text) {
        return Ok(None);
    }
    match reference_characters(alloc, doc, frags)? {
        Some(wanted) => {
            let shown = spaced(alloc, text)?;
            Ok(differing(&shown, &wanted))
        }
        None => Ok(None),
    }
}

/// The first place at which the text of a T line is not the reference text of its fragments. Cost: the line.
pub(crate) fn text_differs(
    alloc: Global,
    doc: &Doc,
    plain: Option<&[u8]>,
    form: &Form,
) -> Result<Option<u32>, Memory>
    requires { IfSome plain (λ bytes. IsPlain doc.now bytes.now) }
    ensures { IfOk result (λ place. place ≡ text_differs doc.now (seen_form form.now)) }
{
    match form {
        Form::Text { frags, text, .. } => differs(alloc, doc, plain, frags, text),
        _ => Ok(None),
    }
}
