//! The tokens of a document as texts.
ghost use Rattle.std.specs.Prelude.{◌≡◌, ◌≤◌, ◌-◌, length, map, chars, drop, take, encode_utf8_all, IfOk};
ghost use Rattle.char_documents.specs.Tokens.{tokens_of};
ghost use Rattle.token_columns.specs.Columns.{token_text};

use char_documents::Doc;
use mark_base::{Frag, Memory};
use std::alloc::Global;

/// What stands behind the first characters of a text. Cost: their number.
fn behind(text: &str, count: usize) -> &str
    requires { count ≤ length (chars text.now) }
    ensures bytes { result.now ≡ encode_utf8_all (drop count (chars text.now)) }
    ensures characters { chars result.now ≡ drop count (chars text.now) }
{
    let mut rest = text.chars();
    for _ in 0..count {
        rest.next();
    }
    rest.as_str()
}

/// The first characters of a text. Cost: their number.
fn front(text: &str, count: usize) -> &str
    requires { count ≤ length (chars text.now) }
    ensures { result.now ≡ encode_utf8_all (take count (chars text.now)) }
{
    let rest = behind(text, count);
    &text[..text.len() - rest.len()]
}

/// The texts of the tokens of a document, in one pass over it.
pub(crate) fn token_texts(alloc: Global, doc: &Doc) -> Result<Vec<&str>, Memory>
    ensures { IfOk result (λ texts. map (λ text. text.now) texts.items ≡ map (token_text doc.now) (tokens_of doc.now)) }
{
    let _characters = doc.char_count();
    let mut texts = Vec::new(alloc);
    let mut rest = doc.text();
    let mut place: usize = 0;
    for token in doc.tokens() {
        let start = token.start as usize;
        let end = token.end as usize;
        rest = behind(rest, start - place);
        texts.push(front(rest, end - start))?;
        place = start;
    }
    Ok(texts)
}
