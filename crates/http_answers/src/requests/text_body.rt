//! The body that is the text of a document.
ghost use Rattle.std.specs.Prelude.{◌≡◌, chars, IfErr, IfOk, Ok};
ghost use Rattle.http_answers.specs.Requests.Bodies.{IsFault, short_enough, text_body};

use crate::requests::body_fault::BodyFault;
use char_documents::{Doc, DocFault};
use std::alloc::Global;

/// The document of a text.
fn document_of(alloc: Global, text: &str) -> Result<Doc, BodyFault>
    ensures text { IfOk result (λ doc. short_enough (chars text.now) ≡ Ok doc) }
    ensures fault { IfErr result (IsFault (short_enough (chars text.now))) }
{
    match Doc::new(alloc, text) {
        Ok(doc) => Ok(doc),
        Err(DocFault::TooLong) => Err(BodyFault::TextTooLong),
        Err(DocFault::Memory) => Err(BodyFault::Memory),
    }
}

/// The document that a body is.
pub(crate) fn text_body(alloc: Global, body: &[u8]) -> Result<Doc, BodyFault>
    ensures text { IfOk result (λ doc. text_body body.now ≡ Ok doc) }
    ensures fault { IfErr result (IsFault (text_body body.now)) }
{
    match str::from_utf8(body) {
        Ok(text) => document_of(alloc, text),
        Err(_) => Err(BodyFault::BadBody),
    }
}
