//! An answer and its bytes.
ghost use Rattle.std.specs.Prelude.{◌≡◌, ◌++◌, IfOk, OnOk, decimal, length};
ghost use Rattle.http.specs.StatusCode.{IsStatusCode};
ghost use Rattle.http_wire.specs.Answers.{answer_bytes_to, field_line, last_lines, media_text, phrase_of, refusal, status_line};

use http::StatusCode;
use itoa::Buffer;
use mark_base::{Bytes, Memory};
use std::alloc::Global;

/// What the body of an answer is.
#[derive(Clone, Copy, Debug, PartialEq, Eq)]
pub enum Media {
    /// `application/json`
    Json,
    /// `text/plain; charset=utf-8`
    Plain,
    /// `text/csv; charset=utf-8`
    Csv,
}

/// What is answered to a message.
#[derive(Debug, Drop)]
pub struct Answer {
    /// Three digits (RFC 9110, section 15).
    pub status: u16,
    pub media: Media,
    pub body: Bytes,
}

impl Answer {
    /// A refusal, whose body is `{"refused":"NAME"}`. The name is written as it is.
    pub fn refusal(alloc: Global, status: u16, name: &str) -> Result<Self, Memory>
        ensures { IfOk result (λ answer. answer ≡ refusal status name.now) }
    {
        let mut body = Vec::new(alloc);
        push_text(&mut body, "{\"refused\":\"")?;
        push_text(&mut body, name)?;
        push_text(&mut body, "\"}")?;
        Ok(Answer {
            status,
            media: Media::Json,
            body: Bytes::from_vec(body),
        })
    }
}

/// The media type's name.
fn media_name(media: Media) -> &'static str
    ensures { result.now ≡ media_text media }
{
    match media {
        Media::Json => "application/json",
        Media::Plain => "text/plain; charset=utf-8",
        Media::Csv => "text/csv; charset=utf-8",
    }
}

/// The phrase of a status, which is empty for one that has none.
#[tactic(auto, unfolding(crate::specs::Answers::phrase_of))]
fn phrase(status: u16) -> &'static str
    requires { IsStatusCode status }
    ensures { result.now ≡ phrase_of status }
{
    match StatusCode::from_u16(status) {
        Ok(code) => match code.canonical_reason() {
            Some(phrase) => phrase,
            None => "",
        },
        Err(_) => unreachable!(),
    }
}

/// The end of the lines before the body.
fn ending(last: bool) -> &'static str
    ensures { result.now ≡ last_lines last }
{
    if last {
        "Connection: close\r\n\r\n"
    } else {
        "\r\n"
    }
}

/// Appends a text.
fn push_text(bytes: &mut Vec<u8>, text: &str) -> Result<(), Memory>
    ensures { OnOk result (bytes.new.items ≡ bytes.old.items ++ text.now) }
{
    bytes.extend_from_slice(text.as_bytes())?;
    Ok(())
}

/// Appends a field and the end of its line.
#[tactic(auto, unfolding(crate::specs::Answers::field_line))]
fn push_field(bytes: &mut Vec<u8>, name: &str, value: &str) -> Result<(), Memory>
    ensures { OnOk result (bytes.new.items ≡ bytes.old.items ++ field_line name.now value.now) }
{
    push_text(bytes, name)?;
    push_text(bytes, ": ")?;
    push_text(bytes, value)?;
    push_text(bytes, "\r\n")?;
    Ok(())
}

/// Appends a field whose value is a number.
fn push_number(bytes: &mut Vec<u8>, name: &str, number: u64) -> Result<(), Memory>
    ensures { OnOk result (bytes.new.items ≡ bytes.old.items ++ field_line name.now (decimal number)) }
{
    let mut buffer = Buffer::new();
    push_field(bytes, name, buffer.format(number))
}

/// Appends the first line.
#[tactic(auto, unfolding(crate::specs::Answers::status_line))]
fn push_status(bytes: &mut Vec<u8>, status: u16) -> Result<(), Memory>
    requires { IsStatusCode status }
    ensures { OnOk result (bytes.new.items ≡ bytes.old.items ++ status_line status) }
{
    let mut buffer = Buffer::new();
    push_text(bytes, "HTTP/1.1 ")?;
    push_text(bytes, buffer.format(status))?;
    push_text(bytes, " ")?;
    push_text(bytes, phrase(status))?;
    push_text(bytes, "\r\n")?;
    Ok(())
}

/// The bytes of an answer: the status line, `Content-Type`, `Content-Length`, `Place`, then
/// `Connection: close` where the answer is the last of its connection, an empty line and the body.
/// `place` is the place of the project's history that the answer speaks of, from 1. A `bodiless` answer, as one to
/// HEAD is, has the same lines and ends behind the empty one (RFC 9110, section 9.3.2).
/// Cost: the bytes of the body.
pub fn answer_bytes(
    alloc: Global,
    answer: &Answer,
    place: u64,
    last: bool,
    bodiless: bool,
) -> Result<Bytes, Memory>
    requires { IsStatusCode answer.now.status }
    ensures { IfOk result (λ bytes. bytes ≡ answer_bytes_to bodiless answer.now place last) }
{
    let body = answer.body.items();
    let mut bytes = Vec::new(alloc);
    push_status(&mut bytes, answer.status)?;
    push_field(&mut bytes, "Content-Type", media_name(answer.media))?;
    push_number(&mut bytes, "Content-Length", body.len() as u64)?;
    push_number(&mut bytes, "Place", place)?;
    push_text(&mut bytes, ending(last))?;
    if bodiless {
        return Ok(Bytes::from_vec(bytes));
    }
    bytes.extend_from_slice(body)?;
    Ok(Bytes::from_vec(bytes))
}
