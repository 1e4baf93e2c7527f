//! The head of a message.
ghost use Rattle.std.specs.Prelude.{◌≡◌, ◌≤◌, ◌==◌, ◌||◌, length, option_map, option_and_then, All, IfOk, IsUtf8};
ghost use Rattle.std.specs.List.{position};
ghost use Rattle.httparse.specs.Spans.{IsHeaderWithin, IsRequestWithin, IsRequestOf, IsWithin, span_bytes};
ghost use Rattle.http_wire.specs.Fields.{text_value};
ghost use Rattle.http_wire.specs.Heads.{CopiesHead, Settles, StepSays};
ghost use Rattle.http_wire.specs.Messages.{path_of, window};

use crate::Stop;
use crate::body_size::body_size;
use crate::fields::{find_value, wants_close};
use httparse::Status;
use httparse::spans::{HeaderSpan, RequestSpans, parse_request};
use mark_base::{Memory, Text};
use std::alloc::Global;

/// How many bytes a head may take, with the empty lines before it.
pub const LONGEST_HEAD: usize = 16_384;

/// More fields than 16,384 bytes can have, at three bytes each. With room for all of them a head that
/// has too many is still read to its end, so that its first fault is told.
pub const FIELD_ROOM: usize = 5_462;

/// The parts of a head, which is the first `len` bytes; `size` bytes of body follow.
#[derive(Debug, Drop)]
pub struct Head {
    pub method: Text,
    pub path: Text,
    pub caller: Option<Text>,
    pub last: bool,
    pub len: usize,
    pub size: usize,
}

/// What the bytes so far begin with.
#[derive(Debug, Drop)]
pub enum HeadStep {
    /// The head of a message.
    Whole(Head),
    /// No head yet, but one may come.
    More,
    /// No message, whatever comes.
    Refused(Stop),
}

/// The bytes that a head may take.
fn front(buf: &[u8]) -> &[u8]
    ensures { result.now ≡ window buf.now }
{
    if buf.len() > LONGEST_HEAD {
        &buf[..LONGEST_HEAD]
    } else {
        buf
    }
}

/// Reads the head at the front of the bytes. Cost: at most 16,384 bytes, whatever is held.
pub fn read_head(alloc: Global, buf: &[u8], spans: &mut [HeaderSpan]) -> Result<HeadStep, Memory>
    requires { length spans.old ≡ 5462 }
    ensures { IfOk result (StepSays buf.now) }
{
    let window = front(buf);
    match parse_request(window, spans) {
        Ok(Status::Complete(found)) => judge_head(alloc, window, spans, found),
        Ok(Status::Partial) => {
            if buf.len() < LONGEST_HEAD {
                Ok(HeadStep::More)
            } else {
                Ok(HeadStep::Refused(Stop::TooLarge))
            }
        }
        Err(_) => Ok(HeadStep::Refused(Stop::BadHead)),
    }
}

/// The place of the first question mark.
fn question_mark(target: &[u8]) -> Option<usize>
    ensures { result ≡ position (λ byte. byte == 63) target.now }
{
    target.iter().position(|byte| *byte == b'?')
}

/// The target up to its question mark.
#[tactic(auto, using(crate::proofs::TextLemmas::before_found, crate::proofs::TextLemmas::before_none))]
fn path(target: &[u8]) -> &[u8]
    ensures { result.now ≡ path_of target.now }
{
    match question_mark(target) {
        Some(end) => &target[..end],
        None => target,
    }
}

/// Copies bytes that are a text.
fn copy_text(alloc: Global, bytes: &[u8]) -> Result<Text, Memory>
    requires { IsUtf8 bytes.now }
    ensures { IfOk result (λ text. text ≡ bytes.now) }
{
    match std::str::from_utf8(bytes) {
        Ok(text) => Text::of(alloc, text),
        Err(_) => unreachable!(),
    }
}

/// Copies the value, where there is one that is a text.
fn copy_value(alloc: Global, value: Option<&[u8]>) -> Result<Option<Text>, Memory>
    ensures { IfOk result (λ copied. copied ≡ option_and_then text_value (option_map (λ v. v.now) value.entry)) }
{
    let Some(value) = value else {
        return Ok(None);
    };
    match std::str::from_utf8(value) {
        Ok(text) => Ok(Some(Text::of(alloc, text)?)),
        Err(_) => Ok(None),
    }
}

/// Judges a whole head, and copies its parts.
fn judge_head(
    alloc: Global,
    buf: &[u8],
    spans: &[HeaderSpan],
    found: RequestSpans,
) -> Result<HeadStep, Memory>
    requires short { length buf.now ≤ 16384 }
    requires within { IsRequestWithin buf.now spans.now found }
    requires head { IsRequestOf buf.now spans.now found }
    ensures { IfOk result (Settles buf.now) }
{
    let fields = &spans[..found.headers];
    match body_size(buf, found.method.of(buf), fields) {
        Ok(size) => Ok(HeadStep::Whole(copy_head(alloc, buf, fields, found, size)?)),
        Err(stop) => Ok(HeadStep::Refused(stop)),
    }
}

/// Copies the parts of a head.
fn copy_head(
    alloc: Global,
    buf: &[u8],
    fields: &[HeaderSpan],
    found: RequestSpans,
    size: usize,
) -> Result<Head, Memory>
    requires method { IsWithin (length buf.now) found.method }
    requires path { IsWithin (length buf.now) found.path }
    requires fields { All (IsHeaderWithin (length buf.now)) fields.now }
    requires method_text { IsUtf8 (span_bytes buf.now found.method) }
    requires path_text { IsUtf8 (path_of (span_bytes buf.now found.path)) }
    ensures { IfOk result (CopiesHead buf.now fields.now found size) }
{
    let method = copy_text(alloc, found.method.of(buf))?;
    let path = copy_text(alloc, path(found.path.of(buf)))?;
    let caller = copy_value(alloc, find_value(buf, fields, b"caller"))?;
    let last = found.version == 0 || wants_close(buf, fields);
    Ok(Head {
        method,
        path,
        caller,
        last,
        len: found.len,
        size,
    })
}
