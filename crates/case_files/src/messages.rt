//! Requests and answers, and their bytes.
use crate::cases::Section;
use crate::escapes::content_in;
use crate::headers::{Answer, Ask, Header, reason};
use crate::malformed::Malformed;
use std::alloc::Global;

/// The place that answers speak of where none is given.
pub const FIRST_PLACE: u64 = 3;

/// The line that asks to close, or says that the connection is closed.
fn closing(close: bool) -> &'static str {
    if close { "Connection: close\r\n" } else { "" }
}

/// Appends the bytes of a request, in a turn where it comes several times.
fn push_ask(
    alloc: Global,
    input: &mut Vec<u8>,
    ask: Ask<'_>,
    section: &Section<'_>,
    turn: Option<u32>,
) -> Result<(), Malformed> {
    let body = content_in(alloc, section, ask.form, turn)?;
    let Ask {
        method,
        target,
        caller,
        ..
    } = ask;
    let close = closing(ask.close);
    let head = format!(in alloc; "{method} {target} HTTP/1.1\r\nCaller: {caller}\r\n{close}")?;
    input.extend_from_slice(head.as_bytes())?;
    if method != "GET" || !section.lines.is_empty() {
        let length = body.len();
        let field = format!(in alloc; "Content-Length: {length}\r\n")?;
        input.extend_from_slice(field.as_bytes())?;
    }
    input.extend_from_slice(b"\r\n")?;
    input.extend_from_slice(body.as_slice())?;
    Ok(())
}

/// Appends the bytes of an answer that speaks of this place, in a turn where it comes several times.
pub fn push_answer(
    alloc: Global,
    console: &mut Vec<u8>,
    answer: Answer,
    place: u64,
    section: &Section<'_>,
    turn: Option<u32>,
) -> Result<(), Malformed> {
    let body = content_in(alloc, section, answer.form, turn)?;
    let Answer { status, media, .. } = answer;
    let phrase = reason(status).unwrap_or("");
    let length = body.len();
    let close = closing(answer.close);
    let head = format!(in alloc; "HTTP/1.1 {status} {phrase}\r\nContent-Type: {media}\r\n")?;
    let fields = format!(in alloc; "Content-Length: {length}\r\nPlace: {place}\r\n{close}\r\n")?;
    console.extend_from_slice(head.as_bytes())?;
    console.extend_from_slice(fields.as_bytes())?;
    console.extend_from_slice(body.as_slice())?;
    Ok(())
}

/// Appends the bytes of a request, as often as it comes.
pub fn push_asks(
    alloc: Global,
    input: &mut Vec<u8>,
    ask: Ask<'_>,
    section: &Section<'_>,
) -> Result<(), Malformed> {
    let Some(times) = ask.times else {
        return push_ask(alloc, input, ask, section, None);
    };
    for turn in 0..times {
        push_ask(alloc, input, ask, section, Some(turn))?;
    }
    Ok(())
}

/// Appends the bytes of an answer that speaks of this place, as often as it comes.
fn push_answers(
    alloc: Global,
    console: &mut Vec<u8>,
    answer: Answer,
    place: u64,
    section: &Section<'_>,
) -> Result<(), Malformed> {
    let Some(times) = answer.times else {
        return push_answer(alloc, console, answer, place, section, None);
    };
    for turn in 0..times {
        push_answer(alloc, console, answer, place, section, Some(turn))?;
    }
    Ok(())
}

/// The bytes of the requests among these sections, one behind the other.
pub fn requests(alloc: Global, sections: &[Section<'_>]) -> Result<Vec<u8>, Malformed> {
    let mut input = Vec::new(alloc);
    for section in sections {
        if let Header::Ask(ask) = section.header {
            push_asks(alloc, &mut input, ask, section)?;
        }
    }
    Ok(input)
}

/// The bytes of the answers among these sections, one behind the other.
pub fn answers(alloc: Global, sections: &[Section<'_>]) -> Result<Vec<u8>, Malformed> {
    let mut console = Vec::new(alloc);
    let mut place = FIRST_PLACE;
    for section in sections {
        if let Header::Answer(answer) = section.header {
            place = answer.place.unwrap_or(place);
            push_answers(alloc, &mut console, answer, place, section)?;
        }
    }
    Ok(console)
}
