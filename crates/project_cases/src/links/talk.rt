//! The messages of a connection and the answers to them, as a case has them.
use crate::case_fault::{CaseFault, CaseWhat};
use crate::cases::Section;
use crate::links::spelling::body_of;
use http_wire::{Answer, Media, answer_bytes};
use mark_base::Bytes;
use std::alloc::Global;

/// The bytes that a connection sends, those that it has to be answered, the place of the last answer, and how it has to
/// end.
#[derive(Drop)]
pub(crate) struct Talk {
    pub(crate) sent: Vec<u8>,
    pub(crate) answered: Vec<u8>,
    place: u64,
    pub(crate) ending: String,
}

/// How often a line stands there, and the line: `times 9 ` before it says nine times.
fn times_of(line: &str) -> (u64, &str) {
    let Some(behind) = line.strip_prefix("times ") else {
        return (1, line);
    };
    match behind.split_once(' ') {
        Some((times, rest)) => match times.parse::<u64>() {
            Ok(times) => (times, rest),
            Err(_) => (1, line),
        },
        None => (1, line),
    }
}

/// A line with a number in place of each `#N`.
fn with_number(alloc: Global, line: &str, number: u64) -> Result<String, CaseFault> {
    let mut text = String::new(alloc);
    for (place, part) in line.split("#N").enumerate() {
        if place > 0 {
            let digits = number.to_string(alloc)?;
            text.push_str(digits.as_str())?;
        }
        text.push_str(part)?;
    }
    Ok(text)
}

/// A message as its line spells it: the caller, the method, the path, and behind these the body. The caller `-` is none.
#[derive(Clone, Copy)]
pub(crate) struct Spelt<'t> {
    pub(crate) caller: Option<&'t str>,
    pub(crate) method: &'t str,
    pub(crate) path: &'t str,
    pub(crate) body: &'t str,
}

/// The parts of a message's line.
pub(crate) fn spelt_of(line: &str) -> Spelt<'_> {
    let (caller, rest) = line.split_once(' ').unwrap_or((line, ""));
    let (method, rest) = rest.split_once(' ').unwrap_or((rest, ""));
    let (path, body) = rest.split_once(' ').unwrap_or((rest, ""));
    let caller = if caller == "-" { None } else { Some(caller) };
    Spelt {
        caller,
        method,
        path,
        body,
    }
}

/// Appends the bytes of the message of a line.
fn push_message(alloc: Global, sent: &mut Vec<u8>, line: &str) -> Result<(), CaseFault> {
    let Spelt {
        caller,
        method,
        path,
        body,
    } = spelt_of(line);
    let body = body_of(alloc, body)?;
    let length = body.len();
    let named = match caller {
        None => String::new(alloc),
        Some(caller) => format!(in alloc; "Caller: {caller}\r\n")?,
    };
    let head = format!(in alloc;
        "{method} {path} HTTP/1.1\r\n{named}Content-Length: {length}\r\n\r\n"
    )?;
    sent.extend_from_slice(head.as_bytes())?;
    sent.extend_from_slice(body.as_bytes())?;
    Ok(())
}

/// Appends the messages of a line.
fn push_messages(alloc: Global, talk: &mut Talk, line: &str) -> Result<(), CaseFault> {
    let (times, line) = times_of(line);
    for number in 0..times {
        let message = with_number(alloc, line, number)?;
        push_message(alloc, &mut talk.sent, message.as_str())?;
    }
    Ok(())
}

/// The media type of a word.
fn media_of(word: &str) -> Option<Media> {
    match word {
        "json" => Some(Media::Json),
        "text" => Some(Media::Plain),
        "csv" => Some(Media::Csv),
        _ => None,
    }
}

/// The place that is spelt behind `@`: a number, or `+1` for one more than that of the answer before.
fn place_of(spelt: &str, before: u64) -> Option<u64> {
    if spelt == "+1" {
        return Some(before.saturating_add(1));
    }
    spelt.parse::<u64>().ok()
}

/// The answer of a line: the status, the media type and the body, and behind it `@` and the place.
fn answer_of(alloc: Global, line: &str, before: u64) -> Result<Option<(Answer, u64)>, CaseFault> {
    let Some((front, place)) = line.rsplit_once(" @") else {
        return Ok(None);
    };
    let (status, rest) = front.split_once(' ').unwrap_or((front, ""));
    let (media, spelt) = rest.split_once(' ').unwrap_or((rest, ""));
    let body = body_of(alloc, spelt)?;
    let (Ok(status), Some(media), Some(place)) = (
        status.parse::<u16>(),
        media_of(media),
        place_of(place, before),
    ) else {
        return Ok(None);
    };
    let body = Bytes::from_vec(body.into_bytes());
    Ok(Some((
        Answer {
            status,
            media,
            body,
        },
        place,
    )))
}

/// Appends the bytes of the answer of a line. `last` at its end says that it is the last of the connection.
fn push_answer(alloc: Global, talk: &mut Talk, number: u32, line: &str) -> Result<(), CaseFault> {
    let (line, last) = match line.strip_suffix(" last") {
        Some(line) => (line, true),
        None => (line, false),
    };
    let fault = CaseFault::At {
        line: number,
        what: CaseWhat::NoAnswer,
    };
    let Some((answer, place)) = answer_of(alloc, line, talk.place)? else {
        return Err(fault);
    };
    if answer.status < 100 || answer.status > 999 {
        return Err(fault);
    }
    let bytes = answer_bytes(alloc, &answer, place, last, false)?;
    talk.answered.extend_from_slice(bytes.items())?;
    talk.place = place;
    Ok(())
}

/// Appends the bytes of the answers of a line.
fn push_answers(alloc: Global, talk: &mut Talk, number: u32, line: &str) -> Result<(), CaseFault> {
    let (times, line) = times_of(line);
    for _ in 0..times {
        push_answer(alloc, talk, number, line)?;
    }
    Ok(())
}

/// The connection in a section. A line that begins with blanks is an answer, one that begins with `=` the ending, and
/// each other one a message.
pub(crate) fn talk_of(alloc: Global, section: Section<'_>) -> Result<Talk, CaseFault> {
    let mut talk = Talk {
        sent: Vec::new(alloc),
        answered: Vec::new(alloc),
        place: 0,
        ending: String::from_str(alloc, "End")?,
    };
    let mut number = section.line;
    for line in section.lines.lines() {
        number = number.saturating_add(1);
        if line.trim().is_empty() || line.starts_with('#') {
            continue;
        }
        if let Some(ending) = line.strip_prefix("= ") {
            talk.ending = String::from_str(alloc, ending)?;
        } else if line.starts_with(' ') {
            push_answers(alloc, &mut talk, number, line.trim_start())?;
        } else {
            push_messages(alloc, &mut talk, line)?;
        }
    }
    Ok(talk)
}
