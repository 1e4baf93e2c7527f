//! The disk of a file of which each call fails in turn.
use crate::cases::Section;
use crate::headers::{Answer, Form, Header};
use crate::malformed::Malformed;
use crate::messages::{FIRST_PLACE, push_answer, push_asks};
use crate::prepared::Left;
use std::alloc::Global;

/// An answer, and the one that stands in its place where a change is not kept.
#[derive(Debug, Drop)]
struct Answered {
    answer: Vec<u8>,
    unkept: Vec<u8>,
}

/// The disk of a file, each of whose calls fails in a run of its own, and the messages of the case one by one.
#[derive(Debug, Drop)]
pub struct EachCall {
    pub name: String,
    /// How many calls the run makes.
    pub calls: u64,
    asks: Vec<Vec<u8>>,
    answers: Vec<Answered>,
}

/// How a change that is not kept is answered.
const UNKEPT: Answer = Answer {
    status: 500,
    media: "application/json",
    form: Form::Joined,
    place: None,
    times: None,
    close: false,
};

/// The bytes of each request among these sections.
fn asks_of(alloc: Global, sections: &[Section<'_>]) -> Result<Vec<Vec<u8>>, Malformed> {
    let mut asks = Vec::new(alloc);
    for section in sections {
        if let Header::Ask(ask) = section.header {
            let mut bytes = Vec::new(alloc);
            push_asks(alloc, &mut bytes, ask, section)?;
            asks.push(bytes)?;
        }
    }
    Ok(asks)
}

/// The bytes of an answer that speaks of this place, and of the one in its place where a change is not kept.
fn answer_at(
    alloc: Global,
    answer: Answer,
    place: u64,
    section: &Section<'_>,
) -> Result<Answered, Malformed> {
    let refusal = Section {
        header: Header::Answer(UNKEPT),
        line: section.line,
        lines: vec![in alloc; "{\"refused\":\"Keeper\"}"]?,
    };
    let mut kept = Vec::new(alloc);
    push_answer(alloc, &mut kept, answer, place, section, None)?;
    let before = place.saturating_sub(1);
    let mut unkept = Vec::new(alloc);
    push_answer(alloc, &mut unkept, UNKEPT, before, &refusal, None)?;
    Ok(Answered {
        answer: kept,
        unkept,
    })
}

/// Each answer among these sections.
fn answers_of(alloc: Global, sections: &[Section<'_>]) -> Result<Vec<Answered>, Malformed> {
    let mut answers = Vec::new(alloc);
    let mut place = FIRST_PLACE;
    for section in sections {
        if let Header::Answer(answer) = section.header {
            place = answer.place.unwrap_or(place);
            answers.push(answer_at(alloc, answer, place, section)?)?;
        }
    }
    Ok(answers)
}

impl EachCall {
    /// The disk of the file of a name in a run that makes so many calls, with the requests and the answers among these
    /// sections.
    pub fn of(
        alloc: Global,
        name: &str,
        calls: u64,
        asks: &[Section<'_>],
        answers: &[Section<'_>],
    ) -> Result<EachCall, Malformed> {
        Ok(EachCall {
            name: String::from_str(alloc, name)?,
            calls,
            asks: asks_of(alloc, asks)?,
            answers: answers_of(alloc, answers)?,
        })
    }

    /// What a run leaves whose project is not opened, since a call failed.
    pub fn unopened(&self, alloc: Global) -> Result<Left, Malformed> {
        Ok(Left {
            status: 4,
            console: Vec::new(alloc),
            complaint: Vec::from_slice(alloc, b"disk: Failed\n")?,
        })
    }

    /// The number, from 0, of the request whose change was not kept, by what went out on the console: the answers of those
    /// before it, and that refusal.
    pub fn unkept_in(&self, console: &[u8]) -> Option<usize> {
        let mut rest = console;
        for (number, answered) in self.answers.iter().enumerate() {
            if rest.starts_with(answered.unkept.as_slice()) {
                return Some(number);
            }
            if !rest.starts_with(answered.answer.as_slice()) {
                return None;
            }
            rest = rest.get(answered.answer.len()..).unwrap_or(&[]);
        }
        None
    }

    /// The requests, with that of this number asked twice.
    pub fn input(&self, alloc: Global, unkept: usize) -> Result<Vec<u8>, Malformed> {
        let mut input = Vec::new(alloc);
        for (number, ask) in self.asks.iter().enumerate() {
            input.extend_from_slice(ask.as_slice())?;
            if number == unkept {
                input.extend_from_slice(ask.as_slice())?;
            }
        }
        Ok(input)
    }

    /// The answers, with the refusal before that of this number.
    pub fn console(&self, alloc: Global, unkept: usize) -> Result<Vec<u8>, Malformed> {
        let mut console = Vec::new(alloc);
        for (number, answered) in self.answers.iter().enumerate() {
            if number == unkept {
                console.extend_from_slice(answered.unkept.as_slice())?;
            }
            console.extend_from_slice(answered.answer.as_slice())?;
        }
        Ok(console)
    }
}
