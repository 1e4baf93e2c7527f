//! What is looked at when the run of a case is over.
use crate::cases::Section;
use crate::escapes::content;
use crate::headers::Header;
use crate::malformed::Malformed;
use crate::prepared::Left;
use crate::runs::{Run, run_of};
use std::alloc::Global;

/// What is looked at, and what has to be found.
#[derive(Debug, Drop)]
pub enum Look {
    /// The bytes that the file of a project holds.
    File {
        name: String,
        expected: Vec<u8>,
    },
    /// What a run leaves that is made behind the case's, over the same folder and disks, of which no call fails.
    Run {
        text: String,
        run: Run,
        expected: Left,
    },
}

/// What was found.
#[derive(Debug, Drop)]
pub enum Seen {
    File(Vec<u8>),
    Run(Left),
}

/// What a run behind has to leave: at status 0 the lines stand on the console, and else they are its complaint.
fn left_of(alloc: Global, status: u8, printed: Vec<u8>) -> Left {
    if status == 0 {
        return Left {
            status,
            console: printed,
            complaint: Vec::new(alloc),
        };
    }
    Left {
        status,
        console: Vec::new(alloc),
        complaint: printed,
    }
}

/// The looks that these sections say, in turn.
pub fn looks_of(alloc: Global, sections: &[Section<'_>]) -> Result<Vec<Look>, Malformed> {
    let mut looks = Vec::new(alloc);
    for section in sections {
        match section.header {
            Header::Stored { name, form } => looks.push(Look::File {
                name: String::from_str(alloc, name)?,
                expected: content(alloc, section, form)?,
            })?,
            Header::Then {
                status,
                words,
                form,
            } => looks.push(Look::Run {
                text: String::from_str(alloc, words)?,
                run: run_of(alloc, words)?,
                expected: left_of(alloc, status, content(alloc, section, form)?),
            })?,
            _ => {}
        }
    }
    Ok(looks)
}
