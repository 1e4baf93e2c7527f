//! The runs of a case beside its own, and the disks whose calls fail.
use crate::headers::{Calls, read_calls};
use mark_base::Memory;
use project_journal::DiskFail;
use std::alloc::Global;

/// A run before that of a case or behind it: its words, and the name of the file that comes in on its console, if one does.
#[derive(Debug, Drop)]
pub struct Run {
    pub words: Vec<String>,
    pub input: Option<String>,
}

/// The calls of the disk of a file that fail, by their numbers from 1.
#[derive(Debug, Drop)]
pub struct FailingDisk {
    pub name: String,
    pub fails: Vec<DiskFail>,
}

/// The words of a text, which are separated by single spaces; an empty text has none.
pub fn split_words(alloc: Global, text: &str) -> Result<Vec<String>, Memory> {
    let mut words = Vec::new(alloc);
    if !text.is_empty() {
        for word in text.split(' ') {
            words.push(String::from_str(alloc, word)?)?;
        }
    }
    Ok(words)
}

/// A run as it is written: its words, and behind ` < ` the file that comes in on its console.
pub fn run_of(alloc: Global, text: &str) -> Result<Run, Memory> {
    match text.split_once(" < ") {
        Some((words, input)) => Ok(Run {
            words: split_words(alloc, words)?,
            input: Some(String::from_str(alloc, input)?),
        }),
        None => Ok(Run {
            words: split_words(alloc, text)?,
            input: None,
        }),
    }
}

/// Adds the calls of these numbers.
fn push_calls(fails: &mut Vec<DiskFail>, calls: Calls, done: bool) -> Result<(), Memory> {
    for call in calls.first..=calls.last {
        fails.push(DiskFail { call, done })?;
    }
    Ok(())
}

/// The disk of a file with the calls that fail, as their numbers are written.
pub fn failing_disk(
    alloc: Global,
    name: &str,
    done: bool,
    numbers: &str,
) -> Result<FailingDisk, Memory> {
    let mut fails = Vec::new(alloc);
    for text in numbers.split(' ') {
        if let Some(calls) = read_calls(text) {
            push_calls(&mut fails, calls, done)?;
        }
    }
    Ok(FailingDisk {
        name: String::from_str(alloc, name)?,
        fails,
    })
}
