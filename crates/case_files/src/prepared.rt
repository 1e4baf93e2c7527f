//! A case with its bytes: the world of its run, and what the run has to leave.
use crate::cases::{Section, Written, find_section};
use crate::each_call::EachCall;
use crate::escapes::content;
use crate::headers::{Called, Device, Form, Header};
use crate::looks::{Look, looks_of};
use crate::malformed::{Flaw, Malformed};
use crate::messages::{answers, requests};
use crate::runs::{FailingDisk, Run, failing_disk, run_of, split_words};
use mark_base::{Bytes, Memory, Text};
use std::alloc::Global;

/// What a run leaves: its status, what it wrote to the console, and what it said on the complaint sink.
#[derive(Debug, Drop)]
pub struct Left {
    pub status: u8,
    pub console: Vec<u8>,
    pub complaint: Vec<u8>,
}

/// The calls of each device that fail, by their numbers from 1, which count from the case's own run on.
#[derive(Debug, Drop)]
pub struct Fails {
    pub folder: Vec<u64>,
    /// The reads of the folder for which there is no memory.
    pub memory: Vec<u64>,
    pub read: Vec<u64>,
    pub write: Vec<u64>,
    pub complaint: Vec<u64>,
    pub disks: Vec<u64>,
    /// The disks that fail themselves; one may stand twice.
    pub failing: Vec<FailingDisk>,
}

impl Fails {
    /// Whether no call fails.
    pub fn is_none(&self) -> bool {
        self.folder.is_empty()
            && self.memory.is_empty()
            && self.read.is_empty()
            && self.write.is_empty()
            && self.complaint.is_empty()
            && self.disks.is_empty()
            && self.failing.is_empty()
    }
}

/// A case: the words, the files and the input of its run, and what the run has to leave.
#[derive(Debug, Drop)]
pub struct Prepared {
    pub words: Vec<String>,
    /// The runs before it, over the same files and disks.
    pub firsts: Vec<Run>,
    pub files: Vec<(Text, Bytes)>,
    /// The files of projects before its first run.
    pub disks: Vec<(Text, Bytes)>,
    pub input: Vec<u8>,
    /// Whether the input comes in one piece only.
    pub whole: bool,
    pub fails: Fails,
    /// The disk whose calls fail in turn, each in a run of its own behind this one.
    pub each: Option<EachCall>,
    pub expected: Left,
    /// What is looked at when its run is over, in turn.
    pub looks: Vec<Look>,
}

/// The sections of the case, where one of them has this name, and else those that all cases have.
fn sections_of<'s, 'f>(
    case: &'s Written<'f>,
    common: &'s Written<'f>,
    called: Called<'f>,
) -> &'s [Section<'f>] {
    if find_section(case.sections.as_slice(), called).is_some() {
        case.sections.as_slice()
    } else {
        common.sections.as_slice()
    }
}

/// The section of this name, of the case or of all cases.
fn section_of<'s, 'f>(
    case: &'s Written<'f>,
    common: &'s Written<'f>,
    called: Called<'f>,
) -> Option<&'s Section<'f>> {
    find_section(sections_of(case, common, called), called)
}

/// The words of a case.
fn words_of<'f>(
    alloc: Global,
    case: &Written<'f>,
    common: &Written<'f>,
) -> Result<Vec<String>, Malformed> {
    let Some(text) = case.words.or(common.words) else {
        return Err(Malformed::At {
            line: case.line,
            flaw: Flaw::NoWords,
        });
    };
    Ok(split_words(alloc, text)?)
}

/// The runs before that of a case: those that all cases have, and then its own.
fn firsts_of<'f>(
    alloc: Global,
    case: &Written<'f>,
    common: &Written<'f>,
) -> Result<Vec<Run>, Memory> {
    let mut firsts = Vec::new(alloc);
    for text in &common.firsts {
        firsts.push(run_of(alloc, text)?)?;
    }
    for text in &case.firsts {
        firsts.push(run_of(alloc, text)?)?;
    }
    Ok(firsts)
}

/// Appends the files of projects among these sections.
fn push_disks(
    alloc: Global,
    disks: &mut Vec<(Text, Bytes)>,
    sections: &[Section<'_>],
) -> Result<(), Malformed> {
    for section in sections {
        if let Header::Disk { name, form } = section.header {
            let bytes = Bytes::from_vec(content(alloc, section, form)?);
            disks.push((Text::of(alloc, name)?, bytes))?;
        }
    }
    Ok(())
}

/// Appends the files among these sections.
fn push_files(
    alloc: Global,
    files: &mut Vec<(Text, Bytes)>,
    sections: &[Section<'_>],
) -> Result<(), Malformed> {
    for section in sections {
        if let Header::File { name, form } = section.header {
            let bytes = Bytes::from_vec(content(alloc, section, form)?);
            files.push((Text::of(alloc, name)?, bytes))?;
        }
    }
    Ok(())
}

/// The form of a section of raw bytes.
fn form_of(section: &Section<'_>) -> Form {
    match section.header {
        Header::Input { form } | Header::Console { form } | Header::Complaint { form } => form,
        _ => Form::Lines,
    }
}

/// The bytes of a section of raw bytes; of none where there is no such section.
fn raw_bytes<'f>(
    alloc: Global,
    case: &Written<'f>,
    common: &Written<'f>,
    called: Called<'f>,
) -> Result<Vec<u8>, Malformed> {
    match section_of(case, common, called) {
        Some(section) => content(alloc, section, form_of(section)),
        None => Ok(Vec::new(alloc)),
    }
}

/// The numbers of the calls of a device that fail.
fn fails_of<'f>(
    alloc: Global,
    case: &Written<'f>,
    common: &Written<'f>,
    device: Device,
) -> Result<Vec<u64>, Memory> {
    let mut fails = Vec::new(alloc);
    if let Some(section) = section_of(case, common, Called::Fails(device)) {
        if let Header::Fails { numbers, .. } = section.header {
            for number in numbers.split(' ') {
                fails.push(number.parse::<u64>().unwrap_or(0))?;
            }
        }
    }
    Ok(fails)
}

/// Appends the disks that fail among these sections, but for those of which others say so by the same name.
fn push_failing(
    alloc: Global,
    failing: &mut Vec<FailingDisk>,
    sections: &[Section<'_>],
    others: &[Section<'_>],
) -> Result<(), Memory> {
    for section in sections {
        let Header::DiskFails {
            name,
            done,
            numbers,
        } = section.header
        else {
            continue;
        };
        if find_section(others, section.header.called()).is_none() {
            failing.push(failing_disk(alloc, name, done, numbers)?)?;
        }
    }
    Ok(())
}

/// The disks that fail: those of the case, and those of all cases.
fn failing_of<'f>(
    alloc: Global,
    case: &Written<'f>,
    common: &Written<'f>,
) -> Result<Vec<FailingDisk>, Memory> {
    let mut failing = Vec::new(alloc);
    push_failing(alloc, &mut failing, case.sections.as_slice(), &[])?;
    push_failing(
        alloc,
        &mut failing,
        common.sections.as_slice(),
        case.sections.as_slice(),
    )?;
    Ok(failing)
}

/// The calls of each device that fail.
fn all_fails<'f>(alloc: Global, case: &Written<'f>, common: &Written<'f>) -> Result<Fails, Memory> {
    Ok(Fails {
        folder: fails_of(alloc, case, common, Device::Folder)?,
        memory: fails_of(alloc, case, common, Device::Memory)?,
        read: fails_of(alloc, case, common, Device::Read)?,
        write: fails_of(alloc, case, common, Device::Write)?,
        complaint: fails_of(alloc, case, common, Device::Complaint)?,
        disks: fails_of(alloc, case, common, Device::Disks)?,
        failing: failing_of(alloc, case, common)?,
    })
}

/// The disk whose calls fail in turn, with the messages of the case.
fn each_of<'f>(
    alloc: Global,
    case: &Written<'f>,
    common: &Written<'f>,
) -> Result<Option<EachCall>, Malformed> {
    let Some(section) = section_of(case, common, Called::EachFails) else {
        return Ok(None);
    };
    let Header::EachFails { name, calls } = section.header else {
        return Ok(None);
    };
    let asks = sections_of(case, common, Called::Ask);
    let answers = sections_of(case, common, Called::Answer);
    Ok(Some(EachCall::of(alloc, name, calls, asks, answers)?))
}

/// The status that a case wants.
fn status_of<'f>(case: &Written<'f>, common: &Written<'f>) -> u8 {
    match section_of(case, common, Called::Status) {
        Some(section) => match section.header {
            Header::Status { status } => status,
            _ => 0,
        },
        None => 0,
    }
}

/// Whether a case has a section of one of these two names.
fn has<'f>(
    case: &Written<'f>,
    common: &Written<'f>,
    first: Called<'f>,
    second: Called<'f>,
) -> bool {
    section_of(case, common, first).is_some() || section_of(case, common, second).is_some()
}

/// The input of a case, and what has to go out on the console.
fn streams_of<'f>(
    alloc: Global,
    case: &Written<'f>,
    common: &Written<'f>,
) -> Result<(Vec<u8>, Vec<u8>), Malformed> {
    let raw = has(case, common, Called::Input, Called::Console);
    if !has(case, common, Called::Ask, Called::Answer) {
        let input = raw_bytes(alloc, case, common, Called::Input)?;
        return Ok((input, raw_bytes(alloc, case, common, Called::Console)?));
    }
    if raw {
        return Err(Malformed::At {
            line: case.line,
            flaw: Flaw::BothForms,
        });
    }
    let input = requests(alloc, sections_of(case, common, Called::Ask))?;
    Ok((
        input,
        answers(alloc, sections_of(case, common, Called::Answer))?,
    ))
}

/// The case with its bytes. Of two sections of one name that of the case counts, and else that of all cases.
/// Cost: the lines of both and the bytes that they stand for.
pub fn prepare<'f>(
    alloc: Global,
    case: &Written<'f>,
    common: &Written<'f>,
) -> Result<Prepared, Malformed> {
    if let Some(malformed) = case.flaw {
        return Err(malformed);
    }
    let words = words_of(alloc, case, common)?;
    let mut files = Vec::new(alloc);
    push_files(alloc, &mut files, case.sections.as_slice())?;
    push_files(alloc, &mut files, common.sections.as_slice())?;
    let mut disks = Vec::new(alloc);
    push_disks(alloc, &mut disks, case.sections.as_slice())?;
    push_disks(alloc, &mut disks, common.sections.as_slice())?;
    let (input, console) = streams_of(alloc, case, common)?;
    let fails = all_fails(alloc, case, common)?;
    let each = each_of(alloc, case, common)?;
    let expected = Left {
        status: status_of(case, common),
        console,
        complaint: raw_bytes(alloc, case, common, Called::Complaint)?,
    };
    let whole = section_of(case, common, Called::Whole).is_some() || !fails.is_none();
    let firsts = firsts_of(alloc, case, common)?;
    let looks = looks_of(alloc, sections_of(case, common, Called::Look))?;
    Ok(Prepared {
        words,
        firsts,
        files,
        disks,
        input,
        whole,
        fails,
        each,
        expected,
        looks,
    })
}
