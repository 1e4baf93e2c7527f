//! The bytes of a journal whose entries are written as hexadecimal digits.
use crate::cases::Section;
use crate::escapes::hex_digit;
use crate::malformed::{Flaw, Malformed};
use mark_base::Memory;
use std::alloc::Global;

/// What a journal begins with, before its version.
const MARK: &[u8] = b"ANNOBOOK";

/// The bytes behind the version, which mean nothing.
const RESERVED: &[u8] = &[0, 0, 0, 0];

/// The gate before a record.
const OPEN: u8 = 1;

/// The gate behind the last record.
const CLOSED: u8 = 0;

/// The bytes of an entry; nothing where the digits do not stand in pairs, with blanks between these.
fn read_entry(alloc: Global, line: &str) -> Result<Option<Vec<u8>>, Memory> {
    let mut bytes = Vec::new(alloc);
    let mut high = None;
    for byte in line.as_bytes() {
        high = match (high, hex_digit(*byte)) {
            (None, None) if *byte == b' ' => None,
            (None, Some(digit)) => Some(digit),
            (Some(first), Some(digit)) => {
                bytes.push(first.wrapping_mul(16) | digit)?;
                None
            }
            _ => return Ok(None),
        };
    }
    if high.is_some() {
        return Ok(None);
    }
    Ok(Some(bytes))
}

/// Appends a record: an open gate, the length of the entry, and the entry.
fn push_record(journal: &mut Vec<u8>, entry: &[u8]) -> Result<(), Memory> {
    let length = u32::try_from(entry.len()).unwrap_or(u32::MAX);
    journal.push(OPEN)?;
    journal.extend_from_slice(&length.to_le_bytes())?;
    journal.extend_from_slice(entry)?;
    Ok(())
}

/// The bytes of a journal of this version, with an entry in each line of the section. Cost: the lines.
pub fn journal(alloc: Global, section: &Section<'_>, version: u32) -> Result<Vec<u8>, Malformed> {
    let mut journal = Vec::from_slice(alloc, MARK)?;
    journal.extend_from_slice(&version.to_le_bytes())?;
    journal.extend_from_slice(RESERVED)?;
    let mut number = section.line;
    for line in &section.lines {
        number = number.saturating_add(1);
        let Some(entry) = read_entry(alloc, line)? else {
            return Err(Malformed::At {
                line: number,
                flaw: Flaw::BadEntry,
            });
        };
        push_record(&mut journal, entry.as_slice())?;
    }
    journal.push(CLOSED)?;
    Ok(journal)
}
