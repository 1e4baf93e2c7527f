//! What a run left beside what it had to leave.
ghost use Rattle.std.specs.Prelude.{◌≡◌, ◌↔◌, IfOk, IsNone};

use crate::prepared::Left;
use std::alloc::{AllocError, Global};

/// How many bytes of a line are shown at most.
const SHOWN: usize = 160;

/// How many bytes before the first one that differs are shown at most.
const BEFORE: usize = 60;

/// Where two lists of bytes differ first: the line, counted from 1, and the first byte that is shown of it.
#[derive(Clone, Copy, Debug, PartialEq, Eq)]
struct Place {
    line: usize,
    start: usize,
}

/// Where two lists of bytes that are not the same differ first.
fn first_difference(expected: &[u8], found: &[u8]) -> Place {
    let mut line = 1usize;
    let mut start = 0usize;
    let mut same = 0usize;
    for (left, right) in expected.iter().zip(found.iter()) {
        if left != right {
            break;
        }
        same = same.saturating_add(1);
        if *left == b'\n' {
            line = line.saturating_add(1);
            start = same;
        }
    }
    Place {
        line,
        start: start.max(same.saturating_sub(BEFORE)),
    }
}

/// Appends a byte as an escaped section writes it.
fn push_shown(text: &mut String, byte: u8) -> Result<(), AllocError> {
    match byte {
        b'\n' => text.push_str("\\n"),
        b'\r' => text.push_str("\\r"),
        b'\t' => text.push_str("\\t"),
        b'\\' => text.push_str("\\\\"),
        b' '..=b'~' => text.push(char::from(byte)),
        _ => write!(text, "\\x{byte:02x}"),
    }
}

/// The line from this byte on, as an escaped section writes it.
fn shown(alloc: Global, bytes: &[u8], start: usize) -> Result<String, AllocError> {
    let mut text = String::new(alloc);
    for byte in bytes.iter().skip(start).take(SHOWN) {
        push_shown(&mut text, *byte)?;
        if *byte == b'\n' {
            break;
        }
    }
    Ok(text)
}

/// What differs between two lists of bytes, where they do.
pub fn bytes_differ(
    alloc: Global,
    name: &str,
    expected: &[u8],
    found: &[u8],
) -> Result<Option<String>, AllocError>
    ensures same { IfOk result (λ text. IsNone text ↔ (expected.now ≡ found.now)) }
{
    if expected == found {
        return Ok(None);
    }
    let Place { line, start } = first_difference(expected, found);
    let wanted = shown(alloc, expected, start)?;
    let got = shown(alloc, found, start)?;
    let text = format!(in alloc;
        "{name} differs at line {line}: expected `{wanted}`, found `{got}`"
    )?;
    Ok(Some(text))
}

/// What differs between two statuses, where they do.
fn statuses_differ(alloc: Global, expected: u8, found: u8) -> Result<Option<String>, AllocError>
    ensures same { IfOk result (λ text. IsNone text ↔ (expected ≡ found)) }
{
    if expected == found {
        return Ok(None);
    }
    let text = format!(in alloc; "status differs: expected {expected}, found {found}")?;
    Ok(Some(text))
}

/// What differs between what a run had to leave and what it left, and how.
#[derive(Debug, Drop)]
pub struct Differences {
    pub status: Option<String>,
    pub console: Option<String>,
    pub complaint: Option<String>,
}

/// What differs between what a run had to leave and what it left. Nothing does only where the status and all
/// bytes are the same.
pub fn differences_of(
    alloc: Global,
    expected: &Left,
    found: &Left,
) -> Result<Differences, AllocError>
    ensures status { IfOk result (λ told. IsNone told.status ↔ (expected.now.status ≡ found.now.status)) }
    ensures console { IfOk result (λ told. IsNone told.console ↔ (expected.now.console.items ≡ found.now.console.items)) }
    ensures complaint { IfOk result (λ told. IsNone told.complaint ↔ (expected.now.complaint.items ≡ found.now.complaint.items)) }
{
    let status = statuses_differ(alloc, expected.status, found.status)?;
    let console = bytes_differ(
        alloc,
        "console",
        expected.console.as_slice(),
        found.console.as_slice(),
    )?;
    let complaint = bytes_differ(
        alloc,
        "complaint",
        expected.complaint.as_slice(),
        found.complaint.as_slice(),
    )?;
    Ok(Differences {
        status,
        console,
        complaint,
    })
}
