//! The bytes of a section's lines.
use crate::cases::Section;
use crate::headers::Form;
use crate::malformed::{Flaw, Malformed};
use crate::records::journal;
use mark_base::Memory;
use std::alloc::{AllocError, AllocFailed, Global};
use std::mem;

/// The greatest number in an escape, and how often a piece stands at most.
const MOST: u32 = 1_000_000;

/// What a number in an escape says.
#[derive(Clone, Copy, Debug, PartialEq, Eq)]
enum Number {
    /// How often a piece stands.
    Times,
    /// What a count has in the first turn.
    First,
    /// What a count has in the second turn, behind what it has in the first.
    Second(u32),
}

/// What the next byte of an escaped section continues.
#[derive(Clone, Copy, Debug, PartialEq, Eq)]
enum State {
    /// A byte that stands for itself, or the backslash of an escape.
    Plain,
    /// The letter behind a backslash.
    Letter,
    /// The first digit of `\xHH`.
    HighDigit,
    /// The second digit of `\xHH`, behind the first one.
    LowDigit(u8),
    /// The first digit of a number.
    Number(Number),
    /// A further digit of that number, or the byte that ends it.
    Digits(Number, u32),
    /// The second dot of `\(A,B..)`.
    Dot,
    /// The parenthesis behind it.
    Close,
}

/// A number that grows or shrinks by the same from turn to turn, by what it is in the first two.
#[derive(Clone, Copy, Debug)]
struct Count {
    first: u32,
    second: u32,
}

/// The number of the turn.
const TURN: Count = Count {
    first: 0,
    second: 1,
};

/// Where a count stands in a piece, from its start.
#[derive(Clone, Copy, Debug)]
struct Counted {
    place: usize,
    count: Count,
}

/// A piece that stands several times: how often, and where its bytes begin.
#[derive(Clone, Copy, Debug)]
struct Piece {
    times: u32,
    start: usize,
}

/// The bytes of an escaped section, as far as it was read.
#[derive(Debug, Drop)]
struct Unescaped {
    alloc: Global,
    bytes: Vec<u8>,
    state: State,
    /// The turn of the whole section, where it stands several times.
    turn: Option<u32>,
    piece: Option<Piece>,
    /// The counts in the piece.
    counts: Vec<Counted>,
}

/// Why an escaped section is not read further.
#[derive(Clone, Copy, Debug)]
enum Refused {
    Escape,
    Memory,
}

impl From<Memory> for Refused {
    fn from(_: Memory) -> Self {
        Refused::Memory
    }
}

impl From<AllocError> for Refused {
    fn from(_: AllocError) -> Self {
        Refused::Memory
    }
}

impl<T: Drop> From<AllocFailed<T>> for Refused {
    fn from(_: AllocFailed<T>) -> Self {
        Refused::Memory
    }
}

/// The value of a hexadecimal digit.
pub fn hex_digit(byte: u8) -> Option<u8> {
    match byte {
        b'0'..=b'9' => Some(byte - b'0'),
        b'a'..=b'f' => Some(byte - b'a' + 10),
        b'A'..=b'F' => Some(byte - b'A' + 10),
        _ => None,
    }
}

/// The number with a further digit, where it is one and the number stays within its bound.
fn next_number(number: u32, byte: u8) -> Option<u32> {
    if !byte.is_ascii_digit() {
        return None;
    }
    let digit = u32::from(byte.saturating_sub(b'0'));
    let next = number.saturating_mul(10).saturating_add(digit);
    if next <= MOST { Some(next) } else { None }
}

/// What a count has in a turn, where that is not below 0.
fn count_in(count: Count, turn: u32) -> Option<u64> {
    let first = u64::from(count.first);
    let second = u64::from(count.second);
    let turns = u64::from(turn);
    let grown = second.saturating_sub(first).saturating_mul(turns);
    let shrunk = first.saturating_sub(second).saturating_mul(turns);
    first.saturating_add(grown).checked_sub(shrunk)
}

/// Appends the bytes of a piece, with what its counts have in this turn.
fn push_turn(
    alloc: Global,
    bytes: &mut Vec<u8>,
    once: &[u8],
    counts: &[Counted],
    turn: u32,
) -> Result<(), Refused> {
    let mut start = 0;
    for counted in counts {
        let Some(number) = count_in(counted.count, turn) else {
            return Err(Refused::Escape);
        };
        bytes.extend_from_slice(once.get(start..counted.place).unwrap_or(&[]))?;
        bytes.extend_from_slice(format!(in alloc; "{number}")?.as_bytes())?;
        start = counted.place;
    }
    bytes.extend_from_slice(once.get(start..).unwrap_or(&[]))?;
    Ok(())
}

impl Unescaped {
    /// Appends a byte.
    fn push(&mut self, byte: u8) -> Result<(), Memory> {
        self.bytes.push(byte)?;
        self.state = State::Plain;
        Ok(())
    }

    /// Lets the bytes of a piece stand as often as it says, each time with what its counts have in that turn.
    fn end_piece(&mut self, piece: Piece) -> Result<(), Refused> {
        let once = match self.bytes.as_slice().get(piece.start..) {
            Some(bytes) => Vec::from_slice(self.alloc, bytes)?,
            None => Vec::new(self.alloc),
        };
        let counts = mem::replace(&mut self.counts, Vec::new(self.alloc));
        self.bytes.truncate(piece.start);
        for turn in 0..piece.times {
            push_turn(self.alloc, &mut self.bytes, &once, &counts, turn)?;
        }
        self.piece = None;
        Ok(())
    }

    /// Takes a count: for each turn of the piece that is open, and else for the turn of the section.
    fn take_count(&mut self, count: Count) -> Result<(), Refused> {
        match (self.piece, self.turn) {
            (Some(piece), _) => {
                let place = self.bytes.len().saturating_sub(piece.start);
                self.counts.push(Counted { place, count })?;
                Ok(())
            }
            (None, Some(turn)) => {
                let here = Counted { place: 0, count };
                push_turn(self.alloc, &mut self.bytes, &[], &[here], turn)
            }
            (None, None) => Err(Refused::Escape),
        }
    }

    /// Reads a byte that is no part of an escape.
    fn plain(&mut self, byte: u8) -> Result<(), Refused> {
        if byte == b'\\' {
            self.state = State::Letter;
            return Ok(());
        }
        match self.piece {
            Some(piece) if byte == b'}' => self.end_piece(piece),
            _ => Ok(self.push(byte)?),
        }
    }

    /// Reads the letter of an escape.
    fn letter(&mut self, byte: u8) -> Result<(), Refused> {
        match byte {
            b'n' => self.push(b'\n')?,
            b'r' => self.push(b'\r')?,
            b't' => self.push(b'\t')?,
            b'\\' => self.push(b'\\')?,
            b'z' => self.state = State::Plain,
            b'x' => self.state = State::HighDigit,
            b'{' if self.piece.is_none() => self.state = State::Number(Number::Times),
            b'(' => self.state = State::Number(Number::First),
            b'#' => {
                self.take_count(TURN)?;
                self.state = State::Plain;
            }
            _ => return Err(Refused::Escape),
        }
        Ok(())
    }

    /// Reads a digit of a number.
    fn digit(&mut self, number: Number, value: u32, byte: u8) -> Result<(), Refused> {
        match next_number(value, byte) {
            Some(next) => {
                self.state = State::Digits(number, next);
                Ok(())
            }
            None => Err(Refused::Escape),
        }
    }

    /// Reads a further digit of a number, or the byte that ends it.
    fn further(&mut self, number: Number, value: u32, byte: u8) -> Result<(), Refused> {
        match (number, byte) {
            (Number::Times, b':') => {
                let start = self.bytes.len();
                self.piece = Some(Piece {
                    times: value,
                    start,
                });
                self.state = State::Plain;
                Ok(())
            }
            (Number::First, b',') => {
                self.state = State::Number(Number::Second(value));
                Ok(())
            }
            (Number::Second(first), b'.') => {
                self.state = State::Dot;
                self.take_count(Count {
                    first,
                    second: value,
                })
            }
            _ => self.digit(number, value, byte),
        }
    }

    /// Reads a byte that can be no other, and goes on in this state.
    fn only(&mut self, wanted: u8, byte: u8, state: State) -> Result<(), Refused> {
        if byte != wanted {
            return Err(Refused::Escape);
        }
        self.state = state;
        Ok(())
    }

    /// Reads the next byte.
    fn read(&mut self, byte: u8) -> Result<(), Refused> {
        match self.state {
            State::Plain => self.plain(byte),
            State::Letter => self.letter(byte),
            State::HighDigit => match hex_digit(byte) {
                Some(high) => {
                    self.state = State::LowDigit(high);
                    Ok(())
                }
                None => Err(Refused::Escape),
            },
            State::LowDigit(high) => match hex_digit(byte) {
                Some(low) => Ok(self.push(high.wrapping_mul(16) | low)?),
                None => Err(Refused::Escape),
            },
            State::Number(number) => self.digit(number, 0, byte),
            State::Digits(number, value) => self.further(number, value, byte),
            State::Dot => self.only(b'.', byte, State::Close),
            State::Close => self.only(b')', byte, State::Plain),
        }
    }

    /// Reads a line, which joins what was read before.
    fn read_line(&mut self, line: &str) -> Result<(), Refused> {
        for byte in line.as_bytes() {
            self.read(*byte)?;
        }
        Ok(())
    }
}

/// The bytes of an escaped section, in a turn where it stands several times.
fn read_escaped(
    alloc: Global,
    section: &Section<'_>,
    turn: Option<u32>,
) -> Result<Vec<u8>, Malformed> {
    let mut read = Unescaped {
        alloc,
        bytes: Vec::new(alloc),
        state: State::Plain,
        turn,
        piece: None,
        counts: Vec::new(alloc),
    };
    let mut number = section.line;
    for line in &section.lines {
        number = number.saturating_add(1);
        match read.read_line(line) {
            Ok(()) => {}
            Err(Refused::Memory) => return Err(Malformed::Memory),
            Err(Refused::Escape) => {
                return Err(Malformed::At {
                    line: number,
                    flaw: Flaw::BadEscape,
                });
            }
        }
    }
    if read.state != State::Plain || read.piece.is_some() {
        return Err(Malformed::At {
            line: number,
            flaw: Flaw::BadEscape,
        });
    }
    Ok(read.bytes)
}

/// The bytes of lines that stand for themselves, but for one backslash before them.
fn plain(alloc: Global, lines: &[&str], joined: bool) -> Result<Vec<u8>, Memory> {
    let mut bytes = Vec::new(alloc);
    for (index, line) in lines.iter().enumerate() {
        if joined && index > 0 {
            bytes.push(b'\n')?;
        }
        let text = match line.strip_prefix('\\') {
            Some(rest) => rest,
            None => line,
        };
        bytes.extend_from_slice(text.as_bytes())?;
        if !joined {
            bytes.push(b'\n')?;
        }
    }
    Ok(bytes)
}

/// The bytes of a section's lines. Cost: the lines, and the bytes that they stand for.
pub fn content(alloc: Global, section: &Section<'_>, form: Form) -> Result<Vec<u8>, Malformed> {
    content_in(alloc, section, form, None)
}

/// The bytes of a section's lines in a turn, from 0, where it stands several times. Cost: the lines, and the
/// bytes that they stand for.
pub fn content_in(
    alloc: Global,
    section: &Section<'_>,
    form: Form,
    turn: Option<u32>,
) -> Result<Vec<u8>, Malformed> {
    match form {
        Form::Lines => Ok(plain(alloc, section.lines.as_slice(), false)?),
        Form::Joined => Ok(plain(alloc, section.lines.as_slice(), true)?),
        Form::Escaped => read_escaped(alloc, section, turn),
        Form::Records { version } => journal(alloc, section, version),
    }
}
