//! Why a run does not do its job, and the line and the status that say so.
ghost use Rattle.std.specs.Prelude.{◌≡◌, ◌++◌, IfOk, codes, decimal, option_map, string_bytes};
ghost use Rattle.program_inputs.specs.declared.trouble.Trouble.TheVariants;
ghost use Rattle.program_inputs.specs.Troubles.{ann_name, at_line, at_row, column_name, fixed_line, made_line, out_line, people_line, refused_line, roster_line, status_of, with_id, with_number};

use ann_reader::AnnWhat;
use conf_model::ConfWhat;
use http_answers::refusal_name;
use layer_rules::id_text;
use mark_base::{AnnId, Memory, Text};
use project_machine::BookRefusal;
use roster_file::{RosterFault, RosterRead};
use std::alloc::Global;
use token_columns::{ColumnOut, ColumnWhat};

/// Why a run does not do its job.
#[derive(Debug, Drop)]
pub enum Trouble {
    /// The words are no command.
    Usage,
    /// The first fault of a configuration, on a line that is counted from 1.
    Conf { line: u32, what: ConfWhat },
    /// The first fault of an .ann file, on a line that is counted from 1.
    Ann { line: u32, what: AnnWhat },
    /// The first fault of a column file, on a line that is counted from 1.
    Columns { line: u32, what: ColumnWhat },
    /// A layer that columns do not show, and why.
    ColumnsOut { fault: ColumnOut },
    /// The first fault of a roster.
    Roster { fault: RosterRead },
    /// A text that is not UTF-8.
    TextNotUtf8,
    /// A text of more than 200,000 characters.
    TextTooLong,
    /// There is no file of a name.
    FileAbsent,
    /// A file is longer than what is read from such a file.
    FileTooLong,
    /// A fault of the folder, which it counted.
    FileFailed,
    /// The file of a project has fewer than 17 bytes, or does not begin as a journal does.
    NotAJournal,
    /// The file of a project is a journal of this version, which is neither 1 nor 2.
    NewerVersion { version: u32 },
    /// The record of this number, from 1, of a journal is not whole.
    Damaged { number: u64 },
    /// The file that a new journal was to fill has this many bytes.
    AlreadyThere { length: u64 },
    /// The founding of a project would be kept in so many bytes, and it is too long for that.
    BookTooLong { bytes: u64 },
    /// The entry of this number, from 1, of a journal is absent, or none that a project can have there.
    BadEntry { number: u64 },
    /// A project or a desk refused what the command asks of it; `named` is what the refusal names, as `E1 Who`, or empty.
    Refused { refusal: BookRefusal, named: Text },
    /// Another process has the file of a project, which what hands out disks counted as a fault.
    DiskInUse,
    /// A fault of a disk, which it or what hands it out counted.
    DiskFailed,
    /// A fault of the door at which connections are taken in, which it or what hands it out counted.
    DoorFailed,
    /// The input ended inside a message.
    Cut,
    /// The bytes can become no head of a message.
    BadHead,
    /// PUT without Content-Length.
    NeedsLength,
    /// A head or a body that is too large.
    TooLarge,
    /// A field Transfer-Encoding.
    Encoded,
    /// The 1,000,000th answer was written.
    Spent,
    /// A read of the console failed, which it counted.
    ReadFault,
    /// A write of the console failed, which it counted.
    WriteFault,
    /// Want of memory.
    Memory,
}

impl From<Memory> for Trouble {
    ghost from_gives = { λ _ trouble. trouble ≡ TheVariants.Memory };

    fn from(_: Memory) -> Self {
        Trouble::Memory
    }
}

/// What is said of a fault of an .ann file: its name, and the place or the rule that it carries.
fn ann_name(alloc: Global, what: AnnWhat) -> Result<String, Memory>
    ensures { IfOk result (λ name. string_bytes name ≡ ann_name what) }
{
    Ok(match what {
        AnnWhat::NotUtf8 => String::from_str(alloc, "NotUtf8")?,
        AnnWhat::BadLine => String::from_str(alloc, "BadLine")?,
        AnnWhat::BadId => String::from_str(alloc, "BadId")?,
        AnnWhat::IdTwice => String::from_str(alloc, "IdTwice")?,
        AnnWhat::WrongText(place) => format!(in alloc; "WrongText {place}")?,
        AnnWhat::Broken(rule) => {
            let name = rule.name();
            format!(in alloc; "Broken {name}")?
        }
    })
}

/// What is said of a fault of a column file: its name, and the place that it carries.
fn column_name(alloc: Global, what: ColumnWhat) -> Result<String, Memory>
    ensures { IfOk result (λ name. string_bytes name ≡ column_name what) }
{
    Ok(match what {
        ColumnWhat::NotUtf8 => String::from_str(alloc, "NotUtf8")?,
        ColumnWhat::BadLine => String::from_str(alloc, "BadLine")?,
        ColumnWhat::TooMany => String::from_str(alloc, "TooMany")?,
        ColumnWhat::WrongToken(place) => format!(in alloc; "WrongToken {place}")?,
        ColumnWhat::UnknownType => String::from_str(alloc, "UnknownType")?,
        ColumnWhat::NotForUse => String::from_str(alloc, "NotForUse")?,
        ColumnWhat::Orphan => String::from_str(alloc, "Orphan")?,
        ColumnWhat::TooLong => String::from_str(alloc, "TooLong")?,
        ColumnWhat::Full => String::from_str(alloc, "Full")?,
        ColumnWhat::TooFew => String::from_str(alloc, "TooFew")?,
    })
}

/// A line of a label and a number.
pub fn with_number(alloc: Global, label: &str, number: u64) -> Result<String, Memory>
    ensures { IfOk result (λ text. string_bytes text ≡ with_number label.now number) }
{
    Ok(format!(in alloc; "{label}{number}\n")?)
}

/// The line of what a project or a desk refuses, with what the refusal names.
fn refused_line(alloc: Global, refusal: BookRefusal, named: &str) -> Result<String, Memory>
    ensures { IfOk result (λ text. string_bytes text ≡ refused_line refusal named.now) }
{
    let name = refusal_name(refusal);
    if named.is_empty() {
        return Ok(format!(in alloc; "refused: {name}\n")?);
    }
    Ok(format!(in alloc; "refused: {name} {named}\n")?)
}

/// The line of a fault of a file.
fn at_line(alloc: Global, file: &str, line: u32, name: &str) -> Result<String, Memory>
    ensures { IfOk result (λ text. string_bytes text ≡ at_line file.now line name.now) }
{
    Ok(format!(in alloc; "{file} line {line}: {name}\n")?)
}

/// The line of a layer that columns do not show, by the annotation that is at fault.
fn with_id(alloc: Global, name: &str, id: AnnId) -> Result<String, Memory>
    ensures { IfOk result (λ text. string_bytes text ≡ with_id name.now id) }
{
    let id = id_text(alloc, id)?;
    let shown = id.text();
    Ok(format!(in alloc; "columns: {name} {shown}\n")?)
}

/// The line of a layer that columns do not show.
fn out_line(alloc: Global, fault: ColumnOut) -> Result<String, Memory>
    ensures { IfOk result (λ text. string_bytes text ≡ out_line fault) }
{
    let name = fault.name();
    match fault {
        ColumnOut::OtherThere(id) => with_id(alloc, name, id),
        ColumnOut::Fragmented(id) => with_id(alloc, name, id),
        ColumnOut::Unaligned(id) => with_id(alloc, name, id),
        ColumnOut::Shared(id) => with_id(alloc, name, id),
        ColumnOut::Numbered(id) => with_id(alloc, name, id),
        _ => Ok(format!(in alloc; "columns: {name}\n")?),
    }
}

/// The line of a fault of a row of a roster.
fn at_row(alloc: Global, row: u32, name: &str) -> Result<String, Memory>
    ensures { IfOk result (λ text. string_bytes text ≡ at_row row name.now) }
{
    Ok(format!(in alloc; "roster row {row}: {name}\n")?)
}

/// The line of people that make no roster.
fn people_line(alloc: Global, fault: RosterFault) -> Result<String, Memory>
    ensures { IfOk result (λ text. string_bytes text ≡ people_line fault) }
{
    match fault {
        RosterFault::NameTwice(number) => with_number(alloc, "roster: NameTwice ", number as u64),
        RosterFault::TooMany => Ok(String::from_str(alloc, "roster: TooMany\n")?),
        RosterFault::Lacking => Ok(String::from_str(alloc, "roster: Lacking\n")?),
        RosterFault::Memory => Ok(String::new(alloc)),
    }
}

/// The line of the first fault of a roster.
fn roster_line(alloc: Global, fault: RosterRead) -> Result<String, Memory>
    ensures { IfOk result (λ text. string_bytes text ≡ roster_line fault) }
{
    match fault {
        RosterRead::BadRow(row) => at_row(alloc, row, "BadRow"),
        RosterRead::BadName(row) => at_row(alloc, row, "BadName"),
        RosterRead::BadRole(row) => at_row(alloc, row, "BadRole"),
        RosterRead::Roster(fault) => people_line(alloc, fault),
        RosterRead::Memory => Ok(String::new(alloc)),
    }
}

impl Trouble {
    /// The status of a run that ends so; a fault of the configuration or the .ann file has a status of
    /// its own where the command is one that looks for such faults.
    pub(crate) fn status(&self, verifies: bool) -> u8
        ensures { result ≡ status_of verifies self.now }
    {
        match self {
            Trouble::Conf { .. } | Trouble::Ann { .. } => { if verifies { 1 } else { 3 } }
            Trouble::Usage => 2,
            Trouble::FileFailed | Trouble::DiskInUse | Trouble::DiskFailed => 4,
            Trouble::ReadFault | Trouble::DoorFailed => 5,
            Trouble::WriteFault => 6,
            Trouble::Memory => 7,
            _ => 3,
        }
    }

    /// The line that says it, where it carries nothing.
    pub(crate) fn fixed_line(&self) -> Option<&'static str>
        ensures { option_map (λ line. line.now) result ≡ fixed_line self.now }
    {
        match self {
            Trouble::Usage => Some("usage\n"),
            Trouble::Conf { .. } => None,
            Trouble::Ann { .. } => None,
            Trouble::Columns { .. } => None,
            Trouble::ColumnsOut { .. } => None,
            Trouble::Roster { .. } => None,
            Trouble::TextNotUtf8 => Some("text: NotUtf8\n"),
            Trouble::TextTooLong => Some("text: TooLong\n"),
            Trouble::FileAbsent => Some("file: Absent\n"),
            Trouble::FileTooLong => Some("file: TooLong\n"),
            Trouble::FileFailed => Some("file: Failed\n"),
            Trouble::NotAJournal => Some("journal: NotAJournal\n"),
            Trouble::NewerVersion { .. } => None,
            Trouble::Damaged { .. } => None,
            Trouble::AlreadyThere { .. } => None,
            Trouble::BookTooLong { .. } => None,
            Trouble::BadEntry { .. } => None,
            Trouble::Refused { .. } => None,
            Trouble::DiskInUse => Some("disk: InUse\n"),
            Trouble::DiskFailed => Some("disk: Failed\n"),
            Trouble::DoorFailed => Some("door: Failed\n"),
            Trouble::Cut => Some("input: Cut\n"),
            Trouble::BadHead => Some("input: BadHead\n"),
            Trouble::NeedsLength => Some("input: NeedsLength\n"),
            Trouble::TooLarge => Some("input: TooLarge\n"),
            Trouble::Encoded => Some("input: Encoded\n"),
            Trouble::Spent => Some("input: Spent\n"),
            Trouble::ReadFault => Some("input: ReadFault\n"),
            Trouble::WriteFault => Some("output: WriteFault\n"),
            Trouble::Memory => Some("memory\n"),
        }
    }

    /// The line that says it, where it carries where or what it is, and else nothing.
    pub(crate) fn made_line(&self, alloc: Global) -> Result<String, Memory>
        ensures { IfOk result (λ text. string_bytes text ≡ made_line self.now) }
    {
        match self {
            Trouble::Conf { line, what } => at_line(alloc, "conf", *line, what.name()),
            Trouble::Ann { line, what } => {
                let name = ann_name(alloc, *what)?;
                at_line(alloc, "ann", *line, &name)
            }
            Trouble::Columns { line, what } => {
                let name = column_name(alloc, *what)?;
                at_line(alloc, "columns", *line, &name)
            }
            Trouble::ColumnsOut { fault } => out_line(alloc, *fault),
            Trouble::Roster { fault } => roster_line(alloc, *fault),
            Trouble::NewerVersion { version } => {
                with_number(alloc, "journal: NewerVersion ", *version as u64)
            }
            Trouble::Damaged { number } => with_number(alloc, "journal: Damaged ", *number),
            Trouble::AlreadyThere { length } => {
                with_number(alloc, "journal: AlreadyThere ", *length)
            }
            Trouble::BookTooLong { bytes } => with_number(alloc, "book: EntryTooLong ", *bytes),
            Trouble::BadEntry { number } => with_number(alloc, "book: BadEntry ", *number),
            Trouble::Refused { refusal, named } => refused_line(alloc, *refusal, named.text()),
            _ => Ok(String::new(alloc)),
        }
    }
}
