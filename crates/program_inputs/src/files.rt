//! The files of a command: a configuration, a roster, a text, an .ann file and a column file.
ghost use Rattle.std.specs.Prelude.{◌≡◌, ◌≢◌, ◌≤◌, ℕ, List, length, chars, IfOk, IfErr, IsErrOf};
ghost use Rattle.mark_base.specs.Streams.{TellsFault};
ghost use Rattle.program_inputs.specs.Files.{AnnRefused, ColumnsRefused, ConfRefused, FileRefused, HasAnn, HasColumns, HasConf, HoldsText, IsFile, HasRoster, RosterRefused, TextRefused};

use crate::folder::{Folder, FolderFault};
use crate::trouble::Trouble;
use ann_reader::{AnnFault, read_ann};
use annotation_conf::read_conf;
use char_documents::{Doc, DocFault};
use conf_model::{Conf, ConfFault};
use layer_model::Layer;
use mark_base::Bytes;
use roster_file::{Roster, RosterRead, read_roster};
use std::alloc::Global;
use std::str;
use token_columns::{ColumnFault, read_columns};

/// How many bytes a configuration has at most.
const LONGEST_CONF: u64 = 4_194_304;

/// How many bytes a roster has at most.
const LONGEST_ROSTER: u64 = 65_536;

/// How many bytes a text has at most: 200,000 characters of four bytes.
const LONGEST_TEXT: u64 = 800_000;

/// How many bytes an .ann file has at most.
const LONGEST_ANN: u64 = 16_777_216;

/// How many bytes a column file has at most.
const LONGEST_COLUMNS: u64 = 16_777_216;

/// Reads a file of at most so many bytes.
fn read_file<F: Folder>(
    alloc: Global,
    folder: &mut F,
    name: &str,
    limit: u64,
) -> Result<Bytes, Trouble>
    ensures read { IfOk result (IsFile (F.file folder.old name.now)) }
    ensures short { IfOk result (λ bytes. length bytes ≤ limit) }
    ensures err { IfErr result (FileRefused (F.file folder.old name.now) limit (F.folder_faults folder.old) (F.folder_faults folder.new)) }
    ensures kept { (other : List ℕ) → F.file folder.new other ≡ F.file folder.old other }
    ensures later { F.folder_faults folder.old ≤ F.folder_faults folder.new }
    ensures cause { TellsFault (IsErrOf result Trouble.FileFailed) (F.folder_faults folder.old) (F.folder_faults folder.new) }
    ensures no_read { IfErr result (λ trouble. trouble ≢ Trouble.ReadFault) }
    ensures no_write { IfErr result (λ trouble. trouble ≢ Trouble.WriteFault) }
    ensures no_disk { IfErr result (λ trouble. trouble ≢ Trouble.DiskFailed) }
    ensures no_use { IfErr result (λ trouble. trouble ≢ Trouble.DiskInUse) }
{
    match folder.read(alloc, name, limit) {
        Ok(bytes) => Ok(bytes),
        Err(FolderFault::Absent) => Err(Trouble::FileAbsent),
        Err(FolderFault::TooLong) => Err(Trouble::FileTooLong),
        Err(FolderFault::Failed) => Err(Trouble::FileFailed),
        Err(FolderFault::Memory) => Err(Trouble::Memory),
    }
}

/// The configuration that a file spells, or its first fault. Cost: see [`read_conf`].
pub fn read_conf_file<F: Folder>(alloc: Global, folder: &mut F, name: &str) -> Result<Conf, Trouble>
    ensures ok { IfOk result (HasConf (F.file folder.old name.now)) }
    ensures err { IfErr result (ConfRefused (F.file folder.old name.now) (F.folder_faults folder.old) (F.folder_faults folder.new)) }
    ensures kept { (other : List ℕ) → F.file folder.new other ≡ F.file folder.old other }
    ensures later { F.folder_faults folder.old ≤ F.folder_faults folder.new }
    ensures cause { TellsFault (IsErrOf result Trouble.FileFailed) (F.folder_faults folder.old) (F.folder_faults folder.new) }
    ensures no_read { IfErr result (λ trouble. trouble ≢ Trouble.ReadFault) }
    ensures no_write { IfErr result (λ trouble. trouble ≢ Trouble.WriteFault) }
    ensures no_disk { IfErr result (λ trouble. trouble ≢ Trouble.DiskFailed) }
    ensures no_use { IfErr result (λ trouble. trouble ≢ Trouble.DiskInUse) }
{
    let bytes = read_file(alloc, folder, name, LONGEST_CONF)?;
    match read_conf(alloc, bytes.items()) {
        Ok(conf) => Ok(conf),
        Err(ConfFault::At { line, what }) => Err(Trouble::Conf { line, what }),
        Err(ConfFault::Memory) => Err(Trouble::Memory),
    }
}

/// The people that a file names, or its first fault. Cost: see [`read_roster`].
pub fn read_roster_file<F: Folder>(
    alloc: Global,
    folder: &mut F,
    name: &str,
) -> Result<Roster, Trouble>
    ensures ok { IfOk result (HasRoster (F.file folder.old name.now)) }
    ensures err { IfErr result (RosterRefused (F.file folder.old name.now) (F.folder_faults folder.old) (F.folder_faults folder.new)) }
    ensures kept { (other : List ℕ) → F.file folder.new other ≡ F.file folder.old other }
    ensures later { F.folder_faults folder.old ≤ F.folder_faults folder.new }
    ensures cause { TellsFault (IsErrOf result Trouble.FileFailed) (F.folder_faults folder.old) (F.folder_faults folder.new) }
    ensures no_read { IfErr result (λ trouble. trouble ≢ Trouble.ReadFault) }
    ensures no_write { IfErr result (λ trouble. trouble ≢ Trouble.WriteFault) }
    ensures no_disk { IfErr result (λ trouble. trouble ≢ Trouble.DiskFailed) }
    ensures no_use { IfErr result (λ trouble. trouble ≢ Trouble.DiskInUse) }
{
    let bytes = read_file(alloc, folder, name, LONGEST_ROSTER)?;
    match read_roster(alloc, bytes.items()) {
        Ok(roster) => Ok(roster),
        Err(RosterRead::Memory) => Err(Trouble::Memory),
        Err(fault) => Err(Trouble::Roster { fault }),
    }
}

/// The document that a file holds. Cost: its bytes.
pub fn read_text_file<F: Folder>(alloc: Global, folder: &mut F, name: &str) -> Result<Doc, Trouble>
    ensures ok { IfOk result (HoldsText (F.file folder.old name.now)) }
    ensures err { IfErr result (TextRefused (F.file folder.old name.now) (F.folder_faults folder.old) (F.folder_faults folder.new)) }
    ensures kept { (other : List ℕ) → F.file folder.new other ≡ F.file folder.old other }
    ensures later { F.folder_faults folder.old ≤ F.folder_faults folder.new }
    ensures cause { TellsFault (IsErrOf result Trouble.FileFailed) (F.folder_faults folder.old) (F.folder_faults folder.new) }
    ensures no_read { IfErr result (λ trouble. trouble ≢ Trouble.ReadFault) }
    ensures no_write { IfErr result (λ trouble. trouble ≢ Trouble.WriteFault) }
    ensures no_disk { IfErr result (λ trouble. trouble ≢ Trouble.DiskFailed) }
    ensures no_use { IfErr result (λ trouble. trouble ≢ Trouble.DiskInUse) }
{
    let bytes = read_file(alloc, folder, name, LONGEST_TEXT)?;
    match str::from_utf8(bytes.items()) {
        Ok(text) => match Doc::new(alloc, text) {
            Ok(doc) => Ok(doc),
            Err(DocFault::TooLong) => Err(Trouble::TextTooLong),
            Err(DocFault::Memory) => Err(Trouble::Memory),
        },
        Err(_) => Err(Trouble::TextNotUtf8),
    }
}

/// The layer that a file spells for a text and a configuration, or its first fault. Cost: see
/// [`read_ann`].
pub fn read_ann_file<F: Folder>(
    alloc: Global,
    folder: &mut F,
    name: &str,
    doc: &Doc,
    conf: &Conf,
) -> Result<Layer, Trouble>
    ensures ok { IfOk result (HasAnn (F.file folder.old name.now) conf.now doc.now) }
    ensures err { IfErr result (AnnRefused (F.file folder.old name.now) conf.now doc.now (F.folder_faults folder.old) (F.folder_faults folder.new)) }
    ensures kept { (other : List ℕ) → F.file folder.new other ≡ F.file folder.old other }
    ensures later { F.folder_faults folder.old ≤ F.folder_faults folder.new }
    ensures cause { TellsFault (IsErrOf result Trouble.FileFailed) (F.folder_faults folder.old) (F.folder_faults folder.new) }
    ensures no_read { IfErr result (λ trouble. trouble ≢ Trouble.ReadFault) }
    ensures no_write { IfErr result (λ trouble. trouble ≢ Trouble.WriteFault) }
    ensures no_disk { IfErr result (λ trouble. trouble ≢ Trouble.DiskFailed) }
    ensures no_use { IfErr result (λ trouble. trouble ≢ Trouble.DiskInUse) }
{
    let bytes = read_file(alloc, folder, name, LONGEST_ANN)?;
    match read_ann(alloc, bytes.items(), doc, conf) {
        Ok(layer) => Ok(layer),
        Err(AnnFault::At { line, what }) => Err(Trouble::Ann { line, what }),
        Err(AnnFault::Memory) => Err(Trouble::Memory),
    }
}

/// The layer that a column file shows for a text and a configuration, or its first fault. Cost: see
/// [`read_columns`].
pub fn read_columns_file<F: Folder>(
    alloc: Global,
    folder: &mut F,
    name: &str,
    doc: &Doc,
    conf: &Conf,
) -> Result<Layer, Trouble>
    ensures ok { IfOk result (HasColumns (F.file folder.old name.now) conf.now doc.now) }
    ensures err { IfErr result (ColumnsRefused (F.file folder.old name.now) conf.now doc.now (F.folder_faults folder.old) (F.folder_faults folder.new)) }
    ensures kept { (other : List ℕ) → F.file folder.new other ≡ F.file folder.old other }
    ensures later { F.folder_faults folder.old ≤ F.folder_faults folder.new }
    ensures cause { TellsFault (IsErrOf result Trouble.FileFailed) (F.folder_faults folder.old) (F.folder_faults folder.new) }
    ensures no_read { IfErr result (λ trouble. trouble ≢ Trouble.ReadFault) }
    ensures no_write { IfErr result (λ trouble. trouble ≢ Trouble.WriteFault) }
    ensures no_disk { IfErr result (λ trouble. trouble ≢ Trouble.DiskFailed) }
    ensures no_use { IfErr result (λ trouble. trouble ≢ Trouble.DiskInUse) }
{
    let bytes = read_file(alloc, folder, name, LONGEST_COLUMNS)?;
    match read_columns(alloc, bytes.items(), doc, conf) {
        Ok(layer) => Ok(layer),
        Err(ColumnFault::At { line, what }) => Err(Trouble::Columns { line, what }),
        Err(ColumnFault::Memory) => Err(Trouble::Memory),
    }
}
