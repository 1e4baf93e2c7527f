//! The command `columns-in`: three files are read, and the layer that the last one shows is written as .ann lines.
ghost use Rattle.std.specs.Prelude.{◌≡◌, ◌≢◌, ◌≤◌, IfErr, IsErrOf, length};
ghost use Rattle.mark_base.specs.Streams.{OnlyWrites, TellsFault};
ghost use Rattle.layer_rules.specs.WellFormed.{IsWellFormed};
ghost use Rattle.annotation_cli.specs.ColumnsIn.{ColumnsTold, ShownTold, WritesLayer};

use ann_writer::ann_bytes;
use char_documents::Doc;
use conf_model::Conf;
use layer_model::Layer;
use mark_base::{Link, Memory, send_all};
use program_inputs::{Folder, Trouble, read_columns_file, read_conf_file, read_text_file};
use std::alloc::Global;

/// The layer that columns show, with the configuration and the text that it stands on.
#[derive(Drop)]
pub struct Shown {
    pub conf: Conf,
    pub text: Doc,
    pub layer: Layer,
}

/// The layer of the files, each of which is judged before the next is read.
fn read_files<F: Folder>(
    alloc: Global,
    conf: &str,
    text: &str,
    columns: &str,
    folder: &mut F,
) -> Result<Shown, Trouble>
    ensures told { ShownTold (F.file folder.old conf.now) (F.file folder.old text.now) (F.file folder.old columns.now)
        (F.folder_faults folder.old) (F.folder_faults folder.new) result }
    ensures later { F.folder_faults folder.old ≤ F.folder_faults folder.new }
    ensures cause { TellsFault (IsErrOf result Trouble.FileFailed) (F.folder_faults folder.old) (F.folder_faults folder.new) }
    ensures no_read { IfErr result (λ trouble. trouble ≢ Trouble.ReadFault) }
    ensures no_write { IfErr result (λ trouble. trouble ≢ Trouble.WriteFault) }
    ensures no_disk { IfErr result (λ trouble. trouble ≢ Trouble.DiskFailed) }
{
    let conf = read_conf_file(alloc, folder, conf)?;
    let text = read_text_file(alloc, folder, text)?;
    let layer = read_columns_file(alloc, folder, columns, &text, &conf)?;
    Ok(Shown { conf, text, layer })
}

/// Writes the .ann lines of a layer.
fn write_layer<C: Link>(
    alloc: Global,
    console: &mut C,
    layer: &Layer,
    text: &Doc,
    conf: &Conf,
) -> Result<(), Trouble>
    requires { IsWellFormed conf.now (length text.now) layer.now }
    ensures told { WritesLayer conf.now text.now layer.now (C.held console.old) (C.held console.new) result }
    ensures cause { TellsFault (IsErrOf result Trouble.WriteFault) (C.write_faults console.old) (C.write_faults console.new) }
    ensures no_read { IfErr result (λ trouble. trouble ≢ Trouble.ReadFault) }
    ensures no_file { IfErr result (λ trouble. trouble ≢ Trouble.FileFailed) }
    ensures no_disk { IfErr result (λ trouble. trouble ≢ Trouble.DiskFailed) }
    ensures apart { OnlyWrites C.left C.read_faults C.write_faults console.old console.new }
{
    let lines = match ann_bytes(alloc, layer, text, conf) {
        Ok(lines) => lines,
        Err(Memory) => return Err(Trouble::Memory),
    };
    match send_all(console, lines.items()) {
        Ok(()) => Ok(()),
        Err(_) => Err(Trouble::WriteFault),
    }
}

/// Reads the three files, and writes the .ann lines of the layer that the last one shows.
pub(crate) fn columns_in<F: Folder, C: Link>(
    alloc: Global,
    conf: &str,
    text: &str,
    columns: &str,
    folder: &mut F,
    console: &mut C,
) -> Result<(), Trouble>
    ensures told { ColumnsTold (F.file folder.old conf.now) (F.file folder.old text.now) (F.file folder.old columns.now)
        (F.folder_faults folder.old) (F.folder_faults folder.new) (C.held console.old) (C.held console.new) result }
    ensures apart { OnlyWrites C.left C.read_faults C.write_faults console.old console.new }
    ensures later { F.folder_faults folder.old ≤ F.folder_faults folder.new }
    ensures disk { IfErr result (λ trouble. trouble ≢ Trouble.DiskFailed) }
    ensures folder { TellsFault (IsErrOf result Trouble.FileFailed) (F.folder_faults folder.old) (F.folder_faults folder.new) }
    ensures write { TellsFault (IsErrOf result Trouble.WriteFault) (C.write_faults console.old) (C.write_faults console.new) }
    ensures read { TellsFault (IsErrOf result Trouble.ReadFault) (C.read_faults console.old) (C.read_faults console.new) }
{
    let shown = read_files(alloc, conf, text, columns, folder)?;
    write_layer(alloc, console, &shown.layer, &shown.text, &shown.conf)
}
