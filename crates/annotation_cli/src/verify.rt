//! The command `verify`: three files are read, and what the last one spells is counted.
ghost use Rattle.std.specs.Prelude.{◌≡◌, ◌≢◌, ◌≤◌, ◌++◌, IfOk, IfErr, IsErrOf, OnOk, string_bytes, length};
ghost use Rattle.mark_base.specs.Streams.{OnlyWrites, TellsFault};
ghost use Rattle.annotation_cli.specs.Verify.{Counts, LayerTold, VerifyTold, counted, counts_line};

use layer_model::Layer;
use mark_base::{Kind, Link, Memory, send_all};
use program_inputs::{Folder, Trouble, read_ann_file, read_conf_file, read_text_file};
use std::alloc::Global;

/// The layer of the files, each of which is judged before the next is read.
fn read_files<F: Folder>(
    alloc: Global,
    conf: &str,
    text: &str,
    ann: &str,
    folder: &mut F,
) -> Result<Layer, Trouble>
    ensures told { LayerTold (F.file folder.old conf.now) (F.file folder.old text.now) (F.file folder.old ann.now)
        (F.folder_faults folder.old) (F.folder_faults folder.new) result }
    ensures later { F.folder_faults folder.old ≤ F.folder_faults folder.new }
    ensures cause { TellsFault (IsErrOf result Trouble.FileFailed) (F.folder_faults folder.old) (F.folder_faults folder.new) }
    ensures no_read { IfErr result (λ trouble. trouble ≢ Trouble.ReadFault) }
    ensures no_write { IfErr result (λ trouble. trouble ≢ Trouble.WriteFault) }
    ensures no_disk { IfErr result (λ trouble. trouble ≢ Trouble.DiskFailed) }
{
    let conf = read_conf_file(alloc, folder, conf)?;
    let text = read_text_file(alloc, folder, text)?;
    read_ann_file(alloc, folder, ann, &text, &conf)
}

/// Writes a number behind what it counts.
fn push_count(line: &mut String, label: &str, number: usize) -> Result<(), Memory>
    ensures { OnOk result (string_bytes line.new ≡ string_bytes line.old ++ counted label.now number) }
{
    line.push_str(label)?;
    write!(line, "{number}")?;
    Ok(())
}

/// The line of counts of a layer.
fn counts_line(alloc: Global, layer: &Layer) -> Result<String, Memory>
    ensures { IfOk result (λ line. string_bytes line ≡ counts_line layer.now) }
{
    let attributes = layer.count(Kind::Attribute) as usize + layer.count(Kind::Legacy) as usize;
    let mut line = String::new(alloc);
    push_count(&mut line, "spans ", layer.count(Kind::Text) as usize)?;
    push_count(&mut line, " events ", layer.count(Kind::Event) as usize)?;
    push_count(
        &mut line,
        " relations ",
        layer.count(Kind::Relation) as usize,
    )?;
    push_count(&mut line, " attributes ", attributes)?;
    push_count(
        &mut line,
        " normalizations ",
        layer.count(Kind::Normal) as usize,
    )?;
    push_count(&mut line, " notes ", layer.count(Kind::Note) as usize)?;
    push_count(&mut line, " classes ", layer.classes().len())?;
    line.push('\n')?;
    Ok(line)
}

/// Writes the line of counts of a layer.
fn tell_counts<C: Link>(alloc: Global, console: &mut C, layer: &Layer) -> Result<(), Trouble>
    ensures told { Counts layer.now (C.held console.old) (C.held console.new) result }
    ensures cause { TellsFault (IsErrOf result Trouble.WriteFault) (C.write_faults console.old) (C.write_faults console.new) }
    ensures no_read { IfErr result (λ trouble. trouble ≢ Trouble.ReadFault) }
    ensures no_file { IfErr result (λ trouble. trouble ≢ Trouble.FileFailed) }
    ensures no_disk { IfErr result (λ trouble. trouble ≢ Trouble.DiskFailed) }
    ensures apart { OnlyWrites C.left C.read_faults C.write_faults console.old console.new }
{
    let line = match counts_line(alloc, layer) {
        Ok(line) => line,
        Err(Memory) => return Err(Trouble::Memory),
    };
    match send_all(console, line.as_bytes()) {
        Ok(()) => Ok(()),
        Err(_) => Err(Trouble::WriteFault),
    }
}

/// Reads the three files, and writes how much of each sort the last one spells.
pub(crate) fn verify<F: Folder, C: Link>(
    alloc: Global,
    conf: &str,
    text: &str,
    ann: &str,
    folder: &mut F,
    console: &mut C,
) -> Result<(), Trouble>
    ensures told { VerifyTold (F.file folder.old conf.now) (F.file folder.old text.now) (F.file folder.old ann.now)
        (F.folder_faults folder.old) (F.folder_faults folder.new) (C.held console.old) (C.held console.new) result }
    ensures apart { OnlyWrites C.left C.read_faults C.write_faults console.old console.new }
    ensures later { F.folder_faults folder.old ≤ F.folder_faults folder.new }
    ensures disk { IfErr result (λ trouble. trouble ≢ Trouble.DiskFailed) }
    ensures folder { TellsFault (IsErrOf result Trouble.FileFailed) (F.folder_faults folder.old) (F.folder_faults folder.new) }
    ensures write { TellsFault (IsErrOf result Trouble.WriteFault) (C.write_faults console.old) (C.write_faults console.new) }
    ensures read { TellsFault (IsErrOf result Trouble.ReadFault) (C.read_faults console.old) (C.read_faults console.new) }
{
    let layer = read_files(alloc, conf, text, ann, folder)?;
    tell_counts(alloc, console, &layer)
}
