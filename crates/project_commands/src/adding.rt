//! The command `add`: a document more in the project of a file.
ghost use Rattle.std.specs.Prelude.{◌≡◌, ◌≢◌, ◌≤◌, ◌⊎◌, None, codes, IfErr, IfOk, IsErrOf, MatchResult, OnOk};
ghost use Rattle.mark_base.specs.Streams.{TellsFault};
ghost use Rattle.named_disks.specs.NamedDisks.{IsIn, KeepsOthers, is_there, reads_as};
ghost use Rattle.project_book.specs.Keeping.{TellsKeeper};
ghost use Rattle.program_inputs.specs.Troubles.{with_number};
ghost use Rattle.project_commands.specs.Adding.{Adds, AddsHere, NotAdded, NotAddedHere};

use crate::commands::add_text;
use mark_base::{Bytes, Memory, Slug, Steps};
use named_disks::Disks;
use program_inputs::{
    Folder, Trouble, give_project_back, open_project, read_text_file, with_number,
};
use project_book::Book;
use project_journal::Keeper;
use std::alloc::Global;
use std::sync::ledger::Ledger;

/// The line that counts tokens.
fn tokens_line(alloc: Global, tokens: u32) -> Result<Bytes, Memory>
    ensures { IfOk result (λ bytes. bytes ≡ with_number (codes "tokens ") tokens) }
{
    let line = with_number(alloc, "tokens ", tokens as u64)?;
    Ok(Bytes::from_vec(line.into_bytes()))
}

/// Reads a text and adds it to a project.
fn add_here<F: Folder, K: Keeper, G: Ledger>(
    alloc: Global,
    project: &mut Book<K>,
    caller: &Slug,
    name: Slug,
    text: &str,
    folder: &mut F,
    steps: &mut Steps<G>,
) -> Result<Bytes, Trouble>
    ensures added { IfOk result (λ bytes. AddsHere project.old.log (F.file folder.old text.now) caller.now name bytes project.new.log) }
    ensures refused { IfErr result (NotAddedHere project.old.log (F.file folder.old text.now) caller.now name (F.folder_faults folder.old) (F.folder_faults folder.new)) }
    ensures keeper { TellsKeeper K.faults K.faultless project.old.keeper project.new.keeper (IsErrOf result Trouble.DiskFailed) }
    ensures certain { K.doubt project.old.keeper ≡ None → OnOk result (K.doubt project.new.keeper ≡ None) }
    ensures later { F.folder_faults folder.old ≤ F.folder_faults folder.new }
    ensures cause { TellsFault (IsErrOf result Trouble.FileFailed) (F.folder_faults folder.old) (F.folder_faults folder.new) }
    ensures no_read { IfErr result (λ trouble. trouble ≢ Trouble.ReadFault) }
    ensures no_write { IfErr result (λ trouble. trouble ≢ Trouble.WriteFault) }
    ensures no_use { IfErr result (λ trouble. trouble ≢ Trouble.DiskInUse) }
{
    let text = read_text_file(alloc, folder, text)?;
    let tokens = match add_text(project, caller, name, text, steps) {
        Ok(tokens) => tokens,
        Err(why) => return Err(why),
    };
    let line = tokens_line(alloc, tokens)?;
    Ok(line)
}

/// `add BOOK CALLER NAME TEXT`: opens the project of a file, reads a text, adds it as a document for a caller, and gives
/// the line that counts its tokens.
///
/// The project's file is judged before the text. Where the project refuses the document, or memory or a disk fails, the
/// file is given back with what was kept until then. Cost: opening the project, and the text.
pub fn add_document<F: Folder, D: Disks, G: Ledger>(
    alloc: Global,
    book: &str,
    caller: &Slug,
    name: Slug,
    text: &str,
    folder: &mut F,
    disks: &mut D,
    steps: &mut Steps<G>,
) -> Result<Bytes, Trouble>
    requires { IsIn (D.out disks.old) book.now }
    ensures told { MatchResult result (Adds (reads_as (D.stored disks.old) book.now) (reads_as (D.stored disks.new) book.now) (F.file folder.old text.now) caller.now name) (NotAdded (reads_as (D.stored disks.old) book.now) (F.file folder.old text.now) caller.now name (F.folder_faults folder.old) (F.folder_faults folder.new)) }
    ensures taken_back { IsIn (D.out disks.new) book.now }
    ensures others { KeepsOthers book.now (D.stored disks.old) (D.out disks.old) (D.stored disks.new) (D.out disks.new) }
    ensures none_made { is_there (D.stored disks.new) book.now ≡ is_there (D.stored disks.old) book.now }
    ensures stays { D.faultless disks.old → D.faultless disks.new }
    ensures never { D.faultless disks.old → IsErrOf result Trouble.DiskFailed → ⊥ }
    ensures free { D.faultless disks.old → IsErrOf result Trouble.DiskInUse → ⊥ }
    ensures later { F.folder_faults folder.old ≤ F.folder_faults folder.new }
    ensures cause { TellsFault (IsErrOf result Trouble.FileFailed) (F.folder_faults folder.old) (F.folder_faults folder.new) }
    ensures no_read { IfErr result (λ trouble. trouble ≢ Trouble.ReadFault) }
    ensures no_write { IfErr result (λ trouble. trouble ≢ Trouble.WriteFault) }
{
    let mut project = open_project(alloc, disks, book)?;
    let found = add_here(alloc, &mut project, caller, name, text, folder, steps);
    give_project_back(disks, book, project);
    match found {
        Ok(line) => Ok(line),
        Err(why) => Err(why),
    }
}
