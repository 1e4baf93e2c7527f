//! What a command on the project of a file finds to print.
ghost use Rattle.std.specs.Prelude.{◌≡◌, ◌≢◌, ℕ, List, IfErr, IsErrOf};
ghost use Rattle.mark_base.specs.Streams.{TellsFault};
ghost use Rattle.named_disks.specs.NamedDisks.{IsIn, KeepsNames, is_there};
ghost use Rattle.command_words.specs.Asked.{IsChangedOn, IsMadeOn, book_command_in, file_in};
ghost use Rattle.annotation_cli.specs.Run.{Finds};

use command_words::BookJob;
use mark_base::{Bytes, Steps};
use named_disks::Disks;
use program_inputs::{Folder, Trouble};
use project_commands::{
    add_document, export_layer, found_in_file, import_file, show_agreement, show_columns,
    show_curated, show_progress, show_scores, show_snapshots,
};
use std::alloc::Global;
use std::sync::ledger::Ledger;

/// Does what is asked of the project of a file, and gives what is to be printed of it.
pub(crate) fn find<F: Folder, D: Disks, G: Ledger>(
    alloc: Global,
    job: BookJob<'_>,
    folder: &mut F,
    disks: &mut D,
    steps: &mut Steps<G>,
) -> Result<Bytes, Trouble>
    requires { IsIn (D.out disks.old) (file_in (book_command_in job)) }
    ensures told { Finds (F.file folder.old) (book_command_in job.entry) (F.folder_faults folder.old) (F.folder_faults folder.new) (D.stored disks.old) (D.stored disks.new) result }
    ensures taken_back { IsIn (D.out disks.new) (file_in (book_command_in job.entry)) }
    ensures others { KeepsNames (λ name. IsChangedOn (book_command_in job.entry) name → ⊥) (D.stored disks.old) (D.out disks.old) (D.stored disks.new) (D.out disks.new) }
    ensures none_made { (name : List ℕ) → (IsMadeOn (book_command_in job.entry) name → ⊥) → is_there (D.stored disks.new) name ≡ is_there (D.stored disks.old) name }
    ensures stays { D.faultless disks.old → D.faultless disks.new }
    ensures never { D.faultless disks.old → IsErrOf result Trouble.DiskFailed → ⊥ }
    ensures unused { D.faultless disks.old → IsErrOf result Trouble.DiskInUse → ⊥ }
    ensures cause { TellsFault (IsErrOf result Trouble.FileFailed) (F.folder_faults folder.old) (F.folder_faults folder.new) }
    ensures no_read { IfErr result (λ trouble. trouble ≢ Trouble.ReadFault) }
    ensures no_write { IfErr result (λ trouble. trouble ≢ Trouble.WriteFault) }
{
    match job {
        BookJob::Found {
            book,
            conf,
            roster,
            level,
        } => found_in_file(alloc, book, conf, roster, level, folder, disks),
        BookJob::Add {
            book,
            caller,
            name,
            text,
        } => add_document(alloc, book, &caller, name, text, folder, disks, steps),
        BookJob::Import {
            book,
            who,
            name,
            ann,
        } => import_file(alloc, book, who, name, ann, folder, disks, steps),
        BookJob::Export { book, who, name } => {
            export_layer(alloc, book, &who, name, disks, steps)
        }
        BookJob::ColumnsOut { book, who, name } => {
            show_columns(alloc, book, &who, name, disks, steps)
        }
        BookJob::Agree { book } => show_agreement(alloc, book, disks, steps),
        BookJob::Scores { book } => show_scores(alloc, book, disks, steps),
        BookJob::Progress { book } => show_progress(alloc, book, disks),
        BookJob::Snapshots { book } => show_snapshots(alloc, book, disks),
        BookJob::Curated { book, number } => {
            show_curated(alloc, book, u64::from(number), disks, steps)
        }
    }
}
