//! The top call.
ghost use Rattle.std.specs.Prelude.{◌≡◌, ◌≢◌, ◌<◌, ◌⊎◌, ℕ, List, map, option_map, string_bytes, IfErr, IsErrOf, MatchResult, None};
ghost use Rattle.mark_base.specs.Streams.{Rose, TellsFault};
ghost use Rattle.named_disks.specs.NamedDisks.{IsIn};
ghost use Rattle.demo_project.specs.Demos.{DemoTold};
ghost use Rattle.command_words.specs.Asked.{NamesTwo, command_in, command_of};
ghost use Rattle.annotation_cli.specs.Run.{Does, KeepsBut, Runs, looks_for_faults};

use crate::columns_in::columns_in;
use crate::finding::find;
use crate::verify::verify;
use crate::world::World;
use crate::{help_text, print_found, version_line};
use command_words::{BookJob, Job, job_of};
use demo_project::demo;
use mark_base::{Bytes, Link, Memory, Sink, Steps};
use named_disks::Disks;
use program_inputs::{Folder, Trouble, end_run};
use project_commands::{compact, serve_session, try_project};
use std::alloc::Global;
use std::marker::Brand;
use std::sync::ledger::{Blank, Ledger};

/// What the session of a number came to, as lines.
fn demo_lines<G: Ledger>(alloc: Global, number: u32, steps: &mut Steps<G>) -> Result<Bytes, Trouble>
    ensures { MatchResult result (DemoTold number) (λ why. why ≡ Trouble.Memory) }
{
    let lines = demo(alloc, number, steps)?;
    Ok(lines)
}

/// Does a job.
fn perform<F: Folder, C: Link, D: Disks, G: Ledger>(
    alloc: Global,
    job: Option<Job<'_>>,
    folder: &mut F,
    console: &mut C,
    disks: &mut D,
    steps: &mut Steps<G>,
) -> Result<(), Trouble>
    requires free { (name : List ℕ) → IsIn (D.out disks.old) name }
    requires apart { NamesTwo (option_map command_in job) }
    ensures told { Does (F.file folder.old) (option_map command_in job.entry) (D.faultless disks.old)
        (record { folder_faults = F.folder_faults folder.old; left = C.left console.old; held = C.held console.old; stored = D.stored disks.old })
        (record { folder_faults = F.folder_faults folder.new; left = C.left console.new; held = C.held console.new; stored = D.stored disks.new }) result }
    ensures free { (name : List ℕ) → IsIn (D.out disks.new) name }
    ensures others { KeepsBut (option_map command_in job.entry) (D.stored disks.old) (D.out disks.old) (D.stored disks.new) (D.out disks.new) }
    ensures stays { D.faultless disks.old → D.faultless disks.new }
    ensures never { D.faultless disks.old → IsErrOf result Trouble.DiskFailed → ⊥ }
    ensures unused { D.faultless disks.old → IsErrOf result Trouble.DiskInUse → ⊥ }
    ensures folder { TellsFault (IsErrOf result Trouble.FileFailed) (F.folder_faults folder.old) (F.folder_faults folder.new) }
    ensures read { TellsFault (IsErrOf result Trouble.ReadFault) (C.read_faults console.old) (C.read_faults console.new) }
    ensures write { TellsFault (IsErrOf result Trouble.WriteFault) (C.write_faults console.old) (C.write_faults console.new) }
{
    match job {
        None => Err(Trouble::Usage),
        Some(Job::Help) => {
            let text = help_text(alloc);
            print_found(console, text)
        }
        Some(Job::Version) => {
            let line = version_line(alloc);
            print_found(console, line)
        }
        Some(Job::Try { conf, text }) => try_project(alloc, conf, text, folder, console, steps),
        Some(Job::Verify { conf, text, ann }) => verify(alloc, conf, text, ann, folder, console),
        Some(
            Job::ColumnsIn {
                conf,
                text,
                columns,
            },
        ) => columns_in(alloc, conf, text, columns, folder, console),
        Some(Job::Demo { number }) => {
            let found = demo_lines(alloc, number, steps);
            print_found(console, found)
        }
        Some(Job::Session { book }) => serve_session(alloc, book, disks, console, steps),
        Some(Job::Compact { book, made }) => {
            let found = compact(alloc, book, made, disks);
            print_found(console, found)
        }
        Some(Job::Book(job)) => {
            let found = find(alloc, job, folder, disks, steps);
            print_found(console, found)
        }
    }
}

/// Does a job, with a counter of steps that nobody reads.
fn perform_counted<F: Folder, C: Link, D: Disks, G: Ledger>(
    alloc: Global,
    job: Option<Job<'_>>,
    folder: &mut F,
    console: &mut C,
    disks: &mut D,
    blank: Blank,
) -> Result<(), Trouble>
    requires free { (name : List ℕ) → IsIn (D.out disks.old) name }
    requires apart { NamesTwo (option_map command_in job) }
    requires name { blank.name ≡ G.name }
    requires parts { blank.parts ≡ G.parts }
    requires some { 0 < G.parts }
    ensures told { Does (F.file folder.old) (option_map command_in job.entry) (D.faultless disks.old)
        (record { folder_faults = F.folder_faults folder.old; left = C.left console.old; held = C.held console.old; stored = D.stored disks.old })
        (record { folder_faults = F.folder_faults folder.new; left = C.left console.new; held = C.held console.new; stored = D.stored disks.new }) result }
    ensures free { (name : List ℕ) → IsIn (D.out disks.new) name }
    ensures others { KeepsBut (option_map command_in job.entry) (D.stored disks.old) (D.out disks.old) (D.stored disks.new) (D.out disks.new) }
    ensures stays { D.faultless disks.old → D.faultless disks.new }
    ensures never { D.faultless disks.old → IsErrOf result Trouble.DiskFailed → ⊥ }
    ensures unused { D.faultless disks.old → IsErrOf result Trouble.DiskInUse → ⊥ }
    ensures folder { TellsFault (IsErrOf result Trouble.FileFailed) (F.folder_faults folder.old) (F.folder_faults folder.new) }
    ensures read { TellsFault (IsErrOf result Trouble.ReadFault) (C.read_faults console.old) (C.read_faults console.new) }
    ensures write { TellsFault (IsErrOf result Trouble.WriteFault) (C.write_faults console.old) (C.write_faults console.new) }
{
    let mut steps = Steps::<G>::new(blank);
    perform(alloc, job, folder, console, disks, &mut steps)
}

/// Whether a job looks for faults of files, and has a status of its own for those.
fn looks_for_faults(job: &Option<Job<'_>>) -> bool
    ensures { result ≡ looks_for_faults (option_map command_in job.now) }
{
    match job {
        Some(Job::Verify { .. }) => true,
        Some(Job::Book(BookJob::Import { .. })) => true,
        _ => false,
    }
}

/// Runs the command of these words, those after the program's name, and gives its status.
///
/// | words | what is done | printed |
/// |---|---|---|
/// | `--help` | | every command with an example |
/// | `--version` | | `annotate 1.0.0` |
/// | `try CONF TEXT` | a project in memory is founded on a configuration and a text, and the console is served from a desk on it | the answers |
/// | `found BOOK CONF ROSTER`, `found-at BOOK CONF ROSTER LEVEL` | a project is founded in a file, the second at a level of the tree of types | `annotators 3 curators 1` |
/// | `add BOOK CALLER NAME TEXT` | a text becomes a document of the project | `tokens 4` |
/// | `session BOOK` | the console is served with the project | the answers |
/// | `import BOOK WHO NAME ANN` | the layer of an .ann file is committed for an annotator | `revision 1` |
/// | `export BOOK WHO NAME` | | the committed layer as .ann lines |
/// | `columns-out BOOK WHO NAME` | | the committed layer as token and label columns |
/// | `agree BOOK` | | both tables of agreement, with an empty line between |
/// | `scores BOOK` | | the exact-match scores of each two annotators |
/// | `progress BOOK` | | how far each annotator is on each document |
/// | `snapshots BOOK` | | how far each snapshot is decided |
/// | `curated BOOK NUMBER` | | the curated layer of a snapshot as .ann lines |
/// | `compact BOOK MADE` | another file becomes a journal that begins with the state of the project | `place 2` |
/// | `demo NUMBER` | a project in memory is founded and served 36,642 requests that follow from the number, as one connection | the summary |
/// | `verify CONF TEXT ANN` | three files are read | how many annotations of each sort the last one has |
/// | `columns-in CONF TEXT COLUMNS` | three files are read | the layer of a column file as .ann lines |
///
/// | status | comes |
/// |---|---|
/// | 0 | the job was done; for `try` and `session`, the session ended between two messages or by a message that asked to close |
/// | 1 | `verify` met a fault of the configuration or the .ann file, or `import` one of the .ann file |
/// | 2 | the words are no command |
/// | 3 | a file is absent, too long or at fault, or the project refuses what is asked, or the session ended by a stop of its messages or after 1,000,000 answers |
/// | 4, 5, 6 | a fault of the folder or of a disk, or another process has the file of a project; of reading the console; of writing it or the complaint sink |
/// | 7 | want of memory |
///
/// At every status but 0 the complaint sink has one line that names the cause; where a write of it fails,
/// the status is 6, and the sink has a front of the line. No disk may be out. Commands that only print read the file of a project as
/// it stands; `found`, `found-at` and `compact` alone make a file. No command asks for a door, of whatever type the doors are.
pub fn run_alone<F: Folder, C: Link, P: Sink, D: Disks, O>(
    alloc: Global,
    words: &[String],
    world: &mut World<F, C, P, D, O>,
) -> u8
    requires free { (name : List ℕ) → IsIn (D.out world.old.disks) name }
    ensures told { Runs (F.file world.old.folder) (map string_bytes words.now) (D.faultless world.old.disks)
        (record { folder_faults = F.folder_faults world.old.folder; left = C.left world.old.console; held = C.held world.old.console; stored = D.stored world.old.disks })
        (record { folder_faults = F.folder_faults world.new.folder; left = C.left world.new.console; held = C.held world.new.console; stored = D.stored world.new.disks })
        (P.held world.old.complaint) (P.held world.new.complaint) (P.write_faults world.old.complaint) (P.write_faults world.new.complaint) result }
    ensures apart { world.new.doors ≡ world.old.doors }
    ensures words { result ≡ 2 → command_of (map string_bytes words.now) ≡ None }
    ensures free { (name : List ℕ) → IsIn (D.out world.new.disks) name }
    ensures others { KeepsBut (command_of (map string_bytes words.now)) (D.stored world.old.disks) (D.out world.old.disks) (D.stored world.new.disks) (D.out world.new.disks) }

    // A disk that cannot fail gives no status 4.
    ensures folder { result ≡ 4 → Rose (F.folder_faults world.old.folder) (F.folder_faults world.new.folder) ⊎ (D.faultless world.old.disks → ⊥) }
    ensures stays { D.faultless world.old.disks → D.faultless world.new.disks }
    ensures read { result ≡ 5 → Rose (C.read_faults world.old.console) (C.read_faults world.new.console) }
    ensures write { result ≡ 6 → Rose (C.write_faults world.old.console) (C.write_faults world.new.console)
        ⊎ Rose (P.write_faults world.old.complaint) (P.write_faults world.new.complaint) }

    // Where the job was done no call of the folder, the console or the complaint sink failed.
    ensures done { result ≡ 0 → (F.folder_faults world.new.folder ≡ F.folder_faults world.old.folder)
        × (C.read_faults world.new.console ≡ C.read_faults world.old.console)
        × (C.write_faults world.new.console ≡ C.write_faults world.old.console)
        × (P.write_faults world.new.complaint ≡ P.write_faults world.old.complaint) }
{
    let job = match job_of(alloc, words) {
        Ok(job) => job,
        Err(Memory) => {
            return end_run(alloc, &mut world.complaint, Err(Trouble::Memory), false);
        }
    };
    let judges = looks_for_faults(&job);
    let done = perform_counted::<F, C, D, Brand>(
        alloc,
        job,
        &mut world.folder,
        &mut world.console,
        &mut world.disks,
        Blank::new(1),
    );
    end_run(alloc, &mut world.complaint, done, judges)
}
