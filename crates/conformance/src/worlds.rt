//! The runs of a case over a world in memory.
ghost use Rattle.std.specs.Prelude.{ℕ, List, IfOk};
ghost use Rattle.named_disks.specs.NamedDisks.{IsIn};

use crate::case_folder::CaseFolder;
use annotation_program::{World, run};
use case_files::{FailingDisk, Left, Look, Malformed, Prepared, Run, Seen};
use mark_base::{Bytes, Memory, MemoryLink, MemorySink, Text};
use named_disks::{Disks, MemoryDisks};
use project_journal::{DiskFail, MemoryDisk};
use serve_command::{MemoryDoor, MemoryDoors};
use std::alloc::Global;
use std::sync::Wait;
use std::thread::Threads;

/// How many bytes of an input come one by one at most; the rest comes as there is room for it.
const MOST_PIECES: usize = 65_536;

/// What the run of a case leaves, and what is found behind it: as much as the case looks at, in turn.
#[derive(Debug, Drop)]
pub struct Outcome {
    pub left: Left,
    pub seen: Vec<Seen>,
}

/// A world in memory between two runs: no disk is out. No door is handed out for a port.
#[derive(Drop)]
struct Site {
    world: World<CaseFolder, MemoryLink, MemorySink, MemoryDisks, MemoryDoors<MemoryDoor>>,
    ghost free: { (name : List ℕ) → IsIn (⟦<MemoryDisks as Disks>⟧.out world.disks) name },
}

impl Site {
    /// Runs words with this console and this sink for complaints, and gives the status.
    fn run<R: Threads + Wait + Sync>(
        &mut self,
        rt: &R,
        alloc: Global,
        words: &[String],
        console: MemoryLink,
        complaint: MemorySink,
    ) -> u8 {
        self.world.console = console;
        self.world.complaint = complaint;
        run(rt, alloc, words, &mut self.world)
    }

    /// What the last run left.
    fn left(&self, alloc: Global, status: u8) -> Result<Left, Memory> {
        Ok(Left {
            status,
            console: Vec::from_slice(alloc, self.world.console.written())?,
            complaint: Vec::from_slice(alloc, self.world.complaint.written())?,
        })
    }

    /// Makes a run whose console and sink do not fail, and tells what it left.
    fn run_beside<R: Threads + Wait + Sync>(
        &mut self,
        rt: &R,
        alloc: Global,
        files: &[(Text, Bytes)],
        run: &Run,
    ) -> Result<Left, Memory> {
        let input = input_of(alloc, files, run)?;
        let console = console_of(alloc, input);
        let complaint = MemorySink::new(alloc, Vec::new(alloc));
        let status = self.run(rt, alloc, run.words.as_slice(), console, complaint);
        self.left(alloc, status)
    }

    /// Puts new devices in the place of the folder and the disks. They hold the same, and their calls fail by these numbers,
    /// which count from here on.
    fn renew(
        &mut self,
        alloc: Global,
        files: &[(Text, Bytes)],
        folder_wants: Vec<u64>,
        folder_fails: Vec<u64>,
        disks: MemoryDisks,
    ) -> Result<(), Memory>
        requires { (name : List ℕ) → IsIn (⟦<MemoryDisks as Disks>⟧.out disks) name }
    {
        let files = copied(alloc, files)?;
        self.world.folder = CaseFolder::new(files, folder_wants, folder_fails);
        self.world.disks = disks;
        Ok(())
    }
}

/// A second list of the files.
fn copied(alloc: Global, files: &[(Text, Bytes)]) -> Result<Vec<(Text, Bytes)>, Memory> {
    let mut copies = Vec::new(alloc);
    for file in files {
        copies.push((file.0.copy()?, file.1.copy()?))?;
    }
    Ok(copies)
}

/// A console on which these bytes come in, and of which no call fails.
fn console_of(alloc: Global, input: Bytes) -> MemoryLink {
    MemoryLink::new(alloc, input, Vec::new(alloc), Vec::new(alloc))
}

/// Disks that hold these files, and do not fail.
fn disks_of(alloc: Global, files: &[(Text, Bytes)]) -> Result<MemoryDisks, Memory>
    ensures { IfOk result (λ disks. (name : List ℕ) → IsIn (⟦<MemoryDisks as Disks>⟧.out disks) name) }
{
    let mut named = Vec::new(alloc);
    for file in files {
        let disk = MemoryDisk::new(alloc, file.1.copy()?, Vec::new(alloc));
        named.push((file.0.copy()?, disk))?;
    }
    Ok(MemoryDisks::new(alloc, named, Vec::new(alloc)))
}

/// The disk of a file that holds these bytes, and fails as these say that have its name.
fn disk_again(
    alloc: Global,
    name: &str,
    bytes: &[u8],
    failing: &[FailingDisk],
) -> Result<MemoryDisk, Memory> {
    let mut fails = Vec::new(alloc);
    for disk in failing {
        if disk.name.as_str() == name {
            fails.extend_from_slice(disk.fails.as_slice())?;
        }
    }
    Ok(MemoryDisk::new(alloc, Bytes::of(alloc, bytes)?, fails))
}

/// Adds the disk of a name, as it was before; where the name has none, an empty one.
fn push_disk(
    alloc: Global,
    named: &mut Vec<(Text, MemoryDisk)>,
    name: &str,
    before: &MemoryDisks,
    failing: &[FailingDisk],
) -> Result<(), Memory> {
    if named.iter().any(|disk| disk.0.text() == name) {
        return Ok(());
    }
    let disk = disk_again(alloc, name, before.bytes(name), failing)?;
    named.push((Text::of(alloc, name)?, disk))?;
    Ok(())
}

/// Adds the disks of the names among these words; of a word that is no name an empty one.
fn push_disks(
    alloc: Global,
    named: &mut Vec<(Text, MemoryDisk)>,
    words: &[String],
    before: &MemoryDisks,
    failing: &[FailingDisk],
) -> Result<(), Memory> {
    for word in words {
        push_disk(alloc, named, word.as_str(), before, failing)?;
    }
    Ok(())
}

/// The disks of all names in the runs of a case and before them, as they were before this; the calls that fail count from
/// here on.
fn disks_again(
    alloc: Global,
    case: &Prepared,
    before: &MemoryDisks,
    fails: Vec<u64>,
    failing: &[FailingDisk],
) -> Result<MemoryDisks, Memory>
    ensures { IfOk result (λ disks. (name : List ℕ) → IsIn (⟦<MemoryDisks as Disks>⟧.out disks) name) }
{
    let mut named = Vec::new(alloc);
    push_disks(alloc, &mut named, case.words.as_slice(), before, failing)?;
    for first in &case.firsts {
        push_disks(alloc, &mut named, first.words.as_slice(), before, failing)?;
    }
    for file in &case.disks {
        push_disk(alloc, &mut named, file.0.text(), before, failing)?;
    }
    Ok(MemoryDisks::new(alloc, named, fails))
}

/// The world of a case before its first run.
fn site_of(alloc: Global, case: &Prepared) -> Result<Site, Memory> {
    let files = copied(alloc, case.files.as_slice())?;
    let world = World {
        folder: CaseFolder::new(files, Vec::new(alloc), Vec::new(alloc)),
        console: console_of(alloc, Bytes::from_vec(Vec::new(alloc))),
        complaint: MemorySink::new(alloc, Vec::new(alloc)),
        disks: disks_of(alloc, case.disks.as_slice())?,
        doors: MemoryDoors::new(Vec::new(alloc), Vec::new(alloc)),
    };
    Ok(Site { world })
}

/// What comes in on the console of a run beside the case's: the bytes of a file, or nothing.
fn input_of(alloc: Global, files: &[(Text, Bytes)], run: &Run) -> Result<Bytes, Memory> {
    if let Some(name) = &run.input {
        for file in files {
            if file.0.text() == name.as_str() {
                return file.1.copy();
            }
        }
    }
    Ok(Bytes::from_vec(Vec::new(alloc)))
}

/// Makes the runs before that of a case, and tells what the first leaves whose status is not 0.
fn run_firsts<R: Threads + Wait + Sync>(
    rt: &R,
    alloc: Global,
    case: &Prepared,
    site: &mut Site,
) -> Result<Option<Left>, Memory> {
    for first in &case.firsts {
        let left = site.run_beside(rt, alloc, case.files.as_slice(), first)?;
        if left.status != 0 {
            return Ok(Some(left));
        }
    }
    Ok(None)
}

/// Looks at what the run of a case left. A run that is made for this meets no device that fails, and leaves what it leaves
/// to the looks behind it.
fn looked<R: Threads + Wait + Sync>(
    rt: &R,
    alloc: Global,
    case: &Prepared,
    site: &mut Site,
) -> Result<Vec<Seen>, Memory> {
    let disks = disks_again(alloc, case, &site.world.disks, Vec::new(alloc), &[])?;
    let none = Vec::new(alloc);
    site.renew(alloc, case.files.as_slice(), none, Vec::new(alloc), disks)?;
    let mut seen = Vec::new(alloc);
    for look in &case.looks {
        match look {
            Look::File { name, .. } => {
                let bytes = site.world.disks.bytes(name.as_str());
                seen.push(Seen::File(Vec::from_slice(alloc, bytes)?))?;
            }
            Look::Run { run, .. } => {
                let left = site.run_beside(rt, alloc, case.files.as_slice(), run)?;
                seen.push(Seen::Run(left))?;
            }
        }
    }
    Ok(seen)
}

/// Runs the words of a case behind the runs before it, and tells what the run leaves and what is found then, or what a run
/// before left that did not do its job.
fn run_over<R: Threads + Wait + Sync>(
    rt: &R,
    alloc: Global,
    case: &Prepared,
    console: MemoryLink,
    complaint: MemorySink,
    failing: &[FailingDisk],
) -> Result<Outcome, Malformed> {
    let mut site = site_of(alloc, case)?;
    if let Some(left) = run_firsts(rt, alloc, case, &mut site)? {
        return Ok(Outcome {
            left,
            seen: Vec::new(alloc),
        });
    }
    let fails = case.fails.disks.clone()?;
    let disks = disks_again(alloc, case, &site.world.disks, fails, failing)?;
    let wants = case.fails.memory.clone()?;
    let folder_fails = case.fails.folder.clone()?;
    site.renew(alloc, case.files.as_slice(), wants, folder_fails, disks)?;
    let status = site.run(rt, alloc, case.words.as_slice(), console, complaint);
    let left = site.left(alloc, status)?;
    let seen = looked(rt, alloc, case, &mut site)?;
    Ok(Outcome { left, seen })
}

/// Runs a case with its input in one piece.
pub fn run_whole<R: Threads + Wait + Sync>(
    rt: &R,
    alloc: Global,
    case: &Prepared,
) -> Result<Outcome, Malformed> {
    let input = Bytes::of(alloc, case.input.as_slice())?;
    let reads = case.fails.read.clone()?;
    let writes = case.fails.write.clone()?;
    let console = MemoryLink::new(alloc, input, reads, writes);
    let complaint = MemorySink::new(alloc, case.fails.complaint.clone()?);
    let failing = case.fails.failing.as_slice();
    run_over(rt, alloc, case, console, complaint, failing)
}

/// Runs a case with its input in pieces of one byte.
pub fn run_in_pieces<R: Threads + Wait + Sync>(
    rt: &R,
    alloc: Global,
    case: &Prepared,
) -> Result<Outcome, Malformed> {
    let count = case.input.len().min(MOST_PIECES);
    let sizes = vec![in alloc; 1usize; count]?;
    let input = Bytes::of(alloc, case.input.as_slice())?;
    let console = MemoryLink::cut_into(alloc, input, sizes);
    let complaint = MemorySink::new(alloc, Vec::new(alloc));
    run_over(rt, alloc, case, console, complaint, &[])
}

/// Runs a case with another input, in one piece, where a call of the disk of a file fails.
pub fn run_failing<R: Threads + Wait + Sync>(
    rt: &R,
    alloc: Global,
    case: &Prepared,
    input: &[u8],
    name: &str,
    fail: DiskFail,
) -> Result<Outcome, Malformed> {
    let console = console_of(alloc, Bytes::of(alloc, input)?);
    let complaint = MemorySink::new(alloc, Vec::new(alloc));
    let disk = FailingDisk {
        name: String::from_str(alloc, name)?,
        fails: vec![in alloc; fail]?,
    };
    run_over(rt, alloc, case, console, complaint, &[disk])
}
