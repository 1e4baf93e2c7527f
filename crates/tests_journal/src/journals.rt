ghost use Rattle.std.specs.Prelude.{◌↔◌, All, IsTrue};
ghost use Rattle.project_journal.specs.Keeper.{IsEntry};

use mark_base::Bytes;
use project_journal::{
    DiskFail, FileDisk, Journal, JournalFault, Keeper, KeeperFault, MemoryDisk, MemoryKeeper,
};
use std::alloc::{AllocError, Global};
use std::fs;
use std::fs::{File, OpenOptions};
use std::test::Fail;

const ENTRIES: [&[u8]; 3] = [b"one", b"a second entry", b"3"];

/// What a run over a disk in memory answered, and the disk after it.
#[derive(Drop)]
struct Run {
    answers: Option<Vec<Result<(), KeeperFault>>>,
    disk: MemoryDisk,
}

fn bytes(alloc: Global, items: &[u8]) -> Result<Bytes, AllocError> {
    Ok(Bytes::from_vec(Vec::from_slice(alloc, items)?))
}

/// Creates a journal and appends these entries; no answers where the creation was refused.
fn run_journal(alloc: Global, fails: Vec<DiskFail>, entries: &[&[u8]]) -> Result<Run, AllocError> {
    let disk = MemoryDisk::new(alloc, bytes(alloc, b"")?, fails);
    match Journal::create(alloc, disk) {
        Ok(mut journal) => {
            is_send(&journal);
            let mut answers = Vec::new(alloc);
            for entry in entries {
                if entry.is_empty() || entry.len() > 16_777_216 {
                    continue;
                }
                answers.push(journal.append(entry))?;
            }
            Ok(Run {
                answers: Some(answers),
                disk: journal.into_disk(),
            })
        }
        Err((disk, _)) => Ok(Run {
            answers: None,
            disk,
        }),
    }
}

/// What a file with these bytes opens to.
fn opened(alloc: Global, file: &[u8]) -> Result<Result<Vec<Bytes>, JournalFault>, AllocError> {
    let disk = MemoryDisk::new(alloc, bytes(alloc, file)?, Vec::new(alloc));
    match Journal::open(alloc, disk) {
        Ok((_, entries)) => Ok(Ok(entries)),
        Err((_, fault)) => Ok(Err(fault)),
    }
}

/// A value that may pass from one thread to another.
fn is_send<T: Send>(_: &T) {}

fn same_entries(found: &[Bytes], wanted: &[&[u8]]) -> bool {
    if found.len() != wanted.len() {
        return false;
    }
    for (one, other) in found.iter().zip(wanted) {
        if one.items() != *other {
            return false;
        }
    }
    true
}

fn is_entry(entry: &Bytes) -> bool
    ensures { IsTrue result ↔ IsEntry entry.now }
{
    !entry.items().is_empty() && entry.items().len() <= 16_777_216
}

fn are_entries(entries: &[Bytes]) -> bool
    ensures { IsTrue result ↔ All IsEntry entries.now }
{
    entries.iter().all(|entry| is_entry(entry))
}

/// All calls from number `first` to number 4,096 fail.
fn all_fail(alloc: Global, first: u64) -> Result<Vec<DiskFail>, AllocError> {
    let mut fails = Vec::new(alloc);
    for call in first..4097 {
        fails.push(DiskFail { call, done: false })?;
    }
    Ok(fails)
}

/// The call of that number fails, with its effect done or not.
fn one_fails(alloc: Global, call: u64, done: bool) -> Result<Vec<DiskFail>, AllocError> {
    let mut fails = Vec::new(alloc);
    fails.push(DiskFail { call, done })?;
    Ok(fails)
}

#[test]
fn a_stop_at_each_call_keeps_the_acknowledged_entries(rt: HostRuntime) -> Result<(), Fail> {
    let alloc = rt.alloc();
    let mut most = 0;
    for first in 1..32 {
        let run = run_journal(alloc, all_fail(alloc, first)?, &ENTRIES)?;
        let found = opened(alloc, run.disk.bytes())?;
        let Some(answers) = &run.answers else {
            match found {
                Ok(entries) => assert!(rt; entries.is_empty(), "from call {first}"),
                Err(fault) => assert_eq!(rt; fault, JournalFault::NotAJournal, "from call {first}"),
            }
            continue;
        };
        let kept = answers.iter().filter(|answer| answer.is_ok()).count();
        let Ok(entries) = found else {
            return Err(Fail::new("an acknowledged journal does not open"));
        };
        let count = entries.len();
        assert!(rt;
            kept <= count && count - kept <= 1 && count <= 3,
            "from call {first}"
        );
        assert!(rt;
            same_entries(&entries, &ENTRIES[..count]),
            "from call {first}"
        );
        most = kept;
    }
    // From call 19 on the whole run is made.
    assert_eq!(rt; most, 3);
    Ok(())
}

#[test]
fn a_refused_entry_stands_in_no_later_opening(rt: HostRuntime) -> Result<(), Fail> {
    let alloc = rt.alloc();
    // The second append writes its record by call 11 and its gate by call 13, and syncs each by the next.
    for (call, done, left) in [
        (11, false, 1),
        (11, true, 1),
        (12, false, 1),
        (13, false, 1),
        (13, true, 2),
        (14, false, 2),
    ] {
        let stopped = run_journal(alloc, one_fails(alloc, call, done)?, &[b"one", b"two"])?;
        let went_on = run_journal(
            alloc,
            one_fails(alloc, call, done)?,
            &[b"one", b"two", b"six"],
        )?;
        for answers in [&stopped.answers, &went_on.answers] {
            let second = answers.as_ref().and_then(|answers| answers.get(1));
            assert_eq!(rt; second, Some(&Err(KeeperFault::Failed)), "call {call}");
        }
        let found = opened(alloc, stopped.disk.bytes())?
            .ok()
            .map(|entries| entries.len());
        assert_eq!(rt; found, Some(left), "call {call}, done {done}");
        let Ok(found) = opened(alloc, went_on.disk.bytes())? else {
            return Err(Fail::new("a mended journal does not open"));
        };
        assert!(rt;
            same_entries(&found, &[b"one", b"six"]),
            "call {call}, done {done}"
        );
    }
    Ok(())
}

#[test]
fn a_journal_made_with_entries_is_whole_or_none(rt: HostRuntime) -> Result<(), Fail> {
    let alloc = rt.alloc();
    let mut entries = Vec::new(alloc);
    for entry in ENTRIES {
        entries.push(bytes(alloc, entry)?)?;
    }
    assert!(rt; are_entries(&entries));
    // From call 8 on it is made whole.
    for first in 1..12 {
        let disk = MemoryDisk::new(alloc, bytes(alloc, b"")?, all_fail(alloc, first)?);
        match Journal::create_with(alloc, disk, &entries) {
            Ok(journal) => {
                assert!(rt; first >= 8, "from call {first}");
                let disk = journal.into_disk();
                assert_eq!(rt;
                    disk.bytes(),
                    b"ANNOBOOK\x02\0\0\0\0\0\0\0\x01\x03\0\0\0one\x01\x0e\0\0\0a second entry\x01\x01\0\0\x003\0".as_slice()
                );
                let Ok(found) = opened(alloc, disk.bytes())? else {
                    return Err(Fail::new("a journal made with entries does not open"));
                };
                assert!(rt; same_entries(&found, &ENTRIES));
                let Err((_, fault)) = Journal::create_with(alloc, disk, &entries) else {
                    return Err(Fail::new("a journal is made over another"));
                };
                assert!(rt; matches!(fault, JournalFault::AlreadyThere(50) | JournalFault::Disk));
            }
            Err((disk, fault)) => {
                assert!(rt;
                    first < 8 && fault == JournalFault::Disk,
                    "from call {first}"
                );
                match opened(alloc, disk.bytes())? {
                    Ok(found) => assert!(rt; same_entries(&found, &ENTRIES), "from call {first}"),
                    Err(fault) => assert_eq!(rt;
                        fault,
                        JournalFault::NotAJournal,
                        "from call {first}"
                    ),
                }
            }
        }
    }
    Ok(())
}

#[test]
fn a_keeper_in_memory_refuses_by_number(rt: HostRuntime) -> Result<(), Fail> {
    let alloc = rt.alloc();
    let mut fails = Vec::new(alloc);
    fails.push(2)?;
    let mut keeper = MemoryKeeper::new(alloc, Vec::new(alloc), fails);
    is_send(&keeper);
    assert_eq!(rt; keeper.append(b"one"), Ok(()));
    assert_eq!(rt; keeper.append(b"two"), Err(KeeperFault::Failed));
    assert_eq!(rt; keeper.append(b"two"), Ok(()));
    assert!(rt; same_entries(keeper.entries(), &[b"one", b"two"]));
    Ok(())
}

#[test]
fn a_real_file_keeps_entries(rt: HostRuntime) -> Result<(), Fail> {
    let alloc = rt.alloc();
    let file = File::create_new(&rt, "book")?;
    let Ok(mut journal) = Journal::create(alloc, FileDisk::new(file)) else {
        return Err(Fail::new("no journal"));
    };
    is_send(&journal);
    journal.append(b"one")?;
    journal.append(b"two")?;
    let _ = journal.into_disk();
    let file = OpenOptions::new().read(true).write(true).open(&rt, "book")?;
    let Ok((mut journal, found)) = Journal::open(alloc, FileDisk::new(file)) else {
        return Err(Fail::new("it does not open"));
    };
    assert!(rt; same_entries(&found, &[b"one", b"two"]));
    journal.append(b"six")?;
    let Err((_, fault)) = Journal::create(alloc, journal.into_disk()) else {
        return Err(Fail::new("a journal is made over another"));
    };
    assert_eq!(rt; fault, JournalFault::AlreadyThere(41));
    // A file that is open for reading alone takes no write.
    let Ok((mut journal, found)) = Journal::open(alloc, FileDisk::new(File::open(&rt, "book")?))
    else {
        return Err(Fail::new("it does not open for reading"));
    };
    assert!(rt; same_entries(&found, &[b"one", b"two", b"six"]));
    assert_eq!(rt; journal.append(b"ten"), Err(KeeperFault::Failed));
    assert_eq!(rt;
        fs::read(&rt, "book")?.as_slice(),
        b"ANNOBOOK\x01\0\0\0\0\0\0\0\x01\x03\0\0\0one\x01\x03\0\0\0two\x01\x03\0\0\0six\0".as_slice()
    );
    Ok(())
}
