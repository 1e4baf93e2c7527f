//! Tests of the adapters over the system: its files, a device that takes nothing, and ports of 127.0.0.1.
use crate::console::Console;
use crate::error_sink::ErrorSink;
use crate::file_folder::FileFolder;
use crate::tcp_doors::TcpDoors;
use mark_base::{Failed, Sink, Source};
use named_disks::{Disks, DisksFault, FileDisks};
use program_inputs::{Folder, FolderFault};
use project_journal::Disk;
use serve_command::{Door, Doors};
use std::fs;
use std::fs::{File, OpenOptions};
use std::io::{Read, Write};
use std::net::{Net, Shutdown, TcpListener, TcpStream};
use std::test::Fail;

/// The text that a folder reads, or why it reads none.
fn text_of(
    rt: &HostRuntime,
    folder: &mut FileFolder<HostRuntime>,
    name: &str,
    limit: u64,
) -> Result<String, Fail> {
    match folder.read(rt.alloc(), name, limit) {
        Ok(bytes) => Ok(String::from_utf8_lossy(rt.alloc(), bytes.items())?),
        Err(fault) => Ok(format!(in rt.alloc(); "{fault:?}")?),
    }
}

#[test]
fn a_file_is_read_up_to_one_byte_more_than_its_limit(rt: HostRuntime) -> Result<(), Fail> {
    fs::write(&rt, "news", b"Rome")?;
    fs::create_dir(&rt, "folder")?;
    let mut folder = FileFolder::new(rt.clone()?);
    for (name, limit, wanted) in [
        ("news", 5, "Rome"),
        ("news", 4, "Rome"),
        ("news", 3, "TooLong"),
        ("news", 0, "TooLong"),
        // A file without an end is read so far too, and no further.
        ("/dev/zero", 3, "TooLong"),
        ("/dev/null", 0, ""),
        ("other", 4, "Absent"),
        ("news/other", 4, "Absent"),
        ("folder", 4, "Failed"),
    ] {
        assert_eq!(rt;
            text_of(&rt, &mut folder, name, limit)?.as_str(),
            wanted,
            "{name} with {limit}"
        );
    }
    Ok(())
}

/// Whether a file was refused, and why.
fn refusal_of<T: Drop>(taken: Result<T, DisksFault>) -> Option<DisksFault> {
    match taken {
        Ok(_) => None,
        Err(fault) => Some(fault),
    }
}

#[test]
fn a_file_is_kept_as_it_was_written_and_one_holder_has_it(rt: HostRuntime) -> Result<(), Fail> {
    let alloc = rt.alloc();
    fs::create_dir(&rt, "shelf")?;
    let mut disks = FileDisks::new(rt.clone()?);
    assert_eq!(rt;
        refusal_of(disks.disk(alloc, "book")),
        Some(DisksFault::Absent)
    );
    assert_eq!(rt;
        refusal_of(disks.look(alloc, "book")),
        Some(DisksFault::Absent)
    );
    assert_eq!(rt;
        refusal_of(fs::read(&rt, "book").map_err(|_| DisksFault::Absent)),
        Some(DisksFault::Absent)
    );
    assert_eq!(rt;
        refusal_of(disks.make(alloc, "other/book")),
        Some(DisksFault::Failed)
    );
    assert_eq!(rt;
        refusal_of(disks.disk(alloc, "shelf")),
        Some(DisksFault::Failed)
    );
    let mut disk = disks.make(alloc, "book")?;
    disk.reserve(2, 4)?;
    disk.write_at(0, b"Rome")?;
    disk.sync()?;
    // Nobody else has the file meanwhile, by this name or by another path to it; a look takes no lock.
    for name in ["book", "./book", "shelf/../book"] {
        assert_eq!(rt;
            refusal_of(disks.disk(alloc, name)),
            Some(DisksFault::InUse),
            "{name}"
        );
        assert_eq!(rt;
            refusal_of(disks.make(alloc, name)),
            Some(DisksFault::InUse),
            "{name}"
        );
    }
    assert_eq!(rt; disks.look(alloc, "book")?.items(), b"Rome".as_slice());
    disks.give_back("book", disk);
    // It holds what was written, whoever takes it then.
    let mut disk = disks.disk(alloc, "book")?;
    disk.reserve(2, 4)?;
    assert_eq!(rt; disk.len()?, 4);
    let mut room = [0u8; 8];
    assert_eq!(rt; disk.read(1, &mut room)?, 3);
    assert_eq!(rt; room, *b"ome\0\0\0\0\0");
    disks.give_back("book", disk);
    let mut disk = disks.make(alloc, "book")?;
    disk.reserve(1, 4)?;
    assert_eq!(rt; disk.len()?, 4);
    disks.give_back("book", disk);
    assert_eq!(rt; fs::read(&rt, "book")?.as_slice(), b"Rome".as_slice());
    Ok(())
}

/// A device that takes no byte.
fn full(rt: &HostRuntime) -> Result<File, Fail> {
    Ok(OpenOptions::new().write(true).open(rt, "/dev/full")?)
}

#[test]
fn what_is_written_arrives_and_what_is_not_taken_is_a_fault(rt: HostRuntime) -> Result<(), Fail> {
    let mut sink = ErrorSink::new(File::create(&rt, "complaint")?);
    assert_eq!(rt; sink.write(b"disk: InUse\n"), Ok(12));
    assert_eq!(rt; sink.write(b""), Ok(0));
    // It is there before the sink is closed.
    assert_eq!(rt;
        fs::read(&rt, "complaint")?.as_slice(),
        b"disk: InUse\n".as_slice()
    );
    let mut sink = ErrorSink::new(full(&rt)?);
    assert_eq!(rt; sink.write(b"disk: InUse\n"), Err(Failed));
    let mut console = Console::new(File::open(&rt, "complaint")?, File::create(&rt, "answer")?);
    assert_eq!(rt; console.write(b"place 2\n"), Ok(8));
    assert_eq!(rt;
        fs::read(&rt, "answer")?.as_slice(),
        b"place 2\n".as_slice()
    );
    let mut room = [0u8; 5];
    assert_eq!(rt; console.read(&mut room), Ok(5));
    assert_eq!(rt; room, *b"disk:");
    // A file that is open for writing alone is not read.
    let mut console = Console::new(full(&rt)?, full(&rt)?);
    assert_eq!(rt; console.read(&mut room), Err(Failed));
    assert_eq!(rt; console.write(b"place 2\n"), Err(Failed));
    Ok(())
}

/// A port of this machine at which nobody listens, as far as the system tells it.
fn free_port(rt: &HostRuntime) -> Result<u16, Fail> {
    let listener = TcpListener::bind(rt, ("127.0.0.1", 0u16))?;
    Ok(listener.local_addr()?.port())
}

/// What comes from a connection until it ends.
fn rest_of<S: Read>(rt: &HostRuntime, stream: &mut S) -> Result<String, Fail> {
    let mut bytes = Vec::new(rt.alloc());
    stream.read_to_end(&mut bytes)?;
    Ok(String::from_utf8_lossy(rt.alloc(), bytes.as_slice())?)
}

#[test]
fn a_port_is_listened_at_on_one_address(rt: HostRuntime) -> Result<(), Fail> {
    let port = free_port(&rt)?;
    let mut doors = TcpDoors::new(rt.clone()?, File::create(&rt, "voice")?);
    let Ok(mut door) = doors.door(port) else {
        return Err(Fail::new("the port is not had"));
    };
    // One that is had is not had again, and programs of this machine alone come in, by this one address.
    assert!(rt; doors.door(port).is_err());
    assert!(rt; TcpStream::connect(&rt, ("127.0.0.2", port)).is_err());
    let mut client = TcpStream::connect(&rt, ("127.0.0.1", port))?;
    client.write_all(b"GET /docs")?;
    let Ok(Some(mut link)) = door.next() else {
        return Err(Fail::new("no connection comes"));
    };
    let said = format!(in rt.alloc(); "annotate: serving at http://127.0.0.1:{port}\n")?;
    assert_eq!(rt; fs::read(&rt, "voice")?.as_slice(), said.as_bytes());
    let mut room = [0u8; 16];
    assert_eq!(rt; link.read(&mut room), Ok(9));
    assert_eq!(rt; room, *b"GET /docs\0\0\0\0\0\0\0");
    assert_eq!(rt; link.write(b"200 OK"), Ok(6));
    // What the client sends and nobody reads does not cost it the answer.
    client.write_all(b" and more that comes too late")?;
    drop(link);
    assert_eq!(rt; rest_of(&rt, &mut client)?.as_str(), "200 OK");
    // A client that has ended is at its end, and the next one comes in.
    let mut client = TcpStream::connect(&rt, ("127.0.0.1", port))?;
    client.write_all(b"ends")?;
    client.shutdown(Shutdown::Write)?;
    let Ok(Some(mut link)) = door.next() else {
        return Err(Fail::new("no second connection comes"));
    };
    assert_eq!(rt; link.read(&mut room), Ok(4));
    assert_eq!(rt; link.read(&mut room), Ok(0));
    assert_eq!(rt; link.write(b"done"), Ok(4));
    drop(link);
    assert_eq!(rt; rest_of(&rt, &mut client)?.as_str(), "done");
    assert_eq!(rt; fs::read(&rt, "voice")?.as_slice(), said.as_bytes());
    // At a door that came back nobody listens any more.
    assert_eq!(rt; door.faults(), 0);
    doors.give_back(door);
    assert!(rt; TcpStream::connect(&rt, ("127.0.0.1", port)).is_err());
    Ok(())
}
