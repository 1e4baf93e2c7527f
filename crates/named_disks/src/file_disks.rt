//! The files of the system as disks.
ghost use Rattle.std.specs.Prelude.{◌≡◌, ◌≢◌, None, true};
ghost use Rattle.mark_base.specs.Streams.{TellsFault};
ghost use Rattle.named_disks.specs.DiskFaults.{is_counted};

use crate::disks::{Disks, DisksFault};
use mark_base::Bytes;
use project_journal::FileDisk;
use std::alloc::Global;
use std::fs::{self, File, OpenOptions};
use std::io::{self, ErrorKind, Read};
use std::rt::Files;

/// The files of the system as disks. They tell nothing of what a file holds. A file that cannot be opened as it is asked
/// for, as a folder cannot, is a fault of the device.
///
/// A file that is handed out is locked, whole and for one process, before a byte of it is read, and until its disk is given
/// back or the process ends, however it ends. A file that another process has locked is `InUse`, and left as it is. A file
/// that is looked at is opened for reading alone and takes no lock, so it may be one that another process writes.
#[derive(Debug, Drop)]
pub struct FileDisks<R> {
    rt: R,
    faults: u64,
}

/// What a refusal of the system comes to.
fn fault_of(error: &io::Error) -> DisksFault {
    match error.kind() {
        ErrorKind::NotFound | ErrorKind::NotADirectory => DisksFault::Absent,
        ErrorKind::WouldBlock => DisksFault::InUse,
        ErrorKind::OutOfMemory => DisksFault::Memory,
        _ => DisksFault::Failed,
    }
}

impl<R: Files<File = File>> FileDisks<R> {
    /// The files that this runtime reaches, with no fault counted yet.
    pub fn new(rt: R) -> Self
        ensures { ⟦<FileDisks<R> as Disks>⟧.faults result ≡ 0 }
    {
        FileDisks { rt, faults: 0 }
    }

    /// Counts what is a fault.
    fn count(&mut self, fault: DisksFault)
        ensures { TellsFault (is_counted fault ≡ true) self.old.faults self.new.faults }
    {
        if matches!(fault, DisksFault::InUse | DisksFault::Failed) {
            self.faults = self.faults.saturating_add(1);
        }
    }
}

/// Opens the file of a name for reading and writing, and locks it; one that is not there is made where that is asked.
fn open_locked<R: Files<File = File>>(rt: &R, name: &str, makes: bool) -> io::Result<File> {
    let file = OpenOptions::new()
        .read(true)
        .write(true)
        .create(makes)
        .open(rt, name)?;
    file.try_lock()?;
    Ok(file)
}

/// What the file of a name holds.
fn read_whole<R: Files<File = File>>(rt: &R, alloc: Global, name: &str) -> io::Result<Vec<u8>> {
    let mut bytes = Vec::new(alloc);
    fs::open(rt, name)?.read_to_end(&mut bytes)?;
    Ok(bytes)
}

impl<R: Files<File = File>> Disks for FileDisks<R> {
    type Disk = FileDisk;

    ghost stored = { λ disks. None };

    ghost out = { λ disks. None };

    ghost faults = { λ disks. disks.faults };

    ghost faultless = { λ disks. ⊥ };

    fn disk(&mut self, _alloc: Global, name: &str) -> Result<FileDisk, DisksFault> {
        match open_locked(&self.rt, name, false) {
            Ok(file) => Ok(FileDisk::new(file)),
            Err(error) => {
                let fault = fault_of(&error);
                self.count(fault);
                Err(fault)
            }
        }
    }

    fn make(&mut self, _alloc: Global, name: &str) -> Result<FileDisk, DisksFault> {
        match open_locked(&self.rt, name, true) {
            Ok(file) => Ok(FileDisk::new(file)),
            Err(error) => {
                // A name below no folder cannot be made.
                let fault = match fault_of(&error) {
                    DisksFault::Absent => DisksFault::Failed,
                    fault => fault,
                };
                self.count(fault);
                Err(fault)
            }
        }
    }

    fn look(&mut self, alloc: Global, name: &str) -> Result<Bytes, DisksFault> {
        match read_whole(&self.rt, alloc, name) {
            Ok(bytes) => Ok(Bytes::from_vec(bytes)),
            Err(error) => {
                let fault = fault_of(&error);
                self.count(fault);
                Err(fault)
            }
        }
    }

    fn give_back(&mut self, _name: &str, _disk: FileDisk) {}
}
