//! The files of the system as a folder.
ghost use Rattle.std.specs.Prelude.{◌≡◌, None};

use mark_base::Bytes;
use program_inputs::{Folder, FolderFault};
use std::alloc::Global;
use std::fs;
use std::io::{self, ErrorKind, Read};
use std::rt::Files;

/// The files of the system. It tells nothing of their content. A name below a file is absent. A name
/// that is there and cannot be read as a file, as a folder's, is a fault of the device.
#[derive(Debug, Drop)]
pub struct FileFolder<R> {
    rt: R,
    faults: u64,
}

impl<R> FileFolder<R> {
    /// The files that this runtime reaches, with no fault counted yet.
    pub fn new(rt: R) -> Self
        ensures { result.faults ≡ 0 }
    {
        FileFolder { rt, faults: 0 }
    }
}

/// Whether an error says that there is no such file.
fn is_absent(error: &io::Error) -> bool {
    matches!(error.kind(), ErrorKind::NotFound | ErrorKind::NotADirectory)
}

/// The bytes of a reader, or at most one more than the limit.
fn read_limited<F: Read + Drop>(alloc: Global, file: F, limit: u64) -> io::Result<Vec<u8>> {
    let mut bytes = Vec::new(alloc);
    file.take(limit.saturating_add(1)).read_to_end(&mut bytes)?;
    Ok(bytes)
}

impl<R: Files> Folder for FileFolder<R> {
    ghost file = { λ folder name. None };

    ghost folder_faults = { λ folder. folder.faults };

    fn read(&mut self, alloc: Global, name: &str, limit: u64) -> Result<Bytes, FolderFault> {
        let read = match fs::open(&self.rt, name) {
            Ok(file) => read_limited(alloc, file, limit),
            Err(error) if is_absent(&error) => return Err(FolderFault::Absent),
            Err(error) => Err(error),
        };
        match read {
            Ok(bytes) if bytes.len() as u64 > limit => Err(FolderFault::TooLong),
            Ok(bytes) => Ok(Bytes::from_vec(bytes)),
            Err(error) if error.kind() == ErrorKind::OutOfMemory => Err(FolderFault::Memory),
            Err(_) => {
                self.faults = self.faults.saturating_add(1);
                Err(FolderFault::Failed)
            }
        }
    }
}
