//! A folder in memory, whose reads fail by number.
ghost use Rattle.std.specs.Prelude.{◌≡◌, Some, option_map};
ghost use Rattle.program_inputs.specs.Folder.{file_among};

use crate::folder::{Folder, FolderFault};
use mark_base::{Bytes, FailList, Memory, Text};
use std::alloc::Global;

/// A folder in memory.
#[derive(Debug, Drop)]
pub struct MemoryFolder {
    files: Vec<(Text, Bytes)>,
    fails: FailList,
}

impl MemoryFolder {
    /// A folder of these files, each a name and its bytes; of several files of one name the first
    /// counts. The numbers name the reads, from 1, that fail.
    pub fn new(files: Vec<(Text, Bytes)>, fails: Vec<u64>) -> Self
        ensures files { ⟦<MemoryFolder as Folder>⟧.file result ≡ (λ name. Some (file_among files.items name)) }
        ensures faults { ⟦<MemoryFolder as Folder>⟧.folder_faults result ≡ 0 }
    {
        MemoryFolder {
            files,
            fails: FailList::new(fails),
        }
    }
}

/// The bytes of the first file of a name.
fn find_file<'f>(files: &'f [(Text, Bytes)], name: &str) -> Option<&'f Bytes>
    ensures { option_map (λ bytes. bytes.now) result ≡ file_among files.now name.now }
{
    for file in files {
        if file.0.text() == name {
            return Some(&file.1);
        }
    }
    None
}

impl Folder for MemoryFolder {
    ghost file = { λ folder name. Some (file_among folder.files.items name) };

    ghost folder_faults = { λ folder. folder.fails.faults };

    fn read(&mut self, _alloc: Global, name: &str, limit: u64) -> Result<Bytes, FolderFault> {
        if self.fails.fails() {
            return Err(FolderFault::Failed);
        }
        match find_file(&self.files, name) {
            Some(bytes) if bytes.items().len() as u64 > limit => Err(FolderFault::TooLong),
            Some(bytes) => match bytes.copy() {
                Ok(bytes) => Ok(bytes),
                Err(Memory) => Err(FolderFault::Memory),
            },
            None => Err(FolderFault::Absent),
        }
    }
}
