//! The folder of a case.
use mark_base::{Bytes, FailList, Text};
use program_inputs::{Folder, FolderFault, MemoryFolder};
use std::alloc::Global;

/// A folder in memory. For some of its reads there is no memory.
#[derive(Debug, Drop)]
pub struct CaseFolder {
    inner: MemoryFolder,
    wants: FailList,
}

impl CaseFolder {
    /// A folder of these files. The numbers name the reads, from 1, for which there is no memory; those of the second list
    /// name the others that fail, from 1 too, the first ones left out.
    pub fn new(files: Vec<(Text, Bytes)>, wants: Vec<u64>, fails: Vec<u64>) -> Self {
        CaseFolder {
            inner: MemoryFolder::new(files, fails),
            wants: FailList::new(wants),
        }
    }
}

impl Folder for CaseFolder {
    ghost file = { λ folder. ⟦<MemoryFolder as Folder>⟧.file folder.inner };

    ghost folder_faults = { λ folder. ⟦<MemoryFolder as Folder>⟧.folder_faults folder.inner };

    fn read(&mut self, alloc: Global, name: &str, limit: u64) -> Result<Bytes, FolderFault> {
        if self.wants.fails() {
            return Err(FolderFault::Memory);
        }
        self.inner.read(alloc, name, limit)
    }
}
