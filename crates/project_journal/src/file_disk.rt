//! The adapter over a real file.
ghost use Rattle.std.specs.Prelude.{◌≡◌, ◌-◌, ◌≤◌, ◌^◌, None};
ghost use Rattle.mark_base.specs.Streams.{Rose};

use crate::Disk;
use mark_base::{Failed, Memory};
use std::fs::File;
use std::os::unix::fs::{FileExt, MetadataExt};

/// A disk over an open file of the operating system. It tells nothing of what the file holds: that the
/// system keeps the crash model is trusted, and not proved.
///
/// Each call of the system that fails is counted as one fault, and so is a write that takes no bytes. So is a sync after
/// which the file has no name any more, where it had one as the disk was made: it was removed, or another put in its place,
/// and what is written to it is lost once it is closed.
/// The file must be open for reading, and for writing where a journal is to grow in it.
#[derive(Drop)]
pub struct FileDisk {
    file: File,
    is_named: bool,
    faults: u64,
}

/// Whether a file has a name in some folder.
fn has_name(file: &File) -> bool {
    match file.metadata() {
        Ok(metadata) => metadata.nlink() > 0,
        Err(_) => false,
    }
}

impl FileDisk {
    /// A disk over this file. No fault was counted yet.
    pub fn new(file: File) -> Self
        ensures faults { ⟦<FileDisk as Disk>⟧.faults result ≡ 0 }
    {
        let is_named = has_name(&file);
        FileDisk {
            file,
            is_named,
            faults: 0,
        }
    }

    /// Counts a fault.
    fn fault(&mut self) -> Failed
        ensures rose { Rose self.old.faults self.new.faults }
        ensures later { self.old.faults ≤ self.new.faults }
    {
        self.faults = self.faults.saturating_add(1);
        Failed
    }
}

impl Disk for FileDisk {
    ghost holds = { λ disk. None };

    ghost images = { λ disk image. ⊥ };

    ghost moment = { λ disk. 0 };

    ghost left_since = { λ disk t image. ⊥ };

    ghost faults = { λ disk. disk.faults };

    ghost faultless = { λ disk. ⊥ };

    ghost spare = { λ disk. 2 ^ 32 };

    ghost reach = { λ disk. 2 ^ 63 - 1 };

    ghost read_is_image = { λ disk file told. absurd (Prim.cc) };

    ghost images_told = { λ disk image is. absurd is };

    ghost counts_now = { λ disk t image le is. is };

    ghost only_now = { λ disk image left. left };

    fn reserve(&mut self, _calls: u32, end: u64) -> Result<(), Memory> {
        if end >= 1 << 63 {
            return Err(Memory);
        }
        Ok(())
    }

    fn len(&mut self) -> Result<u64, Failed> {
        match self.file.metadata() {
            Ok(metadata) if metadata.len() < 1 << 63 => Ok(metadata.len()),
            _ => Err(self.fault()),
        }
    }

    fn read(&mut self, at: u64, room: &mut [u8]) -> Result<usize, Failed> {
        match self.file.read_at(room, at) {
            Ok(count) => Ok(count),
            Err(_) => Err(self.fault()),
        }
    }

    fn write_at(&mut self, at: u64, piece: &[u8]) -> Result<(), Failed> {
        match self.file.write_all_at(piece, at) {
            Ok(()) => Ok(()),
            Err(_) => Err(self.fault()),
        }
    }

    fn cut(&mut self, len: u64) -> Result<(), Failed> {
        match self.file.set_len(len) {
            Ok(()) => Ok(()),
            Err(_) => Err(self.fault()),
        }
    }

    fn sync(&mut self) -> Result<(), Failed> {
        match self.file.sync_data() {
            Ok(()) if !self.is_named || has_name(&self.file) => Ok(()),
            _ => Err(self.fault()),
        }
    }
}
