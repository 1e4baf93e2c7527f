//! A folder of files.
ghost use Rattle.std.specs.Prelude.{◌≡◌, ◌≤◌, ℕ, List, Option, IsErrOf};
ghost use Rattle.mark_base.specs.Streams.{TellsFault};
ghost use Rattle.program_inputs.specs.Folder.{ReadTells};

use mark_base::Bytes;
use std::alloc::Global;

/// Why a file was not read.
#[derive(Clone, Copy, Debug, PartialEq, Eq)]
pub enum FolderFault {
    /// There is no file of that name.
    Absent,
    /// The file has more bytes than the limit.
    TooLong,
    /// A fault of the device, which it counted.
    Failed,
    /// Want of memory.
    Memory,
}

/// A folder of files. A file may change between two reads, but for a folder that tells its files.
pub trait Folder {
    /// The file of a name, where the folder tells it: that there is none, or its bytes.
    ghost file: { Self → List ℕ → Option (Option (List ℕ)) };

    /// How many reads have failed. The count never falls, and stands still at the type's last value.
    ghost folder_faults: { Self → ℕ };

    /// Reads a whole file of at most `limit` bytes. Cost: its bytes.
    fn read(&mut self, alloc: Global, name: &str, limit: u64) -> Result<Bytes, FolderFault>
        ensures told { ReadTells (file self.old name.now) limit (folder_faults self.old) (folder_faults self.new) result }
        ensures kept { (name : List ℕ) → file self.new name ≡ file self.old name }
        ensures later { folder_faults self.old ≤ folder_faults self.new }
        ensures cause { TellsFault (IsErrOf result FolderFault.Failed) (folder_faults self.old) (folder_faults self.new) };
}
