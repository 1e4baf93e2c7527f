//! The rows of a file.
ghost use Rattle.std.specs.Prelude.{◌≡◌, ◌≤◌, map, length, IfOk};
ghost use Rattle.csv.specs.Records.{fields_of};
ghost use Rattle.roster_file.specs.RosterFiles.{rows_of};

use csv::{ByteRecord, ReaderBuilder};
use mark_base::Memory;
use std::alloc::Global;

/// The records of a file, of any number of fields each. A slice takes no fault but want of memory.
pub fn rows_of(alloc: Global, bytes: &[u8]) -> Result<Vec<ByteRecord>, Memory>
    ensures rows { IfOk result (λ rows. map fields_of rows.items ≡ rows_of bytes.now) }
    ensures few { IfOk result (λ rows. length rows.items ≤ length bytes.now) }
{
    let reader = ReaderBuilder::new()
        .has_headers(false)
        .flexible(true)
        .from_reader(alloc, bytes);
    let mut rows = Vec::new(alloc);
    for row in reader.into_byte_records() {
        let Ok(row) = row else {
            return Err(Memory);
        };
        rows.push(row)?;
    }
    Ok(rows)
}
