//! How many lines of each sort were passed.
ghost use Rattle.std.specs.Prelude.{◌≡◌, ◌<◌, ◌+◌, OnOk, Some, unwrap_or};
ghost use Rattle.std.specs.Ordering.{nat_cmp};
ghost use Rattle.std.specs.BTreeMap.{Updates, get};
ghost use Rattle.ann_reader.specs.LineFaults.{counted_byte};

use mark_base::Memory;
use std::alloc::Global;
use std::collections::BTreeMap;

/// The first byte as which a line is counted: attributes are counted under one letter.
fn counted_byte(byte: u8) -> u8
    ensures { result ≡ counted_byte byte }
{
    if byte == b'M' { b'A' } else { byte }
}

/// How many lines of each sort were passed, by the byte as which they are counted.
pub(crate) type LineCounts = BTreeMap<u8, u32>;

/// How many lines are counted together with those that begin with this byte.
pub(crate) fn count_of(counts: &LineCounts, byte: u8) -> u32
    ensures { result ≡ unwrap_or (get nat_cmp counts.now (counted_byte byte)) 0 }
{
    counts.get(&counted_byte(byte)).copied().unwrap_or(0)
}

/// Counts a line that begins with this byte.
pub(crate) fn count_line(counts: &mut LineCounts, byte: u8) -> Result<(), Memory>
    requires { unwrap_or (get nat_cmp counts.old (counted_byte byte)) 0 < 4294967295 }
    ensures { OnOk result (Updates nat_cmp counts.old counts.new (counted_byte byte) (Some (unwrap_or (get nat_cmp counts.old (counted_byte byte)) 0 + 1))) }
{
    let count = count_of(counts, byte);
    counts.insert(counted_byte(byte), count + 1)?;
    Ok(())
}
