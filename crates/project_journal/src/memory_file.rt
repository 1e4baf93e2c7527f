//! Reads, writes and cuts of a file in memory, within the memory that it has.
ghost use Rattle.std.specs.Prelude.{◌≡◌, ℕ, ◌+◌, ◌-◌, ◌<◌, ◌≤◌, ◌++◌, List, IsNone, length, take, drop, replicate, min, true, unwrap_or, if◌then◌else◌};
ghost use Rattle.std.specs.Vec.{vec_capacity};
ghost use Rattle.project_journal.specs.Disk.{written, Torn, Resized};
ghost use Rattle.project_journal.specs.MemoryDisks.{overwritten, resized};

/// Adds zeros up to that length.
fn fill(bytes: &mut Vec<u8>, end: usize)
    requires { end ≤ vec_capacity bytes.old }
    ensures items { bytes.new.items ≡ bytes.old.items ++ replicate (end - length bytes.old.items) 0 }
    ensures capacity { vec_capacity bytes.old ≤ vec_capacity bytes.new }
{
    if end > bytes.len() {
        if bytes.resize(end, 0).is_err() {
            unreachable!();
        }
    }
}

/// Writes within the file.
fn put(bytes: &mut Vec<u8>, at: usize, piece: &[u8])
    requires { at + length piece.now ≤ length bytes.old.items }
    ensures items { bytes.new.items ≡ written bytes.old.items at piece.now }
    ensures capacity { vec_capacity bytes.old ≤ vec_capacity bytes.new }
{
    bytes[at..at + piece.len()].copy_from_slice(piece);
}

/// Writes over what is there and past the end, with zeros between.
fn overwrite(bytes: &mut Vec<u8>, at: usize, piece: &[u8])
    requires { at + length piece.now ≤ vec_capacity bytes.old }
    ensures exact { bytes.new.items ≡ overwritten at piece.now bytes.old.items }
    ensures torn { Torn at (length piece.now) bytes.old.items bytes.new.items }
    ensures written { at ≤ length bytes.old.items → bytes.new.items ≡ written bytes.old.items at piece.now }
    ensures gap { length bytes.old.items ≤ at → (front : List ℕ) × (bytes.new.items ≡ front ++ piece.now) × (length front ≡ at) × (take (length bytes.old.items) front ≡ bytes.old.items) }
    ensures capacity { vec_capacity bytes.old ≤ vec_capacity bytes.new }
{
    fill(bytes, at + piece.len());
    put(bytes, at, piece);
}

/// Makes the file that long, with zeros past the old end.
fn shorten(bytes: &mut Vec<u8>, len: usize)
    requires { len ≤ vec_capacity bytes.old }
    ensures exact { bytes.new.items ≡ resized len bytes.old.items }
    ensures resized { Resized len bytes.old.items bytes.new.items }
    ensures length { length bytes.new.items ≡ len }
    ensures shorter { len ≤ length bytes.old.items → bytes.new.items ≡ take len bytes.old.items }
    ensures capacity { vec_capacity bytes.old ≤ vec_capacity bytes.new }
{
    if bytes.resize(len, 0).is_err() {
        unreachable!();
    }
}

/// Writes, but where the call fails with no effect.
pub fn write_unless(fail: Option<bool>, bytes: &mut Vec<u8>, at: usize, piece: &[u8])
    requires { at + length piece.now ≤ vec_capacity bytes.old }
    ensures exact { bytes.new.items ≡ (if unwrap_or fail true then overwritten at piece.now bytes.old.items else bytes.old.items) }
    ensures torn { Torn at (length piece.now) bytes.old.items bytes.new.items }
    ensures written { IsNone fail → at ≤ length bytes.old.items → bytes.new.items ≡ written bytes.old.items at piece.now }
    ensures gap { IsNone fail → length bytes.old.items ≤ at → (front : List ℕ) × (bytes.new.items ≡ front ++ piece.now) × (length front ≡ at) × (take (length bytes.old.items) front ≡ bytes.old.items) }
    ensures capacity { vec_capacity bytes.old ≤ vec_capacity bytes.new }
{
    if let Some(false) = fail {
        return;
    }
    overwrite(bytes, at, piece);
}

/// Changes the length, but where the call fails with no effect.
pub fn cut_unless(fail: Option<bool>, bytes: &mut Vec<u8>, len: usize)
    requires { len ≤ vec_capacity bytes.old }
    ensures exact { bytes.new.items ≡ (if unwrap_or fail true then resized len bytes.old.items else bytes.old.items) }
    ensures resized { Resized len bytes.old.items bytes.new.items }
    ensures length { IsNone fail → length bytes.new.items ≡ len }
    ensures shorter { IsNone fail → len ≤ length bytes.old.items → bytes.new.items ≡ take len bytes.old.items }
    ensures capacity { vec_capacity bytes.old ≤ vec_capacity bytes.new }
{
    if let Some(false) = fail {
        return;
    }
    shorten(bytes, len);
}

/// Copies bytes from that offset on into the room.
pub fn copy_out(bytes: &[u8], at: usize, room: &mut [u8]) -> usize
    ensures count { result ≡ min (length room.old) (length (drop at bytes.now)) }
    ensures within { result ≤ length room.old }
    ensures bytes { take result room.new ≡ take result (drop at bytes.now) }
    ensures there { result ≤ length (drop at bytes.now) }
    ensures some { at < length bytes.now → 0 < length room.old → 0 < result }
{
    if at >= bytes.len() {
        return 0;
    }
    let count = (bytes.len() - at).min(room.len());
    room[..count].copy_from_slice(&bytes[at..at + count]);
    count
}
