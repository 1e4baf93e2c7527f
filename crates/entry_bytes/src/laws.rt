//! Laws of the bytes of entries. The functions do nothing; each clause is a law that holds of all entries.
ghost use Rattle.std.specs.Prelude.{◌≡◌, ℕ, ◌≤◌, List, length, Some};
ghost use Rattle.entry_bytes.specs.declared.entry.Entry.{Entry};
ghost use Rattle.entry_bytes.specs.Entries.{entry_bytes, HasSizes, IsEntry};
ghost use Rattle.entry_bytes.specs.EntryReading.{entry_of};

/// The bytes of an entry are those of no other entry, and reading them gives the entry.
pub fn entries_are_told_apart()
    // Reading gives back what was written.
    ensures read_again { (e : Entry) → IsEntry e → entry_of (entry_bytes e) ≡ Some e }
    // No two entries have the same bytes.
    ensures no_two { (d e : Entry) → IsEntry d → IsEntry e → entry_bytes d ≡ entry_bytes e → d ≡ e }
{}

/// No entry is without bytes, and each has the sizes with which it can be written.
pub fn entries_have_bytes()
    ensures some { (e : Entry) → 1 ≤ length (entry_bytes e) }
    ensures sizes { (e : Entry) → IsEntry e → HasSizes e }
{}
