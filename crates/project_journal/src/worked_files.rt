//! The definitions of the format on files written by hand.
ghost use Rattle.std.specs.Prelude.{◌≡◌, ◌++◌, [], ◌∷◌, true, false, None, Some, codes, drop};
ghost use Rattle.project_journal.specs.JournalFile.{is_journal, is_known, version, damage, record_of, new_file, opened};

/// What the definitions say of worked files: the empty journal, the record of an entry, and files that are
/// cut, damaged, or of another version. It does nothing when it runs.
pub fn show_worked_files()
    ensures empty { new_file 1 [] ≡ codes "ANNOBOOK" ++ 1 ∷ 0 ∷ 0 ∷ 0 ∷ 0 ∷ 0 ∷ 0 ∷ 0 ∷ 0 ∷ [] }
    ensures empty_opens { opened (new_file 1 []) ≡ Some [] }
    ensures entry_record { record_of (3 ∷ codes "\u{3}ann\0\0\0\0") ≡ 9 ∷ 0 ∷ 0 ∷ 0 ∷ 3 ∷ codes "\u{3}ann\0\0\0\0" }
    ensures short { is_journal (codes "ANN") ≡ false }
    ensures newer { is_known (version (new_file 9 [])) ≡ false }

    // The reserved bytes are not tested.
    ensures reserved { opened (codes "ANNOBOOK" ++ 2 ∷ 0 ∷ 0 ∷ 0 ∷ codes "read" ++ 0 ∷ []) ≡ Some [] }

    // The last record is cut after its length, behind a closed gate and behind an open one.
    ensures cut { opened (new_file 1 (codes "a" ∷ []) ++ 3 ∷ 0 ∷ 0 ∷ 0 ∷ []) ≡ Some (codes "a" ∷ []) }
    ensures damaged { damage (codes "ANNOBOOK" ++ 1 ∷ 0 ∷ 0 ∷ 0 ∷ 0 ∷ 0 ∷ 0 ∷ 0 ∷ 1 ∷ 1 ∷ 0 ∷ 0 ∷ 0 ∷ codes "a" ++ 1 ∷ 3 ∷ 0 ∷ 0 ∷ 0 ∷ []) ≡ Some 2 }
{}
