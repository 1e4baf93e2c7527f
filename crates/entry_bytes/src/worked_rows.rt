//! The definition at work on entries. The function does nothing; its clauses are computed when the crate is
//! checked.
ghost use Rattle.std.specs.Prelude.{◌≡◌, [], ◌∷◌, codes, true, false, refl};
ghost use Rattle.entry_bytes.specs.declared.entry.Entry.TheVariants as entry;
ghost use Rattle.entry_bytes.specs.Entries.{entry_bytes};

/// Entries and their bytes.
pub fn examples_of_entries()
    // Checkout by `ann` of document 0.
    ensures a_checkout { entry_bytes (entry.Checkout (codes "ann") 0) ≡ 3 ∷ 3 ∷ 97 ∷ 110 ∷ 110 ∷ 0 ∷ 0 ∷ 0 ∷ 0 ∷ [] }
    // Numbers have their low byte first.
    ensures a_commit { entry_bytes (entry.Commit (codes "b") 258 66051 (codes "T1")) ≡ 5 ∷ 1 ∷ 98 ∷ 2 ∷ 1 ∷ 0 ∷ 0 ∷ 3 ∷ 2 ∷ 1 ∷ 0 ∷ 0 ∷ 0 ∷ 0 ∷ 0 ∷ 2 ∷ 0 ∷ 0 ∷ 0 ∷ 84 ∷ 49 ∷ [] }
    // A curator `cur` and an annotator `a`.
    ensures a_founding { entry_bytes (entry.Found (codes "[x]") (record { name = codes "cur"; curator = true } ∷ record { name = codes "a"; curator = false } ∷ [])) ≡ 1 ∷ 3 ∷ 0 ∷ 0 ∷ 0 ∷ 91 ∷ 120 ∷ 93 ∷ 2 ∷ 1 ∷ 3 ∷ 99 ∷ 117 ∷ 114 ∷ 0 ∷ 1 ∷ 97 ∷ [] }
    // The annotation of kind 1 and number 7 of the holder 2 in snapshot 1 is accepted.
    ensures a_decision { entry_bytes (entry.Decide (codes "cur") 1 2 1 7 true) ≡ 10 ∷ 3 ∷ 99 ∷ 117 ∷ 114 ∷ 1 ∷ 0 ∷ 0 ∷ 0 ∷ 0 ∷ 0 ∷ 0 ∷ 0 ∷ 2 ∷ 1 ∷ 7 ∷ 0 ∷ 0 ∷ 0 ∷ 1 ∷ [] }
    // The row of document 0 and `ann`, of revision 1, finished.
    ensures a_row { entry_bytes (entry.Row 0 (codes "ann") 1 1) ≡ 18 ∷ 0 ∷ 0 ∷ 0 ∷ 0 ∷ 3 ∷ 97 ∷ 110 ∷ 110 ∷ 1 ∷ 0 ∷ 0 ∷ 0 ∷ 0 ∷ 0 ∷ 0 ∷ 0 ∷ 1 ∷ [] }
    ensures an_end { entry_bytes entry.End ≡ 24 ∷ [] }
{}
