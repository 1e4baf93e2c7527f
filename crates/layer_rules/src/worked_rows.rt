//! The definitions at work on fragments and texts. Each function does nothing; its clauses are computed
//! when the crate is checked.
ghost use Rattle.std.specs.Prelude.{◌≡◌, [], ◌∷◌, codes, true, false};
ghost use Rattle.overlap_rules.specs.Overlaps.{reach};
ghost use Rattle.layer_rules.specs.BadTexts.{are_fragments, is_bad_text, is_bad_store, is_bad_entry};

/// Fragments in order, how far they reach, and texts, stores and entries that may stand.
pub fn examples_of_fields()
    ensures in_order { are_fragments (record { start = 0; end = 5 } ∷ record { start = 5; end = 8 } ∷ []) ≡ true }
    ensures overlapping { are_fragments (record { start = 0; end = 5 } ∷ record { start = 4; end = 8 } ∷ []) ≡ false }
    ensures empty_fragment { are_fragments (record { start = 3; end = 3 } ∷ []) ≡ false }
    ensures no_fragment { are_fragments [] ≡ false }
    ensures reaches { reach (record { start = 2; end = 5 } ∷ record { start = 16; end = 23 } ∷ []) ≡ 21 }
    ensures line_feed { is_bad_text (codes "a\nb") ≡ true }
    ensures empty_text { is_bad_text (codes "") ≡ false }
    ensures colon { is_bad_store (codes "Wiki:pedia") ≡ true }
    ensures colon_in_entry { is_bad_entry (codes "Q:64") ≡ false }
    ensures space_in_entry { is_bad_entry (codes "Q 64") ≡ true }
    ensures empty_entry { is_bad_entry (codes "") ≡ true }
{}
