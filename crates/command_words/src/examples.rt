//! The definitions of words on a few examples.
ghost use Rattle.std.specs.Prelude.{◌≡◌, ◌∷◌, [], None, Some, codes};
ghost use Rattle.command_words.specs.Asked.{command_of, Agree, ColumnsIn, Compact, Curated, Found, Help, OnBook, Progress, Scores, Session, Snapshots, Try, Verify, Version};

/// Which words are a command.
pub fn examples_of_words()
    ensures files { command_of (codes "try" ∷ codes "a" ∷ codes "b" ∷ []) ≡ Some (Try (codes "a") (codes "b")) }
    ensures case { command_of (codes "Try" ∷ codes "a" ∷ codes "b" ∷ []) ≡ None }
    ensures hyphen { command_of (codes "try" ∷ codes "a" ∷ codes "--help" ∷ []) ≡ None }
    ensures help { command_of (codes "--help" ∷ []) ≡ Some Help }
    ensures version { command_of (codes "--version" ∷ []) ≡ Some Version }
    ensures alone { command_of (codes "agree" ∷ []) ≡ None }
    ensures few { command_of (codes "try" ∷ codes "a" ∷ []) ≡ None }
    ensures many { command_of (codes "try" ∷ codes "a" ∷ codes "b" ∷ codes "c" ∷ []) ≡ None }
    ensures three { command_of (codes "verify" ∷ codes "a" ∷ codes "b" ∷ codes "c" ∷ []) ≡ Some (Verify (codes "a") (codes "b") (codes "c")) }
    ensures columns { command_of (codes "columns-in" ∷ codes "a" ∷ codes "b" ∷ codes "c" ∷ []) ≡ Some (ColumnsIn (codes "a") (codes "b") (codes "c")) }
    ensures outward { command_of (codes "columns-out" ∷ codes "a" ∷ codes "b" ∷ []) ≡ None }
    ensures zeros { command_of (codes "curated" ∷ codes "b" ∷ codes "007" ∷ []) ≡ Some (OnBook (Curated (codes "b") 7)) }
    ensures signed { command_of (codes "curated" ∷ codes "b" ∷ codes "+7" ∷ []) ≡ None }
    ensures large { command_of (codes "curated" ∷ codes "b" ∷ codes "4294967296" ∷ []) ≡ None }
    ensures founded { command_of (codes "found" ∷ codes "b" ∷ codes "c" ∷ codes "r" ∷ []) ≡ Some (OnBook (Found (codes "b") (codes "c") (codes "r") 255)) }
    ensures levelled { command_of (codes "found-at" ∷ codes "b" ∷ codes "c" ∷ codes "r" ∷ codes "0" ∷ []) ≡ Some (OnBook (Found (codes "b") (codes "c") (codes "r") 0)) }
    ensures no_level { command_of (codes "found-at" ∷ codes "b" ∷ codes "c" ∷ codes "r" ∷ codes "255" ∷ []) ≡ None }
    ensures one { command_of (codes "session" ∷ codes "b" ∷ []) ≡ Some (Session (codes "b")) }
    ensures agreed { command_of (codes "agree" ∷ codes "b" ∷ []) ≡ Some (OnBook (Agree (codes "b"))) }
    ensures scored { command_of (codes "scores" ∷ codes "b" ∷ []) ≡ Some (OnBook (Scores (codes "b"))) }
    ensures progressed { command_of (codes "progress" ∷ codes "b" ∷ []) ≡ Some (OnBook (Progress (codes "b"))) }
    ensures shot { command_of (codes "snapshots" ∷ codes "b" ∷ []) ≡ Some (OnBook (Snapshots (codes "b"))) }
    ensures shot_of_a_number { command_of (codes "snapshots" ∷ codes "b" ∷ codes "1" ∷ []) ≡ None }
    ensures apart { command_of (codes "compact" ∷ codes "b" ∷ codes "n" ∷ []) ≡ Some (Compact (codes "b") (codes "n")) }
    ensures itself { command_of (codes "compact" ∷ codes "b" ∷ codes "b" ∷ []) ≡ None }
    ensures two { command_of (codes "verify" ∷ codes "a" ∷ codes "b" ∷ []) ≡ None }
{}
