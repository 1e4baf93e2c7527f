//! The definitions at work on small snapshots. The functions do nothing; their clauses are computed when the
//! crate is checked.
ghost use Rattle.std.specs.Prelude.{◌≡◌, [], ◌∷◌, length};
ghost use Rattle.content_keys.specs.WorkedLayers.{e, t};
ghost use Rattle.unanimous_merge.specs.Items.{items_of};
ghost use Rattle.unanimous_merge.specs.Unanimous.{unanimous_classes, unanimous_ids};
ghost use Rattle.unanimous_merge.specs.WorkedSnapshots.{ann, bob, both, item, one};

/// The items of two layers that number their annotations otherwise, and what both have.
pub fn examples_of_items()
    ensures items { items_of both ≡ item 0 (t 1) 3 ∷ item 0 (t 2) 3 ∷ item 0 (e 1) 3 ∷ item 1 (t 3) 2 ∷ [] }
    ensures unanimous { unanimous_ids both ≡ t 1 ∷ t 2 ∷ e 1 ∷ [] }
    ensures the_other_way { items_of (bob ∷ ann ∷ []) ≡ item 0 (t 1) 3 ∷ item 0 (t 2) 3 ∷ item 0 (t 3) 1 ∷ item 0 (e 1) 3 ∷ [] }
    // A class by the contents of its members, whatever their order and their IDs.
    ensures a_class { length (unanimous_classes (one (t 1) (t 2) 0 ∷ one (t 7) (t 4) 0 ∷ [])) ≡ 1 }
    ensures another_type { unanimous_classes (one (t 1) (t 2) 0 ∷ one (t 1) (t 2) 1 ∷ []) ≡ [] }
{}
