//! The definitions at work on small layers. The functions do nothing; their clauses are computed when the
//! crate is checked.
ghost use Rattle.std.specs.Prelude.{◌≡◌, ◌==◌, [], ◌∷◌, Some, None, false};
ghost use Rattle.mark_base.specs.declared.ann_id.Kind.TheVariants as letter;
ghost use Rattle.mark_base.specs.ReadIds.{id_at};
ghost use Rattle.content_keys.specs.LayerContents.{content_in};
ghost use Rattle.content_keys.specs.Counterparts.{counterpart_in};
ghost use Rattle.content_keys.specs.WorkedLayers.{ann, bob, e, eve, joe, marks, t};

/// Annotations that have the same content, and some that have not.
pub fn examples_of_contents()
    ensures a_span { content_in (marks ann) (t 2) ≡ content_in (marks bob) (t 9) }
    ensures another_span { (content_in (marks ann) (t 1) == content_in (marks bob) (t 9)) ≡ false }
    ensures an_event_in_another_order { content_in (marks ann) (e 1) ≡ content_in (marks bob) (e 6) }
    ensures an_argument_more { (content_in (marks ann) (e 1) == content_in (marks eve) (e 1)) ≡ false }
    ensures letters_alike { content_in (marks joe) (id_at letter.Attribute 1) ≡ content_in (marks joe) (id_at letter.Legacy 4) }
    ensures another_text { (content_in (marks joe) (id_at letter.Normal 1) == content_in (marks joe) (id_at letter.Normal 2)) ≡ false }
{}

/// The first of the others that has the content, and none.
pub fn examples_of_counterparts()
    ensures the_lowest { counterpart_in ((t 1, 7) ∷ (t 2, 9) ∷ []) ((t 3, 9) ∷ (t 5, 9) ∷ []) (t 2) ≡ Some (t 3) }
    ensures no_content { counterpart_in ((t 1, 7) ∷ (t 2, 9) ∷ []) ((t 3, 9) ∷ (t 5, 9) ∷ []) (t 1) ≡ None }
    ensures no_annotation { counterpart_in ((t 1, 7) ∷ (t 2, 9) ∷ []) ((t 3, 9) ∷ (t 5, 9) ∷ []) (t 3) ≡ None }
{}
