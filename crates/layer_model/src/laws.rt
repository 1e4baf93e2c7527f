//! Laws of layers, for proofs above. None of these calls does anything.
ghost use Rattle.std.specs.Prelude.{◌≡◌, ◌+◌, ℕ, Bool, ◌∷◌, ◌++◌, [], List, true, false};
ghost use Rattle.std.specs.List.{list_any};
ghost use Rattle.mark_base.specs.declared.ann_id.AnnId.{AnnId};
ghost use Rattle.layer_model.specs.declared.class.Class.{Class};
ghost use Rattle.layer_model.specs.declared.mark.Mark.{Mark};
ghost use Rattle.layer_model.specs.Annotations.{Annotations, no_marks};
ghost use Rattle.layer_model.specs.Classes.{comes_before, insert_class};
ghost use Rattle.layer_model.specs.Coherent.{IsCoherent, begins_chain, event_arguments};
ghost use Rattle.layer_model.specs.Numbers.{IsAbove};
ghost use Rattle.mark_base.specs.declared.ann_id.Kind.{Kind};
ghost use Rattle.layer_model.specs.Layers.{greatest, has, has_number, is_of_kind, with_mark, without};

/// What is put and taken again leaves the layer as it was.
pub fn take_undoes_put()
    ensures { (layer : Annotations) (id : AnnId) (mark : Mark) → is_of_kind id.kind mark ≡ true → has layer id ≡ false → without (with_mark layer id mark) id ≡ layer }
{}

/// A number above the greatest of its sort is free.
pub fn numbers_above_are_free()
    ensures { (layer : Annotations) (kind : Kind) (number : ℕ) → IsAbove number (greatest layer kind) → has_number layer kind number ≡ false }
{}

/// A class that comes before none of the others is put behind them.
pub fn last_class_is_appended()
    ensures { (class : Class) (classes : List Class) → list_any (comes_before class) classes ≡ false → insert_class class classes ≡ classes ++ class ∷ [] }
{}

/// A layer with nothing marked is coherent.
pub fn nothing_is_coherent()
    ensures { IsCoherent no_marks }
{}

/// Events each of which has one of them as an argument begin chains of every length: a circle is too
/// deep.
pub fn circles_are_too_deep()
    ensures { (layer : Annotations) (circle : ℕ → Bool) → ((number : ℕ) → circle number ≡ true → list_any circle (event_arguments layer number) ≡ true) → (count number : ℕ) → circle number ≡ true → begins_chain layer count number ≡ true }
{}

/// Where a chain begins, a chain of one event fewer begins too.
pub fn shorter_chains_begin()
    ensures { (layer : Annotations) (count number : ℕ) → begins_chain layer (count + 1) number ≡ true → begins_chain layer count number ≡ true }
{}
