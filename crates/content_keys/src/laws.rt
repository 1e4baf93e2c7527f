//! Laws of contents, for proofs above. None of these calls does anything.
ghost use Rattle.std.specs.Prelude.{◌≡◌, ◌↔◌, ◌==◌, ◌&&◌, ℕ, List, Some, IsSome, map, count_by};
ghost use Rattle.mark_base.specs.declared.ann_id.AnnId.{AnnId};
ghost use Rattle.layer_model.specs.Annotations.{Annotations};
ghost use Rattle.layer_model.specs.Coherent.{IsCoherent};
ghost use Rattle.layer_model.specs.Layers.{IsLayer};
ghost use Rattle.content_keys.specs.Counterparts.{IsLowest, counterpart_in};
ghost use Rattle.content_keys.specs.LayerContents.{content_of, contents_of, node_of};
ghost use Rattle.content_keys.specs.Nodes.{AreAlike, Node};
ghost use Rattle.content_keys.specs.Numbers.{paired, sorted};
ghost use Rattle.content_keys.specs.Places.{AreBuilt};
ghost use Rattle.mark_base.specs.declared.ann_id.Kind.{Kind};

/// Two annotations of layers that are built have the same content exactly where their own numbers are the
/// same, they name the same contents in order, and the same bag of roles and contents.
pub fn contents_are_their_parts()
    ensures { (layer other : Annotations) → AreBuilt layer → AreBuilt other → (id there : AnnId) (one two : Node AnnId) → node_of layer id ≡ Some one → node_of other there ≡ Some two → (content_of layer id ≡ content_of other there) ↔ AreAlike (content_of layer) (content_of other) one two }
{}

/// The first of the others with the content of an annotation is the lowest annotation of the other layer
/// that has it, and there is none exactly where none has it.
pub fn counterparts_are_lowest()
    ensures { (layer other : Annotations) → IsLayer layer → IsLayer other → (id : AnnId) → IsLowest layer other id (counterpart_in (contents_of layer) (contents_of other) id) }
{}

/// In a coherent layer each annotation that has a content is built: what it names stands, and so on down to
/// spans, in at most 19 steps.
pub fn coherent_layers_are_built()
    ensures { (layer : Annotations) → IsCoherent layer → AreBuilt layer }
{}

/// In a coherent layer no two annotations have the same content, but for normalizations: of these two may
/// say the same.
pub fn one_annotation_has_a_content()
    ensures { (layer : Annotations) → IsCoherent layer → (id there : AnnId) → IsSome (node_of layer id) → IsSome (node_of layer there) → (id.kind ≡ Kind.Normal → ⊥) → content_of layer id ≡ content_of layer there → id ≡ there }
{}

/// Two bags of roles and contents, of one layer or of two, are the same exactly where each role stands as
/// often with each content.
pub fn bags_are_counts()
    ensures { (contents others : AnnId → ℕ) (bag other : List (ℕ × AnnId)) → (sorted (map (λ link. paired link.0 (contents link.1)) bag) ≡ sorted (map (λ link. paired link.0 (others link.1)) other)) ↔ ((role content : ℕ) → count_by (λ link. link.0 == role && contents link.1 == content) bag ≡ count_by (λ link. link.0 == role && others link.1 == content) other) }
{}
