//! Laws of .ann files. Each function does nothing but name the laws that it rests on; its contract is the law.
ghost use Rattle.std.specs.Prelude.{◌≡◌, ◌≤◌, ℕ, true, List, length, None, IsUtf8};
ghost use Rattle.std.specs.List.{AllByRecursion, list_any};
ghost use Rattle.conf_model.specs.Configurations.{Configuration};
ghost use Rattle.layer_model.specs.Annotations.{Annotations};
ghost use Rattle.layer_model.specs.Layers.{IsLayer};
ghost use Rattle.ann_reader.specs.Lines.{lines_of};
ghost use Rattle.ann_reader.specs.AnnFaults.{ann_fault, layer_of, lines_fault};
ghost use Rattle.ann_reader.specs.AnnFiles.{IsAnn, said_in};
ghost use Rattle.ann_reader.specs.Smallest.{IsLinkedClass, holds_line};

use layer_rules::well_formed_layers_cohere;

/// A file without a fault is an .ann file of the layer that its lines say.
pub fn files_without_fault()
    ensures lines { (conf : Configuration) (text bytes : List ℕ) → IsUtf8 bytes → lines_fault conf text (lines_of bytes) ≡ None → IsAnn conf text bytes (layer_of conf (lines_of bytes)) }
    ensures file { (conf : Configuration) (text bytes : List ℕ) → ann_fault conf text bytes ≡ None → IsAnn conf text bytes (layer_of conf (lines_of bytes)) }
{}

/// What the lines of a file that may be read say is a layer.
pub fn layers_of_lines()
    ensures { (conf : Configuration) (bytes : List ℕ) → length bytes ≤ 16777216 → IsLayer (layer_of conf (lines_of bytes)) }
{}

/// An .ann file of a layer has no fault, and the layer is the one that its lines say. So a file has a layer exactly
/// where it has no fault.
pub fn files_of_a_layer()
    ensures faultless { (conf : Configuration) (text bytes : List ℕ) (layer : Annotations) → IsLayer layer → IsAnn conf text bytes layer → ann_fault conf text bytes ≡ None }
    ensures said { (conf : Configuration) (text bytes : List ℕ) (layer : Annotations) → IsLayer layer → IsAnn conf text bytes layer → layer ≡ layer_of conf (lines_of bytes) }
{
    well_formed_layers_cohere();
}

/// A file has at most one layer.
pub fn at_most_one_layer()
    ensures { (conf : Configuration) (text bytes : List ℕ) (a b : Annotations) → IsLayer a → IsLayer b → IsAnn conf text bytes a → IsAnn conf text bytes b → a ≡ b }
{}

/// The classes of a file are the smallest disjoint sets that its lines allow: each `*` line lies within one class
/// of its type, and each two members of a class are linked by a chain of lines of the type of which each shares a
/// member with the next. That no two classes of a type share a member every layer keeps.
pub fn classes_are_smallest()
    ensures within { (conf : Configuration) (text bytes : List ℕ) (layer : Annotations) → IsAnn conf text bytes layer → AllByRecursion (λ said. list_any (holds_line said) layer.classes ≡ true) (said_in conf (lines_of bytes)) }
    ensures linked { (conf : Configuration) (text bytes : List ℕ) (layer : Annotations) → IsAnn conf text bytes layer → AllByRecursion (IsLinkedClass (said_in conf (lines_of bytes))) layer.classes }
{}
