//! A text-bound annotation.
ghost use Rattle.std.specs.Prelude.{◌≡◌};
ghost use Rattle.layer_model.specs.Span.{same_fragments};

use mark_base::{Frag, FragList, TypeId};

/// A text-bound annotation: a type and the fragments of the text that it marks (brat standoff manual,
/// "Text-bound annotations").
#[derive(Clone, Debug, Drop)]
pub struct Span {
    pub kind: TypeId,
    pub frags: FragList,
}

/// Whether two lists have the same fragments in the same order. Cost: the shorter list.
pub fn same_fragments(a: &[Frag], b: &[Frag]) -> bool
    ensures { result ≡ same_fragments a.now b.now }
{
    let mut left = a;
    let mut right = b;
    while let Some((first, rest)) = left.split_first() {
        match right {
            [] => return false,
            [other, others @ ..] => {
                if first.start != other.start || first.end != other.end {
                    return false;
                }
                left = rest;
                right = others;
            }
        }
    }
    right.is_empty()
}
