//! An attribute.
use mark_base::{AnnId, AttrId};

/// An attribute of an annotation, with the place of its value among those that its type declares, or
/// with none for one that is only set (brat standoff manual, "Attribute and modification
/// annotations"). A modification of older files, under the letter `M`, is one too.
#[derive(Clone, Copy, Debug, Drop)]
pub struct Attribute {
    pub kind: AttrId,
    pub target: AnnId,
    pub value: Option<u16>,
}
