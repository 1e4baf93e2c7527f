//! What stands at a token.
use mark_base::TypeId;

/// What the label of a token says: that no span covers it, or that it is the first or a later token of a span of
/// this type.
#[derive(Clone, Copy, Debug, PartialEq, Eq)]
pub(crate) enum Label {
    Out,
    Begin(TypeId),
    Inside(TypeId),
}

/// Which of its three forms a label is spelt in.
#[derive(Clone, Copy, Debug, PartialEq, Eq)]
pub(crate) enum LabelForm {
    Out,
    Begin,
    Inside,
}
