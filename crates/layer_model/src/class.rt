//! An equivalence class.
use mark_base::{IdList, RelId};

/// A class of annotations that an equivalence relation holds to be one, as a coreference chain. It is
/// the only sort of annotation without an ID of its own (brat standoff manual, "Relation annotations").
#[derive(Clone, Debug, Drop)]
pub struct Class {
    pub kind: RelId,
    pub members: IdList,
}
