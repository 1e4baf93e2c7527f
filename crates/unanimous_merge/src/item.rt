//! The items of a snapshot.
use mark_base::AnnId;

/// The name of an item: of the holders of its content the first, by place from 0, and there the lowest ID.
/// Items are ordered by holder, then by ID.
#[derive(Clone, Copy, Debug, PartialEq, Eq, PartialOrd, Ord)]
pub struct ItemId {
    pub holder: u8,
    pub id: AnnId,
}

/// A distinct content of a snapshot: its name, and who has it, bit i for the holder of place i.
#[derive(Clone, Copy, Debug, PartialEq, Eq)]
pub struct Item {
    pub id: ItemId,
    pub holders: u16,
}
