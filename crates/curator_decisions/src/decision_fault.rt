//! Why a decision is refused.
use layer_model::Rule;
use mark_base::Memory;
use unanimous_merge::ItemId;

/// Why a decision is refused. The decisions are then as before.
#[derive(Clone, Copy, Debug, PartialEq, Eq)]
pub enum DecisionFault {
    /// The snapshot has no such item: the ID is not that of the first holder of a content, or not the lowest there.
    NoItem,
    /// The item that is accepted is in.
    AlreadyIn,
    /// The item that is rejected is not in.
    NotIn,
    /// There is no verdict on the item.
    NotDecided,
    /// An item that is in would name one that is not: the lowest that is missing for an item that comes in, the
    /// lowest that depends on one that goes out.
    NeedsItem(ItemId),
    /// The curated layer would break this rule first. IDs in it are those of the curated layer.
    Broken(Rule),
    /// Memory ran out.
    Memory,
}

impl From<Memory> for DecisionFault {
    ghost use Rattle.std.specs.Prelude.{◌≡◌};
    ghost use Rattle.curator_decisions.specs.declared.decision_fault.DecisionFault.{DecisionFault};

    ghost from_gives = { λ _ fault. fault ≡ DecisionFault.Memory };

    fn from(_: Memory) -> Self {
        DecisionFault::Memory
    }
}
