//! What keeps a growing list of entries.
ghost use Rattle.std.specs.Prelude.{◌≡◌, ◌⊎◌, ℕ, ◌≤◌, [], ◌++◌, ◌∷◌, List, Option, Some, None, OnOk, OnErr, IsErrOf, option_map};
ghost use Rattle.mark_base.specs.Streams.{TellsFault};
ghost use Rattle.project_journal.specs.declared.keeper.KeeperFault.TheVariants;
ghost use Rattle.project_journal.specs.Keeper.{IsEntry, IsKeptOrOneMore, IsKeptOrDoubt};
ghost use Rattle.project_journal.specs.Stops.{LeavesOnly};

use mark_base::{Failed, Memory};

/// Why an entry was not kept.
#[derive(Clone, Copy, Debug, PartialEq, Eq)]
pub enum KeeperFault {
    /// The device failed, and counted it. The entry may still be found after a stop, until the next
    /// append succeeds.
    Failed,
    /// Memory was refused.
    Memory,
}

impl From<Failed> for KeeperFault {
    ghost from_gives = { λ _ fault. fault ≡ TheVariants.Failed };

    fn from(_: Failed) -> Self {
        KeeperFault::Failed
    }
}

impl From<Memory> for KeeperFault {
    ghost from_gives = { λ _ fault. fault ≡ TheVariants.Memory };

    fn from(_: Memory) -> Self {
        KeeperFault::Memory
    }
}

/// What keeps entries, one behind the other, each whole or not at all.
pub trait Keeper: Drop {
    /// The entries, where the keeper tells them.
    ghost kept: { Self → Option (List (List ℕ)) };

    /// A refused entry that a stop may still leave behind the others.
    ghost doubt: { Self → Option (List ℕ) };

    /// The moment, as a number that never falls.
    ghost moment: { Self → ℕ };

    /// What a stop at some moment since that one may have left: a list of entries, or `None` for a file
    /// that does not open. A keeper that does not tell this has nothing here.
    ghost left_since: { Self → ℕ → Option (List (List ℕ)) → Type 0 };

    /// How many appends have failed, or calls of the device below. The count never falls, and stands
    /// still at the type's last value.
    ghost faults: { Self → ℕ };

    /// From here on no append fails.
    ghost faultless: { Self → Type 0 };

    /// Adds an entry of 1 to 16,777,216 bytes. At `Ok` it is kept for good. A refusal leaves the entries
    /// as they were.
    fn append(&mut self, entry: &[u8]) -> Result<(), KeeperFault>
        requires { IsEntry entry.now }
        ensures added { OnOk result (kept self.new ≡ option_map (λ entries. entries ++ entry.now ∷ []) (kept self.old)) }
        ensures refused { OnErr result (kept self.new ≡ kept self.old) }

        // Of the entries refused since the last success a stop can leave one at most.
        ensures no_doubt { OnOk result (doubt self.new ≡ None) }
        ensures doubt { IsErrOf result KeeperFault.Failed → (doubt self.new ≡ doubt self.old) ⊎ (doubt self.new ≡ None) ⊎ (doubt self.new ≡ Some entry.now) }
        ensures doubt_memory { IsErrOf result KeeperFault.Memory → (doubt self.new ≡ doubt self.old) ⊎ (doubt self.new ≡ None) }

        // A stop at any moment of the call leaves the entries from before it, or these and one more.
        ensures any_moment { (entries : List (List ℕ)) → kept self.old ≡ Some entries
            → LeavesOnly moment left_since self.old self.new (IsKeptOrOneMore entries (doubt self.old) entry.now) }

        ensures later { faults self.old ≤ faults self.new }
        ensures cause { TellsFault (IsErrOf result KeeperFault.Failed) (faults self.old) (faults self.new) }
        ensures faultless_stays { faultless self.old → faultless self.new × (faults self.new ≡ faults self.old) }
        ensures faultless_not_failed { faultless self.old → IsErrOf result KeeperFault.Failed → ⊥ };

    /// A stop between two calls leaves the entries, alone or with the one in doubt.
    ghost left_now: { (keeper : Self) (entries : List (List ℕ)) (found : Option (List (List ℕ))) → kept keeper ≡ Some entries
        → left_since keeper (moment keeper) found → IsKeptOrDoubt entries (doubt keeper) found };
}
