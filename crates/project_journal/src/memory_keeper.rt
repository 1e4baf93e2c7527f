//! A keeper in memory.
ghost use Rattle.std.specs.Prelude.{◌≡◌, ◌≤◌, [], ◌∷◌, ◌++◌, None, Some, OnOk, OnErr, IsErrOf, option_map};
ghost use Rattle.mark_base.specs.Streams.{TellsFault};
ghost use Rattle.project_journal.specs.declared.keeper.KeeperFault.TheVariants;
ghost use Rattle.project_journal.specs.Keeper.{IsEntry};
ghost use Rattle.mark_base.specs.FailList.{IsFaultless};

use crate::{Keeper, KeeperFault};
use mark_base::{Bytes, FailList};
use std::alloc::Global;

/// A keeper in memory. It has no entry in doubt, and does not tell what a stop leaves.
#[derive(Debug, Drop)]
pub struct MemoryKeeper {
    alloc: Global,
    entries: Vec<Bytes>,
    fails: FailList,
}

impl MemoryKeeper {
    ghost use Rattle.project_journal.specs.MemoryKeepers.{fails_of_appends};

    /// A keeper that has these entries already. The numbers name the appends, from 1, that fail; nothing
    /// else does. An append that has no memory for the copy of its entry is not counted, and has no number.
    pub fn new(alloc: Global, entries: Vec<Bytes>, fails: Vec<u64>) -> Self
        ensures kept { ⟦<MemoryKeeper as Keeper>⟧.kept result ≡ Some entries.items }
        ensures no_doubt { ⟦<MemoryKeeper as Keeper>⟧.doubt result ≡ None }
        ensures faults { ⟦<MemoryKeeper as Keeper>⟧.faults result ≡ 0 }
        ensures fails { fails_of_appends result ≡ record { fails = fails.items; calls = 0; faults = 0 } }
        ensures faultless { fails.items ≡ [] → ⟦<MemoryKeeper as Keeper>⟧.faultless result }
    {
        MemoryKeeper {
            alloc,
            entries,
            fails: FailList::new(fails),
        }
    }

    /// The entries, in the order in which they were added.
    pub fn entries(&self) -> &[Bytes]
        ensures { ⟦<MemoryKeeper as Keeper>⟧.kept self.now ≡ Some result.now }
    {
        self.entries.as_slice()
    }
}

impl Keeper for MemoryKeeper {
    ghost use Rattle.project_journal.specs.MemoryKeepers.{AppendsOnce};

    ghost kept = { λ keeper. Some keeper.entries.items };

    ghost doubt = { λ keeper. None };

    ghost moment = { λ keeper. 0 };

    ghost left_since = { λ keeper t found. ⊥ };

    ghost faults = { λ keeper. keeper.fails.faults };

    ghost faultless = { λ keeper. IsFaultless keeper.fails };

    ghost left_now = { λ keeper entries found kept left. absurd left };

    fn append(&mut self, entry: &[u8]) -> Result<(), KeeperFault>
        requires { IsEntry entry.now }
        ensures added { OnOk result (⟦<MemoryKeeper as Keeper>⟧.kept self.new ≡ option_map (λ entries. entries ++ entry.now ∷ []) (⟦<MemoryKeeper as Keeper>⟧.kept self.old)) }
        ensures refused { OnErr result (⟦<MemoryKeeper as Keeper>⟧.kept self.new ≡ ⟦<MemoryKeeper as Keeper>⟧.kept self.old) }
        ensures later { ⟦<MemoryKeeper as Keeper>⟧.faults self.old ≤ ⟦<MemoryKeeper as Keeper>⟧.faults self.new }
        ensures cause { TellsFault (IsErrOf result KeeperFault.Failed) (⟦<MemoryKeeper as Keeper>⟧.faults self.old) (⟦<MemoryKeeper as Keeper>⟧.faults self.new) }
        ensures faultless_stays { ⟦<MemoryKeeper as Keeper>⟧.faultless self.old → ⟦<MemoryKeeper as Keeper>⟧.faultless self.new × (⟦<MemoryKeeper as Keeper>⟧.faults self.new ≡ ⟦<MemoryKeeper as Keeper>⟧.faults self.old) }
        ensures faultless_not_failed { ⟦<MemoryKeeper as Keeper>⟧.faultless self.old → IsErrOf result KeeperFault.Failed → ⊥ }
        ensures listed { AppendsOnce self.old self.new result }
    {
        let copy = Bytes::of(self.alloc, entry)?;
        if self.fails.fails() {
            return Err(KeeperFault::Failed);
        }
        if self.entries.push(copy).is_err() {
            return Err(KeeperFault::Memory);
        }
        Ok(())
    }
}
