//! The keeper of changes whose entries are kept already.
use project_journal::{Keeper, KeeperFault};

/// What keeps the changes of a history that is told again by its entries, which are kept already: nothing is left to
/// do. It tells no entries, and never fails.
#[derive(Drop)]
pub(crate) struct KeptAlready;

impl Keeper for KeptAlready {
    ghost use Rattle.std.specs.Prelude.{None, ⊤};

    ghost kept = { λ _. None };

    ghost doubt = { λ _. None };

    ghost moment = { λ _. 0 };

    ghost left_since = { λ _ _ _. ⊥ };

    ghost faults = { λ _. 0 };

    ghost faultless = { λ _. ⊤ };

    ghost left_now = { λ keeper entries found kept left. absurd left };

    fn append(&mut self, _entry: &[u8]) -> Result<(), KeeperFault> {
        Ok(())
    }
}
