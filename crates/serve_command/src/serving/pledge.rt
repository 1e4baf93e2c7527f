//! A keeper whose type says that it cannot fail.
//!
//! Behind a lock, and in a hall, nothing is known of a value but what its type says. So that a disk that cannot fail is
//! known to be one when the hall is closed, its journal goes into the hall as a [`Pledged`] keeper.
ghost use Rattle.std.specs.Prelude.{◌≡◌};

use project_journal::{Keeper, KeeperFault};
use std::marker::{Brand, Model, PhantomData};

/// A fact, which is picked where a function is called that is generic in it.
pub(crate) trait Pledge {
    /// The fact.
    ghost given: { Type 0 };
}

impl Pledge for Brand {
    ghost given = { ⊥ };
}

/// A keeper that cannot fail where a pledge is given. Contracts see the keeper.
#[derive(Drop)]
pub(crate) struct Pledged<K: Keeper, P: Pledge> {
    keeper: K,
    pledge: PhantomData<P>,
}

impl<K: Keeper, P: Pledge> Model for Pledged<K, P> {
    ghost Value = { K };

    ghost coded = { K.code };

    ghost view = { λ pledged. pledged.keeper };

    ghost invariant = { λ pledged. P.given → K.faultless pledged.keeper };
}

impl<K: Keeper, P: Pledge> Pledged<K, P> {
    /// The keeper under the pledge.
    pub(crate) fn new(keeper: K) -> Self
        requires { P.given → K.faultless keeper }
        ensures { result ≡ keeper }
    {
        Pledged {
            keeper,
            pledge: PhantomData,
        }
    }

    /// The keeper again.
    pub(crate) fn into_keeper(self) -> K
        ensures same { result ≡ self }
        ensures sure { P.given → K.faultless result }
    {
        let Pledged { keeper, pledge: _ } = self;
        keeper
    }
}

impl<K: Keeper, P: Pledge> Keeper for Pledged<K, P> {
    ghost kept = { λ pledged. K.kept pledged };

    ghost doubt = { λ pledged. K.doubt pledged };

    ghost moment = { λ pledged. K.moment pledged };

    ghost left_since = { λ pledged. K.left_since pledged };

    ghost faults = { λ pledged. K.faults pledged };

    ghost faultless = { λ pledged. K.faultless pledged };

    ghost left_now = { λ pledged entries found told left. K.left_now pledged entries found told left };

    fn append(&mut self, entry: &[u8]) -> Result<(), KeeperFault> {
        self.keeper.append(entry)
    }
}
