//! How a project is opened again.
ghost use Rattle.std.specs.Prelude.{◌≡◌, ◌⊎◌, ◌<◌, ℕ, List, None, Some, IfErr, IfOk, IfSome, IsErrOf, OnErr, OnOk};
ghost use Rattle.project_journal.specs.Stops.{LeavesOnly};
ghost use Rattle.project_machine.specs.History.{encoded};
ghost use Rattle.project_machine.specs.Opening.{IsFreeingDoubted, IsGivenBack, IsKeptOpen, IsLeftByOpening, IsOpened, with_freeing};
ghost use Rattle.project_book.specs.Keeping.{TellsKeeper};
ghost use Rattle.project_book.specs.Opening.{IsOnlyOpened, IsOpenRefusal, OpeningFailed, opened_keeper};

use crate::book::Book;
use crate::kept_already::KeptAlready;
use crate::open_fault::OpenFault;
use crate::replaying::replay;
use mark_base::{Bytes, Steps};
use project_journal::{Keeper, KeeperFault};
use std::alloc::Global;
use std::marker::Brand;
use std::sync::ledger::{Blank, Ledger};

impl Book<KeptAlready> {
    /// The same project over the keeper that has its entries.
    fn over<K: Keeper>(self, keeper: K) -> Book<K>
        requires kept { IfSome (K.kept keeper) (λ told. told ≡ encoded self.log) }
        requires certain { K.doubt keeper ≡ None }
        ensures log { result.log ≡ self.log }
        ensures keeper { result.keeper ≡ keeper }
    {
        let Book {
            alloc,
            state,
            groups,
            tables,
            log,
            keeper: _,
        } = self;
        Book {
            alloc,
            state,
            groups,
            tables,
            log,
            keeper,
        }
    }
}

impl<K: Keeper> Book<K> {
    /// Frees the layers that are out, where some are. A refusal leaves the project as it was.
    fn free<G: Ledger>(&mut self, blank: Blank) -> Result<(), KeeperFault>
        requires name { blank.name ≡ G.name }
        requires parts { blank.parts ≡ G.parts }
        requires some { 0 < G.parts }
        requires certain { K.doubt self.old.keeper ≡ None }
        ensures freed { OnOk result (self.new.log ≡ with_freeing self.old.log) }
        ensures certain { OnOk result (K.doubt self.new.keeper ≡ None) }
        ensures same { OnErr result (self.new.log ≡ self.old.log) }
        ensures doubt { IfErr result (λ fault. (K.doubt self.new.keeper ≡ None) ⊎ IsFreeingDoubted (encoded self.old.log) (fault ≡ KeeperFault.Failed) (K.doubt self.new.keeper)) }
        ensures any_moment { (entries : List (List ℕ)) → K.kept self.old.keeper ≡ Some entries → LeavesOnly K.moment K.left_since self.old.keeper self.new.keeper (IsLeftByOpening entries) }
        ensures keeper { TellsKeeper K.faults K.faultless self.old.keeper self.new.keeper (IsErrOf result KeeperFault.Failed) }
    {
        self.keeps();
        let mut steps = Steps::<G>::new(blank);
        let freeing = match self.freeing() {
            Ok(freeing) => freeing,
            Err(_) => return Err(KeeperFault::Memory),
        };
        let Some(kept) = freeing else {
            return Ok(());
        };
        match self.keep(kept, &mut steps) {
            Ok(()) => Ok(()),
            Err(fault) => Err(fault),
        }
    }

    /// Opens a project again from the entries that its keeper has, as `Journal::open` gives them. Where some layer is
    /// out, all are freed, by one change more. A refusal gives the keeper back with the entries that it had. Behind
    /// `Keeper`, and there alone, a stop may still leave the freeing, so the journal is to be opened anew from its
    /// file. Cost, read off the code and not measured: the bytes of the entries and what each of the requests costs
    /// that made them; of a checkpoint what `restore` of `checkpoint` says, and the labels of all rows.
    ///
    /// Entries that begin with a checkpoint are opened as the state whose pieces they are. Where one of them is not read
    /// behind those before it, it is named, or the number past the last entry where the last piece is lacking.
    pub fn open(alloc: Global, keeper: K, entries: &[Bytes]) -> Result<Book<K>, (K, OpenFault)>
        requires kept { IfSome (K.kept keeper) (λ told. told ≡ entries.now) }
        requires certain { K.doubt keeper ≡ None }
        // The history is the one whose entries these are, with a freeing where some layer is out.
        ensures opened { IfOk result (λ book. IsOpened entries.now book.log) }
        ensures only { IfOk result (λ book. IsOnlyOpened entries.now book.log) }
        ensures kept { IfOk result (λ book. IsKeptOpen book.log (K.kept book.keeper) (K.doubt book.keeper)) }
        // The first entry that is at fault, or the keeper failed, or memory ran out.
        ensures refused { IfErr result (λ back. IsOpenRefusal entries.now back.1) }
        ensures given_back { IfErr result (λ back. IsGivenBack entries.now (back.1 ≡ OpenFault.Keeper) (K.kept back.0) (K.doubt back.0)) }
        // What a stop at any moment of the call leaves: the entries, alone or, where some layer is out, with a freeing.
        ensures any_moment { (told : List (List ℕ)) → K.kept keeper ≡ Some told → LeavesOnly K.moment K.left_since keeper (opened_keeper result) (IsLeftByOpening told) }
        // `Keeper` is answered only where the keeper counted a fault.
        ensures keeper { TellsKeeper K.faults K.faultless keeper (opened_keeper result) (OpeningFailed result) }
    {
        let mut book = match replay(alloc, entries) {
            Ok(book) => book.over(keeper),
            Err(fault) => return Err((keeper, fault)),
        };
        book.keeps();
        match book.free::<Brand>(Blank::new(1)) {
            Ok(()) => {
                book.keeps();
                Ok(book)
            }
            Err(KeeperFault::Failed) => {
                book.keeps();
                Err((book.into_keeper(), OpenFault::Keeper))
            }
            Err(KeeperFault::Memory) => {
                book.keeps();
                Err((book.into_keeper(), OpenFault::Memory))
            }
        }
    }
}
