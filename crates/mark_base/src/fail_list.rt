//! Which calls of a device in memory fail.
ghost use Rattle.std.specs.Prelude.{◌≡◌, ◌≤◌, false, true};
ghost use Rattle.mark_base.specs.FailList.{CountsCall, FailState, IsFaultless};
ghost use Rattle.mark_base.specs.Streams.{CountsOne, Rose};

use std::marker::Model;

/// Which calls of a device in memory fail, by their numbers from 1, and how many have failed.
#[derive(Debug, Drop)]
pub struct FailList {
    fails: Vec<u64>,
    calls: u64,
    faults: u64,
}

impl Model for FailList {
    ghost use Rattle.mark_base.specs.FailList.{FailState};

    ghost Value = { FailState };

    ghost view = { λ list. record { fails = list.fails.items; calls = list.calls; faults = list.faults } };
}

impl FailList {
    /// A list by which the calls of these numbers fail. No call was counted yet.
    pub fn new(fails: Vec<u64>) -> Self
        ensures { result ≡ record { fails = fails.items; calls = 0; faults = 0 } }
    {
        FailList {
            fails,
            calls: 0,
            faults: 0,
        }
    }

    /// Counts a call, and says whether it fails. Calls are counted while their number is below the
    /// last value of its type. Cost: the length of the list.
    pub fn fails(&mut self) -> bool
        ensures called { CountsCall self.old result self.new }
        ensures rises { self.old.faults ≤ self.new.faults }
        ensures rose { result ≡ true → Rose self.old.faults self.new.faults }
        ensures none { IsFaultless self.old → result ≡ false }
        ensures still { IsFaultless self.old → self.new.faults ≡ self.old.faults }
        ensures stays { IsFaultless self.old → IsFaultless self.new }
    {
        if self.calls == u64::MAX {
            return false;
        }
        self.calls += 1;
        let call = self.calls;
        if self.fails.contains(&call) {
            self.faults = self.faults.saturating_add(1);
            return true;
        }
        false
    }

    /// Counts a fault that no number of the list made, as a growth that was refused.
    pub fn count_fault(&mut self)
        ensures rose { Rose self.old.faults self.new.faults }
        ensures one { CountsOne self.old.faults self.new.faults }
        ensures rises { self.old.faults ≤ self.new.faults }
        ensures same { self.new ≡ record self.old { faults = self.new.faults } }
    {
        self.faults = self.faults.saturating_add(1);
    }
}
