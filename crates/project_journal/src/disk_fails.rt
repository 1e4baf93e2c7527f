//! Which calls of a disk in memory fail.
ghost use Rattle.std.specs.Prelude.{◌≡◌, ◌+◌, ◌-◌, ◌<◌, ◌≤◌, ◌^◌, None, OnOk, IsErr, is_none, is_ok};
ghost use Rattle.mark_base.specs.Streams.{CountsOne, Rose};
ghost use Rattle.project_journal.specs.DiskFails.{NoFailLeft, fate_of};

use mark_base::Failed;

/// The call of that number, from 1, fails. Where `done` is true, a write or a cut has its whole effect
/// first, and otherwise it has none. Of two for one call the first in a list counts.
#[derive(Clone, Copy, Debug, PartialEq, Eq, Drop)]
pub struct DiskFail {
    pub call: u64,
    pub done: bool,
}

/// Whether the call of that number fails, and if so, whether its effect is done.
fn fate(fails: &[DiskFail], call: u64) -> Option<bool>
    ensures { result ≡ fate_of fails.now call }
{
    for fail in fails {
        if fail.call == call {
            return Some(fail.done);
        }
    }
    None
}

/// Counts a call, and says whether it fails, and if so, whether its effect is done. Calls are counted
/// while their number is below the last value of its type; past that none fails.
pub fn next_fail(fails: &[DiskFail], calls: &mut u64) -> Option<bool>
    ensures listed { calls.old < 2 ^ 64 - 1 → result ≡ fate_of fails.now (calls.old + 1) }
    ensures counted { calls.old < 2 ^ 64 - 1 → calls.new ≡ calls.old + 1 }
    ensures past { 2 ^ 64 - 1 ≤ calls.old → result ≡ None }
    ensures left { NoFailLeft calls.old fails.now → (result ≡ None) × NoFailLeft calls.new fails.now }
{
    if *calls == u64::MAX {
        return None;
    }
    *calls += 1;
    fate(fails, *calls)
}

/// The answer of a call that fails or not. A fault is counted once.
pub fn answer(fail: Option<bool>, faults: &mut u64) -> Result<(), Failed>
    ensures ok { is_ok result ≡ is_none fail }
    ensures later { faults.old ≤ faults.new }
    ensures rose { IsErr result → Rose faults.old faults.new }
    ensures one { IsErr result → CountsOne faults.old faults.new }
    ensures none { OnOk result (faults.new ≡ faults.old) }
{
    if fail.is_some() {
        *faults = faults.saturating_add(1);
        return Err(Failed);
    }
    Ok(())
}
