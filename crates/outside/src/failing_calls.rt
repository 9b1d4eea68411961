// Which calls of a device in memory fail.
ghost use Rattle.std.specs.Prelude.{◌≡◌, ◌==◌, ◌⊎◌, ◌+◌, ◌<◌, ◌≤◌, min, true, false};
ghost use Rattle.std.specs.List.{list_any};
ghost use Rattle.outside.specs.Streams.{total};

use small_types::List;
use std::alloc::AllocError;

/// The calls of a device in memory: how many there were, the numbers of those that are to fail, counted from 1, and how
/// often one failed.
#[derive(Drop, Debug)]
pub struct FailingCalls {
    pub numbers: List<u64>,
    pub calls: u64,
    pub faults: u64,
}

// Whether the list has the number of the call.
fn is_failing(numbers: &[u64], call: u64) -> bool
    ensures { result ≡ list_any (λ n. n == call) numbers.now }
{
    numbers.iter().any(|n| *n == call)
}

impl FailingCalls {
    ghost use Rattle.outside.specs.FailingCalls.{fails_next};
    ghost use Rattle.outside.specs.Streams.{Rose};

    /// No call yet. It takes no memory.
    pub fn new(numbers: List<u64>) -> FailingCalls
        ensures numbers { result.numbers ≡ numbers }
        ensures calls { result.calls ≡ 0 }
        ensures faults { result.faults ≡ 0 }
    {
        FailingCalls {
            numbers,
            calls: 0,
            faults: 0,
        }
    }

    /// Counts a call, and answers whether it is to fail.
    pub fn next(&mut self) -> bool
        ensures fails { result ≡ fails_next self.old }
        ensures calls { self.new.calls ≡ min (self.old.calls + 1) 0xffff_ffff_ffff_ffff }
        ensures numbers { self.new.numbers ≡ self.old.numbers }
        ensures faults { self.new.faults ≡ self.old.faults }
    {
        self.calls = self.calls.saturating_add(1);
        is_failing(self.numbers.as_slice(), self.calls)
    }

    /// Counts a fault.
    pub fn fail(&mut self)
        ensures faults { self.new.faults ≡ min (self.old.faults + 1) 0xffff_ffff_ffff_ffff }
        ensures later { self.old.faults ≤ self.new.faults }
        ensures rose { Rose self.old.faults self.new.faults }
        ensures calls { self.new.calls ≡ self.old.calls }
        ensures numbers { self.new.numbers ≡ self.old.numbers }
    {
        self.faults = self.faults.saturating_add(1);
    }
}

/// Counts a call of so many bytes, if neither count ends, and answers whether it did. Else both stay.
pub fn count_call(calls: &mut u64, written: &mut u64, count: u64) -> bool
    ensures counted { result ≡ true
        → (calls.new ≡ calls.old + 1) × (written.new ≡ written.old + count)
        × (calls.old < 0xffff_ffff_ffff_ffff) × (written.old + count ≤ 0xffff_ffff_ffff_ffff) }
    ensures full { result ≡ false
        → (calls.new ≡ calls.old) × (written.new ≡ written.old)
        × ((0xffff_ffff_ffff_ffff ≤ calls.old) ⊎ (0xffff_ffff_ffff_ffff < written.old + count)) }
{
    if *calls == u64::MAX || count > u64::MAX - *written {
        return false;
    }
    *calls += 1;
    *written += count;
    true
}

/// Counts a call for which there was no memory.
pub fn starve(starved: &mut u64, _why: AllocError)
    ensures { starved.new ≡ total starved.old 1 }
{
    *starved = starved.saturating_add(1);
}
