// A sink in memory.
ghost use Rattle.std.specs.Prelude.{◌≡◌, ◌<◌, ◌≤◌, ◌+◌, ℕ, List, [], ◌++◌, length, min, take, false, IfOk, IsErr, OnOk, OnErr, IsTrue};
ghost use Rattle.outside.specs.Streams.{Appends, Causes, TakesSome};
ghost use Rattle.outside.specs.WantOfMemory.{WorksOrStarves};

use crate::{Failed, FailingCalls, Sink, starve};
use small_types::{Bytes, List};
use std::alloc::Global;

/// A sink that keeps what it takes. Its calls whose numbers, counted from 1, the list `failing` has are to fail.
/// A call for which it finds no memory fails too. No other call fails, and `starved` tells how often there was no
/// memory.
#[derive(Drop, Debug)]
pub struct MemSink {
    taken: Bytes,
    failing: FailingCalls,
    // For how many calls there was no memory.
    starved: u64,
}

impl MemSink {
    ghost use Rattle.outside.specs.MemSink.{sink_taken, sink_faults, sink_failing, sink_calls, sink_starved};

    /// A sink that has taken these bytes. It takes no memory.
    pub fn new(_alloc: Global, taken: Bytes, failing: List<u64>) -> MemSink
        ensures taken { sink_taken result ≡ taken }
        ensures faults { sink_faults result ≡ 0 }
        ensures failing { sink_failing result ≡ failing }
        ensures calls { sink_calls result ≡ 0 }
        ensures starved { sink_starved result ≡ 0 }
    {
        MemSink {
            taken,
            failing: FailingCalls::new(failing),
            starved: 0,
        }
    }

    /// What it has taken.
    pub fn taken(&self) -> &[u8]
        ensures { result.now ≡ sink_taken self.now }
    {
        self.taken.as_slice()
    }

    /// How many calls failed for want of memory. The count never falls.
    pub fn starved(&self) -> u64
        ensures { result ≡ sink_starved self.now }
    {
        self.starved
    }
}

impl Sink for MemSink {
    ghost use Rattle.outside.specs.MemSink.{sink_taken, sink_faults, sink_failing, sink_calls, sink_fails, sink_starved};

    ghost tells = { Unit {0} };

    ghost taken = { λ s. s.taken };

    ghost count = { λ s. s.failing.faults };

    fn write(&mut self, bytes: &[u8]) -> Result<usize, Failed>
        requires { 0 < length bytes.now }
        ensures within { IfOk result (λ n. TakesSome n bytes.now) }
        ensures bytes { IfOk result
            (λ n. Appends (sink_taken self.old) (sink_taken self.new) (take n bytes.now)) }
        ensures kept { OnErr result (sink_taken self.new ≡ sink_taken self.old) }
        ensures cause { Causes (sink_faults self.old) (sink_faults self.new) result }

        // It fails where its number is in the list, else only for want of memory, which alone is counted as such. The
        // count of faults rises by one where it fails, and else not.
        ensures fails { IsTrue (sink_fails self.old) → IsErr result }
        ensures works { sink_fails self.old ≡ false
            → WorksOrStarves (sink_starved self.old) (sink_starved self.new) result }
        ensures listed { IsTrue (sink_fails self.old)
            → sink_starved self.new ≡ sink_starved self.old }
        ensures calls { sink_calls self.new ≡ min (sink_calls self.old + 1) 0xffff_ffff_ffff_ffff }
        ensures failing { sink_failing self.new ≡ sink_failing self.old }
        ensures quiet { OnOk result (sink_faults self.new ≡ sink_faults self.old) }
        ensures raised { OnErr result
            (sink_faults self.new ≡ min (sink_faults self.old + 1) 0xffff_ffff_ffff_ffff) }
    {
        if self.failing.next() {
            self.failing.fail();
            return Err(Failed);
        }
        match self.taken.extend(bytes) {
            Ok(()) => Ok(bytes.len()),
            Err(why) => {
                starve(&mut self.starved, why);
                self.failing.fail();
                Err(Failed)
            }
        }
    }

    fn faults(&self) -> u64 {
        self.failing.faults
    }
}
