// A source in memory.
ghost use Rattle.std.specs.Prelude.{◌≡◌, ◌==◌, ◌<◌, ◌≤◌, ◌+◌, ◌↔◌, ℕ, List, [], ◌++◌, length, min, take, drop, IfOk, IsOk, IsErr, OnOk, OnErr, IsTrue};
ghost use Rattle.std.specs.List.{list_any};
ghost use Rattle.outside.specs.Streams.{Causes, Consumes};

use crate::parts::copy_from;
use crate::{Failed, FailingCalls, Source};
use small_types::{Bytes, List};
use std::alloc::Global;

/// A source over bytes. Its calls whose numbers, counted from 1, the list `failing` has are to fail.
#[derive(Drop, Debug)]
pub struct MemSource {
    bytes: Bytes,
    place: usize,
    failing: FailingCalls,
    ghost within: { place ≤ length bytes },
}

impl MemSource {
    ghost use Rattle.outside.specs.MemSource.{source_left, source_faults, source_failing, source_calls};

    /// A source that has these bytes left. It takes no memory.
    pub fn new(_alloc: Global, bytes: Bytes, failing: List<u64>) -> MemSource
        ensures left { source_left result ≡ bytes }
        ensures faults { source_faults result ≡ 0 }
        ensures failing { source_failing result ≡ failing }
        ensures calls { source_calls result ≡ 0 }
    {
        MemSource {
            bytes,
            place: 0,
            failing: FailingCalls::new(failing),
        }
    }

    /// What it has left.
    pub fn left(&self) -> &[u8]
        ensures { result.now ≡ source_left self.now }
    {
        &self.bytes.as_slice()[self.place..]
    }
}

impl Source for MemSource {
    ghost use Rattle.outside.specs.MemSource.{source_left, source_faults, source_failing, source_calls, source_fails};

    ghost tells = { Unit {0} };

    ghost left = { λ s. drop s.place s.bytes };

    ghost count = { λ s. s.failing.faults };

    fn read(&mut self, buf: &mut [u8]) -> Result<usize, Failed>
        requires { 0 < length buf.old }
        ensures within { IfOk result (λ n. n ≤ length buf.old) }
        ensures bytes { IfOk result
            (λ n. Consumes (source_left self.old) (source_left self.new) buf.new n) }
        ensures kept { OnErr result (source_left self.new ≡ source_left self.old) }
        ensures cause { Causes (source_faults self.old) (source_faults self.new) result }

        // It fails exactly where its number is in the list, and the count rises by one where it fails, and else not.
        ensures fails { IsErr result ↔ IsTrue (source_fails self.old) }
        ensures calls { source_calls self.new
            ≡ min (source_calls self.old + 1) 0xffff_ffff_ffff_ffff }
        ensures failing { source_failing self.new ≡ source_failing self.old }
        ensures quiet { OnOk result (source_faults self.new ≡ source_faults self.old) }
        ensures raised { OnErr result (source_faults self.new
            ≡ min (source_faults self.old + 1) 0xffff_ffff_ffff_ffff) }
        ensures never { source_failing self.old ≡ [] → IsOk result }
    {
        if self.failing.next() {
            self.failing.fail();
            return Err(Failed);
        }
        Ok(copy_from(self.bytes.as_slice(), &mut self.place, buf))
    }

    fn faults(&self) -> u64 {
        self.failing.faults
    }
}
