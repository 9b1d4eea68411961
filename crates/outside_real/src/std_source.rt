// Standard input as a source.
ghost use Rattle.std.specs.Prelude.{◌≡◌, ◌<◌, ◌≤◌, [], length, IfOk, OnOk, OnErr};
ghost use Rattle.outside.specs.Streams.{Causes};

use crate::counted::counted;
use crate::reason::{Reason, keep};
use outside::{Failed, Source};
use std::io;
use std::io::Read;

/// The standard input of a runtime. It tells no content. A call that the system fails is a failed one; zero bytes are
/// the end.
#[derive(Drop)]
pub struct StdSource<R: Input> {
    reader: R::Reader,
    faults: u64,
    why: Option<Reason>,
}

impl<R: Input + Drop> StdSource<R> {
    ghost use Rattle.outside_real.specs.StdSource.{source_faults};

    /// It reads nothing yet.
    pub fn new(rt: R) -> StdSource<R>
        ensures { source_faults result ≡ 0 }
    {
        StdSource {
            reader: rt.reader(),
            faults: 0,
            why: None,
        }
    }

    /// Why the first call that failed did.
    pub fn why(&self) -> Option<&Reason> {
        self.why.as_ref()
    }
}

// What one system call gives. Where it fails the first reason is kept.
pub(crate) fn read_kept<I: Read>(
    reader: &mut I,
    why: &mut Option<Reason>,
    buf: &mut [u8],
) -> Result<usize, Failed>
    ensures { IfOk result (λ n. n ≤ length buf.old) }
{
    match reader.read(buf) {
        Ok(n) => Ok(n),
        Err(error) => Err(keep(why, error)),
    }
}

impl<R: Input> Source for StdSource<R> {
    ghost tells = { ⊥ };

    ghost left = { λ _. [] };

    ghost count = { λ s. s.faults };

    fn read(&mut self, buf: &mut [u8]) -> Result<usize, Failed> {
        let done = read_kept(&mut self.reader, &mut self.why, buf);
        counted(&mut self.faults, done)
    }

    fn faults(&self) -> u64 {
        self.faults
    }
}
