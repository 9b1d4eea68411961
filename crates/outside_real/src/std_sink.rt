// Standard output as a sink.
ghost use Rattle.std.specs.Prelude.{◌≡◌, ◌<◌, ◌≤◌, [], length, take, IfOk, OnOk, OnErr};
ghost use Rattle.outside.specs.Streams.{Appends, Causes, TakesSome};
ghost use Rattle.outside_real.specs.Notes.{taken_part};

use crate::counted::counted;
use crate::reason::{Reason, keep};
use call_record::{Notes, Record};
use outside::{Failed, Sink};
use std::io;
use std::io::ErrorKind;

/// The standard output of a runtime. It keeps a record of the bytes that were handed to the system and taken, which
/// only clauses see, and tells it. Each call is one system call, so that its error is the
/// call's own; a call that takes no byte is a failed one.
#[derive(Drop)]
pub struct StdSink<R: Print> {
    rt: R,
    faults: u64,
    taken: Record<u8>,
    why: Option<Reason>,
}

impl<R: Print> StdSink<R> {
    ghost use Rattle.outside_real.specs.StdSink.{sink_faults, sink_taken};

    /// It writes nothing yet.
    pub fn new(rt: R) -> StdSink<R>
        ensures faults { sink_faults result ≡ 0 }
        ensures taken { sink_taken result ≡ [] }
    {
        StdSink {
            rt,
            faults: 0,
            taken: Record::new(),
            why: None,
        }
    }

    /// Why the first call that failed did.
    pub fn why(&self) -> Option<&Reason> {
        self.why.as_ref()
    }
}

// A call that was to write these bytes.
#[derive(Clone, Copy)]
struct SinkNote<'a> {
    bytes: &'a [u8],
    answer: Result<usize, Failed>,
}

impl Notes<u8> for SinkNote<'_> {
    ghost notes = { λ n. taken_part n.bytes.now n.answer };
}

fn write_some<R: Print>(rt: &R, why: &mut Option<Reason>, bytes: &[u8]) -> Result<usize, Failed>
    ensures { IfOk result (λ n. TakesSome n bytes.now) }
{
    match rt.write_some(bytes) {
        Ok(0) => Err(keep(why, io::Error::from(ErrorKind::WriteZero))),
        Ok(n) => Ok(n),
        Err(error) => Err(keep(why, error)),
    }
}

impl<R: Print> Sink for StdSink<R> {
    ghost tells = { Unit {0} };

    ghost taken = { λ s. s.taken.noted };

    ghost count = { λ s. s.faults };

    // It makes a call of the system, and then notes it with its answer.
    fn write(&mut self, bytes: &[u8]) -> Result<usize, Failed> {
        let answer = write_some(&self.rt, &mut self.why, bytes);
        self.taken.note(&SinkNote { bytes, answer });
        counted(&mut self.faults, answer)
    }

    fn faults(&self) -> u64 {
        self.faults
    }
}
