// Where a program's output goes.
ghost use Rattle.std.specs.Prelude.{◌≡◌, ◌<◌, ◌≤◌, ℕ, List, length, take, IfOk, OnOk, OnErr};
ghost use Rattle.outside.specs.Streams.{Appends, AppendsPart, Causes, TakesSome};

use crate::Failed;

/// A sink of bytes. One that tells says what it has taken.
pub trait Sink {
    /// Whether it tells what it has taken.
    ghost tells: { Type 0 };

    /// What it has taken.
    ghost taken: { Self → List ℕ };

    /// How often it failed.
    ghost count: { Self → ℕ };

    /// Takes the first of the bytes, at least one, and answers how many. A call that fails takes nothing.
    fn write(&mut self, bytes: &[u8]) -> Result<usize, Failed>
        requires { 0 < length bytes.now }
        ensures within { IfOk result (λ n. TakesSome n bytes.now) }
        ensures bytes { tells
            → IfOk result (λ n. Appends (taken self.old) (taken self.new) (take n bytes.now)) }
        ensures kept { tells → OnErr result (taken self.new ≡ taken self.old) }
        ensures cause { Causes (count self.old) (count self.new) result };

    /// How often it failed. The count never falls.
    fn faults(&self) -> u64
        ensures { result ≡ count self.now };
}

/// Writes all the bytes. Where it fails the sink has taken a first part of them, and not all.
pub fn write_all<K: Sink>(sink: &mut K, bytes: &[u8]) -> Result<(), Failed>
    ensures bytes { K.tells
        → OnOk result (Appends (K.taken sink.old) (K.taken sink.new) bytes.now) }
    ensures part { K.tells
        → OnErr result (AppendsPart (K.taken sink.old) (K.taken sink.new) bytes.now) }
    ensures cause { Causes (K.count sink.old) (K.count sink.new) result }
{
    let mut rest = bytes;
    while !rest.is_empty() {
        let n = sink.write(rest)?;
        rest = &rest[n..];
    }
    Ok(())
}
