// Where a program's input comes from.
ghost use Rattle.std.specs.Prelude.{◌≡◌, ◌<◌, ◌≤◌, ℕ, List, length, IfOk, OnErr};
ghost use Rattle.outside.specs.Streams.{Causes, Consumes};

use crate::Failed;

/// A source of bytes. One that tells says what it has left.
pub trait Source {
    /// Whether it tells what it has left.
    ghost tells: { Type 0 };

    /// What it has left.
    ghost left: { Self → List ℕ };

    /// How often it failed.
    ghost count: { Self → ℕ };

    /// Puts the first bytes that are left to the front of the buffer, and answers how many. Zero is the end.
    fn read(&mut self, buf: &mut [u8]) -> Result<usize, Failed>
        requires { 0 < length buf.old }
        ensures within { IfOk result (λ n. n ≤ length buf.old) }
        ensures bytes { tells
            → IfOk result (λ n. Consumes (left self.old) (left self.new) buf.new n) }
        ensures kept { tells → OnErr result (left self.new ≡ left self.old) }
        ensures cause { Causes (count self.old) (count self.new) result };

    /// How often it failed. The count never falls.
    fn faults(&self) -> u64
        ensures { result ≡ count self.now };
}
