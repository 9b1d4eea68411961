// A host's connections.
ghost use Rattle.std.specs.Prelude.{◌≡◌, ◌<◌, ◌≤◌, ℕ, List, length, take, IfOk, OnOk, OnErr};
ghost use Rattle.connections.specs.Door.{Accepted, Accepts, ReceivesOnLast, SendsOnLast};
ghost use Rattle.outside.specs.Streams.{Causes, TakesSome};

use outside::Failed;

/// The connections of a host, one at a time. One that tells has the list of those that were accepted, and a call
/// changes only the last of them.
pub trait Door {
    /// Whether it tells the connections.
    ghost tells: { Type 0 };

    /// The connections that were accepted, the present one last.
    ghost accepted: { Self → List Accepted };

    /// How often `receive` and `send` failed.
    ghost count: { Self → ℕ };

    /// How often `accept` failed.
    ghost misses: { Self → ℕ };

    /// Takes the next connection, on which nothing was received or sent yet.
    fn accept(&mut self) -> Result<(), Failed>
        ensures made { tells → OnOk result (Accepts (accepted self.old) (accepted self.new)) }
        ensures kept { tells → OnErr result (accepted self.new ≡ accepted self.old) }
        ensures cause { Causes (misses self.old) (misses self.new) result }
        ensures count_kept { count self.new ≡ count self.old };

    /// Puts the first bytes that the present connection has left to the front of the buffer, and answers how many.
    /// Zero is the end. Before the first connection it fails.
    fn receive(&mut self, buf: &mut [u8]) -> Result<usize, Failed>
        requires { 0 < length buf.old }
        ensures within { IfOk result (λ n. n ≤ length buf.old) }
        ensures bytes { tells
            → IfOk result (λ n. ReceivesOnLast (accepted self.old) (accepted self.new) buf.new n) }
        ensures kept { tells → OnErr result (accepted self.new ≡ accepted self.old) }
        ensures cause { Causes (count self.old) (count self.new) result }
        ensures misses_kept { misses self.new ≡ misses self.old };

    /// Sends the first of the bytes, at least one, on the present connection, and answers how many. A call that fails
    /// sends nothing. Before the first connection it fails.
    fn send(&mut self, bytes: &[u8]) -> Result<usize, Failed>
        requires { 0 < length bytes.now }
        ensures within { IfOk result (λ n. TakesSome n bytes.now) }
        ensures bytes { tells → IfOk result (λ n.
            SendsOnLast (accepted self.old) (accepted self.new) (take n bytes.now)) }
        ensures kept { tells → OnErr result (accepted self.new ≡ accepted self.old) }
        ensures cause { Causes (count self.old) (count self.new) result }
        ensures misses_kept { misses self.new ≡ misses self.old };

    /// How often `accept` failed. The count never falls.
    fn missed(&self) -> u64
        ensures { result ≡ misses self.now };

    /// How often `receive` and `send` failed. The count never falls.
    fn faults(&self) -> u64
        ensures { result ≡ count self.now };
}
