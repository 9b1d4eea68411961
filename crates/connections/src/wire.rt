// A client's connections.
ghost use Rattle.std.specs.Prelude.{◌≡◌, ◌<◌, ◌≤◌, ℕ, List, Option, None, length, take, IfOk, OnOk, OnErr};
ghost use Rattle.outside.specs.Streams.{Causes, TakesSome};
ghost use Rattle.connections.specs.Wire.{Made, Connects, Receives, Sends, all_sent};

use outside::Failed;
use small_types::Text;

/// The connections of a client, one at a time. One that tells says of the present connection where
/// it leads, what the other side sends, what is left of that and what was sent, and of the
/// connections that are over what was sent on each.
pub trait Wire {
    /// Whether it tells the connections.
    ghost tells: { Type 0 };

    /// What was sent on each connection that is over.
    ghost over: { Self → List (List ℕ) };

    /// The present connection, if there is one.
    ghost present: { Self → Option Made };

    /// How often it failed.
    ghost count: { Self → ℕ };

    /// Ends the present connection and makes a new one to the host's port, on which nothing was received or sent yet.
    /// A call that fails leaves no present connection.
    fn connect(&mut self, host: &Text, port: u16) -> Result<(), Failed>
        ensures ended { tells → over self.new ≡ all_sent (over self.old) (present self.old) }
        ensures made { tells → OnOk result (Connects host.now port (present self.new)) }
        ensures none { tells → OnErr result (present self.new ≡ None) }
        ensures cause { Causes (count self.old) (count self.new) result };

    /// Puts the first bytes that are left to the front of the buffer, and answers how many. Zero is
    /// the end. Without a present connection it fails.
    fn receive(&mut self, buf: &mut [u8]) -> Result<usize, Failed>
        requires { 0 < length buf.old }
        ensures within { IfOk result (λ n. n ≤ length buf.old) }
        ensures bytes { tells
            → IfOk result (λ n. Receives (present self.old) (present self.new) buf.new n) }
        ensures kept { tells → OnErr result (present self.new ≡ present self.old) }
        ensures over_kept { tells → over self.new ≡ over self.old }
        ensures cause { Causes (count self.old) (count self.new) result };

    /// Sends the first of the bytes, at least one, on the present connection, and answers how many. A call that fails
    /// sends nothing. Without a present connection it fails.
    fn send(&mut self, bytes: &[u8]) -> Result<usize, Failed>
        requires { 0 < length bytes.now }
        ensures within { IfOk result (λ n. TakesSome n bytes.now) }
        ensures bytes { tells
            → IfOk result (λ n. Sends (present self.old) (present self.new) (take n bytes.now)) }
        ensures kept { tells → OnErr result (present self.new ≡ present self.old) }
        ensures over_kept { tells → over self.new ≡ over self.old }
        ensures cause { Causes (count self.old) (count self.new) result };

    /// How often it failed. The count never falls.
    fn faults(&self) -> u64
        ensures { result ≡ count self.now };
}
