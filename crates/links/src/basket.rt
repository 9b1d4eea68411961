// Where a fetched file goes.
ghost use Rattle.std.specs.Prelude.{◌≡◌, ◌+◌, ℕ, List, [], length, OnOk};
ghost use Rattle.outside.specs.Streams.{Appends};
ghost use Rattle.links.specs.Basket.{BasketCounts};
ghost use Rattle.links.specs.declared.basket.BasketFault.TheVariants.{Memory};

use std::alloc::AllocError;
use std::error::Error;
use std::fmt;

/// Why a basket did not take bytes.
#[derive(Clone, Copy, Debug, PartialEq, Eq)]
pub enum BasketFault {
    /// The basket failed: its count of faults rose.
    Failed,
    /// There was no memory for them. The count of faults stays.
    Memory,
}

impl fmt::Display for BasketFault {
    fn fmt<W: fmt::Write>(&self, f: &mut fmt::Formatter<W>) -> fmt::Result {
        match self {
            BasketFault::Failed => write!(f, "the basket failed"),
            BasketFault::Memory => write!(f, "out of memory"),
        }
    }
}

impl Error for BasketFault {}

impl From<AllocError> for BasketFault {
    ghost from_gives = { λ _ e. e ≡ Memory };

    fn from(_: AllocError) -> BasketFault {
        BasketFault::Memory
    }
}

/// Where a fetched file goes, piece by piece. One that tells says what it has taken.
pub trait Basket {
    /// Whether it tells what it has taken.
    ghost tells: { Type 0 };

    /// What it has taken since it was last emptied.
    ghost taken: { Self → List ℕ };

    /// How often it failed.
    ghost count: { Self → ℕ };

    /// What its calls may make of it, and of what stands behind it, where they hand it so many bytes.
    ghost turns_to: { ℕ → Self → Self → Type 0 };

    /// Empties it.
    fn restart(&mut self)
        ensures turned { turns_to 0 self.old self.new }
        ensures empty { tells → taken self.new ≡ [] }
        ensures count { count self.new ≡ count self.old };

    /// Takes the bytes behind those that it has. After a fault it may have any bytes.
    fn take(&mut self, bytes: &[u8]) -> Result<(), BasketFault>
        ensures turned { turns_to (length bytes.now) self.old self.new }
        ensures bytes { tells → OnOk result (Appends (taken self.old) (taken self.new) bytes.now) }
        ensures counts { BasketCounts (count self.old) (count self.new) result };

    /// How often it failed. The count never falls.
    fn faults(&self) -> u64
        ensures { result ≡ count self.now };

    /// No call at all is one thing that may become of it. It hands it no byte.
    ghost turns_same: { (basket : Self) → turns_to 0 basket basket };

    /// And calls after calls are another. Their bytes add up.
    ghost turns_on: { (m n : ℕ) (a b c : Self) → turns_to m a b → turns_to n b c
        → turns_to (m + n) a c };
}
