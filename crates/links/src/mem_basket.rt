// A basket in memory.
ghost use Rattle.std.specs.Prelude.{◌≡◌, [], OnOk, OnErr};
ghost use Rattle.outside.specs.Streams.{Appends};
ghost use Rattle.links.specs.Basket.{BasketCounts};

use crate::{Basket, BasketFault};
use outside::FailingCalls;
use small_types::{Bytes, List};
use std::alloc::Global;

/// A basket that keeps what it takes. Its calls of `take` whose numbers, counted from 1, the list `failing` has are to
/// fail. A call for which it finds no memory answers `Memory`. A call that fails takes nothing.
#[derive(Drop, Debug)]
pub struct MemBasket {
    taken: Bytes,
    failing: FailingCalls,
}

impl MemBasket {
    ghost use Rattle.links.specs.MemBasket.{basket_taken, basket_faults, basket_failing, basket_calls};

    /// A basket that has these bytes. It takes no memory.
    pub fn new(_alloc: Global, bytes: Bytes, failing: List<u64>) -> MemBasket
        ensures taken { basket_taken result ≡ bytes }
        ensures faults { basket_faults result ≡ 0 }
        ensures failing { basket_failing result ≡ failing }
        ensures calls { basket_calls result ≡ 0 }
    {
        MemBasket {
            taken: bytes,
            failing: FailingCalls::new(failing),
        }
    }

    /// What it has.
    pub fn bytes(&self) -> &[u8]
        ensures { result.now ≡ basket_taken self.now }
    {
        self.taken.as_slice()
    }
}

impl Basket for MemBasket {
    ghost use Rattle.links.specs.MemBasket.{basket_taken, basket_faults, basket_failing, basket_calls, CountsTake};

    ghost tells = { Unit {0} };

    ghost taken = { λ b. b.taken };

    ghost count = { λ b. b.failing.faults };

    ghost turns_to = { λ n a b. Unit {0} };

    ghost turns_same = { λ a. tt };

    ghost turns_on = { λ m n a b c one two. tt };

    fn restart(&mut self)
        ensures turned { Unit {0} }
        ensures empty { basket_taken self.new ≡ [] }
        ensures count { basket_faults self.new ≡ basket_faults self.old }
        ensures calls { basket_calls self.new ≡ basket_calls self.old }
        ensures failing { basket_failing self.new ≡ basket_failing self.old }
    {
        self.taken.shorten(0);
    }

    fn take(&mut self, bytes: &[u8]) -> Result<(), BasketFault>
        ensures turned { Unit {0} }
        ensures bytes { OnOk result
            (Appends (basket_taken self.old) (basket_taken self.new) bytes.now) }
        ensures counts { BasketCounts (basket_faults self.old) (basket_faults self.new) result }
        ensures kept { OnErr result (basket_taken self.new ≡ basket_taken self.old) }
        ensures counted { CountsTake self.old self.new result }
    {
        if self.failing.next() {
            self.failing.fail();
            return Err(BasketFault::Failed);
        }
        self.taken.extend(bytes)?;
        Ok(())
    }

    fn faults(&self) -> u64 {
        self.failing.faults
    }
}
