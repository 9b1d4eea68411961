// Where a fetched manifest goes.
ghost use Rattle.std.specs.Prelude.{◌≡◌, []};

use links::{Basket, BasketFault};
use std::alloc::Global;

/// A basket for a file of so many bytes. It keeps what it takes, makes the room for all of it with
/// the first bytes, and fails only for want of memory.
#[derive(Drop, Debug)]
pub(crate) struct ByteBasket {
    pub(crate) bytes: Vec<u8>,
    size: u64,
}

impl ByteBasket {
    /// An empty one. It takes no memory.
    pub(crate) fn new(alloc: Global, size: u64) -> ByteBasket
        ensures { result.bytes.items ≡ [] }
    {
        ByteBasket {
            bytes: Vec::new(alloc),
            size,
        }
    }
}

impl Basket for ByteBasket {
    ghost tells = { Unit {0} };

    ghost taken = { λ b. b.bytes.items };

    ghost count = { λ b. 0 };

    ghost turns_to = { λ n a b. Unit {0} };

    ghost turns_same = { λ a. tt };

    ghost turns_on = { λ m n a b c one two. tt };

    fn restart(&mut self) {
        self.bytes.clear();
    }

    fn take(&mut self, bytes: &[u8]) -> Result<(), BasketFault> {
        let left = self.size.saturating_sub(self.bytes.len() as u64);
        self.bytes.reserve_exact(left as usize)?;
        self.bytes.extend_from_slice(bytes)?;
        Ok(())
    }

    fn faults(&self) -> u64 {
        0
    }
}
