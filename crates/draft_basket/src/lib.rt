//! A draft of a file store as the basket of a fetch.
#![tactic(auto)]

ghost use Rattle.std.specs.Prelude.{◌≡◌, ◌≤◌, ◌+◌, ◌++◌, refl, length, IfErr, OnOk};
ghost use Rattle.std.proofs.Common.{◌∙◌};
ghost use Rattle.file_store.specs.Stores.{draft_blocks, draft_size, filled_of, store_base};
ghost use Rattle.file_store.specs.Writes.{WritesOnly};
ghost use Rattle.outside.specs.Streams.{Appends};
ghost use Rattle.links.specs.Basket.{BasketCounts};
ghost use Rattle.links.specs.declared.basket.BasketFault.TheVariants.{Failed};
ghost use Rattle.draft_basket.specs.Basket.{ArePast, ReadsWhole, Turned, held_bytes};
ghost use Rattle.draft_basket.specs.Turned.{turned_on, turned_same};

use call_record::Record;
use disks::Disk;
use file_store::{Draft, FileStore};
use links::{Basket, BasketFault};

/// A draft that takes what a fetch gives. It takes no memory, and its count of faults is the
/// disk's. A piece that is longer than what the draft has room for is not written, nor is any after
/// it until the basket is emptied: these are only noted, so the basket has then taken more bytes
/// than the draft's size. A fetch that gives bytes of that size leaves a whole draft.
#[derive(Drop)]
pub struct DraftBasket<'a, D: Disk> {
    disk: &'a mut D,
    store: &'a mut FileStore,
    draft: &'a mut Draft,
    // Whether there was more than the draft has room for.
    is_over: bool,
    past: Record<u8>,
    ghost whole: { ReadsWhole (store_base store.now) draft.now (D.seen disk.now) },
    ghost past_size: { ArePast draft.now is_over past.noted },
}

impl<D: Disk> Basket for DraftBasket<'_, D> {
    ghost tells = { Unit {0} };

    ghost taken = { λ b. held_bytes (store_base b.store.now) b.draft.now (D.seen b.disk.now)
        ++ b.past.noted };

    ghost count = { λ b. D.count b.disk.now };

    ghost turns_to = { λ n a b. (b.disk.ghost_name ≡ a.disk.ghost_name)
        × (b.draft.ghost_name ≡ a.draft.ghost_name) × (b.store.ghost_name ≡ a.store.ghost_name)
        × (b.store.now ≡ a.store.now)
        × Turned D.Disk (store_base a.store.now) n a.draft.now b.draft.now a.disk.now
        b.disk.now };

    ghost turns_same = { λ a. (
      refl,
      refl,
      refl,
      refl,
      turned_same _ (store_base a.store.now) 0 a.draft.now a.disk.now,
    ) };

    ghost turns_on = { λ m n a b c one two. (
      two.0 ∙ one.0,
      two.1 ∙ one.1,
      two.2 ∙ one.2,
      two.3 ∙ one.3,
      turned_on _ m n a.store.now b.store.now a.draft.now b.draft.now c.draft.now a.disk.now
          b.disk.now c.disk.now one.3 one.4 two.4,
    ) };

    fn restart(&mut self) {
        self.store.restart(self.draft);
        self.is_over = false;
        self.past = Record::new();
    }

    fn take(&mut self, bytes: &[u8]) -> Result<(), BasketFault>
        ensures turned { (self.new.disk.ghost_name ≡ self.old.disk.ghost_name)
            × (self.new.draft.ghost_name ≡ self.old.draft.ghost_name)
            × (self.new.store.ghost_name ≡ self.old.store.ghost_name)
            × (self.new.store.now ≡ self.old.store.now)
            × Turned D.Disk (store_base self.old.store.now) (length bytes.now) self.old.draft.now
            self.new.draft.now self.old.disk.now self.new.disk.now }
        ensures bytes { OnOk result (Appends
            (held_bytes (store_base self.old.store.now) self.old.draft.now
            (D.seen self.old.disk.now) ++ self.old.past.noted)
            (held_bytes (store_base self.new.store.now) self.new.draft.now
            (D.seen self.new.disk.now) ++ self.new.past.noted) bytes.now) }
        ensures counts { BasketCounts (D.count self.old.disk.now) (D.count self.new.disk.now)
            result }
        ensures fault { IfErr result (λ e. e ≡ Failed) }
    {
        if self.is_over || bytes.len() as u64 > self.draft.size() - self.draft.filled() {
            self.is_over = true;
            self.past.note(&bytes);
            return Ok(());
        }
        match self.store.store_piece(self.disk, self.draft, bytes) {
            Ok(()) => Ok(()),
            Err(_) => Err(BasketFault::Failed),
        }
    }

    fn faults(&self) -> u64 {
        self.disk.faults()
    }
}

impl<'a, D: Disk> DraftBasket<'a, D> {
    /// A basket of this draft, which it empties.
    pub fn new(
        disk: &'a mut D,
        store: &'a mut FileStore,
        draft: &'a mut Draft,
    ) -> DraftBasket<'a, D>
        ensures same_disk { result.disk.ghost_name ≡ disk.entry.ghost_name }
        ensures same_store { result.store.ghost_name ≡ store.entry.ghost_name }
        ensures same_draft { result.draft.ghost_name ≡ draft.entry.ghost_name }
        ensures disk { result.disk.now ≡ disk.old }
        ensures store { result.store.now ≡ store.old }
        ensures empty { filled_of result.draft.now ≡ 0 }
        ensures blocks { draft_blocks result.draft.now ≡ draft_blocks draft.old }
        ensures size { draft_size result.draft.now ≡ draft_size draft.old }
    {
        store.restart(draft);
        DraftBasket {
            disk,
            store,
            draft,
            is_over: false,
            past: Record::new(),
        }
    }
}

// Hands all these bytes to an emptied basket.
fn fill<B: Basket>(basket: &mut B, bytes: &[u8]) -> Result<(), BasketFault>
    ensures turned { B.turns_to (length bytes.now) basket.old basket.new }
    ensures bytes { B.tells → OnOk result (B.taken basket.new ≡ bytes.now) }
    ensures counts { BasketCounts (B.count basket.old) (B.count basket.new) result }
{
    basket.restart();
    basket.take(bytes)
}

/// Empties a draft, and fills it with these bytes by way of a basket, as a fetch does. `Failed`:
/// the disk failed. Bytes that are more than the draft's size are not written.
pub fn fill_draft<D: Disk>(
    store: &mut FileStore,
    disk: &mut D,
    draft: &mut Draft,
    bytes: &[u8],
) -> Result<(), BasketFault>
    ensures only { WritesOnly D.Disk (store_base store.old) (draft_blocks draft.old) disk.old
        disk.new }
    ensures held { length bytes.now ≤ draft_size draft.old
        → OnOk result (held_bytes (store_base store.old) draft.new (D.seen disk.new) ≡ bytes.now) }
    ensures whole { ReadsWhole (store_base store.old) draft.new (D.seen disk.new) }
    ensures blocks { draft_blocks draft.new ≡ draft_blocks draft.old }
    ensures size { draft_size draft.new ≡ draft_size draft.old }
    ensures store { store.new ≡ store.old }
    ensures written { D.total disk.new ≤ D.total disk.old + length bytes.now }
    ensures counts { BasketCounts (D.count disk.old) (D.count disk.new) result }
{
    let mut basket = DraftBasket::new(disk, store, draft);
    fill(&mut basket, bytes)?;
    Ok(())
}
