// How a run of a content's bytes is read.
ghost use Rattle.std.specs.Prelude.{◌≡◌, ℕ, ◌≤◌, ◌-◌, List, length, min, take, drop, IfOk, IsErr};
ghost use Rattle.disks.specs.Moments.{Untouched};
ghost use Rattle.disks.specs.Spends.{Spends};
ghost use Rattle.file_store.specs.Stores.{store_base};
ghost use Rattle.small_types.specs.Blocks.{IsContent, count_for};

use disks::Disk;
use file_store::FileStore;
use outside::Failed;
use small_types::List;

// Reads the bytes of a content of this size from one on into the front of the buffer, and answers
// how many: as many as there are, at most the buffer's length.
pub(crate) fn read_run<D: Disk>(
    files: &FileStore,
    disk: &mut D,
    blocks: &List<u32>,
    size: u64,
    from: u64,
    buffer: &mut [u8],
) -> Result<usize, Failed>
    requires { length blocks.now ≡ count_for size }
    ensures within { IfOk result (λ n. n ≤ min (size - from) (length buffer.old)) }
    ensures whole { D.tells disk.new → (content : List ℕ) → length content ≡ size
        → IsContent (store_base files.now) blocks.now content (D.seen disk.old)
        → IfOk result (λ n. n ≡ min (size - from) (length buffer.old)) }
    ensures bytes { D.tells disk.new → (content : List ℕ) → length content ≡ size
        → IsContent (store_base files.now) blocks.now content (D.seen disk.old)
        → IfOk result (λ n. take n buffer.new ≡ take n (drop from content)) }
    ensures still { Untouched D.Disk disk.old disk.new }
    ensures spends { Spends D.Disk 0 0 disk.old disk.new (IsErr result) }
{
    match files.read_content(disk, blocks, size, from, buffer) {
        Ok(count) => Ok(count),
        Err(_) => Err(Failed),
    }
}
