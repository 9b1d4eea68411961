// Whether a content is just these bytes.
ghost use Rattle.std.specs.Prelude.{◌≡◌, ◌≢◌, ℕ, ◌<◌, ◌≤◌, ◌+◌, ◌↔◌, List, length, take, drop, IfOk, IsErr, IsTrue, Ok, false};
ghost use Rattle.disks.specs.Moments.{Untouched};
ghost use Rattle.disks.specs.Spends.{Spends};
ghost use Rattle.file_store.specs.Stores.{store_base};
ghost use Rattle.small_types.specs.Blocks.{IsContent, count_for};

use crate::run::read_run;
use disks::Disk;
use file_store::FileStore;
use outside::Failed;
use small_types::List;
use small_types::limits::BLOCK_SIZE;

// Whether the bytes are the same.
fn are_same(one: &[u8], other: &[u8]) -> bool
    ensures { IsTrue result ↔ (one.now ≡ other.now) }
{
    one == other
}

// Compares the content with the bytes from one of them on, as far as the buffer reaches, and
// answers how many are the same, or 0 where one of them is not.
fn same_run<D: Disk>(
    files: &FileStore,
    disk: &mut D,
    blocks: &List<u32>,
    bytes: &[u8],
    from: usize,
    buffer: &mut [u8],
) -> Result<usize, Failed>
    requires counted { length blocks.now ≡ count_for (length bytes.now) }
    requires room { 0 < length buffer.old }
    requires within { from < length bytes.now }
    ensures within { IfOk result (λ n. from + n ≤ length bytes.now) }
    ensures same { D.tells disk.new → (content : List ℕ) → length content ≡ length bytes.now
        → IsContent (store_base files.now) blocks.now content (D.seen disk.old)
        → IfOk result (λ n. take n (drop from content) ≡ take n (drop from bytes.now)) }
    ensures differs { D.tells disk.new → (content : List ℕ) → length content ≡ length bytes.now
        → IsContent (store_base files.now) blocks.now content (D.seen disk.old)
        → IfOk result (λ n. n ≡ 0 → content ≢ bytes.now) }
    ensures still { Untouched D.Disk disk.old disk.new }
    ensures spends { Spends D.Disk 0 0 disk.old disk.new (IsErr result) }
{
    let size = bytes.len() as u64;
    let read = read_run(files, disk, blocks, size, from as u64, buffer)?;
    if are_same(&buffer[..read], &bytes[from..from + read]) {
        return Ok(read);
    }
    Ok(0)
}

// Whether the content of as many bytes is just these, read by way of the buffer.
fn are_bytes<D: Disk>(
    files: &FileStore,
    disk: &mut D,
    blocks: &List<u32>,
    bytes: &[u8],
    buffer: &mut [u8],
) -> Result<bool, Failed>
    requires counted { length blocks.now ≡ count_for (length bytes.now) }
    requires room { 0 < length buffer.old }
    ensures same { D.tells disk.new → (content : List ℕ) → length content ≡ length bytes.now
        → IsContent (store_base files.now) blocks.now content (D.seen disk.old)
        → IfOk result (λ same. IsTrue same ↔ (content ≡ bytes.now)) }
    ensures still { Untouched D.Disk disk.old disk.new }
    ensures spends { Spends D.Disk 0 0 disk.old disk.new (IsErr result) }
{
    let mut done = 0;
    while done < bytes.len() {
        let count = same_run(files, disk, blocks, bytes, done, buffer)?;
        if count == 0 {
            return Ok(false);
        }
        done += count;
    }
    Ok(true)
}

/// Whether a content of this size is just these bytes. It reads a block at a time, as far as they
/// are the same, and takes no memory. Bytes of another length are not the content, which is told
/// without a read. `Failed`: the disk failed.
pub fn has_bytes<D: Disk>(
    files: &FileStore,
    disk: &mut D,
    blocks: &List<u32>,
    size: u64,
    bytes: &[u8],
) -> Result<bool, Failed>
    requires { length blocks.now ≡ count_for size }
    ensures same { D.tells disk.new → (content : List ℕ) → length content ≡ size
        → IsContent (store_base files.now) blocks.now content (D.seen disk.old)
        → IfOk result (λ same. IsTrue same ↔ (content ≡ bytes.now)) }
    ensures other_length { size ≢ length bytes.now → result ≡ Ok false }
    ensures unread { size ≢ length bytes.now → disk.new ≡ disk.old }
    ensures still { Untouched D.Disk disk.old disk.new }
    ensures spends { Spends D.Disk 0 0 disk.old disk.new (IsErr result) }
{
    if size != bytes.len() as u64 {
        return Ok(false);
    }
    let mut buffer = [0; BLOCK_SIZE];
    are_bytes(files, disk, blocks, bytes, &mut buffer)
}
