// A content that is copied into other blocks.
ghost use Rattle.std.specs.Prelude.{◌≡◌, ℕ, ◌≤◌, ◌+◌, ◌-◌, ◌++◌, List, length, replicate, take, IsErr, OnOk};
ghost use Rattle.disks.specs.Spends.{Spends};
ghost use Rattle.file_store.specs.Stores.{DraftHolds, draft_blocks, draft_size, filled_of, store_base};
ghost use Rattle.file_store.specs.Writes.{WritesOnly, touched};
ghost use Rattle.small_types.specs.Blocks.{IsContent, ShareNone, count_for};

use crate::run::read_run;
use disks::Disk;
use file_store::{Draft, FileStore};
use outside::Failed;
use small_types::List;
use small_types::limits::BLOCK_SIZE;

// Fills a buffer with zeros from a byte on.
fn clear_from(buffer: &mut [u8], from: usize)
    requires { from ≤ length buffer.old }
    ensures { buffer.new ≡ take from buffer.old ++ replicate (length buffer.old - from) 0 }
{
    buffer[from..].fill(0);
}

// Writes bytes behind those that the draft was given.
fn store_run<D: Disk>(
    files: &mut FileStore,
    disk: &mut D,
    draft: &mut Draft,
    bytes: &[u8],
) -> Result<(), Failed>
    requires { filled_of draft.old + length bytes.now ≤ draft_size draft.old }
    ensures only { WritesOnly D.Disk (store_base files.old) (draft_blocks draft.old) disk.old
        disk.new }
    ensures held { (before : List ℕ)
        → DraftHolds (store_base files.old) draft.old before (D.seen disk.old)
        → OnOk result (DraftHolds (store_base files.old) draft.new (before ++ bytes.now)
        (D.seen disk.new)) }
    ensures filled { OnOk result
        (filled_of draft.new ≡ filled_of draft.old + length bytes.now) }
    ensures blocks { draft_blocks draft.new ≡ draft_blocks draft.old }
    ensures size { draft_size draft.new ≡ draft_size draft.old }
    ensures store { files.new ≡ files.old }
    ensures written { OnOk result (D.total disk.new ≡ D.total disk.old + length bytes.now) }
    ensures spends { Spends D.Disk (touched (filled_of draft.old) (length bytes.now))
        (length bytes.now) disk.old disk.new (IsErr result) }
{
    match files.store_piece(disk, draft, bytes) {
        Ok(()) => Ok(()),
        Err(_) => Err(Failed),
    }
}

// Copies the bytes of a content that the buffer has room for, from where the draft ends on. Bytes
// that the disk does not have are zeros.
fn copy_run<D: Disk>(
    files: &mut FileStore,
    disk: &mut D,
    blocks: &List<u32>,
    draft: &mut Draft,
    buffer: &mut [u8],
) -> Result<(), Failed>
    requires counted { length blocks.now ≡ count_for (draft_size draft.old) }
    requires fits { filled_of draft.old + length buffer.old ≤ draft_size draft.old }
    ensures only { WritesOnly D.Disk (store_base files.old) (draft_blocks draft.old) disk.old
        disk.new }
    ensures held { D.tells disk.new → (content : List ℕ)
        → length content ≡ draft_size draft.old
        → IsContent (store_base files.old) blocks.now content (D.seen disk.old)
        → DraftHolds (store_base files.old) draft.old (take (filled_of draft.old) content)
        (D.seen disk.old)
        → OnOk result (DraftHolds (store_base files.old) draft.new
        (take (filled_of draft.old + length buffer.old) content) (D.seen disk.new)) }
    ensures filled { OnOk result
        (filled_of draft.new ≡ filled_of draft.old + length buffer.old) }
    ensures blocks { draft_blocks draft.new ≡ draft_blocks draft.old }
    ensures size { draft_size draft.new ≡ draft_size draft.old }
    ensures store { files.new ≡ files.old }
    ensures written { OnOk result (D.total disk.new ≡ D.total disk.old + length buffer.old) }
    ensures spends { Spends D.Disk (touched (filled_of draft.old) (length buffer.old))
        (length buffer.old) disk.old disk.new (IsErr result) }
{
    let read = read_run(files, disk, blocks, draft.size(), draft.filled(), buffer)?;
    clear_from(buffer, read);
    store_run(files, disk, draft, buffer)
}

/// Empties a draft, and fills it with the content of its size that lies in these blocks. It reads
/// and writes in runs of as many whole blocks as the buffer has room for, and takes no memory. Bytes
/// that the disk does not have, as those of a file that was cut off, are zeros in the draft.
/// `Failed`: the disk failed; the draft then has a part.
pub fn copy_content<D: Disk>(
    files: &mut FileStore,
    disk: &mut D,
    blocks: &List<u32>,
    draft: &mut Draft,
    buffer: &mut [u8],
) -> Result<(), Failed>
    requires counted { length blocks.now ≡ count_for (draft_size draft.old) }
    requires room { BLOCK_SIZE ≤ length buffer.old }

    // Only the draft's own blocks are written, at each moment of the call, also where it fails.
    ensures only { WritesOnly D.Disk (store_base files.old) (draft_blocks draft.old) disk.old
        disk.new }

    // A content in other blocks than the draft's is then the draft's too.
    ensures held { D.tells disk.new → (content : List ℕ)
        → length content ≡ draft_size draft.old
        → ShareNone blocks.now (draft_blocks draft.old)
        → IsContent (store_base files.old) blocks.now content (D.seen disk.old)
        → OnOk result (DraftHolds (store_base files.old) draft.new content (D.seen disk.new)) }
    ensures whole { OnOk result (filled_of draft.new ≡ draft_size draft.new) }
    ensures blocks { draft_blocks draft.new ≡ draft_blocks draft.old }
    ensures size { draft_size draft.new ≡ draft_size draft.old }
    ensures store { files.new ≡ files.old }

    // Each byte is written once, and no block twice.
    ensures written { OnOk result (D.total disk.new ≡ D.total disk.old + draft_size draft.old) }
    ensures spends { Spends D.Disk (count_for (draft_size draft.old)) (draft_size draft.old)
        disk.old disk.new (IsErr result) }
{
    files.restart(draft);
    let size = draft.size();
    let whole = buffer.len() / BLOCK_SIZE * BLOCK_SIZE;
    let mut done = 0;
    while done < size {
        let run = whole.min((size - done) as usize);
        copy_run(files, disk, blocks, draft, &mut buffer[..run])?;
        done += run as u64;
    }
    Ok(())
}
