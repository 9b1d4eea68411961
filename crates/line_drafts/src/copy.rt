// The copy of a content into a draft.
ghost use Rattle.std.specs.Prelude.{◌≡◌, ℕ, ◌≤◌, ◌+◌, ◌⊎◌, List, length, IfErr, OnOk, Err};
ghost use Rattle.disks.specs.Spends.{Spends};
ghost use Rattle.small_types.specs.Blocks.{IsContent, ShareNone, count_for};
ghost use Rattle.file_store.specs.Stores.{DraftHolds, draft_blocks, draft_size, filled_of, store_base};
ghost use Rattle.file_store.specs.Writes.{WritesOnly};
ghost use Rattle.line_drafts.specs.declared.fault.DraftFault.TheVariants.{DiskFault, Memory};

use crate::DraftFault;
use block_files::copy_content;
use disks::Disk;
use file_store::{Draft, FileStore};
use outside::Failed;
use small_types::List;
use small_types::limits::BLOCK_SIZE;
use std::alloc::{AllocError, Global};

const MOST: u64 = 65_536;

// How many bytes the buffer has for a copy of so many: whole blocks, at least one, and no more than
// are needed.
fn buffer_size(size: u64) -> usize
    ensures least { BLOCK_SIZE ≤ result }
    ensures most { result ≤ MOST }
{
    let blocks = size.clamp(1, MOST).div_ceil(BLOCK_SIZE as u64);
    blocks as usize * BLOCK_SIZE
}

// Fills a draft with the content of its size that lies in these blocks.
pub(crate) fn copy_into<D: Disk>(
    alloc: Global,
    disk: &mut D,
    files: &mut FileStore,
    blocks: &List<u32>,
    draft: &mut Draft,
) -> Result<(), DraftFault>
    requires { length blocks.now ≡ count_for (draft_size draft.old) }
    ensures held { D.tells disk.new → (content : List ℕ)
        → length content ≡ draft_size draft.old
        → ShareNone blocks.now (draft_blocks draft.old)
        → IsContent (store_base files.old) blocks.now content (D.seen disk.old)
        → OnOk result (DraftHolds (store_base files.old) draft.new content (D.seen disk.new)) }
    ensures whole { OnOk result (filled_of draft.new ≡ draft_size draft.new) }

    // Only the draft's own blocks are written.
    ensures only { WritesOnly D.Disk (store_base files.old) (draft_blocks draft.old) disk.old
        disk.new }
    ensures blocks { draft_blocks draft.new ≡ draft_blocks draft.old }
    ensures size { draft_size draft.new ≡ draft_size draft.old }
    ensures store { files.new ≡ files.old }
    ensures written { OnOk result (D.total disk.new ≡ D.total disk.old + draft_size draft.old) }
    ensures spends { Spends D.Disk (count_for (draft_size draft.old)) (draft_size draft.old)
        disk.old disk.new (result ≡ Err DiskFault) }
    ensures faults { IfErr result (λ e. (e ≡ DiskFault) ⊎ (e ≡ Memory)) }
{
    let mut buffer = match vec![in alloc; 0u8; buffer_size(draft.size())] {
        Ok(buffer) => buffer,
        Err(AllocError) => return Err(DraftFault::Memory),
    };
    match copy_content(files, disk, blocks, draft, buffer.as_mut_slice()) {
        Ok(()) => Ok(()),
        Err(Failed) => Err(DraftFault::DiskFault),
    }
}
