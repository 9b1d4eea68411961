// A content that is written from bytes.
ghost use Rattle.std.specs.Prelude.{◌≡◌, ◌≢◌, ◌<◌, ◌≤◌, ◌+◌, ◌⊎◌, ◌++◌, length, IfOk, IfErr, OnErr, OnOk, Err};
ghost use Rattle.disks.specs.Spends.{HasNoNumber, Spends};
ghost use Rattle.file_store.specs.declared.fault.FileFault.TheVariants.{DiskFault, Full, Memory};
ghost use Rattle.file_store.specs.Stores.{AreUsed, DraftHolds, SameRange, draft_blocks, draft_size, filled_of, free_of, store_base};
ghost use Rattle.file_store.specs.Writes.{WritesOnly};
ghost use Rattle.small_types.specs.Blocks.{count_for};

use disks::Disk;
use file_store::{Draft, FileFault, FileStore};
use std::alloc::Global;

/// Writes a content of these bytes into blocks that are free, and answers its draft, which is whole
/// and not sealed yet. `Full`: it needs more blocks than are free. `DiskFault`: the disk failed.
/// `Memory`: there was none for the list of its blocks. After a fault the same blocks are free as
/// before.
pub fn write_content<D: Disk>(
    files: &mut FileStore,
    alloc: Global,
    disk: &mut D,
    bytes: &[u8],
) -> Result<Draft, FileFault>
    // The draft has the first of the blocks that were free, and holds the bytes.
    ensures takes { IfOk result
        (λ draft. free_of files.old ≡ draft_blocks draft ++ free_of files.new) }
    ensures used { IfOk result (λ draft. AreUsed files.new (draft_blocks draft)) }
    ensures count { IfOk result
        (λ draft. length (draft_blocks draft) ≡ count_for (length bytes.now)) }
    ensures size { IfOk result (λ draft. draft_size draft ≡ length bytes.now) }
    ensures whole { IfOk result (λ draft. filled_of draft ≡ draft_size draft) }
    ensures held { IfOk result
        (λ draft. DraftHolds (store_base files.old) draft bytes.now (D.seen disk.new)) }

    // Nothing is written but its own blocks, and in any case nothing but what was free.
    ensures own { IfOk result (λ draft. WritesOnly D.Disk (store_base files.old)
        (draft_blocks draft) disk.old disk.new) }
    ensures only { WritesOnly D.Disk (store_base files.old) (free_of files.old) disk.old disk.new }

    // It is full exactly where more blocks are needed than are free, and nothing is written then,
    // nor where there was no memory.
    ensures full { IfErr result (λ e. e ≢ Memory → e ≢ DiskFault
        → (e ≡ Full (count_for (length bytes.now)) (length (free_of files.old)))
        × (length (free_of files.old) < count_for (length bytes.now))) }
    ensures too_many { length (free_of files.old) < count_for (length bytes.now)
        → result ≡ Err (Full (count_for (length bytes.now)) (length (free_of files.old))) }
    ensures unwritten { IfErr result (λ e. e ≢ DiskFault → disk.new ≡ disk.old) }
    ensures kept { OnErr result (free_of files.new ≡ free_of files.old) }
    ensures range { SameRange files.old files.new }

    // Each byte is written once.
    ensures written { OnOk result (D.total disk.new ≡ D.total disk.old + length bytes.now) }
    ensures spends { Spends D.Disk (count_for (length bytes.now)) (length bytes.now) disk.old
        disk.new (result ≡ Err DiskFault) }
    ensures counted { 0 < length bytes.now → IfErr result (λ e. e ≡ DiskFault
        → (D.moment disk.old + 1 ≤ D.moment disk.new)
        ⊎ HasNoNumber (D.moment disk.new) (D.total disk.new) (length bytes.now)) }
{
    let mut draft = match files.begin(alloc, bytes.len() as u64) {
        Ok(draft) => draft,
        Err(fault) => return Err(fault),
    };
    if let Err(fault) = files.store_piece(disk, &mut draft, bytes) {
        files.abandon(draft);
        return Err(fault);
    }
    Ok(draft)
}
