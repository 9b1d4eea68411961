// A part of a content, as a command reads it.
ghost use Rattle.std.specs.Prelude.{◌≡◌, ℕ, ◌≤◌, ◌-◌, List, length, min, take, drop, IfOk, Err};
ghost use Rattle.block_files.specs.declared.fault.PartFault.TheVariants.{DiskFault};
ghost use Rattle.disks.specs.Moments.{Untouched};
ghost use Rattle.disks.specs.Spends.{Spends};
ghost use Rattle.file_store.specs.Stores.{store_base};
ghost use Rattle.small_types.specs.Blocks.{IsContent, count_for};

use crate::PartFault;
use crate::run::read_run;
use disks::Disk;
use file_store::FileStore;
use small_types::{Bytes, List};
use std::alloc::Global;

/// The bytes of a content of this size from a place on, at most so many, as many as there are: none
/// from its end on. It takes memory for these bytes alone. Where the disk has fewer bytes than the
/// content, as a file that was cut off, it answers those that it has. `DiskFault`: the disk failed.
/// `Memory`: there was none for the part.
pub fn read_part<D: Disk>(
    alloc: Global,
    files: &FileStore,
    disk: &mut D,
    blocks: &List<u32>,
    size: u64,
    from: u64,
    count: u64,
) -> Result<Bytes, PartFault>
    requires { length blocks.now ≡ count_for size }
    ensures bytes { D.tells disk.new → (content : List ℕ) → length content ≡ size
        → IsContent (store_base files.now) blocks.now content (D.seen disk.old)
        → IfOk result (λ made. made ≡ take count (drop from content)) }
    ensures within { IfOk result (λ made. length made ≤ min (size - from) count) }
    ensures still { Untouched D.Disk disk.old disk.new }
    ensures spends { Spends D.Disk 0 0 disk.old disk.new (result ≡ Err DiskFault) }
{
    let shown = size.saturating_sub(from).min(count) as usize;
    let mut made = vec![in alloc; 0u8; shown]?;
    let read = read_run(files, disk, blocks, size, from, made.as_mut_slice())?;
    made.truncate(read);
    Ok(Bytes::from_vec(made))
}
