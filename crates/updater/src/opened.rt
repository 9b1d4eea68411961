// What a store is opened with, beside its tables.
ghost use Rattle.std.specs.Prelude.{◌≡◌, ◌≢◌, ◌↔◌, ℕ, IfErr, IfOk, IsErr, IsTrue, Err};
ghost use Rattle.small_types.specs.Blocks.{AreApart};
ghost use Rattle.disks.specs.Moments.{Untouched};
ghost use Rattle.disks.specs.Spends.{Spends};
ghost use Rattle.journal.specs.Layout.{AreLimits};
ghost use Rattle.store_state.specs.Stored.{HasContents, HasLocals};
ghost use Rattle.table_files.specs.Held.{held_by};
ghost use Rattle.install_plan.specs.Blocks.{UsesBlocks};
ghost use Rattle.updater.specs.declared.fault.RecoverFault.TheVariants.{DiskFault, Memory, NotAStore};
ghost use Rattle.updater.specs.FilesOpened.{OpensFiles};
ghost use Rattle.updater.specs.StandsFor.{ArePlaced};
ghost use Rattle.updater.specs.StoreTables.{AreOfStore, HasAllFiles};

use crate::RecoverFault;
use crate::store_tables::are_of_store;
use disks::Disk;
use file_store::{FileFault, FileStore, are_apart};
use outside::Failed;
use small_types::limits::HEAD_BLOCK_SIZE;
use small_types::{List, Room};
use std::alloc::{AllocError, Global};
use store_state::StoreState;
use table_check::has_files;
use table_files::held;
use table_log::Rooms;

// The blocks that the tables hold, where each is one of the room's and none is held twice.
fn held_apart(alloc: Global, state: &StoreState, room: Room) -> Result<List<u32>, RecoverFault>
    ensures held { IfOk result (λ blocks. blocks ≡ held_by state.now) }
    ensures placed { IfOk result (λ _. ArePlaced room (held_by state.now)) }
    ensures not_a_store { result ≡ Err NotAStore → ¬ ArePlaced room (held_by state.now) }
    ensures no_disk { result ≢ Err DiskFault }
{
    let blocks = match held(alloc, state) {
        Ok(blocks) => blocks,
        Err(AllocError) => return Err(RecoverFault::Memory),
    };
    match are_apart(alloc, room.blocks, &blocks) {
        Ok(true) => Ok(blocks),
        Ok(false) => Err(RecoverFault::NotAStore),
        Err(AllocError) => Err(RecoverFault::Memory),
    }
}

// Whether the disk has all bytes of the files. It is asked for its length alone.
fn has_all<D: Disk>(disk: &mut D, state: &StoreState, room: Room) -> Result<bool, Failed>
    requires limits { AreLimits room.blocks room.half }
    requires store { AreOfStore room state.now }
    requires placed { ArePlaced room (held_by state.now) }
    ensures has { D.tells disk.new → IfOk result (λ has. IsTrue has
        ↔ HasAllFiles room (D.seen disk.old) state.now) }
    ensures still { Untouched D.Disk disk.old disk.new }
    ensures spends { Spends D.Disk 0 0 disk.old disk.new (IsErr result) }
{
    match disk.length() {
        Ok(length) => Ok(has_files(state, room, length)),
        Err(Failed) => Err(Failed),
    }
}

// Which blocks are free where these are in use.
fn free_blocks(alloc: Global, room: Room, blocks: &List<u32>) -> Result<FileStore, RecoverFault>
    requires limits { AreLimits room.blocks room.half }
    requires placed { ArePlaced room blocks.now }
    ensures uses { IfOk result (λ files. UsesBlocks files room blocks.now) }
    ensures memory { IfErr result (λ fault. fault ≡ Memory) }
{
    let base = HEAD_BLOCK_SIZE as u64 + 2 * room.half;
    match FileStore::new(alloc, room.blocks, base, blocks) {
        Ok(files) => Ok(files),
        Err(FileFault::Memory) => Err(RecoverFault::Memory),
        Err(_) => unreachable!(),
    }
}

/// Judges tables that a disk reads as, and answers which blocks are free, and the memory for what changes
/// write. `NotAStore`: the tables are beyond a limit, out of order or without room, a file has another
/// number of blocks than its length needs, a block is named twice or is none of the store's, or the disk
/// ends before a byte of a file. It asks the disk for its length, and reads no block.
pub(crate) fn open_files<D: Disk>(
    alloc: Global,
    disk: &mut D,
    state: &StoreState,
    room: Room,
) -> Result<(FileStore, Rooms), RecoverFault>
    requires { AreLimits room.blocks room.half }
    ensures { OpensFiles D.Disk room state.now disk.old result disk.new }
{
    if !are_of_store(state, room) {
        return Err(RecoverFault::NotAStore);
    }
    let blocks = match held_apart(alloc, state, room) {
        Ok(blocks) => blocks,
        Err(fault) => return Err(fault),
    };
    match has_all(disk, state, room) {
        Ok(true) => {}
        Ok(false) => return Err(RecoverFault::NotAStore),
        Err(Failed) => return Err(RecoverFault::DiskFault),
    }
    let files = match free_blocks(alloc, room, &blocks) {
        Ok(files) => files,
        Err(fault) => return Err(fault),
    };
    match Rooms::new(alloc, room.half) {
        Ok(rooms) => Ok((files, rooms)),
        Err(AllocError) => Err(RecoverFault::Memory),
    }
}
