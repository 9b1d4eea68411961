// What putting a data file comes to.
ghost use Rattle.std.specs.Prelude.{◌≡◌, ◌≤◌, ◌↔◌, ◌++◌, ℕ, List, All, length, None, Some, IfErr, IfOk, IsErr, IsTrue, OnErr, Err, false, option_map};
ghost use Rattle.small_types.specs.Blocks.{IsContent, blocks_start, count_for};
ghost use Rattle.small_types.specs.declared.room.Room.{Room};
ghost use Rattle.small_types.specs.declared.limits.TheConstants as limits;
ghost use Rattle.disks.specs.Moments.{Each, Untouched};
ghost use Rattle.disks.specs.Spends.{Spends};
ghost use Rattle.file_store.specs.Stores.{SameRange, free_of, store_base};
ghost use Rattle.file_store.specs.Writes.{WritesOnly};
ghost use Rattle.line_drafts.specs.Works.{SpendsWithin};
ghost use Rattle.machine.specs.Blocks.{blocks_of, free_blocks};
ghost use Rattle.machine.specs.Machine.{moment_after};
ghost use Rattle.machine.specs.PutRow.{IsBadName, put_refusals};
ghost use Rattle.machine.specs.Rows.{Refuses};
ghost use Rattle.machine.specs.Store.{Session};
ghost use Rattle.store_state.specs.Locals.{local_at, local_named, outside_locals};
ghost use Rattle.store_state.specs.Measured.{AreMeasured};
ghost use Rattle.store_state.specs.Stored.{HasLocals, data_bytes};
ghost use Rattle.store_state.specs.Tables.{table_shape};
ghost use Rattle.table_log.specs.declared.fault.StepFault.TheVariants as step;
ghost use Rattle.install_plan.specs.Checks.{is_missing};
ghost use Rattle.updater.specs.Leased.{KeepsView};
ghost use Rattle.updater.specs.PutStep.{IsPutStep, file_of};

use block_files::{has_bytes, write_content};
use disks::Disk;
use file_store::{FileFault, FileStore};
use machine::Reply;
use outside::Failed;
use small_types::limits::{BLOCK_SIZE, LOCAL_COUNT_LIMIT, LOCAL_NAME_LIMIT};
use small_types::{Bytes, CopyFault, Duplicate, Limit, List, Name, Room};
use std::alloc::Global;
use store_state::{LocalFile, StoreState, View};
use table_log::StepFault;
use table_weight::{table_full, weight_with_data};

// Whether no data file can be put under the name.
fn is_bad_name(name: &Name) -> bool
    ensures { IsTrue result ↔ IsBadName name.now }
{
    name.is_below_pre() || name.as_bytes().len() > LOCAL_NAME_LIMIT
}

// Whether the name is a new one for which the view has no place.
fn is_one_too_many(view: &View, name: &Name) -> bool
    ensures { IsTrue result ↔ ((local_named name.now view.now.locals ≡ None)
        × (limits.LOCAL_COUNT_LIMIT ≤ outside_locals view.now.locals)) }
{
    view.local(name).is_none() && view.outside_count() >= LOCAL_COUNT_LIMIT
}

// How many blocks the bytes take.
fn blocks_of(bytes: &Bytes) -> u64
    ensures { result ≡ blocks_of (length bytes.now) }
{
    let length = bytes.as_slice().len() as u64;
    let block = BLOCK_SIZE as u64;
    if length % block == 0 {
        length / block
    } else {
        length / block + 1
    }
}

/// The number of the view that a put on the lease changes, or the refusal that the tables give. It takes
/// no memory.
pub(crate) fn put_step_of(
    state: &StoreState,
    room: Room,
    lease: u64,
    name: &Name,
    bytes: &Bytes,
) -> Result<u64, Reply>
    ensures putting { IfOk result (IsPutStep room lease name.now bytes.now state.now) }
    ensures refused { KeepsView lease state.now → (old : Session)
        → IfErr result (λ reply. Refuses
        (put_refusals lease name.now bytes.now (table_shape room state.now)) old reply old) }
    ensures enough { IfOk result (λ _. blocks_of (length bytes.now)
        ≤ free_blocks (table_shape room state.now)) }
    ensures still { (now : ℕ) → IfErr result (λ reply. moment_after now (Some reply) ≡ now) }
    ensures no_target { IfErr result (λ reply. is_missing reply ≡ false) }
{
    let Some(view) = state.leased(lease) else {
        return Err(Reply::NoLease);
    };
    if is_bad_name(name) {
        return Err(Reply::BadName);
    }
    if is_one_too_many(view, name) {
        return Err(Reply::TooMany {
            what: Limit::Locals,
            limit: LOCAL_COUNT_LIMIT as u64,
        });
    }
    let need = blocks_of(bytes);
    let free = state.free_blocks(room);
    if free < need {
        return Err(Reply::Full { need, free });
    }
    let length = bytes.as_slice().len() as u64;
    if let Some(reply) = table_full(room, weight_with_data(state, view.number, name, length)) {
        return Err(reply);
    }
    Ok(view.number)
}

/// Whether the view of the number has these bytes under the name already. It reads as far as they are
/// the same. `Failed`: the disk failed.
pub(crate) fn stands_there<D: Disk>(
    state: &StoreState,
    files: &FileStore,
    disk: &mut D,
    number: u64,
    name: &Name,
    bytes: &Bytes,
) -> Result<bool, Failed>
    requires { AreMeasured state.now }
    ensures stands { D.tells disk.new → (room : Room)
        → store_base files.now ≡ blocks_start room.half
        → All (λ view. HasLocals room (D.seen disk.old) view.locals) state.now.views
        → IfOk result (λ stands. IsTrue stands ↔ (option_map (data_bytes room (D.seen disk.old))
        (local_at number name.now state.now) ≡ Some bytes.now)) }
    ensures still { Untouched D.Disk disk.old disk.new }
    ensures spends { Spends D.Disk 0 0 disk.old disk.new (IsErr result) }
{
    let Some(view) = state.view(number) else {
        return Ok(false);
    };
    match view.local(name) {
        Some(file) => has_bytes(files, disk, &file.held, file.length, bytes.as_slice()),
        None => Ok(false),
    }
}

/// A data file of the name with the bytes, in blocks that were free and are taken then, and these blocks
/// once more. `Memory`: there was none. `DiskFault`: the disk failed. After a fault the same blocks are
/// free as before.
pub(crate) fn put_file<D: Disk>(
    alloc: Global,
    files: &mut FileStore,
    disk: &mut D,
    name: &Name,
    bytes: &Bytes,
) -> Result<(LocalFile, List<u32>), StepFault>
    requires { count_for (length bytes.now) ≤ length (free_of files.old) }
    ensures file { IfOk result (λ made. made.0 ≡ file_of name.now (length bytes.now) made.1) }
    ensures count { IfOk result (λ made. length made.1 ≡ count_for (length bytes.now)) }
    ensures taken { IfOk result (λ made. free_of files.old ≡ made.1 ++ free_of files.new) }
    ensures content { IfOk result
        (λ made. Each D.Disk disk.new (IsContent (store_base files.old) made.1 bytes.now)) }
    ensures freed { OnErr result (free_of files.new ≡ free_of files.old) }
    ensures only { WritesOnly D.Disk (store_base files.old) (free_of files.old) disk.old disk.new }
    ensures range { SameRange files.old files.new }
    ensures spends { SpendsWithin D.Disk (length bytes.now) disk.old disk.new
        (result ≡ Err step.DiskFault) }
{
    let name = match name.copy(alloc) {
        Ok(name) => name,
        Err(CopyFault::Memory) => return Err(StepFault::Memory),
    };
    let length = bytes.as_slice().len() as u64;
    let draft = match write_content(files, alloc, disk, bytes.as_slice()) {
        Ok(draft) => draft,
        Err(FileFault::Memory) => return Err(StepFault::Memory),
        Err(FileFault::DiskFault) => return Err(StepFault::DiskFault),
        Err(FileFault::Full { .. }) => unreachable!(),
    };
    let held = match files.seal(disk, draft) {
        Ok(held) => held,
        Err(_) => return Err(StepFault::DiskFault),
    };
    match held.copy(alloc) {
        Ok(taken) => Ok((LocalFile { name, length, held }, taken)),
        Err(CopyFault::Memory) => {
            files.release_blocks(&held);
            Err(StepFault::Memory)
        }
    }
}
