// How a change becomes durable, and what happens to blocks then.
ghost use Rattle.std.specs.Prelude.{◌≡◌, ◌++◌};
ghost use Rattle.std.specs.List.Sorted.{IsPermutation};
ghost use Rattle.table_files.specs.Freed.{brought};
ghost use Rattle.table_files.specs.Held.{held_by};
ghost use Rattle.table_log.specs.Rooms.{HaveRooms};
ghost use Rattle.install_plan.specs.Blocks.{UsesBlocks};
ghost use Rattle.updater.specs.KeepsChange.{KeepsChange, MayKeep};
ghost use Rattle.updater.specs.Shown.{IsKept};

use disks::Disk;
use file_store::FileStore;
use journal::Log;
use small_types::{List, Room};
use std::alloc::{AllocError, Global};
use store_state::{Change, StoreState, measured_tables_stay};
use table_codec::{
    changes_are_within_weights, changes_stay_encodable, encodings_are_within_table_weights,
    fields_stay_encodable,
};
use table_files::{changes_keep_items, freed};
use table_log::{Rooms, StepFault, make_durable};

/// Makes a change that fits durable, and makes it in the tables, which have room then. Its files stand
/// in some of the blocks that were taken. What it lets go is free behind it, and not before, as are the
/// taken blocks that it does not use. For want of memory it does nothing but free all that were taken.
pub(crate) fn keep_files<D: Disk>(
    log: &mut Log,
    rooms: &mut Rooms,
    files: &mut FileStore,
    state: &mut StoreState,
    room: Room,
    alloc: Global,
    disk: &mut D,
    change: Change,
    taken: &List<u32>,
    unused: &List<u32>,
) -> Result<(), StepFault>
    requires kept { IsKept log.old room state.old }
    requires rooms { HaveRooms room.half rooms.old }
    requires may { MayKeep (record { log = log.old; room = room; state = state.old }) change }
    requires blocks { UsesBlocks files.old room (held_by state.old ++ taken.now) }
    requires same { IsPermutation taken.now (brought change ++ unused.now) }
    ensures makes { KeepsChange D.Disk change
        (record { log = log.old; room = room; state = state.old }) disk.old result
        (record { log = log.new; room = room; state = state.new }) disk.new }
    ensures kept { IsKept log.new room state.new }
    ensures rooms { HaveRooms room.half rooms.new }
    ensures blocks { UsesBlocks files.new room (held_by state.new) }
{
    state.are_tables();
    fields_stay_encodable();
    changes_stay_encodable();
    encodings_are_within_table_weights();
    changes_are_within_weights();
    changes_keep_items();
    measured_tables_stay();
    let freed = match freed(alloc, state, &change) {
        Ok(freed) => freed,
        Err(AllocError) => {
            drop(change);
            files.release_blocks(taken);
            return Err(StepFault::Memory);
        }
    };
    match make_durable(log, rooms, alloc, disk, state, change) {
        Err(StepFault::Memory) => {
            files.release_blocks(taken);
            Err(StepFault::Memory)
        }
        Err(StepFault::DiskFault) => {
            files.release_blocks(&freed);
            files.release_blocks(unused);
            Err(StepFault::DiskFault)
        }
        Ok(()) => {
            files.release_blocks(&freed);
            files.release_blocks(unused);
            Ok(())
        }
    }
}
