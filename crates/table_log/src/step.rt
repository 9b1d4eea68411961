// The durable step: a change is made in the tables and in the journal.
ghost use Rattle.journal.specs.Log.{half_of};
ghost use Rattle.record_codec.specs.Codec.{IsChange};
ghost use Rattle.store_state.specs.Change.{Fits};
ghost use Rattle.table_codec.specs.Values.{IsEncodableState};
ghost use Rattle.table_log.specs.MakesDurable.{FitsNewHalf, MakesDurable};
ghost use Rattle.table_log.specs.Rooms.{HaveRooms};

use crate::piece::write_pieces;
use crate::stored_pieces::{append, turn};
use crate::{Rooms, StepFault};
use disks::Disk;
use journal::Log;
use std::alloc::Global;
use store_state::{Change, StateFault, StoreState};

/// Makes a change that fits durable, and makes it in the tables. Where its entry does not fit the
/// current half, the other half is begun with the old tables before it. What it writes stands in the
/// rooms, and the tables take memory before the first write. After `Ok` no later stop takes the
/// change away; a stop inside keeps it or not. `Memory`: the change takes some, and there was none;
/// nothing has changed. `DiskFault`: the disk failed; the tables are then to be recovered anew.
pub fn make_durable<D: Disk>(
    log: &mut Log,
    rooms: &mut Rooms,
    alloc: Global,
    disk: &mut D,
    state: &mut StoreState,
    change: Change,
) -> Result<(), StepFault>
    requires fits { Fits state.old change }
    requires change { IsChange change }
    requires tables { IsEncodableState state.old }
    requires room { FitsNewHalf log.old state.old change }
    requires rooms { HaveRooms (half_of log.old) rooms.old }
    ensures makes { MakesDurable D.Disk change log.old state.old disk.old result log.new state.new
        disk.new }
    ensures rooms { HaveRooms (half_of log.old) rooms.new }
{
    let turns = write_pieces(rooms, log, state, &change);
    match table_changes::make(alloc, state, change) {
        Err(StateFault::Memory) => Err(StepFault::Memory),
        Ok(()) => {
            if turns {
                return turn(log, disk, &mut rooms.tables, &mut rooms.entry);
            }
            append(log, disk, &mut rooms.entry)
        }
    }
}
