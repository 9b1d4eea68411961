// How the tables of a disk are read.
ghost use Rattle.table_log.specs.Recovers.{Recovers};

use crate::OpenFault;
use crate::replay::settle;
use disks::Disk;
use journal::{Log, LogFault};
use small_types::Room;
use std::alloc::Global;
use store_state::StoreState;

/// The tables of a journal that was read, its room, and its log, open behind its last change.
#[derive(Debug, Drop)]
pub struct OpenTables {
    pub log: Log,
    pub room: Room,
    pub state: StoreState,
}

/// Reads the tables of the journal that a stop left, and opens its log. It begins with a sync, so
/// that no later stop takes away what it read. `NotTables`: the bytes are no journal, or its texts
/// lead to no tables. `DiskFault`: the disk failed. `Memory`: there was none.
pub fn recover<D: Disk>(alloc: Global, disk: &mut D) -> Result<OpenTables, OpenFault>
    ensures { Recovers D.Disk disk.old result disk.new }
{
    let (log, recovered) = match Log::recover(alloc, disk) {
        Ok(found) => found,
        Err(LogFault::NotALog) => return Err(OpenFault::NotTables),
        Err(LogFault::Memory) => return Err(OpenFault::Memory),
        Err(_) => return Err(OpenFault::DiskFault),
    };
    let room = Room {
        blocks: recovered.blocks,
        half: recovered.half,
    };
    match settle(
        alloc,
        recovered.tables.as_slice(),
        recovered.changes.as_slice(),
    ) {
        Ok(state) => Ok(OpenTables { log, room, state }),
        Err(fault) => Err(fault),
    }
}
