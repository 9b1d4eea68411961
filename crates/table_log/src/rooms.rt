// The memory for what a step writes.
ghost use Rattle.std.specs.Prelude.{◌≤◌, ◌≡◌, vec_capacity, vec_len, IfOk};
ghost use Rattle.table_log.specs.Rooms.{HaveRooms};

use std::alloc::{AllocError, Global};

/// The memory for an entry and for the tables of a checkpoint, each up to as many bytes as a half
/// of the journal has. It is taken when a journal is opened, so that a step takes none for them.
#[derive(Debug, Drop)]
pub struct Rooms {
    pub(crate) entry: Vec<u8>,
    pub(crate) tables: Vec<u8>,
}

impl Rooms {
    /// Rooms for a journal with a half of so many bytes. It fails only for want of memory.
    pub fn new(alloc: Global, half: u64) -> Result<Rooms, AllocError>
        ensures { IfOk result (HaveRooms half) }
    {
        let entry = Vec::with_capacity(alloc, half as usize)?;
        let tables = Vec::with_capacity(alloc, half as usize)?;
        Ok(Rooms { entry, tables })
    }
}

// So many zeros in place of what stood in the room, which has the capacity for them.
pub(crate) fn clear_to(room: &mut Vec<u8>, size: usize)
    requires { size ≤ vec_capacity room.old }
    ensures size { vec_len room.new ≡ size }
    ensures capacity { vec_capacity room.old ≤ vec_capacity room.new }
{
    room.clear();
    let _filled = room.resize(size, 0);
}
