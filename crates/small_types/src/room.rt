// What no line changes of a store.
ghost use Rattle.std.specs.Prelude.{◌≡◌};
ghost use Rattle.small_types.specs.Room.{new_room};

use crate::limits::HALF_DEFAULT;

/// What no line of a session changes of its store: how many blocks it has, and how many bytes a half of its journal has. A half of 0, which
/// no journal has, sets the tables no limit.
#[derive(Clone, Copy, Debug, PartialEq, Eq)]
pub struct Room {
    pub blocks: u64,
    pub half: u64,
}

/// The room of a new store of so many blocks, where no length of a half is asked for.
pub fn new_room(blocks: u64) -> Room
    ensures { result ≡ new_room blocks }
{
    Room {
        blocks,
        half: HALF_DEFAULT,
    }
}
