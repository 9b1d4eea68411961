// Whether tables have room in a half of the journal.
ghost use Rattle.std.specs.Prelude.{◌≡◌, ◌<◌, ◌-◌, ◌^◌, ℕ, MatchOption};
ghost use Rattle.machine.specs.declared.reply.Reply.TheVariants.{TableFull};
ghost use Rattle.machine.specs.Weight.{IsLight, IsTooHeavy, table_room, told_weight};

use machine::{CHANGE_ROOM, Reply};
use small_types::Room;

// How much the tables of a store of this room may weigh, where its half is not 0.
fn room_of_tables(room: Room) -> u64
    ensures value { result ≡ table_room room }
    ensures few { result < 2 ^ 64 - 1 }
{
    room.half.saturating_sub(CHANGE_ROOM)
}

/// The refusal of tables that weigh so much, where they have no room in a half of the journal. The
/// weight is told as far as a number goes. It takes no memory.
pub fn table_full(room: Room, weight: u64) -> Option<Reply>
    ensures { (exact : ℕ) → weight ≡ told_weight exact → MatchOption result (IsLight room exact)
        (λ reply. IsTooHeavy room exact
        × (reply ≡ TableFull (told_weight exact) (table_room room))) }
{
    let most = room_of_tables(room);
    if room.half == 0 || weight <= most {
        return None;
    }
    Some(Reply::TableFull { weight, room: most })
}
