// Whether tables are those of a store.
ghost use Rattle.std.specs.Prelude.{◌≡◌, ◌↔◌, ◌≤◌, ℕ, IsTrue, map};
ghost use Rattle.machine.specs.Blocks.{used_blocks};
ghost use Rattle.machine.specs.Weight.{IsLight, told_weight};
ghost use Rattle.small_types.specs.declared.limits.TheConstants as limits;
ghost use Rattle.store_state.specs.Tables.{bare_row};
ghost use Rattle.table_weight.specs.Weight.{tables_weight};
ghost use Rattle.updater.specs.StoreTables.{AreOfStore};

use small_types::Room;
use small_types::limits::BLOCK_LIMIT;
use store_state::StoreState;
use table_check::{is_measured, is_ordered};
use table_weight::{table_full, weight};

// Whether tables that weigh so much have room.
fn is_light(room: Room, weight: u64) -> bool
    ensures { (exact : ℕ) → weight ≡ told_weight exact → (IsTrue result ↔ IsLight room exact) }
{
    match table_full(room, weight) {
        None => true,
        Some(reply) => {
            drop(reply);
            false
        }
    }
}

// Whether files and tables have room.
fn have_room(state: &StoreState, room: Room) -> bool
    requires { room.blocks ≤ limits.BLOCK_LIMIT }
    ensures { IsTrue result ↔ ((used_blocks (map bare_row state.now.views) ≤ room.blocks)
        × IsLight room (tables_weight state.now)) }
{
    state.is_within(room) && is_light(room, weight(state))
}

/// Whether the tables of a journal of this room are those of a store: within its order and its
/// limits, with room for its files and its tables, and as many blocks for each file as its length
/// needs. It takes no memory.
pub(crate) fn are_of_store(state: &StoreState, room: Room) -> bool
    ensures { IsTrue result ↔ AreOfStore room state.now }
{
    room.blocks <= BLOCK_LIMIT && have_room(state, room) && is_ordered(state) && is_measured(state)
}
