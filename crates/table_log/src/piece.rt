// A change and tables as the log takes them.
ghost use Rattle.std.specs.Prelude.{◌≡◌, ◌+◌, ◌<◌, ◌≤◌, ◌^◌, length, vec_capacity};
ghost use Rattle.journal.specs.Log.{entry_in, half_of, tables_in};
ghost use Rattle.journal.specs.declared.piece.TheConstants.{AROUND, AROUND_TABLES};
ghost use Rattle.record_codec.specs.Codec.{change_text, IsChange};
ghost use Rattle.table_codec.specs.Spelled.{state_text};
ghost use Rattle.table_codec.specs.Values.{IsEncodableState};
ghost use Rattle.table_log.specs.MakesDurable.{FitsNewHalf};
ghost use Rattle.table_log.specs.Pieces.{ArePieces, HasEntry, HasTables};
ghost use Rattle.table_log.specs.Rooms.{HaveRooms};

use crate::Rooms;
use crate::rooms::clear_to;
use journal::{AROUND, AROUND_TABLES, BEFORE, BEFORE_TABLES, Log};
use record_codec::{encode_change, encoded_length};
use store_state::{Change, StoreState};
use table_codec::{encode_state, encoded_length_of_state};

// Writes the change's encoding between the log's bytes.
fn write_entry(change: &Change, piece: &mut [u8])
    requires change { IsChange change.now }
    requires size { length piece.old ≡ AROUND + length (change_text change.now) }
    ensures { entry_in piece.new ≡ change_text change.now }
{
    let _ = encode_change(change, &mut piece[BEFORE..]);
}

// Writes the tables' encoding between the log's bytes.
fn write_tables(state: &StoreState, piece: &mut [u8])
    requires state { IsEncodableState state.now }
    requires size { length piece.old ≡ AROUND_TABLES + length (state_text state.now) }
    ensures { tables_in piece.new ≡ state_text state.now }
{
    let _ = encode_state(state, &mut piece[BEFORE_TABLES..]);
}

// The change's encoding with the log's bytes around it, in place of what stood in the room.
fn entry_into(room: &mut Vec<u8>, change: &Change)
    requires change { IsChange change.now }
    requires room { AROUND + length (change_text change.now) ≤ vec_capacity room.old }
    ensures entry { HasEntry (change_text change.now) room.new.items }
    ensures capacity { vec_capacity room.old ≤ vec_capacity room.new }
{
    let size = encoded_length(change) as usize;
    clear_to(room, AROUND + size);
    write_entry(change, room);
}

// The tables' encoding with the log's bytes around it, in place of what stood in the room.
fn tables_into(room: &mut Vec<u8>, state: &StoreState)
    requires state { IsEncodableState state.now }
    requires short { length (state_text state.now) < 2 ^ 63 }
    requires room { AROUND_TABLES + length (state_text state.now) ≤ vec_capacity room.old }
    ensures tables { HasTables state.now room.new.items }
    ensures capacity { vec_capacity room.old ≤ vec_capacity room.new }
{
    // A field is read, so that it is known what all tables keep.
    let _views = state.views.as_slice();
    let size = encoded_length_of_state(state) as usize;
    clear_to(room, AROUND_TABLES + size);
    write_tables(state, room);
}

// Writes what a step of these tables is to write into the rooms, and answers whether there are
// tables: exactly where the change's entry does not fit the current half.
pub(crate) fn write_pieces(
    rooms: &mut Rooms,
    log: &Log,
    state: &StoreState,
    change: &Change,
) -> bool
    requires change { IsChange change.now }
    requires state { IsEncodableState state.now }
    requires half { FitsNewHalf log.now state.now change.now }
    requires rooms { HaveRooms (half_of log.now) rooms.old }
    ensures pieces { ArePieces log.now state.now change.now result rooms.new }
    ensures rooms { HaveRooms (half_of log.now) rooms.new }
{
    entry_into(&mut rooms.entry, change);
    if log.fits(encoded_length(change)) {
        return false;
    }
    tables_into(&mut rooms.tables, state);
    true
}
