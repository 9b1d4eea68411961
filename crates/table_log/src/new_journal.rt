// How a new journal of the empty tables is made.
ghost use Rattle.std.specs.Prelude.{◌≡◌, ◌≢◌, ◌⊎◌, ◌+◌, [], length, IfErr, IfOk, OnOk};
ghost use Rattle.disks.specs.Disk.{Only};
ghost use Rattle.disks.specs.Moments.{Each};
ghost use Rattle.disks.specs.Spends.{Spends};
ghost use Rattle.small_types.specs.declared.limits.TheConstants.{HEAD_BLOCK_SIZE};
ghost use Rattle.journal.specs.declared.fault.LogFault.TheVariants.{DiskFault, Memory};
ghost use Rattle.journal.specs.declared.piece.TheConstants.{AROUND_TABLES};
ghost use Rattle.journal.specs.Format.{Formats};
ghost use Rattle.journal.specs.Layout.{AreLimits, IsHalvedJournal};
ghost use Rattle.store_state.specs.Tables.{empty};
ghost use Rattle.table_codec.specs.Spelled.{state_text};

use disks::Disk;
use journal::{Log, LogFault};
use small_types::Room;
use std::alloc::{AllocError, Global};
use store_state::{StateFault, StoreState};
use table_codec::{encode_state, encoded_length_of_state};

// The encoding of the empty tables.
fn empty_text(alloc: Global) -> Result<Vec<u8>, AllocError>
    ensures { IfOk result (λ text. text.items ≡ state_text empty) }
{
    let state = match StoreState::empty(alloc) {
        Ok(state) => state,
        Err(StateFault::Memory) => return Err(AllocError),
    };
    let size = encoded_length_of_state(&state) as usize;
    let mut text = vec![in alloc; 0u8; size]?;
    encode_state(&state, &mut text);
    Ok(text)
}

/// Makes a new journal of this room, which reads as the empty tables. What stood on the disk is
/// lost. A stop inside leaves what one leaves inside a format of the journal. `DiskFault`: the disk
/// failed. `Memory`: there was none, and the disk is as it was. There is no other fault.
pub fn format<D: Disk>(alloc: Global, disk: &mut D, room: Room) -> Result<(), LogFault>
    requires { AreLimits room.blocks room.half }

    // From then on each stop leaves the journal of the empty tables' encoding and of no change, and
    // reads give it. So each reads as the empty tables.
    ensures ok { OnOk result (Each D.Disk disk.new (IsHalvedJournal room.blocks room.half
        (state_text empty) [])) }
    ensures seen { OnOk result (IsHalvedJournal room.blocks room.half (state_text empty) []
        (D.seen disk.new)) }
    ensures durable { OnOk result (Only (D.seen disk.new) (D.left_at disk.new
        (D.moment disk.new))) }

    // What a stop at each moment of the call leaves.
    ensures any_moment { Formats D.Disk disk.old disk.new room.blocks room.half
        (state_text empty) }
    ensures faults { IfErr result (λ e. (e ≡ DiskFault) ⊎ (e ≡ Memory)) }
    ensures unwritten { IfErr result (λ e. e ≢ DiskFault → disk.new ≡ disk.old) }
    ensures spends { Spends D.Disk 7 (HEAD_BLOCK_SIZE + AROUND_TABLES + length (state_text empty)
        + 2) disk.old disk.new (result ≡ Err DiskFault) }
    ensures tick { OnOk result (D.moment disk.new ≡ D.moment disk.old + 7) }
{
    let text = empty_text(alloc)?;
    match Log::format(alloc, disk, room.blocks, room.half, &text) {
        Ok(()) => Ok(()),
        Err(fault) => Err(fault),
    }
}
