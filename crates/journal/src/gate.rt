// How bytes are written: behind a closed gate, which is opened once they are there to stay.
ghost use Rattle.std.specs.Prelude.{◌≡◌, ◌<◌, ◌≤◌, ◌+◌, ◌-◌, ◌*◌, ◌^◌, ◌⊎◌, ℕ, Bool, true, false, List, [], ◌∷◌, ◌++◌, length, drop, IfErr, IsErr, OnOk, OnErr};
ghost use Rattle.small_types.specs.Bytes.{put};
ghost use Rattle.disks.specs.Disk.{Only};
ghost use Rattle.disks.specs.Moments.{LeavesOnly, Each};
ghost use Rattle.disks.specs.Outside.{AgreesOutside, IsOldOutside};
ghost use Rattle.disks.specs.Spends.{HasNoNumber, Spends};
ghost use Rattle.journal.specs.declared.fault.LogFault.TheVariants.{DiskFault};
ghost use Rattle.journal.specs.Layout.{size_bytes, long_bytes};
ghost use Rattle.journal.specs.Log.{entry_in, tables_in, closing_of};
ghost use Rattle.journal.specs.Steps.{ClosedAt, Commits, OpensGate, ComesByStep};

use crate::LogFault;
use crate::piece::{AROUND, AROUND_TABLES, BEFORE, BEFORE_TABLES};
use disks::Disk;

// Writes the length before the change, and a closed gate behind it.
pub(crate) fn frame(piece: &mut [u8])
    requires some { AROUND < length piece.old }
    requires fits { length piece.old - AROUND < 2 ^ 32 }
    ensures tail { drop 1 piece.new
        ≡ size_bytes (length piece.old - AROUND) ++ (entry_in piece.old ++ 0 ∷ []) }
    ensures change { entry_in piece.new ≡ entry_in piece.old }
{
    let last = piece.len() - 1;
    let size = (piece.len() - AROUND) as u32;
    piece[last] = 0;
    piece[1..BEFORE].copy_from_slice(&size.to_be_bytes());
}

// Writes the serial and the length before the tables, and a closed gate behind them.
pub(crate) fn frame_tables(piece: &mut [u8], serial: u8)
    requires { AROUND_TABLES ≤ length piece.old }
    ensures tail { drop 1 piece.new ≡ serial ∷ (long_bytes (length piece.old - AROUND_TABLES)
        ++ (tables_in piece.old ++ 0 ∷ [])) }
    ensures tables { tables_in piece.new ≡ tables_in piece.old }
{
    let last = piece.len() - 1;
    let size = (piece.len() - AROUND_TABLES) as u64;
    piece[last] = 0;
    piece[1] = serial;
    piece[2..BEFORE_TABLES].copy_from_slice(&size.to_be_bytes());
}

// Writes the tail behind the closed gate at the end and keeps it, and then opens the gate and keeps
// it open.
pub(crate) fn open_gate<D: Disk>(disk: &mut D, end: u64, tail: &[u8]) -> Result<(), LogFault>
    requires { end + 1 < 2 ^ 64 }
    ensures ok { Each D.Disk disk.old (ClosedAt end)
        → OnOk result (Each D.Disk disk.new (ComesByStep (D.left_at disk.old (D.moment disk.old))
        (OpensGate end tail.now))) }
    ensures any_moment { Each D.Disk disk.old (ClosedAt end)
        → LeavesOnly D.Disk disk.old disk.new (ComesByStep (D.left_at disk.old (D.moment disk.old))
        (Commits end tail.now)) }
    ensures outside { LeavesOnly D.Disk disk.old disk.new (IsOldOutside end (length tail.now + 1)
        (D.left_at disk.old (D.moment disk.old))) }
    ensures reads_outside { AgreesOutside end (length tail.now + 1) (D.seen disk.old)
        (D.seen disk.new) }
    ensures durable { OnOk result (Only (D.seen disk.new) (D.left_at disk.new
        (D.moment disk.new))) }
    ensures tick { OnOk result (D.moment disk.new ≡ D.moment disk.old + 4) }
    ensures counted { (D.moment disk.old + 1 ≤ D.moment disk.new)
        ⊎ HasNoNumber (D.moment disk.new) (D.total disk.new) (length tail.now + 1) }
    ensures written { OnOk result (D.total disk.new ≡ D.total disk.old + length tail.now + 1) }
    ensures spends { Spends D.Disk 4 (length tail.now + 1) disk.old disk.new (IsErr result) }
    ensures fault { IfErr result (λ e. e ≡ DiskFault) }
{
    disk.write_at(end + 1, tail)?;
    disk.sync()?;
    disk.write_at(end, &[1])?;
    disk.sync()?;
    Ok(())
}

// Closes the gate at the place and keeps it closed, where it is open. A gate that is closed is not
// written: a second write of the same closed byte could show it open.
pub(crate) fn shut_gate<D: Disk>(disk: &mut D, place: u64, both: bool) -> Result<(), LogFault>
    ensures none { both ≡ false → disk.new ≡ disk.old }
    ensures ok { both ≡ true → OnOk result (Only (put place (0 ∷ []) (D.seen disk.old))
        (D.left_at disk.new (D.moment disk.new))) }
    ensures any_moment { LeavesOnly D.Disk disk.old disk.new (IsOldOutside place 1
        (D.left_at disk.old (D.moment disk.old))) }
    ensures reads_outside { AgreesOutside place 1 (D.seen disk.old) (D.seen disk.new) }
    ensures tick { OnOk result (D.moment disk.new
        ≡ D.moment disk.old + 2 * closing_of both) }
    ensures counted { OnErr result ((D.moment disk.old + 1 ≤ D.moment disk.new)
        ⊎ HasNoNumber (D.moment disk.new) (D.total disk.new) 1) }
    ensures written { OnOk result (D.total disk.new ≡ D.total disk.old + closing_of both) }
    ensures spends { Spends D.Disk (2 * closing_of both) (closing_of both) disk.old disk.new
        (IsErr result) }
    ensures fault { IfErr result (λ e. e ≡ DiskFault) }
{
    if !both {
        return Ok(());
    }
    disk.write_at(place, &[0])?;
    disk.sync()?;
    Ok(())
}
