// How pieces are written to the journal.
ghost use Rattle.std.specs.Prelude.{◌≡◌, ◌≤◌, ◌<◌, ◌+◌, length, IfErr, OnOk};
ghost use Rattle.small_types.specs.declared.room.Room.{Room};
ghost use Rattle.disks.specs.Moments.{LeavesOnly};
ghost use Rattle.disks.specs.Spends.{Spends};
ghost use Rattle.journal.specs.declared.piece.TheConstants.{AROUND, AROUND_TABLES};
ghost use Rattle.journal.specs.Log.{entry_in, half_of, need_of, room_left, tables_in, used_of};
ghost use Rattle.store_state.specs.declared.change.Change.{Change};
ghost use Rattle.store_state.specs.Change.{Fits};
ghost use Rattle.store_state.specs.Tables.{Tables};
ghost use Rattle.table_log.specs.declared.fault.StepFault.TheVariants.{DiskFault};
ghost use Rattle.table_log.specs.MakesDurable.{AgreesBehind, IsOldBehind, Stores};
ghost use Rattle.table_log.specs.ReadsAs.{IsOpenAs, ReadsAs};
ghost use Rattle.table_log.specs.Texts.{Encodes, Spells};

use crate::StepFault;
use disks::Disk;
use journal::{Log, LogFault};

// Adds an entry that fits the current half.
pub(crate) fn append<D: Disk>(
    log: &mut Log,
    disk: &mut D,
    entry: &mut [u8],
) -> Result<(), StepFault>
    requires some { AROUND < length entry.old }
    requires fits { need_of entry.old ≤ room_left log.old }
    ensures stores { (change : Change) (tables : Tables) → Encodes change (entry_in entry.old)
        → Fits tables change
        → Stores D.Disk change tables log.old disk.old result log.new disk.new }
    ensures spends { Spends D.Disk 4 (length entry.old) disk.old disk.new
        (result ≡ Err DiskFault) }
    ensures fault { IfErr result (λ e. e ≡ DiskFault) }
{
    match log.append(disk, entry) {
        Ok(()) => Ok(()),
        Err(LogFault::DiskFault) => Err(StepFault::DiskFault),
        Err(_) => unreachable!(),
    }
}

// Begins the other half with the tables. Whatever a stop leaves in it, or behind it, reads as they
// do.
fn begin_other<D: Disk>(log: &mut Log, disk: &mut D, tables: &mut [u8]) -> Result<(), StepFault>
    requires around { AROUND_TABLES ≤ length tables.old }
    requires fits { length tables.old ≤ half_of log.old }
    ensures same { (old : Tables) → Spells old (tables_in tables.old) → (room : Room)
        → IsOpenAs D.Disk log.old room old disk.old
        → LeavesOnly D.Disk disk.old disk.new (λ image. ReadsAs room image old) }
    ensures opened { (old : Tables) → Spells old (tables_in tables.old) → (room : Room)
        → IsOpenAs D.Disk log.old room old disk.old
        → OnOk result (IsOpenAs D.Disk log.new room old disk.new) }
    ensures behind { LeavesOnly D.Disk disk.old disk.new (IsOldBehind (half_of log.old)
        (D.left_at disk.old (D.moment disk.old))) }
    ensures reads_behind { AgreesBehind (half_of log.old) (D.seen disk.old) (D.seen disk.new) }
    ensures half { half_of log.new ≡ half_of log.old }
    ensures used { OnOk result (used_of log.new ≡ length tables.old) }
    ensures spends { Spends D.Disk 6 (length tables.old + 1) disk.old disk.new
        (result ≡ Err DiskFault) }
    ensures fault { IfErr result (λ e. e ≡ DiskFault) }
{
    match log.checkpoint(disk, tables) {
        Ok(()) => Ok(()),
        Err(LogFault::DiskFault) => Err(StepFault::DiskFault),
        Err(_) => unreachable!(),
    }
}

// Begins the other half with the tables, and adds the entry there.
pub(crate) fn turn<D: Disk>(
    log: &mut Log,
    disk: &mut D,
    tables: &mut [u8],
    entry: &mut [u8],
) -> Result<(), StepFault>
    requires around { AROUND_TABLES ≤ length tables.old }
    requires some { AROUND < length entry.old }
    requires fits { length tables.old + need_of entry.old ≤ half_of log.old }
    ensures stores { (change : Change) (old : Tables) → Spells old (tables_in tables.old)
        → Encodes change (entry_in entry.old) → Fits old change
        → Stores D.Disk change old log.old disk.old result log.new disk.new }
    ensures spends { Spends D.Disk 10 (length tables.old + 1 + length entry.old) disk.old disk.new
        (result ≡ Err DiskFault) }
    ensures fault { IfErr result (λ e. e ≡ DiskFault) }
{
    match begin_other(log, disk, tables) {
        Ok(()) => append(log, disk, entry),
        Err(fault) => Err(fault),
    }
}
