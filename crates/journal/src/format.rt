// How a new journal is made.
ghost use Rattle.std.specs.Prelude.{◌≡◌, ◌<◌, ◌≤◌, ◌+◌, ◌^◌, ℕ, List, [], ◌∷◌, ◌++◌, length, IfOk, IsErr, OnOk};
ghost use Rattle.small_types.specs.Bytes.{put};
ghost use Rattle.disks.specs.Disk.{Only, Torn};
ghost use Rattle.disks.specs.Moments.{Each, LeavesOnly};
ghost use Rattle.disks.specs.Spends.{Spends};
ghost use Rattle.journal.specs.declared.piece.TheConstants.{AROUND_TABLES};
ghost use Rattle.journal.specs.Layout.{AreLimits, IsHalvedJournal, NoJournal};
ghost use Rattle.journal.specs.Format.{IsCutOrOld, IsFilled, IsNewOrNone, front_with, new_with};

use crate::form::HEAD_GATE;
use crate::head::head_bytes;
use disks::Disk;
use outside::Failed;
use std::alloc::{AllocError, Global};

// The head of a new journal with a closed gate, and its first half.
pub(crate) fn closed_front(
    alloc: Global,
    blocks: u64,
    half: u64,
    tables: &[u8],
) -> Result<Vec<u8>, AllocError>
    ensures { IfOk result (λ bytes. bytes.items ≡ front_with blocks half 0 tables.now) }
{
    let mut bytes = head_bytes(alloc, blocks, half, 0)?;
    let size = tables.len() as u64;
    bytes.push(1)?;
    bytes.push(0)?;
    bytes.extend_from_slice(&size.to_be_bytes())?;
    bytes.extend_from_slice(tables)?;
    bytes.push(0)?;
    Ok(bytes)
}

// Takes all bytes from the disk, and keeps it so.
pub(crate) fn clear<D: Disk>(disk: &mut D) -> Result<(), Failed>
    ensures ok { OnOk result (Only [] (D.left_at disk.new (D.moment disk.new))) }
    ensures any_moment { LeavesOnly D.Disk disk.old disk.new (IsCutOrOld (D.left_at disk.old
        (D.moment disk.old))) }
    ensures tick { OnOk result (D.moment disk.new ≡ D.moment disk.old + 2) }
    ensures written { OnOk result (D.total disk.new ≡ D.total disk.old) }
    ensures spends { Spends D.Disk 2 0 disk.old disk.new (IsErr result) }
{
    disk.cut(0)?;
    disk.sync()?;
    Ok(())
}

// Writes these bytes to an empty disk, and a zero at a place, and keeps them there.
pub(crate) fn fill<D: Disk>(disk: &mut D, bytes: &[u8], place: u64) -> Result<(), Failed>
    ensures ok { Only [] (D.left_at disk.old (D.moment disk.old)) → OnOk result (Only
        (put place (0 ∷ []) bytes.now) (D.left_at disk.new (D.moment disk.new))) }
    ensures any_moment { Only [] (D.left_at disk.old (D.moment disk.old))
        → LeavesOnly D.Disk disk.old disk.new (IsFilled (length bytes.now) place) }
    ensures tick { OnOk result (D.moment disk.new ≡ D.moment disk.old + 3) }
    ensures written { OnOk result (D.total disk.new ≡ D.total disk.old + length bytes.now + 1) }
    ensures spends { Spends D.Disk 3 (length bytes.now + 1) disk.old disk.new (IsErr result) }
{
    disk.write_at(0, bytes)?;
    disk.write_at(place, &[0])?;
    disk.sync()?;
    Ok(())
}

// Opens the head gate, and keeps it open.
pub(crate) fn open_head<D: Disk>(disk: &mut D) -> Result<(), Failed>
    ensures ok { (blocks half : ℕ) (tables : List ℕ) → AreLimits blocks half
        → length tables + AROUND_TABLES ≤ half
        → Only (new_with blocks half 0 tables) (D.left_at disk.old (D.moment disk.old))
        → OnOk result (Each D.Disk disk.new (IsHalvedJournal blocks half tables [])) }
    ensures any_moment { (blocks half : ℕ) (tables : List ℕ) → AreLimits blocks half
        → length tables + AROUND_TABLES ≤ half
        → Only (new_with blocks half 0 tables) (D.left_at disk.old (D.moment disk.old))
        → LeavesOnly D.Disk disk.old disk.new (IsNewOrNone blocks half tables) }
    ensures durable { OnOk result (Only (D.seen disk.new) (D.left_at disk.new
        (D.moment disk.new))) }
    ensures tick { OnOk result (D.moment disk.new ≡ D.moment disk.old + 2) }
    ensures written { OnOk result (D.total disk.new ≡ D.total disk.old + 1) }
    ensures spends { Spends D.Disk 2 1 disk.old disk.new (IsErr result) }
{
    disk.write_at(HEAD_GATE as u64, &[1])?;
    disk.sync()?;
    Ok(())
}
