// The log of a journal: how it is made, read, added to, and begun anew in the other half.
ghost use Rattle.std.specs.Prelude.{◌≡◌, ◌≢◌, ◌⊎◌, ◌↔◌, IsTrue, ◌<◌, ◌≤◌, ◌+◌, ◌-◌, ◌*◌, ◌^◌, ℕ, List, [], ◌∷◌, ◌++◌, length, IfOk, IfErr, OnOk, OnErr};
ghost use Rattle.disks.specs.Disk.{Only};
ghost use Rattle.disks.specs.Moments.{LeavesOnly, Each};
ghost use Rattle.disks.specs.Outside.{AgreesOutside, IsOldOutside};
ghost use Rattle.disks.specs.Spends.{HasNoNumber, Spends};
ghost use Rattle.small_types.specs.declared.limits.TheConstants.{HEAD_BLOCK_SIZE, HALF_LIMIT};
ghost use Rattle.journal.specs.declared.form.TheConstants.{SERIAL_COUNT};
ghost use Rattle.journal.specs.declared.fault.LogFault.TheVariants.{DiskFault, Memory, NotALog, NoRoom};
ghost use Rattle.journal.specs.declared.piece.TheConstants.{AROUND, AROUND_TABLES};

use crate::form::SERIAL_COUNT;
use crate::format::{clear, closed_front, fill, open_head};
use crate::gate::{frame, frame_tables, open_gate, shut_gate};
use crate::piece::{AROUND_TABLES, BEFORE};
use crate::read::{Found, read_journal};
use crate::side::{next_serial, start, turned};
use crate::{LogFault, Side};
use disks::Disk;
use small_types::limits::{HALF_LIMIT, HEAD_BLOCK_SIZE};
use small_types::{Bytes, List};
use std::alloc::Global;

/// An open log: it knows which half is the current one, and where the next entry goes.
#[derive(Debug, Drop)]
pub struct Log {
    half: u64,
    side: Side,
    serial: u8,
    gate: u64,
    both: bool,
    ghost limit: { half ≤ HALF_LIMIT },
    ghost within: { gate < half },
    ghost is_serial: { serial < SERIAL_COUNT },
}

/// What a journal holds.
#[derive(Debug, Drop)]
pub struct Recovered {
    /// The number of blocks, 1 to 1,048,576.
    pub blocks: u64,
    /// The length of a half in bytes.
    pub half: u64,
    /// The tables of the current half.
    pub tables: Bytes,
    /// Its changes, the first of them first.
    pub changes: List<Bytes>,
}

impl Log {
    ghost use Rattle.journal.specs.Layout.{AreLimits, IsHalvedJournal, NoJournal};
    ghost use Rattle.journal.specs.Log.{IsOpen, IsEither, FitsHalf, half_of, used_of, end_of, other_half_start, both_of, need_of, room_left, calls_of, closing_of, entry_in, tables_in};
    ghost use Rattle.journal.specs.Format.{Formats};

    /// Makes a new journal of this number of blocks and this half length, of these tables and of no
    /// change. What stood on the disk is lost. A stop inside leaves what stood there, bytes that
    /// are not synced, no journal or the new one. `NoRoom`: the tables do not fit a half, and the
    /// disk is as it was. `DiskFault`: the disk failed. `Memory`: there was none, and the disk is
    /// as it was.
    pub fn format<D: Disk>(
        alloc: Global,
        disk: &mut D,
        blocks: u64,
        half: u64,
        tables: &[u8],
    ) -> Result<(), LogFault>
        requires limits { AreLimits blocks half }

        // From then on each stop leaves the new journal, and reads give it.
        ensures ok { OnOk result (Each D.Disk disk.new
            (IsHalvedJournal blocks half tables.now [])) }
        ensures seen { OnOk result (IsHalvedJournal blocks half tables.now [] (D.seen disk.new)) }
        ensures durable { OnOk result (Only (D.seen disk.new) (D.left_at disk.new
            (D.moment disk.new))) }

        // What a stop at each moment of the call leaves.
        ensures any_moment { Formats D.Disk disk.old disk.new blocks half tables.now }
        ensures refuses { half < length tables.now + AROUND_TABLES
            → result ≡ Err (NoRoom (length tables.now + AROUND_TABLES) half) }
        ensures faults { IfErr result (λ e. (e ≡ DiskFault) ⊎ ((e ≡ Memory)
            ⊎ ((e ≡ NoRoom (length tables.now + AROUND_TABLES) half)
            × (half < length tables.now + AROUND_TABLES)))) }
        ensures unwritten { IfErr result (λ e. e ≢ DiskFault → disk.new ≡ disk.old) }
        ensures spends { Spends D.Disk 7 (HEAD_BLOCK_SIZE + AROUND_TABLES + length tables.now + 2)
            disk.old disk.new (result ≡ Err DiskFault) }
        ensures tick { OnOk result (D.moment disk.new ≡ D.moment disk.old + 7) }
        ensures written { OnOk result (D.total disk.new
            ≡ D.total disk.old + (HEAD_BLOCK_SIZE + AROUND_TABLES + length tables.now + 2)) }
    {
        let need = tables.len() as u64 + AROUND_TABLES as u64;
        if half < need {
            return Err(LogFault::NoRoom { need, room: half });
        }
        let front = closed_front(alloc, blocks, half, tables)?;
        clear(disk)?;
        fill(disk, &front, HEAD_BLOCK_SIZE as u64 + half)?;
        open_head(disk)?;
        Ok(())
    }

    /// Reads the journal that a stop left, and answers what it holds and the log, open behind its
    /// last change. It begins with a sync, so that no later stop takes away what it read. It reads
    /// the head, the two halves' gates and serials, and the current half as far as it is used, and
    /// nothing of the blocks. `DiskFault`: the disk failed. `NotALog`: the bytes are no journal.
    /// `Memory`: there was none.
    pub fn recover<D: Disk>(alloc: Global, disk: &mut D) -> Result<(Log, Recovered), LogFault>
        // What reads give is the journal that is answered, and where it is one that one is
        // answered.
        ensures found { D.tells disk.new → IfOk result (λ r. IsHalvedJournal r.1.blocks r.1.half
            r.1.tables r.1.changes (D.seen disk.old)) }
        ensures same { D.tells disk.new → (blocks half : ℕ) (tables : List ℕ)
            (changes : List (List ℕ)) → IsHalvedJournal blocks half tables changes (D.seen disk.old)
            → IfOk result (λ r. (r.1.blocks ≡ blocks) × (r.1.half ≡ half) × (r.1.tables ≡ tables)
            × (r.1.changes ≡ changes)) }
        ensures not_a_log { D.tells disk.new → result ≡ Err NotALog → NoJournal (D.seen disk.old) }
        ensures limits { IfOk result (λ r. AreLimits r.1.blocks r.1.half) }
        ensures opened { D.tells disk.new → IfOk result (λ r. IsOpen D.Disk r.0 r.1.blocks
            r.1.tables r.1.changes disk.new) }
        ensures half { IfOk result (λ r. half_of r.0 ≡ r.1.half) }

        // Once the sync is done, each stop leaves what was read.
        ensures durable { OnOk result (Only (D.seen disk.old) (D.left_at disk.new
            (D.moment disk.new))) }
        ensures durable_err { IfErr result (λ e. e ≢ DiskFault
            → Only (D.seen disk.old) (D.left_at disk.new (D.moment disk.new))) }
        ensures seen { D.seen disk.new ≡ D.seen disk.old }

        // A stop leaves what it could leave before the call.
        ensures any_moment { LeavesOnly D.Disk disk.old disk.new (D.left_at disk.old
            (D.moment disk.old)) }
        ensures spends { Spends D.Disk 1 0 disk.old disk.new (result ≡ Err DiskFault) }
        ensures tick { OnOk result (D.moment disk.new ≡ D.moment disk.old + 1) }
        ensures tick_err { IfErr result (λ e. e ≢ DiskFault
            → D.moment disk.new ≡ D.moment disk.old + 1) }
        ensures faults { IfErr result (λ e. (e ≡ DiskFault) ⊎ ((e ≡ NotALog) ⊎ (e ≡ Memory))) }
    {
        disk.sync()?;
        match read_journal(alloc, disk)? {
            None => Err(LogFault::NotALog),
            Some(found) => {
                let Found {
                    blocks,
                    half,
                    side,
                    serial,
                    both,
                    tables,
                    changes,
                    gate,
                } = found;
                Ok((
                    Log {
                        half,
                        side,
                        serial,
                        gate,
                        both,
                    },
                    Recovered {
                        blocks,
                        half,
                        tables,
                        changes,
                    },
                ))
            }
        }
    }

    /// The bytes of the current half up to its first closed gate, that one included.
    pub fn used(&self) -> u64
        ensures { result ≡ used_of self.now }
    {
        self.gate + 1
    }

    /// Whether an entry of that length has room in the current half.
    pub fn fits(&self, length: u64) -> bool
        ensures { IsTrue result ↔ FitsHalf self.now length }
    {
        let room = self.half - self.gate - 1;
        room >= BEFORE as u64 && length <= room - BEFORE as u64
    }

    /// Adds a change. The piece has it behind its first `BEFORE` bytes, and `AROUND` bytes in all
    /// around it: these are room for the log's own gates and length, and are overwritten. After
    /// `Ok` no later stop takes the change away. A stop inside keeps it or not. Nothing is written
    /// but behind the log's end, as many bytes as the piece has. It takes no memory and copies
    /// nothing. `NoRoom`: the entry does not fit the half, and nothing is written; the log and the
    /// piece are as they were. `DiskFault`: the disk failed; the journal is then to be recovered
    /// anew.
    pub fn append<D: Disk>(&mut self, disk: &mut D, piece: &mut [u8]) -> Result<(), LogFault>
        requires { AROUND < length piece.old }

        // The log is open behind the new change, which each stop leaves.
        ensures ok { (blocks : ℕ) (tables : List ℕ) (changes : List (List ℕ))
            → IsOpen D.Disk self.old blocks tables changes disk.old
            → OnOk result (IsOpen D.Disk self.new blocks tables
            (changes ++ entry_in piece.old ∷ []) disk.new) }
        ensures durable { OnOk result (Only (D.seen disk.new) (D.left_at disk.new
            (D.moment disk.new))) }

        // A stop at any moment of the call leaves the changes from before it, with the new one or
        // without.
        ensures any_moment { (blocks : ℕ) (tables : List ℕ) (changes : List (List ℕ))
            → IsOpen D.Disk self.old blocks tables changes disk.old
            → LeavesOnly D.Disk disk.old disk.new (IsEither blocks (half_of self.old) tables changes
            tables (changes ++ entry_in piece.old ∷ [])) }

        // Outside the piece's range nothing is written, also where the call fails: what stops
        // leave, and what reads give.
        ensures outside { LeavesOnly D.Disk disk.old disk.new (IsOldOutside (end_of self.old)
            (length piece.old) (D.left_at disk.old (D.moment disk.old))) }
        ensures reads_outside { AgreesOutside (end_of self.old) (length piece.old)
            (D.seen disk.old) (D.seen disk.new) }

        // It says that there is no room exactly where the entry does not fit, and then writes
        // nothing.
        ensures refuses { room_left self.old < need_of piece.old
            → result ≡ Err (NoRoom (need_of piece.old) (room_left self.old)) }
        ensures faults { IfErr result (λ e. (e ≡ DiskFault)
            ⊎ ((e ≡ NoRoom (need_of piece.old) (room_left self.old))
            × (room_left self.old < need_of piece.old))) }
        ensures unwritten { room_left self.old < need_of piece.old → disk.new ≡ disk.old }
        ensures unframed { room_left self.old < need_of piece.old → piece.new ≡ piece.old }
        ensures kept { OnErr result (self.new ≡ self.old) }
        ensures half { half_of self.new ≡ half_of self.old }
        ensures used { OnOk result (used_of self.new ≡ used_of self.old + need_of piece.old) }
        ensures change { entry_in piece.new ≡ entry_in piece.old }
        ensures spends { Spends D.Disk 4 (length piece.old) disk.old disk.new
            (result ≡ Err DiskFault) }
        ensures tick { OnOk result (D.moment disk.new ≡ D.moment disk.old + 4) }
        ensures written { OnOk result (D.total disk.new ≡ D.total disk.old + length piece.old) }
        ensures counted { need_of piece.old ≤ room_left self.old
            → (D.moment disk.old + 1 ≤ D.moment disk.new)
            ⊎ HasNoNumber (D.moment disk.new) (D.total disk.new) (length piece.old) }
    {
        let need = piece.len() as u64 - 1;
        let room = self.half - self.gate - 1;
        if room < need {
            return Err(LogFault::NoRoom { need, room });
        }
        frame(piece);
        open_gate(disk, start(self.side, self.half) + self.gate, &piece[1..])?;
        self.gate += need;
        Ok(())
    }

    /// Begins the other half with tables and no change, which makes it the current one. The piece
    /// has the tables behind its first `BEFORE_TABLES` bytes, and `AROUND_TABLES` bytes in all
    /// around them: these are room for the log's own gates, serial and length, and are overwritten.
    /// After `Ok` each later stop leaves these tables. A stop inside leaves the tables and changes
    /// from before, or these tables and no change. Nothing is written but in the other half, as
    /// many bytes as the piece has. It takes no memory and copies nothing. `NoRoom`: the tables do
    /// not fit a half, and nothing is written; the log and the piece are as they were. `DiskFault`:
    /// the disk failed; the journal is then to be recovered anew.
    pub fn checkpoint<D: Disk>(&mut self, disk: &mut D, piece: &mut [u8]) -> Result<(), LogFault>
        requires { AROUND_TABLES ≤ length piece.old }

        // The log is open behind the new tables, which each stop leaves.
        ensures ok { (blocks : ℕ) (tables : List ℕ) (changes : List (List ℕ))
            → IsOpen D.Disk self.old blocks tables changes disk.old
            → OnOk result (IsOpen D.Disk self.new blocks (tables_in piece.old) [] disk.new) }
        ensures durable { OnOk result (Only (D.seen disk.new) (D.left_at disk.new
            (D.moment disk.new))) }

        // A stop at any moment of the call leaves the tables and changes from before it, or the new
        // tables and no change.
        ensures any_moment { (blocks : ℕ) (tables : List ℕ) (changes : List (List ℕ))
            → IsOpen D.Disk self.old blocks tables changes disk.old
            → LeavesOnly D.Disk disk.old disk.new (IsEither blocks (half_of self.old) tables changes
            (tables_in piece.old) []) }

        // Outside the piece's range in the other half nothing is written, also where the call
        // fails.
        ensures outside { LeavesOnly D.Disk disk.old disk.new
            (IsOldOutside (other_half_start self.old) (length piece.old)
            (D.left_at disk.old (D.moment disk.old))) }
        ensures reads_outside { AgreesOutside (other_half_start self.old) (length piece.old)
            (D.seen disk.old) (D.seen disk.new) }

        // It says that there is no room exactly where the tables do not fit, and then writes
        // nothing.
        ensures refuses { half_of self.old < length piece.old
            → result ≡ Err (NoRoom (length piece.old) (half_of self.old)) }
        ensures faults { IfErr result (λ e. (e ≡ DiskFault)
            ⊎ ((e ≡ NoRoom (length piece.old) (half_of self.old))
            × (half_of self.old < length piece.old))) }
        ensures unwritten { half_of self.old < length piece.old → disk.new ≡ disk.old }
        ensures unframed { half_of self.old < length piece.old → piece.new ≡ piece.old }
        ensures kept { OnErr result (self.new ≡ self.old) }
        ensures half { half_of self.new ≡ half_of self.old }
        ensures used { OnOk result (used_of self.new ≡ length piece.old) }
        ensures tables { tables_in piece.new ≡ tables_in piece.old }
        ensures spends { Spends D.Disk (calls_of (both_of self.old))
            (length piece.old + closing_of (both_of self.old)) disk.old disk.new
            (result ≡ Err DiskFault) }
        ensures tick { OnOk result (D.moment disk.new
            ≡ D.moment disk.old + calls_of (both_of self.old)) }
        ensures written { OnOk result (D.total disk.new
            ≡ D.total disk.old + length piece.old + closing_of (both_of self.old)) }
        ensures counted { length piece.old ≤ half_of self.old
            → (D.moment disk.old + 1 ≤ D.moment disk.new)
            ⊎ HasNoNumber (D.moment disk.new) (D.total disk.new) (length piece.old) }
    {
        let need = piece.len() as u64;
        if self.half < need {
            return Err(LogFault::NoRoom {
                need,
                room: self.half,
            });
        }
        let serial = next_serial(self.serial);
        let side = turned(self.side);
        let place = start(side, self.half);
        frame_tables(piece, serial);
        shut_gate(disk, place, self.both)?;
        open_gate(disk, place, &piece[1..])?;
        self.side = side;
        self.serial = serial;
        self.gate = need - 1;
        self.both = true;
        Ok(())
    }
}
