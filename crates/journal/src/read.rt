// How the bytes of a journal are read: only as far as they are needed.
ghost use Rattle.std.specs.Prelude.{◌≡◌, ◌≢◌, ◌⊎◌, ◌↔◌, IsTrue, slice_index, ◌<◌, ◌≤◌, ◌+◌, ◌-◌, ◌^◌, ℕ, Bool, List, [], ◌∷◌, ◌++◌, length, take, drop, min, IfOk, IfErr, IfSome, IfNone, OnOk};
ghost use Rattle.small_types.specs.declared.limits.TheConstants.{HALF_LEAST, HALF_LIMIT};
ghost use Rattle.disks.specs.Moments.{Untouched};
ghost use Rattle.disks.specs.Spends.{Spends};
ghost use Rattle.journal.specs.declared.form.TheConstants.{SERIAL_COUNT};
ghost use Rattle.journal.specs.declared.piece.TheConstants.{BEFORE, BEFORE_TABLES};
ghost use Rattle.journal.specs.declared.fault.LogFault.TheVariants.{DiskFault, Memory};
ghost use Rattle.journal.specs.Layout.{part_at, long_bytes, AreLimits, NoJournal, IsNextSerial, OpensWith, IsHalf};
ghost use Rattle.journal.specs.Steps.{AtGate, NoEntries, OpensSize, AreFirstOf, StartsSo, IsChosen, HalvesBegin, TablesAt, NoTables, IsStepAt, IsStepWithin, IsLastStep, FoundHalf};
ghost use Rattle.journal.specs.Found.{Finds};

use crate::form::SERIAL_COUNT;
use crate::head::read_head;
use crate::piece::{BEFORE, BEFORE_TABLES};
use crate::side::start;
use crate::{LogFault, Side};
use disks::Disk;
use small_types::limits::HEAD_BLOCK_SIZE;
use small_types::{Bytes, List, rest_from};
use std::alloc::{AllocError, Global};

// How many bytes a read asks for.
const CHUNK: usize = 65_536;

// A buffer of this many bytes.
fn buffer(alloc: Global, count: usize) -> Result<Vec<u8>, AllocError>
    requires { count < 2 ^ 32 }
    ensures { IfOk result (λ bytes. length bytes.items ≡ count) }
{
    let bytes = vec![in alloc; 0u8; count]?;
    Ok(bytes)
}

// Reads on in the part of so many bytes at a place, by way of the buffer, until as many as are
// wanted are there, or the part ends.
fn read_on<D: Disk>(
    disk: &mut D,
    buf: &mut [u8],
    place: u64,
    limit: usize,
    bytes: &mut Vec<u8>,
    want: usize,
) -> Result<(), LogFault>
    requires room { 0 < length buf.old }
    requires fits { place + limit < 2 ^ 63 }
    requires below { length bytes.old.items ≤ limit }
    requires wanted { want ≤ limit }
    ensures bytes { D.tells disk.new
        → AreFirstOf bytes.old.items (part_at place limit (D.seen disk.old))
        → AreFirstOf bytes.new.items (part_at place limit (D.seen disk.old)) }
    ensures enough { D.tells disk.new → OnOk result ((want ≤ length bytes.new.items)
        ⊎ (length (part_at place limit (D.seen disk.old)) ≤ length bytes.new.items)) }
    ensures longer { length bytes.old.items ≤ length bytes.new.items }
    ensures limited { length bytes.new.items ≤ limit }
    ensures still { Untouched D.Disk disk.old disk.new }
    ensures spends { Spends D.Disk 0 0 disk.old disk.new (result ≡ Err DiskFault) }
    ensures faults { IfErr result (λ e. (e ≡ DiskFault) ⊎ (e ≡ Memory)) }
{
    while bytes.len() < want {
        let room = (limit - bytes.len()).min(buf.len());
        let n = disk.read(place + bytes.len() as u64, &mut buf[..room])?;
        if n == 0 {
            break;
        }
        bytes.extend_from_slice(&buf[..n])?;
    }
    Ok(())
}

// Whether a gate is open.
fn is_open(gate: u8) -> bool
    ensures { IsTrue result ↔ (gate ≡ 1) }
{
    gate == 1
}

// How a half begins.
#[derive(Clone, Copy, Debug, PartialEq, Eq)]
pub(crate) enum HalfStart {
    // Its gate is closed.
    Closed,
    // Its gate is open, and this is its serial.
    Opened(u8),
}

// How the half begins that begins with these bytes.
fn read_start(bytes: &[u8]) -> Option<HalfStart>
    ensures some { IfSome result (λ s. StartsSo s bytes.now) }
    ensures none { IfNone result ((s : HalfStart) → StartsSo s bytes.now → ⊥) }
{
    if bytes.is_empty() {
        return None;
    }
    if !is_open(bytes[0]) {
        return Some(HalfStart::Closed);
    }
    if bytes.len() < 2 {
        return None;
    }
    Some(HalfStart::Opened(bytes[1]))
}

// Whether the second serial is the one after the first.
fn is_next(before: u8, serial: u8) -> bool
    ensures { IsTrue result ↔ IsNextSerial before serial }
{
    before < SERIAL_COUNT && serial == (before + 1) % SERIAL_COUNT
}

// Which half is current, its serial, and whether the other one is open too.
fn choose(first: HalfStart, second: HalfStart) -> Option<(Side, u8, bool)>
    ensures some { IfSome result (λ c. IsChosen c.0 c.1 c.2 first second) }
    ensures none { IfNone result ((side : Side) (serial : ℕ) (both : Bool)
        → IsChosen side serial both first second → ⊥) }
{
    match (first, second) {
        (HalfStart::Closed, HalfStart::Closed) => None,
        (HalfStart::Opened(serial), HalfStart::Closed) => {
            if serial < SERIAL_COUNT {
                Some((Side::First, serial, false))
            } else {
                None
            }
        }
        (HalfStart::Closed, HalfStart::Opened(serial)) => {
            if serial < SERIAL_COUNT {
                Some((Side::Second, serial, false))
            } else {
                None
            }
        }
        (HalfStart::Opened(a), HalfStart::Opened(b)) => {
            if is_next(a, b) {
                Some((Side::Second, b, true))
            } else if is_next(b, a) {
                Some((Side::First, a, true))
            } else {
                None
            }
        }
    }
}

// The length of the tables, where the half's head is whole.
fn tables_size(bytes: &[u8]) -> Option<u64>
    ensures some { IfSome result (λ n. (BEFORE_TABLES ≤ length bytes.now)
        × (long_bytes n ≡ take 8 (drop 2 bytes.now)) × (n < 2 ^ 64)) }
    ensures none { IfNone result (length bytes.now < BEFORE_TABLES) }
{
    if bytes.len() < BEFORE_TABLES {
        return None;
    }
    Some(u64::from_be_bytes([
        bytes[2], bytes[3], bytes[4], bytes[5], bytes[6], bytes[7], bytes[8], bytes[9],
    ]))
}

// The size of the entry behind an open gate, where the bytes have one.
fn open_size(bytes: &[u8]) -> Option<usize>
    ensures some { IfSome result (λ n. OpensSize n (drop BEFORE bytes.now) bytes.now) }
    ensures small { IfSome result (λ n. n < 2 ^ 32) }
    ensures none { IfNone result ((length bytes.now < BEFORE) ⊎ (slice_index bytes.now 0 ≢ 1)) }
{
    if bytes.len() < BEFORE {
        return None;
    }
    if !is_open(bytes[0]) {
        return None;
    }
    let size = u32::from_be_bytes([bytes[1], bytes[2], bytes[3], bytes[4]]);
    Some(size as usize)
}

// The part of so many bytes at a place, as far as it goes.
fn read_part<D: Disk>(
    alloc: Global,
    disk: &mut D,
    buf: &mut [u8],
    place: u64,
    count: usize,
) -> Result<Vec<u8>, LogFault>
    requires room { 0 < length buf.old }
    requires fits { place + count < 2 ^ 63 }
    ensures bytes { D.tells disk.new
        → IfOk result (λ bytes. bytes.items ≡ part_at place count (D.seen disk.old)) }
    ensures still { Untouched D.Disk disk.old disk.new }
    ensures spends { Spends D.Disk 0 0 disk.old disk.new (result ≡ Err DiskFault) }
    ensures faults { IfErr result (λ e. (e ≡ DiskFault) ⊎ (e ≡ Memory)) }
{
    let mut bytes = Vec::new(alloc);
    read_on(disk, buf, place, count, &mut bytes, count)?;
    Ok(bytes)
}

// Which half is current, its serial, and whether the other one is open too.
fn read_side<D: Disk>(
    alloc: Global,
    disk: &mut D,
    buf: &mut [u8],
    half: u64,
) -> Result<Option<(Side, u8, bool)>, LogFault>
    requires room { 0 < length buf.old }
    requires limits { (HALF_LEAST ≤ half) × (half ≤ HALF_LIMIT) }
    ensures found { D.tells disk.new
        → IfOk result (λ o. IfSome o (λ c. HalvesBegin c.0 c.1 c.2 half (D.seen disk.old))) }
    ensures none { D.tells disk.new → IfOk result (λ o. IfNone o ((side : Side) (serial : ℕ)
        (both : Bool) → HalvesBegin side serial both half (D.seen disk.old) → ⊥)) }
    ensures serial { IfOk result (λ o. IfSome o (λ c. c.1 < SERIAL_COUNT)) }
    ensures still { Untouched D.Disk disk.old disk.new }
    ensures spends { Spends D.Disk 0 0 disk.old disk.new (result ≡ Err DiskFault) }
    ensures faults { IfErr result (λ e. (e ≡ DiskFault) ⊎ (e ≡ Memory)) }
{
    let first = read_part(alloc, disk, buf, HEAD_BLOCK_SIZE as u64, 2)?;
    let second = read_part(alloc, disk, buf, HEAD_BLOCK_SIZE as u64 + half, 2)?;
    let Some(first) = read_start(&first) else {
        return Ok(None);
    };
    let Some(second) = read_start(&second) else {
        return Ok(None);
    };
    Ok(choose(first, second))
}

// The tables of the half of so many bytes at a place, where it has some. The bytes are those that
// were read of it, which at first are none.
fn read_tables<D: Disk>(
    alloc: Global,
    disk: &mut D,
    buf: &mut [u8],
    place: u64,
    half: usize,
    bytes: &mut Vec<u8>,
) -> Result<Option<Bytes>, LogFault>
    requires room { 0 < length buf.old }
    requires fits { place + half < 2 ^ 63 }
    requires limits { (HALF_LEAST ≤ half) × (half ≤ HALF_LIMIT) }
    requires empty { bytes.old.items ≡ [] }
    ensures found { D.tells disk.new → IfOk result (λ o. IfSome o (λ tables. TablesAt tables
        (part_at place half (D.seen disk.old)))) }
    ensures none { D.tells disk.new → IfOk result (λ o. IfNone o (NoTables
        (part_at place half (D.seen disk.old)))) }
    ensures first { D.tells disk.new
        → OnOk result (AreFirstOf bytes.new.items (part_at place half (D.seen disk.old))) }
    ensures read { IfOk result (λ o. IfSome o (λ tables.
        BEFORE_TABLES + length tables ≤ length bytes.new.items)) }
    ensures limited { length bytes.new.items ≤ half }
    ensures still { Untouched D.Disk disk.old disk.new }
    ensures spends { Spends D.Disk 0 0 disk.old disk.new (result ≡ Err DiskFault) }
    ensures faults { IfErr result (λ e. (e ≡ DiskFault) ⊎ (e ≡ Memory)) }
{
    read_on(disk, buf, place, half, bytes, BEFORE_TABLES)?;
    let Some(size) = tables_size(bytes) else {
        return Ok(None);
    };
    if size > (half - BEFORE_TABLES) as u64 {
        return Ok(None);
    }
    let end = BEFORE_TABLES + size as usize;
    read_on(disk, buf, place, half, bytes, end)?;
    if bytes.len() < end {
        return Ok(None);
    }
    let tables = Bytes::from_slice(alloc, &bytes[BEFORE_TABLES..end])?;
    Ok(Some(tables))
}

// What stands at a place where an entry may begin.
#[derive(Drop, Debug)]
pub(crate) enum Step {
    // An open gate and a change.
    Change(Bytes),
    // A closed gate.
    End,
    // Neither of them.
    Broken,
}

// What stands at the next entry's place in the half. The bytes are those that were read of it.
fn read_entry<D: Disk>(
    alloc: Global,
    disk: &mut D,
    buf: &mut [u8],
    place: u64,
    half: usize,
    bytes: &mut Vec<u8>,
    gate: usize,
) -> Result<Step, LogFault>
    requires room { 0 < length buf.old }
    requires fits { place + half < 2 ^ 63 }
    requires limits { half ≤ HALF_LIMIT }
    requires read { (gate ≤ length bytes.old.items) × (length bytes.old.items ≤ half) }
    ensures step { D.tells disk.new
        → AreFirstOf bytes.old.items (part_at place half (D.seen disk.old))
        → IfOk result (λ step. IsStepAt step gate (part_at place half (D.seen disk.old))) }
    ensures first { D.tells disk.new
        → AreFirstOf bytes.old.items (part_at place half (D.seen disk.old))
        → AreFirstOf bytes.new.items (part_at place half (D.seen disk.old)) }
    ensures within { IfOk result (λ step. IsStepWithin step gate (length bytes.new.items)) }
    ensures longer { length bytes.old.items ≤ length bytes.new.items }
    ensures limited { length bytes.new.items ≤ half }
    ensures still { Untouched D.Disk disk.old disk.new }
    ensures spends { Spends D.Disk 0 0 disk.old disk.new (result ≡ Err DiskFault) }
    ensures faults { IfErr result (λ e. (e ≡ DiskFault) ⊎ (e ≡ Memory)) }
{
    read_on(disk, buf, place, half, bytes, (gate + BEFORE).min(half))?;
    let Some(size) = open_size(rest_from(bytes, gate)) else {
        return Ok(last_step(rest_from(bytes, gate)));
    };
    let start = gate + BEFORE;
    if half - start < size {
        return Ok(Step::Broken);
    }
    read_on(disk, buf, place, half, bytes, start + size)?;
    if bytes.len() < start + size {
        return Ok(Step::Broken);
    }
    let change = Bytes::from_slice(alloc, &bytes[start..start + size])?;
    Ok(Step::Change(change))
}

// What stands where no whole head of an entry does.
fn last_step(bytes: &[u8]) -> Step
    ensures { IsLastStep result bytes.now }
{
    if bytes.is_empty() {
        return Step::Broken;
    }
    if is_open(bytes[0]) {
        return Step::Broken;
    }
    Step::End
}

fn add(changes: &mut List<Bytes>, change: Bytes) -> Result<(), AllocError>
    ensures { OnOk result (changes.new ≡ changes.old ++ change ∷ []) }
{
    changes.push(change)?;
    Ok(())
}

// The changes of the entries from a place on up to the first closed gate, and how far behind the
// place that is.
fn read_changes<D: Disk>(
    alloc: Global,
    disk: &mut D,
    buf: &mut [u8],
    place: u64,
    half: usize,
    bytes: &mut Vec<u8>,
    from: usize,
) -> Result<Option<(List<Bytes>, usize)>, LogFault>
    requires room { 0 < length buf.old }
    requires fits { place + half < 2 ^ 63 }
    requires limits { half ≤ HALF_LIMIT }
    requires read { (from ≤ length bytes.old.items) × (length bytes.old.items ≤ half) }
    ensures found { D.tells disk.new
        → AreFirstOf bytes.old.items (part_at place half (D.seen disk.old))
        → IfOk result (λ o. IfSome o (λ f. AtGate f.0 f.1
        (drop from (part_at place half (D.seen disk.old))))) }
    ensures none { D.tells disk.new
        → AreFirstOf bytes.old.items (part_at place half (D.seen disk.old))
        → IfOk result (λ o. IfNone o (NoEntries
        (drop from (part_at place half (D.seen disk.old))))) }
    ensures within { IfOk result (λ o. IfSome o (λ f. from + f.1 < half)) }
    ensures still { Untouched D.Disk disk.old disk.new }
    ensures spends { Spends D.Disk 0 0 disk.old disk.new (result ≡ Err DiskFault) }
    ensures faults { IfErr result (λ e. (e ≡ DiskFault) ⊎ (e ≡ Memory)) }
{
    let mut changes = List::from_vec(Vec::new(alloc));
    let mut gate = from;
    'entries: loop {
        match read_entry(alloc, disk, buf, place, half, bytes, gate)? {
            Step::Change(change) => {
                gate = gate + BEFORE + change.as_slice().len();
                add(&mut changes, change)?;
            }
            Step::End => return Ok(Some((changes, gate - from))),
            Step::Broken => return Ok(None),
        }
    }
}

// What a half holds.
#[derive(Drop, Debug)]
struct Half {
    tables: Bytes,
    changes: List<Bytes>,
    gate: u64,
}

// What the half of so many bytes at a place holds, whose gate is open.
fn read_half<D: Disk>(
    alloc: Global,
    disk: &mut D,
    buf: &mut [u8],
    place: u64,
    half: u64,
) -> Result<Option<Half>, LogFault>
    requires room { 0 < length buf.old }
    requires fits { place + half < 2 ^ 63 }
    requires limits { (HALF_LEAST ≤ half) × (half ≤ HALF_LIMIT) }
    ensures found { D.tells disk.new → (serial : ℕ)
        → OpensWith serial (part_at place half (D.seen disk.old)) → IfOk result (λ o. IfSome o
        (λ f. FoundHalf serial f.tables f.changes f.gate (part_at place half (D.seen disk.old)))) }
    ensures none { D.tells disk.new → IfOk result (λ o. IfNone o ((serial : ℕ) (tables : List ℕ)
        (changes : List (List ℕ))
        → IsHalf serial tables changes (part_at place half (D.seen disk.old)) → ⊥)) }
    ensures within { IfOk result (λ o. IfSome o (λ f. f.gate < half)) }
    ensures still { Untouched D.Disk disk.old disk.new }
    ensures spends { Spends D.Disk 0 0 disk.old disk.new (result ≡ Err DiskFault) }
    ensures faults { IfErr result (λ e. (e ≡ DiskFault) ⊎ (e ≡ Memory)) }
{
    let mut bytes = Vec::new(alloc);
    let Some(tables) = read_tables(alloc, disk, buf, place, half as usize, &mut bytes)? else {
        return Ok(None);
    };
    let from = BEFORE_TABLES + tables.as_slice().len();
    let Some((changes, behind)) = read_changes(
        alloc,
        disk,
        buf,
        place,
        half as usize,
        &mut bytes,
        from,
    )?
    else {
        return Ok(None);
    };
    Ok(Some(Half {
        tables,
        changes,
        gate: (from + behind) as u64,
    }))
}

// What a journal holds.
#[derive(Drop, Debug)]
pub(crate) struct Found {
    pub blocks: u64,
    pub half: u64,
    pub side: Side,
    pub serial: u8,
    pub both: bool,
    pub tables: Bytes,
    pub changes: List<Bytes>,
    pub gate: u64,
}

// What the disk holds, where it is a journal.
pub(crate) fn read_journal<D: Disk>(alloc: Global, disk: &mut D) -> Result<Option<Found>, LogFault>
    ensures found { D.tells disk.new
        → IfOk result (λ o. IfSome o (λ f. Finds f (D.seen disk.old))) }
    ensures none { D.tells disk.new → IfOk result (λ o. IfNone o (NoJournal (D.seen disk.old))) }
    ensures limits { IfOk result (λ o. IfSome o (λ f. AreLimits f.blocks f.half)) }
    ensures serial { IfOk result (λ o. IfSome o (λ f. f.serial < SERIAL_COUNT)) }
    ensures within { IfOk result (λ o. IfSome o (λ f. f.gate < f.half)) }
    ensures still { Untouched D.Disk disk.old disk.new }
    ensures spends { Spends D.Disk 0 0 disk.old disk.new (result ≡ Err DiskFault) }
    ensures faults { IfErr result (λ e. (e ≡ DiskFault) ⊎ (e ≡ Memory)) }
{
    let mut buf = buffer(alloc, CHUNK)?;
    let head = read_part(alloc, disk, &mut buf, 0, HEAD_BLOCK_SIZE)?;
    let Some((blocks, half)) = read_head(alloc, &head)? else {
        return Ok(None);
    };
    let Some((side, serial, both)) = read_side(alloc, disk, &mut buf, half)? else {
        return Ok(None);
    };
    let Some(found) = read_half(alloc, disk, &mut buf, start(side, half), half)? else {
        return Ok(None);
    };
    let Half {
        tables,
        changes,
        gate,
    } = found;
    Ok(Some(Found {
        blocks,
        half,
        side,
        serial,
        both,
        tables,
        changes,
        gate,
    }))
}
