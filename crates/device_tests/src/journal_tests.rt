// What no clause says of a journal: that its calls succeed, its bytes, and what stops and other
// bytes leave of it.
ghost use Rattle.std.specs.Prelude.{◌≡◌, ◌+◌, ◌<◌, length, IfOk};

use crate::made::{all_right, bytes, numbers, same};
use disks::{Disk, MemDisk, Pick};
use journal::{BEFORE, BEFORE_TABLES, Log, LogFault, Recovered};
use std::alloc::{AllocError, Global};
use std::test::Fail;

// The least length of a half, and where the second half of a journal with such halves begins.
const HALF: u64 = 1_048_576;

const SECOND: usize = 1_052_672;

// A call of a journal with what it answers, or what the log then says.
#[derive(Drop)]
enum Step {
    Format(&'static [u8]),
    // The change; and one of so many zeros.
    Append(&'static [u8], Result<(), LogFault>),
    Long(usize, Result<(), LogFault>),
    // The tables; and some of so many zeros.
    Checkpoint(&'static [u8], Result<(), LogFault>),
    LongTables(usize, Result<(), LogFault>),
    Used(u64),
    Fits(u64, bool),
}

// A piece with so many bytes before what is written, and one behind it.
fn piece_of(alloc: Global, before: usize, content: &[u8]) -> Result<Vec<u8>, AllocError>
    requires { before < 16 }
    ensures { IfOk result (λ piece. length piece.items ≡ before + length content.now + 1) }
{
    let mut piece = vec![in alloc; 5u8; before]?;
    piece.extend_from_slice(content)?;
    piece.push(5)?;
    Ok(piece)
}

fn append(alloc: Global, disk: &mut MemDisk, log: &mut Log, change: &[u8]) -> Result<(), LogFault> {
    if change.is_empty() {
        return Err(LogFault::NotALog);
    }
    let mut piece = piece_of(alloc, BEFORE, change)?;
    log.append(disk, &mut piece)
}

fn checkpoint(
    alloc: Global,
    disk: &mut MemDisk,
    log: &mut Log,
    tables: &[u8],
) -> Result<(), LogFault> {
    let mut piece = piece_of(alloc, BEFORE_TABLES, tables)?;
    log.checkpoint(disk, &mut piece)
}

fn zeros(alloc: Global, count: usize) -> Result<Vec<u8>, AllocError> {
    let bytes = vec![in alloc; 0u8; count % 4_194_304]?;
    Ok(bytes)
}

// Whether the step answers what it is to.
fn answers(
    alloc: Global,
    disk: &mut MemDisk,
    log: &mut Log,
    step: &Step,
) -> Result<bool, AllocError> {
    let is_so = match step {
        Step::Format(tables) => Log::format(alloc, disk, 258, HALF, tables) == Ok(()),
        Step::Append(change, want) => append(alloc, disk, log, change) == *want,
        Step::Long(count, want) => append(alloc, disk, log, &zeros(alloc, *count)?) == *want,
        Step::Checkpoint(tables, want) => checkpoint(alloc, disk, log, tables) == *want,
        Step::LongTables(count, want) => {
            checkpoint(alloc, disk, log, &zeros(alloc, *count)?) == *want
        }
        Step::Used(want) => log.used() == *want,
        Step::Fits(length, want) => log.fits(*length) == *want,
    };
    Ok(is_so)
}

// The number of the first step that answers something else.
fn first_wrong(
    alloc: Global,
    disk: &mut MemDisk,
    log: &mut Log,
    steps: &[Step],
) -> Result<Option<usize>, AllocError> {
    for (number, step) in steps.iter().enumerate() {
        if !answers(alloc, disk, log, step)? {
            return Ok(Some(number));
        }
    }
    Ok(None)
}

// A disk of these bytes, whose call of the number `failing`, counted from 1, fails.
fn disk_of(alloc: Global, content: &[u8], failing: u64) -> Result<MemDisk, AllocError> {
    Ok(MemDisk::new(alloc, bytes(alloc, content)?, numbers(alloc, &[failing])?))
}

// A disk with a new journal of 258 blocks and these tables, and its log.
fn new_journal(alloc: Global, tables: &[u8]) -> Result<(MemDisk, Log), LogFault> {
    let mut disk = disk_of(alloc, b"what stood before", 0)?;
    Log::format(alloc, &mut disk, 258, HALF, tables)?;
    let (log, _) = Log::recover(alloc, &mut disk)?;
    Ok((disk, log))
}

// How long the tables are that are found, and how many changes.
type Shape = (usize, usize);

fn shape(found: &Recovered) -> Shape {
    let tables = found.tables.as_slice().len();
    (tables, found.changes.as_slice().len())
}

// What an opening finds.
fn found_in(alloc: Global, disk: &mut MemDisk) -> Result<Shape, LogFault> {
    let (_, found) = Log::recover(alloc, disk)?;
    Ok(shape(&found))
}

// The number of the first step that is wrong on a new journal, and what is found at the end.
fn go(
    alloc: Global,
    tables: &[u8],
    steps: &[Step],
) -> Result<(Option<usize>, Result<Shape, LogFault>), LogFault> {
    let (mut disk, mut log) = new_journal(alloc, tables)?;
    let wrong = first_wrong(alloc, &mut disk, &mut log, steps);
    let found = found_in(alloc, &mut disk);
    drop(disk);
    Ok((wrong?, found))
}

// Entries of 14 + 1,000,005 + 48,557 bytes fill the half, whose length is 1,048,576.
const FULL: &[Step] = &[
    Step::Used(14),
    Step::Fits(1_048_557, true),
    Step::Fits(1_048_558, false),
    Step::Long(1_000_000, Ok(())),
    Step::Used(1_000_019),
    Step::Fits(48_552, true),
    Step::Fits(48_553, false),
    Step::Fits(u64::MAX, false),
    Step::Long(
        48_553,
        Err(LogFault::NoRoom {
            need: 48_558,
            room: 48_557,
        }),
    ),
    Step::Used(1_000_019),
    Step::Long(48_552, Ok(())),
    Step::Used(1_048_576),
    Step::Fits(0, false),
    Step::Append(b"x", Err(LogFault::NoRoom { need: 6, room: 0 })),
    Step::Used(1_048_576),
];

// Tables of 1,048,565 bytes fill a half.
const TURNS: &[Step] = &[
    Step::Append(b"abc", Ok(())),
    Step::Checkpoint(b"12", Ok(())),
    Step::Used(13),
    Step::Append(b"d", Ok(())),
    Step::LongTables(
        1_048_566,
        Err(LogFault::NoRoom {
            need: 1_048_577,
            room: 1_048_576,
        }),
    ),
    Step::Used(19),
    Step::LongTables(1_048_565, Ok(())),
    Step::Used(1_048_576),
    Step::Checkpoint(b"", Ok(())),
    Step::Used(11),
    Step::Append(b"ef", Ok(())),
    Step::Checkpoint(b"1234", Ok(())),
    Step::Append(b"g", Ok(())),
    Step::Append(b"h", Ok(())),
    Step::Used(27),
];

// The name, the first tables, the steps, and what is found at the end.
type Run = (&'static str, &'static [u8], &'static [Step], Shape);

const RUNS: &[Run] = &[
    ("nothing", b"", &[], (0, 0)),
    ("full", b"one", FULL, (3, 2)),
    ("turns", b"one", TURNS, (4, 2)),
];

#[test]
fn what_was_written_is_recovered(rt: HostRuntime) -> Result<(), Fail> {
    for (name, tables, steps, want) in RUNS {
        let (wrong, found) = go(rt.alloc(), tables, steps)?;
        all_right(&rt, name, wrong);
        assert!(rt; found == Ok(*want), "{name}");
    }
    Ok(())
}

const HEAD: [u8; 24] = [
    67, 76, 75, 83, 84, 79, 82, 49, 0, 0, 0, 0, 0, 0, 1, 2, 0, 0, 0, 0, 0, 16, 0, 0,
];

const FIRST_HALF: [u8; 21] = [
    1, 0, 0, 0, 0, 0, 0, 0, 0, 2, 98, 97, 1, 0, 0, 0, 3, 7, 8, 9, 0,
];

const SECOND_HALF: [u8; 11] = [1, 1, 0, 0, 0, 0, 0, 0, 0, 0, 0];

// The byte at the place of a journal of 258 blocks, whose first half has the tables 98, 97 and the
// change 7, 8, 9, and whose second half has no table.
fn byte_at(place: usize) -> u8 {
    if place < 24 {
        HEAD[place]
    } else if place == 64 {
        1
    } else if 4096 <= place && place < 4117 {
        FIRST_HALF[place - 4096]
    } else if 1_052_672 <= place && place < 1_052_683 {
        SECOND_HALF[place - 1_052_672]
    } else {
        0
    }
}

// The first place at which the bytes are other ones.
fn first_other(bytes: &[u8]) -> Option<usize> {
    for (place, byte) in bytes.iter().enumerate() {
        if *byte != byte_at(place) {
            return Some(place);
        }
    }
    None
}

const LAYOUT: &[Step] = &[
    Step::Append(&[7, 8, 9], Ok(())),
    Step::Checkpoint(&[], Ok(())),
];

// The length of that journal, and where it has another byte.
fn laid_out(alloc: Global) -> Result<(usize, Option<usize>), LogFault> {
    let (mut disk, mut log) = new_journal(alloc, &[98, 97])?;
    let wrong = first_wrong(alloc, &mut disk, &mut log, LAYOUT);
    let length = disk.bytes().len();
    let other = first_other(disk.bytes());
    drop(disk);
    match wrong? {
        None => Ok((length, other)),
        Some(step) => Ok((step, None)),
    }
}

#[test]
fn layout_is_as_described(rt: HostRuntime) -> Result<(), Fail> {
    let (length, other) = laid_out(rt.alloc())?;
    assert!(rt; length == 1_052_683);
    all_right(&rt, "layout", other);
    Ok(())
}

// The old journal, the new one, none, or something else.
fn letter(found: Result<Shape, LogFault>, old: Shape, new: Shape) -> u8 {
    match found {
        Ok(found) => {
            if found == old {
                b'o'
            } else if found == new {
                b'n'
            } else {
                b'?'
            }
        }
        Err(LogFault::NotALog) => b'-',
        Err(_) => b'!',
    }
}

// What is found of that which a stop leaves.
fn left(alloc: Global, disk: &MemDisk, moment: u64, pick: Pick) -> Result<Shape, LogFault> {
    match disk.stop(alloc, moment, pick) {
        Ok(mut left) => {
            let found = found_in(alloc, &mut left);
            drop(left);
            found
        }
        Err(_) => Err(LogFault::DiskFault),
    }
}

// The first moment of those from one on at which a stop with the pick leaves something else.
fn first_left(
    alloc: Global,
    disk: &MemDisk,
    from: u64,
    shapes: (Shape, Shape),
    pick: Pick,
    want: &[u8],
) -> Option<usize> {
    let (old, new) = shapes;
    for (call, wanted) in want.iter().enumerate() {
        if *wanted == b' ' {
            continue;
        }
        let found = left(alloc, disk, from.saturating_add(call as u64), pick);
        if letter(found, old, new) != *wanted {
            return Some(call);
        }
    }
    None
}

// The name, what was done before, the call, what is found before and after it, and what is found of
// that which a stop before it and behind each of its disk calls leaves: where what is not synced is
// kept, lost, filled with 1, and filled with 0. A space stands where a stop leaves the bytes of one that
// is looked at: behind a sync those are kept that were before it, and before the next one all is lost.
struct Stops {
    name: &'static str,
    before: &'static [Step],
    call: Step,
    shapes: (Shape, Shape),
    kept: &'static [u8],
    lost: &'static [u8],
    ones: &'static [u8],
    zeros: &'static [u8],
}

const STOPS: &[Stops] = &[
    Stops {
        name: "format",
        before: &[Step::Append(b"abc", Ok(()))],
        call: Step::Format(b"12"),
        shapes: ((3, 1), (2, 0)),
        kept: b"o- -- n ",
        lost: b"  -  - n",
        ones: b" - -- n ",
        zeros: b" - -- - ",
    },
    Stops {
        name: "append",
        before: &[Step::Append(b"abc", Ok(()))],
        call: Step::Append(b"d", Ok(())),
        shapes: ((3, 1), (3, 2)),
        kept: b"oo n ",
        lost: b"  o n",
        ones: b" o n ",
        zeros: b" o o ",
    },
    Stops {
        name: "checkpoint of four calls",
        before: &[Step::Append(b"abc", Ok(()))],
        call: Step::Checkpoint(b"12", Ok(())),
        shapes: ((3, 1), (2, 0)),
        kept: b"oo n ",
        lost: b"  o n",
        ones: b" o n ",
        zeros: b" o o ",
    },
    Stops {
        name: "checkpoint of six calls",
        before: &[
            Step::Checkpoint(b"12", Ok(())),
            Step::Append(b"abc", Ok(())),
        ],
        call: Step::Checkpoint(b"3456", Ok(())),
        shapes: ((2, 1), (4, 0)),
        kept: b"oo o n ",
        lost: b"  o o n",
        ones: b" o o n ",
        zeros: b" o o o ",
    },
];

// The number of the first pick and call at which a stop of the disk leaves something else: 100 for
// each pick.
fn first_stop(alloc: Global, disk: &MemDisk, from: u64, stops: &Stops) -> Option<usize> {
    let rows = [
        (Pick::Kept, stops.kept),
        (Pick::Lost, stops.lost),
        (Pick::Filled(1), stops.ones),
        (Pick::Filled(0), stops.zeros),
    ];
    for (number, (pick, want)) in rows.iter().enumerate() {
        if let Some(call) = first_left(alloc, disk, from, stops.shapes, *pick, want) {
            return Some((100 * number).saturating_add(call));
        }
    }
    None
}

// The bytes of a new journal of these tables after these steps.
fn bytes_after(alloc: Global, tables: &[u8], steps: &[Step]) -> Result<Vec<u8>, LogFault> {
    let (mut disk, mut log) = new_journal(alloc, tables)?;
    let wrong = first_wrong(alloc, &mut disk, &mut log, steps);
    let content = disk.bytes().to_vec(alloc);
    drop(disk);
    match wrong? {
        None => Ok(content?),
        Some(_) => Err(LogFault::NotALog),
    }
}

// The same of the disk on which the call is made; and 1,000 where it answers something else or
// makes another number of calls.
fn stopped(alloc: Global, stops: &Stops) -> Result<Option<usize>, LogFault> {
    let content = bytes_after(alloc, b"one", stops.before)?;
    let mut disk = disk_of(alloc, &content, 0)?;
    let wrong = stopped_on(alloc, &mut disk, stops);
    drop(disk);
    wrong
}

fn stopped_on(alloc: Global, disk: &mut MemDisk, stops: &Stops) -> Result<Option<usize>, LogFault> {
    let (mut log, _) = Log::recover(alloc, disk)?;
    let from = disk.calls();
    let right = answers(alloc, disk, &mut log, &stops.call)?;
    let calls = disk.calls().saturating_sub(from);
    if !right || calls.saturating_add(1) != stops.kept.len() as u64 {
        return Ok(Some(1000));
    }
    Ok(first_stop(alloc, disk, from, stops))
}

#[test]
fn stops_leave_the_old_or_the_new(rt: HostRuntime) -> Result<(), Fail> {
    for stops in STOPS {
        all_right(&rt, stops.name, stopped(rt.alloc(), stops)?);
    }
    Ok(())
}

// The first half is older, with a table and two changes; the second half has two bytes of tables
// and a change. The journal ends behind its closed gate.
const TWO: &[Step] = &[
    Step::Append(b"a", Ok(())),
    Step::Append(b"b", Ok(())),
    Step::Checkpoint(b"88", Ok(())),
    Step::Append(b"c", Ok(())),
];

// The bytes of that journal.
fn both_open(alloc: Global) -> Result<Vec<u8>, LogFault> {
    bytes_after(alloc, b"9", TWO)
}

// Writes each byte at its place.
fn spoil(bytes: &mut [u8], edits: &[(usize, u8)]) {
    for (place, byte) in edits {
        if *place < bytes.len() {
            bytes[*place] = *byte;
        }
    }
}

// What is found in a journal after these edits, of which so many bytes are left.
fn found_of(
    alloc: Global,
    journal: &[u8],
    edits: &[(usize, u8)],
    length: usize,
) -> Result<Result<Shape, LogFault>, LogFault> {
    let mut content = journal.to_vec(alloc)?;
    spoil(&mut content, edits);
    content.truncate(length);
    let mut disk = disk_of(alloc, &content, 0)?;
    let found = found_in(alloc, &mut disk);
    drop(disk);
    Ok(found)
}

const WHOLE: usize = 1_052_691;

const OLDER: Result<Shape, LogFault> = Ok((1, 2));

const NEWER: Result<Shape, LogFault> = Ok((2, 1));

const NONE: Result<Shape, LogFault> = Err(LogFault::NotALog);

// The name, bytes and their places, how many bytes are left, and what is found.
type Spoilt = (
    &'static str,
    &'static [(usize, u8)],
    usize,
    Result<Shape, LogFault>,
);

// The serials of the first half and of the second one.
const SERIALS: &[Spoilt] = &[
    ("0 and 1", &[], WHOLE, NEWER),
    ("1 and 2", &[(4097, 1), (1_052_673, 2)], WHOLE, NEWER),
    ("2 and 0", &[(4097, 2), (1_052_673, 0)], WHOLE, NEWER),
    ("1 and 0", &[(4097, 1), (1_052_673, 0)], WHOLE, OLDER),
    ("2 and 1", &[(4097, 2)], WHOLE, OLDER),
    ("0 and 2", &[(1_052_673, 2)], WHOLE, OLDER),
    ("0 and 0", &[(1_052_673, 0)], WHOLE, NONE),
    ("1 and 1", &[(4097, 1)], WHOLE, NONE),
    ("2 and 2", &[(4097, 2), (1_052_673, 2)], WHOLE, NONE),
    ("2 and 3", &[(4097, 2), (1_052_673, 3)], WHOLE, NONE),
    ("3 and 1", &[(4097, 3)], WHOLE, NONE),
    ("255 and 0", &[(4097, 255), (1_052_673, 0)], WHOLE, NONE),
];

const GATES: &[Spoilt] = &[
    (
        "the older half closed",
        &[(4096, 0), (4097, 77)],
        WHOLE,
        NEWER,
    ),
    ("its gate 255", &[(4096, 255)], WHOLE, NEWER),
    ("the rest of it", &[(4098, 255)], WHOLE, NEWER),
    ("the newer half closed", &[(1_052_672, 2)], WHOLE, OLDER),
    ("both closed", &[(4096, 0), (1_052_672, 0)], WHOLE, NONE),
    ("one of serial 3", &[(4096, 0), (1_052_673, 3)], WHOLE, NONE),
    ("tables past the half", &[(1_052_674, 1)], WHOLE, NONE),
    ("a change past the half", &[(1_052_685, 1)], WHOLE, NONE),
    ("the last gate open", &[(1_052_690, 1)], WHOLE, NONE),
    ("the last gate 2", &[(1_052_690, 2)], WHOLE, NEWER),
];

const ENDS: &[Spoilt] = &[
    ("no last gate", &[], 1_052_690, NONE),
    ("no change", &[], 1_052_689, NONE),
    ("half a size", &[], 1_052_687, NONE),
    ("no size", &[], 1_052_685, NONE),
    ("no first gate", &[], 1_052_684, NONE),
    ("half the tables", &[], 1_052_683, NONE),
    ("half their length", &[], 1_052_677, NONE),
    ("no serial", &[], 1_052_673, NONE),
    ("no second half", &[], 1_052_672, NONE),
    ("a head block alone", &[], 4_096, NONE),
    ("no head gate", &[], 64, NONE),
    ("no byte", &[], 0, NONE),
];

const HEADS: &[Spoilt] = &[
    ("another sign", &[(7, 48)], WHOLE, NONE),
    ("0 blocks", &[(14, 0), (15, 0)], WHOLE, NONE),
    ("1 block", &[(14, 0), (15, 1)], WHOLE, NEWER),
    (
        "1,048,576 blocks",
        &[(13, 16), (14, 0), (15, 0)],
        WHOLE,
        NEWER,
    ),
    (
        "1,048,577 blocks",
        &[(13, 16), (14, 0), (15, 1)],
        WHOLE,
        NONE,
    ),
    ("no half", &[(21, 0)], WHOLE, NONE),
    ("a half of a byte more", &[(23, 1)], WHOLE, NONE),
    (
        "a half of a block less",
        &[(21, 15), (22, 240)],
        WHOLE,
        NONE,
    ),
    (
        "a half above the limit",
        &[(20, 4), (21, 0), (22, 16)],
        WHOLE,
        NONE,
    ),
    ("a byte behind the half", &[(24, 1)], WHOLE, NONE),
    ("a byte before the gate", &[(63, 1)], WHOLE, NONE),
    ("a closed gate", &[(64, 0)], WHOLE, NONE),
    ("a gate of 255", &[(64, 255)], WHOLE, NONE),
    ("a byte behind the gate", &[(65, 1)], WHOLE, NONE),
    ("the last byte", &[(4095, 1)], WHOLE, NONE),
];

const TABLES: &[&[Spoilt]] = &[SERIALS, GATES, ENDS, HEADS];

// The name of the first row that finds something else.
fn first_found(
    alloc: Global,
    journal: &[u8],
    rows: &[Spoilt],
) -> Result<Option<&'static str>, LogFault> {
    for (name, edits, length, want) in rows {
        if found_of(alloc, journal, edits, *length)? != *want {
            return Ok(Some(*name));
        }
    }
    Ok(None)
}

#[test]
fn other_bytes_are_another_journal_or_none(rt: HostRuntime) -> Result<(), Fail> {
    let journal = both_open(rt.alloc())?;
    for rows in TABLES {
        if let Some(name) = first_found(rt.alloc(), &journal, rows)? {
            assert!(rt; same(name.as_bytes(), b""), "{name}");
        }
    }
    Ok(())
}

// What opening the journal of two open halves and a call come to, where the call of the disk of
// that number fails, and what is then found.
fn fails_at(
    alloc: Global,
    journal: &[u8],
    failing: u64,
    step: &Step,
) -> Result<(Result<bool, LogFault>, Result<Shape, LogFault>), LogFault> {
    let mut disk = disk_of(alloc, journal, failing)?;
    let done = opened(alloc, &mut disk, step);
    let found = found_in(alloc, &mut disk);
    drop(disk);
    Ok((done, found))
}

// What the call answers once the journal is opened.
fn opened(alloc: Global, disk: &mut MemDisk, step: &Step) -> Result<bool, LogFault> {
    let (mut log, _) = Log::recover(alloc, disk)?;
    Ok(answers(alloc, disk, &mut log, step)?)
}

// The number of the first failing call at which the opening or the call says something else, or
// something else than the old journal or the new one is found.
fn first_failing(
    alloc: Global,
    step: &Step,
    calls: u64,
    new: Shape,
) -> Result<Option<u64>, LogFault> {
    let journal = both_open(alloc)?;
    for failing in 1..calls {
        let (done, found) = fails_at(alloc, &journal, failing, step)?;
        let says_so = done == Err(LogFault::DiskFault) || done == Ok(true);
        if !says_so || !(found == NEWER || found == Ok(new)) {
            return Ok(Some(failing));
        }
    }
    Ok(None)
}

#[test]
fn a_call_that_fails_keeps_the_journal(rt: HostRuntime) -> Result<(), Fail> {
    // An opening makes a sync and at least four reads, an append four calls, and this checkpoint
    // six.
    let append = Step::Append(b"d", Err(LogFault::DiskFault));
    let checkpoint = Step::Checkpoint(b"1234", Err(LogFault::DiskFault));
    assert!(rt; first_failing(rt.alloc(), &append, 10, (2, 2))? == None);
    assert!(rt; first_failing(rt.alloc(), &checkpoint, 12, (4, 0))? == None);
    Ok(())
}

// Whether a format of the journal fails where the call of that number does, and what is then found.
fn format_fails(
    alloc: Global,
    journal: &[u8],
    failing: u64,
) -> Result<(bool, Result<Shape, LogFault>), LogFault> {
    let mut disk = disk_of(alloc, journal, failing)?;
    let fails = Log::format(alloc, &mut disk, 1, HALF, b"123") == Err(LogFault::DiskFault);
    let found = found_in(alloc, &mut disk);
    drop(disk);
    Ok((fails, found))
}

#[test]
fn a_format_that_fails_says_so(rt: HostRuntime) -> Result<(), Fail> {
    let journal = both_open(rt.alloc())?;
    for failing in 1..8u64 {
        // The cut leaves the old journal, the last sync the new one.
        let want = match failing {
            1 => NEWER,
            7 => Ok((3, 0)),
            _ => NONE,
        };
        assert!(rt;
            format_fails(rt.alloc(), &journal, failing)? == (true, want),
            "at {failing}"
        );
    }
    Ok(())
}
