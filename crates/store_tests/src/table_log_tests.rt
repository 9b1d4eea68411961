// What no clause says of tables in a journal: that its calls succeed, how a half turns over, and
// which tables stops and other bytes leave.
ghost use Rattle.std.specs.Prelude.{◌≡◌, ◌+◌, ◌<◌, ◌^◌, length, IfOk};
ghost use Rattle.journal.specs.Log.{half_of};
ghost use Rattle.record_codec.specs.Codec.{IsChange};
ghost use Rattle.store_state.specs.Change.{Fits};
ghost use Rattle.table_codec.specs.Spelled.{state_text};
ghost use Rattle.table_codec.specs.Values.{IsEncodableState};

use disks::{Disk, MemDisk, Pick};
use journal::{BEFORE, Log, LogFault};
use record_codec::encoded_length;
use small_types::{Bytes, List, Room};
use std::alloc::{AllocError, Global};
use std::test::Fail;
use store_state::{Change, StoreState};
use table_codec::{decode_state, encoded_length_of_state};
use table_log::{OpenFault, OpenTables, Rooms, StepFault, format, make_durable, recover};

// The least length of a half.
const HALF: u64 = 1_048_576;

const ROOM: Room = Room {
    blocks: 258,
    half: HALF,
};

// Tables behind their boot number, up to the blocks of their one data file.
const FRONT: &[u8] = &[
    // The next numbers of views and leases, and no lease.
    0, 0, 0, 0, 0, 0, 0, 2, 0, 0, 0, 0, 0, 0, 0, 3, 0, 0, 0, 0,
    // One view: its number and its deployment.
    0, 0, 0, 1, 0, 0, 0, 0, 0, 0, 0, 1, 0, 0, 0, 1, 97, 0, 0, 0, 1, 116, 0, 0, 0, 1, 108, 0, 0, 0,
    1, 120, 0, 1, 0, 0, 0, 0, 0, 0, 0, 0, 0, 0, 1, 1, 0, 1, 0, 0, 0, 0, 0, 0, 0, 2, 0, 0, 0, 0, 0,
    0, 14, 16, 0, 0, 0, 0, 1, 109, 0, 0, 0, 1, 101, 0, 0, 0, 1, 116, 0, 0, 0, 1, 108, 0, 0, 0, 1,
    120, 0, 1, 0, 0, 0, 0, 0, 0, 0, 0, 0, 5, 119, 105, 110, 51, 50, 0, 0, 0, 0, 0, 0, 0, 3, 0, 0,
    0, 1, 0, 0, 0, 0, 20, 169, 153, 62, 54, 71, 6, 129, 106, 186, 62, 37, 113, 120, 80, 194, 108,
    156, 208, 216, 157,
    // Its application: a program file.
    0, 0, 0, 1, 101, 0, 0, 0, 1, 116, 0, 0, 0, 1, 108, 0, 0, 0, 1, 120, 0, 1, 0, 0, 0, 0, 0, 0, 0,
    0, 0, 5, 119, 105, 110, 51, 50, 0, 0, 0, 1, 102, 0, 0, 0, 0, 0, 0, 0, 1, 0, 0, 0, 1, 102, 0, 0,
    0, 0, 0, 0, 0, 3, 0, 0, 0, 1, 0, 0, 0, 0, 20, 169, 153, 62, 54, 71, 6, 129, 106, 186, 62, 37,
    113, 120, 80, 194, 108, 156, 208, 216, 157, 0, 0,
    // Its address, no group that stands, and the name of a data file.
    0, 0, 0, 1, 104, 0, 80, 0, 0, 0, 2, 47, 109, 0, 0, 0, 0, 0, 0, 0, 1, 0, 0, 0, 1, 101,
];

// And behind these blocks.
const BACK: &[u8] = &[
    // One application, whose view it is.
    0, 0, 0, 1, 0, 0, 0, 1, 97, 0, 0, 0, 1, 116, 0, 0, 0, 1, 108, 0, 0, 0, 1, 120, 1, 0, 0, 0, 1,
    104, 0, 80, 0, 0, 0, 2, 47, 97, 1, 0, 0, 0, 0, 0, 0, 0, 1, 0, 0, 0, 0, 0, 0, 0,
    // The content of its program file.
    0, 0, 0, 1, 0, 0, 0, 0, 0, 0, 0, 3, 0, 0, 0, 1, 0, 0, 0, 0, 20, 169, 153, 62, 54, 71, 6, 129,
    106, 186, 62, 37, 113, 120, 80, 194, 108, 156, 208, 216, 157, 0, 0, 0, 1, 0, 0, 0, 0,
];

// So long are the tables that a half has room for so many bytes beside them, or up to three more:
// for two entries of a boot number, of 14 bytes each, and not for three.
const LEFT: usize = 34;

// Tables of that boot number: their data file has as many blocks as are needed. Each of them is the
// block 0, since tables alone do not say that a block is held once.
fn text_of(alloc: Global, boot: u8) -> Result<Vec<u8>, AllocError> {
    let around = 11 + 8 + FRONT.len() + 12 + BACK.len() + LEFT;
    let blocks = (HALF as usize).saturating_sub(around) / 4;
    let [a, b, c, d] = (blocks as u32).to_be_bytes();
    let mut text = vec![in alloc; 0u8; 7]?;
    text.push(boot)?;
    text.extend_from_slice(FRONT)?;
    text.extend_from_slice(&[0, 0, 0, 0, a, b, c, d, a, b, c, d])?;
    let before = text.len();
    text.resize(before.saturating_add(blocks.saturating_mul(4)), 0)?;
    text.extend_from_slice(BACK)?;
    Ok(text)
}

// A disk of these bytes, whose call of the number `failing`, counted from 1, fails.
fn disk_of(alloc: Global, content: &[u8], failing: u64) -> Result<MemDisk, AllocError> {
    let failing = List::from_vec([failing].to_vec(alloc)?);
    Ok(MemDisk::new(alloc, Bytes::from_slice(alloc, content)?, failing))
}

// What a call came to.
#[derive(Clone, Copy, Debug, PartialEq, Eq)]
enum Said {
    // The boot number of the tables that it leaves.
    Boot(u64),
    NotTables,
    DiskFault,
    Other,
}

// What an opening finds, where the room is this one.
fn found(alloc: Global, disk: &mut MemDisk) -> Said {
    match recover(alloc, disk) {
        Ok(opened) => {
            let said = if opened.room == ROOM {
                Said::Boot(opened.state.boot)
            } else {
                Said::Other
            };
            drop(opened);
            said
        }
        Err(OpenFault::NotTables) => Said::NotTables,
        Err(OpenFault::DiskFault) => Said::DiskFault,
        Err(OpenFault::Memory) => Said::Other,
    }
}

// Makes the change durable, where it fits the tables and a half.
fn enter(
    log: &mut Log,
    alloc: Global,
    disk: &mut MemDisk,
    half: u64,
    state: &mut StoreState,
    change: Change,
) -> Said
    requires half { half ≡ half_of log.old }
    requires state { IsEncodableState state.old }
    requires short { length (state_text state.old) < 2 ^ 63 }
    requires change { IsChange change }
    requires fits { Fits state.old change }
{
    let room = encoded_length_of_state(state) + 16;
    let entry = encoded_length(&change);
    if half < room || half - room < entry {
        drop(change);
        return Said::Other;
    }
    let mut rooms = match Rooms::new(alloc, half) {
        Ok(rooms) => rooms,
        Err(AllocError) => {
            drop(change);
            return Said::Other;
        }
    };
    let made = make_durable(log, &mut rooms, alloc, disk, state, change);
    drop(rooms);
    match made {
        Ok(()) => Said::Boot(state.boot),
        Err(StepFault::DiskFault) => Said::DiskFault,
        Err(StepFault::Memory) => Said::Other,
    }
}

// Gives the tables another boot number.
fn boot_from(
    log: &mut Log,
    alloc: Global,
    disk: &mut MemDisk,
    half: u64,
    state: &mut StoreState,
    boot: u8,
) -> Said
    requires half { half ≡ half_of log.old }
    requires state { IsEncodableState state.old }
    requires short { length (state_text state.old) < 2 ^ 63 }
{
    let change = Change::Boot { boot: boot as u64 };
    match state.fits(alloc, &change) {
        Ok(true) => enter(log, alloc, disk, half, state, change),
        _ => {
            drop(change);
            Said::Other
        }
    }
}

// Opens the tables, whose boot number is one less, and makes it this one.
fn step(alloc: Global, disk: &mut MemDisk, boot: u8) -> Said {
    match recover(alloc, disk) {
        Err(OpenFault::DiskFault) => Said::DiskFault,
        Err(_) => Said::Other,
        Ok(opened) => step_in(alloc, disk, opened, boot),
    }
}

fn step_in(alloc: Global, disk: &mut MemDisk, opened: OpenTables, boot: u8) -> Said
    requires half { opened.room.half ≡ half_of opened.log }
{
    let OpenTables {
        mut log,
        room,
        state,
    } = opened;
    let was = state.boot;
    drop(state);
    if was.saturating_add(1) != boot as u64 {
        return Said::Other;
    }
    let Ok(text) = text_of(alloc, was as u8) else {
        return Said::Other;
    };
    match decode_state(alloc, &text) {
        Err(_) => Said::Other,
        Ok(mut state) => {
            let said = boot_from(&mut log, alloc, disk, room.half, &mut state, boot);
            drop(state);
            said
        }
    }
}

// The bytes of a new journal of these tables.
fn journal_of(alloc: Global, text: &[u8]) -> Result<Vec<u8>, LogFault> {
    let mut disk = disk_of(alloc, b"what stood before", 0)?;
    Log::format(alloc, &mut disk, 258, HALF, text)?;
    let content = disk.bytes().to_vec(alloc)?;
    drop(disk);
    Ok(content)
}

#[test]
fn a_new_journal_has_no_boot(rt: HostRuntime) -> Result<(), Fail> {
    let mut disk = disk_of(rt.alloc(), b"what stood before", 0)?;
    assert!(rt; format(rt.alloc(), &mut disk, ROOM) == Ok(()));
    assert!(rt; disk.calls() == 7);
    assert!(rt; found(rt.alloc(), &mut disk) == Said::Boot(0));
    Ok(())
}

// How many disk calls a step makes, and what a stop before them and behind each of them leaves: the
// old tables or the new ones, by what becomes of that which is not synced. A space stands where a stop
// leaves the bytes of one that is looked at: behind a sync those are kept that were before it, and
// before the next one all is lost.
struct Turn {
    calls: u64,
    left: &'static [(Pick, &'static [u8])],
}

// An append.
const FITS: Turn = Turn {
    calls: 4,
    left: &[],
};

// A checkpoint of four calls, and an append.
const TURNS: Turn = Turn {
    calls: 8,
    left: &[(Pick::Kept, b"oo o o n "), (Pick::Lost, b"  o o o n")],
};

// A checkpoint that closes a gate first, and an append.
const TURNS_BACK: Turn = Turn {
    calls: 10,
    left: &[
        (Pick::Kept, b"oo o o o n "),
        (Pick::Filled(1), b" o o o o n "),
    ],
};

// The steps of a journal: two entries fit behind the first tables, and two behind those of each
// checkpoint.
const STEPS: &[Turn] = &[FITS, FITS, TURNS, FITS, TURNS_BACK, FITS];

// What is found of that which a stop leaves.
fn left(alloc: Global, disk: &MemDisk, moment: u64, pick: Pick) -> Said {
    match disk.stop(alloc, moment, pick) {
        Ok(mut left) => {
            let said = found(alloc, &mut left);
            drop(left);
            said
        }
        Err(_) => Said::Other,
    }
}

// The first moment of those from one on at which a stop leaves something else.
fn first_left(
    alloc: Global,
    disk: &MemDisk,
    from: u64,
    boot: u8,
    pick: Pick,
    want: &[u8],
) -> Option<usize> {
    for (call, letter) in want.iter().enumerate() {
        if *letter == b' ' {
            continue;
        }
        let old = (boot as u64).saturating_sub(1);
        let wanted = if *letter == b'n' { boot as u64 } else { old };
        if left(alloc, disk, from.saturating_add(call as u64), pick) != Said::Boot(wanted) {
            return Some(call);
        }
    }
    None
}

// The number of the first pick and call at which a stop leaves something else: 100 for each pick.
fn first_stop(alloc: Global, disk: &MemDisk, from: u64, boot: u8, turn: &Turn) -> Option<usize> {
    for (number, (pick, want)) in turn.left.iter().enumerate() {
        if let Some(call) = first_left(alloc, disk, from, boot, *pick, want) {
            return Some((100 * (number % 100)).saturating_add(call));
        }
    }
    None
}

// Makes the step, and says where it is another one: 1,000 where it answers something else, and
// 2,000 where it makes another number of calls, beside the sync of the opening.
fn turned(alloc: Global, disk: &mut MemDisk, boot: u8, turn: &Turn) -> Option<usize> {
    let from = disk.calls().saturating_add(1);
    if step(alloc, disk, boot) != Said::Boot(boot as u64) {
        return Some(1000);
    }
    if disk.calls().saturating_sub(from) != turn.calls {
        return Some(2000);
    }
    first_stop(alloc, disk, from, boot, turn)
}

// The first step that is another one, and where.
fn first_turn(alloc: Global) -> Result<Option<(usize, usize)>, LogFault> {
    let mut content = journal_of(alloc, &text_of(alloc, 0)?)?;
    for (number, turn) in STEPS.iter().enumerate() {
        let mut disk = disk_of(alloc, &content, 0)?;
        let wrong = turned(alloc, &mut disk, (number as u8).saturating_add(1), turn);
        content = disk.bytes().to_vec(alloc)?;
        drop(disk);
        if let Some(place) = wrong {
            return Ok(Some((number, place)));
        }
    }
    Ok(None)
}

#[test]
fn a_half_turns_over(rt: HostRuntime) -> Result<(), Fail> {
    let wrong = first_turn(rt.alloc())?;
    assert!(rt; wrong == None);
    Ok(())
}

// The bytes of the journal before its first turn.
fn full_half(alloc: Global) -> Result<Vec<u8>, LogFault> {
    let content = journal_of(alloc, &text_of(alloc, 0)?)?;
    let mut disk = disk_of(alloc, &content, 0)?;
    let first = step(alloc, &mut disk, 1);
    let second = step(alloc, &mut disk, 2);
    let content = disk.bytes().to_vec(alloc);
    drop(disk);
    if first == Said::Boot(1) && second == Said::Boot(2) {
        Ok(content?)
    } else {
        Err(LogFault::NotALog)
    }
}

// The number of the first failing call at which a step with a checkpoint says something else, or
// something else than the old tables or the new ones is found.
fn first_failing(alloc: Global) -> Result<Option<u64>, LogFault> {
    let content = full_half(alloc)?;
    for failing in 1..24 {
        let mut disk = disk_of(alloc, &content, failing)?;
        let done = step(alloc, &mut disk, 3);
        let after = found(alloc, &mut disk);
        drop(disk);
        let says_so = done == Said::DiskFault || done == Said::Boot(3);
        let is_one = after == Said::Boot(2) || after == Said::Boot(3);
        if !says_so || !is_one {
            return Ok(Some(failing));
        }
    }
    Ok(None)
}

#[test]
fn a_call_that_fails_keeps_the_tables(rt: HostRuntime) -> Result<(), Fail> {
    let wrong = first_failing(rt.alloc())?;
    assert!(rt; wrong == None);
    Ok(())
}

// The tables of the empty store.
const EMPTY: &[u8] = &[
    0, 0, 0, 0, 0, 0, 0, 0, 0, 0, 0, 0, 0, 0, 0, 1, 0, 0, 0, 0, 0, 0, 0, 1, 0, 0, 0, 0, 0, 0, 0, 0,
    0, 0, 0, 0, 0, 0, 0, 0,
];

// A piece with room for the log's bytes around the change.
fn piece_of(alloc: Global, change: &[u8]) -> Result<Vec<u8>, AllocError>
    ensures { IfOk result (λ piece. length piece.items ≡ 5 + length change.now + 1) }
{
    let mut piece = vec![in alloc; 0u8; BEFORE]?;
    piece.extend_from_slice(change)?;
    piece.push(0)?;
    Ok(piece)
}

// Adds an entry, where it is not empty.
fn append(alloc: Global, disk: &mut MemDisk, change: &[u8]) -> Result<(), LogFault> {
    if change.is_empty() {
        return Ok(());
    }
    let (mut log, _) = Log::recover(alloc, disk)?;
    let mut piece = piece_of(alloc, change)?;
    log.append(disk, &mut piece)
}

// What is found in a journal of these tables and of this entry, where it is not empty.
fn found_of(alloc: Global, text: &[u8], change: &[u8]) -> Result<Said, LogFault> {
    let content = journal_of(alloc, text)?;
    let mut disk = disk_of(alloc, &content, 0)?;
    let done = append(alloc, &mut disk, change);
    let said = found(alloc, &mut disk);
    drop(disk);
    done?;
    Ok(said)
}

// The name, the tables, an entry, and what is found.
type Row = (&'static str, &'static [u8], &'static [u8], Said);

const ROWS: &[Row] = &[
    ("empty tables", EMPTY, &[], Said::Boot(0)),
    ("a boot", EMPTY, &[0, 0, 0, 0, 0, 0, 0, 0, 7], Said::Boot(7)),
    ("a clean", EMPTY, &[12], Said::Boot(0)),
    ("no tables", &[], &[], Said::NotTables),
    ("half of them", &[0, 0, 0, 0], &[], Said::NotTables),
    ("no change", EMPTY, &[13], Said::NotTables),
    ("half a boot", EMPTY, &[0, 0, 0], Said::NotTables),
    (
        "a lease that is not there",
        EMPTY,
        &[8, 0, 0, 0, 0, 0, 0, 0, 1],
        Said::NotTables,
    ),
];

// The name of the first row that finds something else.
fn first_found(alloc: Global) -> Result<Option<&'static str>, LogFault> {
    for (name, text, change, want) in ROWS {
        if found_of(alloc, text, change)? != *want {
            return Ok(Some(*name));
        }
    }
    Ok(None)
}

#[test]
fn texts_are_made_or_are_no_tables(rt: HostRuntime) -> Result<(), Fail> {
    if let Some(name) = first_found(rt.alloc())? {
        assert!(rt; name.is_empty(), "{name}");
    }
    let mut disk = disk_of(rt.alloc(), b"no journal", 0)?;
    assert!(rt; found(rt.alloc(), &mut disk) == Said::NotTables);
    Ok(())
}
