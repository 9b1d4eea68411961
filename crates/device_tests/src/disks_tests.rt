// What no clause says of disks in memory: that calls succeed, and worked values.
use crate::made::{all_right, bytes, numbers, same};
use disks::{Disk, MemDisk, Pick, StopFault};
use outside::Failed;
use std::alloc::{AllocError, Global};
use std::test::Fail;

// A call of a disk and what it answers, or what the disk then has.
#[derive(Drop)]
enum Step {
    Length(Result<u64, Failed>),
    Read(u64, Result<(usize, [u8; 4]), Failed>),
    Write(u64, &'static [u8], Result<(), Failed>),
    Cut(u64, Result<(), Failed>),
    Sync(Result<(), Failed>),
    Bytes(&'static [u8]),
    // The calls of changes and syncs, the bytes that they were handed, and all faults.
    Counts(u64, u64, u64),
    // What a stop after so many calls leaves.
    Left(u64, Pick, &'static [u8]),
    // So many calls have not been.
    TooLate(u64, StopFault),
}

fn read_at(disk: &mut MemDisk, place: u64) -> Result<(usize, [u8; 4]), Failed> {
    let mut buf = *b"....";
    let n = disk.read(place, &mut buf)?;
    Ok((n, buf))
}

fn leaves(alloc: Global, disk: &MemDisk, moment: u64, pick: Pick, want: &[u8]) -> bool {
    match disk.stop(alloc, moment, pick) {
        Ok(left) => same(left.bytes(), want),
        Err(_) => false,
    }
}

fn is_refused(alloc: Global, disk: &MemDisk, moment: u64, want: StopFault) -> bool {
    match disk.stop(alloc, moment, Pick::Kept) {
        Ok(_) => false,
        Err(fault) => fault == want,
    }
}

// Whether the step answers what it is to.
fn answers(alloc: Global, disk: &mut MemDisk, step: &Step) -> bool {
    match step {
        Step::Length(want) => disk.length() == *want,
        Step::Read(place, want) => read_at(disk, *place) == *want,
        Step::Write(place, piece, want) => disk.write_at(*place, piece) == *want,
        Step::Cut(length, want) => {
            *length as usize <= disk.bytes().len() && disk.cut(*length) == *want
        }
        Step::Sync(want) => disk.sync() == *want,
        Step::Bytes(want) => same(disk.bytes(), want),
        Step::Counts(calls, written, faults) => {
            disk.calls() == *calls
                && disk.written() == *written
                && disk.faults() == *faults
                && disk.starved() == 0
        }
        Step::Left(moment, pick, want) => leaves(alloc, disk, *moment, *pick, want),
        Step::TooLate(moment, want) => is_refused(alloc, disk, *moment, *want),
    }
}

// The number of the first step that answers something else.
fn first_wrong(alloc: Global, disk: &mut MemDisk, steps: &[Step]) -> Option<usize> {
    for (number, step) in steps.iter().enumerate() {
        if !answers(alloc, disk, step) {
            return Some(number);
        }
    }
    None
}

// The same of a disk that begins with those bytes, where the calls with those numbers fail.
fn begin_and_go(
    alloc: Global,
    begin: &[u8],
    failing: &[u64],
    steps: &[Step],
) -> Result<Option<usize>, AllocError> {
    let mut disk = MemDisk::new(alloc, bytes(alloc, begin)?, numbers(alloc, failing)?);
    let wrong = first_wrong(alloc, &mut disk, steps);
    drop(disk);
    Ok(wrong)
}

const WORKS: &[Step] = &[
    Step::Length(Ok(3)),
    Step::Write(5, b"xyz", Ok(())),
    Step::Bytes(b"abc\0\0xyz"),
    Step::Length(Ok(8)),
    Step::Read(2, Ok((4, *b"c\0\0x"))),
    Step::Read(6, Ok((2, *b"yz.."))),
    Step::Read(8, Ok((0, *b"...."))),
    Step::Read(u64::MAX, Ok((0, *b"...."))),
    Step::Write(1, b"BC0", Ok(())),
    Step::Bytes(b"aBC0\0xyz"),
    Step::Write(9, b"", Ok(())),
    Step::Bytes(b"aBC0\0xyz\0"),
    Step::Write(u64::MAX, b"z", Err(Failed)),
    Step::Counts(4, 7, 1),
];

const FAILS: &[Step] = &[
    Step::Length(Err(Failed)),
    Step::Length(Ok(3)),
    Step::Read(0, Err(Failed)),
    Step::Read(0, Ok((3, *b"abc."))),
    Step::Write(0, b"ABCD", Err(Failed)),
    Step::Bytes(b"abc"),
    Step::Write(0, b"AB", Ok(())),
    Step::Sync(Err(Failed)),
    Step::Sync(Ok(())),
    Step::Bytes(b"ABc"),
    Step::Cut(1, Err(Failed)),
    Step::Bytes(b"ABc"),
    Step::Counts(5, 6, 5),
];

const STOPS: &[Step] = &[
    Step::Write(1, b"XY", Ok(())),
    Step::Sync(Ok(())),
    Step::Write(6, b"Z", Ok(())),
    Step::Cut(3, Ok(())),
    Step::Sync(Ok(())),
    Step::Write(2, b"QQ", Err(Failed)),
    Step::Left(0, Pick::Kept, b"abcd"),
    Step::Left(1, Pick::Kept, b"aXYd"),
    Step::Left(2, Pick::Kept, b"aXYd"),
    Step::Left(3, Pick::Kept, b"aXYd\0\0Z"),
    Step::Left(4, Pick::Kept, b"aXY"),
    Step::Left(5, Pick::Kept, b"aXY"),
    Step::Left(6, Pick::Kept, b"aXY"),
    Step::Left(0, Pick::Lost, b"abcd"),
    Step::Left(1, Pick::Lost, b"abcd"),
    Step::Left(2, Pick::Lost, b"aXYd"),
    Step::Left(3, Pick::Lost, b"aXYd"),
    Step::Left(4, Pick::Lost, b"aXYd"),
    Step::Left(5, Pick::Lost, b"aXY"),
    Step::Left(6, Pick::Lost, b"aXY"),
    Step::Left(0, Pick::Filled(b'#'), b"abcd"),
    Step::Left(1, Pick::Filled(b'#'), b"a##d"),
    Step::Left(2, Pick::Filled(b'#'), b"aXYd"),
    Step::Left(3, Pick::Filled(b'#'), b"aXYd###"),
    Step::Left(4, Pick::Filled(b'#'), b"aXY####"),
    Step::Left(5, Pick::Filled(b'#'), b"aXY"),
    Step::Left(6, Pick::Filled(b'#'), b"aX##"),
    Step::TooLate(7, StopFault::LaterThanNow { calls: 6 }),
];

// The name, the bytes at the beginning, the calls that fail, and the steps.
type Case = (&'static str, &'static [u8], &'static [u64], &'static [Step]);

const CASES: &[Case] = &[
    ("works", b"abc", &[], WORKS),
    ("fails", b"abc", &[1, 3, 5, 7, 9], FAILS),
    ("stops", b"abcd", &[6], STOPS),
];

#[test]
fn disk_answers_step_by_step(rt: HostRuntime) -> Result<(), Fail> {
    for (name, begin, failing, steps) in CASES {
        all_right(&rt, name, begin_and_go(rt.alloc(), begin, failing, steps)?);
    }
    Ok(())
}

const LEFT: &[Step] = &[
    Step::Counts(0, 0, 0),
    Step::Left(0, Pick::Lost, b"ac"),
    Step::Write(0, b"d", Ok(())),
    Step::Left(1, Pick::Lost, b"ac"),
    Step::Left(1, Pick::Kept, b"dc"),
];

// Whether a stop of the disk behind its first write leaves one that answers those steps.
fn leaves_synced(alloc: Global, disk: &mut MemDisk) -> bool {
    if disk.write_at(1, b"c").is_err() {
        return false;
    }
    match disk.stop(alloc, 1, Pick::Kept) {
        Ok(mut left) => {
            let wrong = first_wrong(alloc, &mut left, LEFT);
            drop(left);
            wrong.is_none()
        }
        Err(_) => false,
    }
}

// The same of a new disk, which keeps what it has.
fn is_left(alloc: Global) -> Result<bool, AllocError> {
    let mut disk = MemDisk::new(alloc, bytes(alloc, b"ab")?, numbers(alloc, &[])?);
    let left = leaves_synced(alloc, &mut disk) && same(disk.bytes(), b"ac");
    drop(disk);
    Ok(left)
}

#[test]
fn a_stopped_disk_begins_synced(rt: HostRuntime) -> Result<(), Fail> {
    assert!(rt; is_left(rt.alloc())?);
    Ok(())
}
