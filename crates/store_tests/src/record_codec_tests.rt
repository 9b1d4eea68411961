// Tests of changes as bytes.
ghost use Rattle.identity.specs.Key.{IsKey};
ghost use Rattle.record_codec.specs.Codec.{IsChange};

use identity::{Key, Version};
use record_codec::{decode_change, encode_change, encoded_length};
use record_fields::CodecFault;
use std::alloc::{AllocError, Global};
use std::test::Fail;
use store_state::{Change, Content};

const BOOT_ONE: &[u8] = &[0, 0, 0, 0, 0, 0, 0, 0, 1];

const REQUIRE: &[u8] = &[
    1, 0, 0, 0, 1, b'n', 0, 0, 0, 1, b't', 0, 0, 0, 1, b'l', 0, 0, 0, 1, b'a', 0, 1, 0, 2, 0, 3, 0,
    4,
];

// With no minimum, and with one.
const HEARD: &[u8] = &[
    3, 0, 0, 0, 1, b'n', 0, 0, 0, 1, b't', 0, 0, 0, 1, b'l', 0, 0, 0, 1, b'a', 0, 1, 0, 2, 0, 3, 0,
    4, 0, 0, 0, 0, 0, 0, 0, 1, 2,
];

const HEARD_MINIMUM: &[u8] = &[
    3, 0, 0, 0, 1, b'n', 0, 0, 0, 1, b't', 0, 0, 0, 1, b'l', 0, 0, 0, 1, b'a', 0, 1, 0, 2, 0, 3, 0,
    4, 1, 0, 5, 0, 6, 0, 7, 0, 8, 1, 2, 3, 4, 5, 6, 7, 8,
];

const UNHEARD: &[u8] = &[
    4, 0, 0, 0, 1, b'n', 0, 0, 0, 1, b't', 0, 0, 0, 1, b'l', 0, 0, 0, 1, b'a',
];

const SKIP: &[u8] = &[5, 0, 0, 1, 2];

const ROLLBACK: &[u8] = &[6, 0, 0, 1, 2];

const CLEAN: &[u8] = &[12];

// With no content, and with one that has one SHA-1 and one block.
const GROUP: &[u8] = &[
    9, 1, 2, 3, 4, 5, 6, 7, 8, 0, 0, 0, 4, b'h', b'e', b'l', b'p', 0, 0, 0, 0,
];

const GROUP_CONTENT: &[u8] = &[
    9, 0, 0, 0, 0, 0, 0, 0, 1, 0, 0, 0, 1, b'g', 0, 0, 0, 1, 0, 0, 0, 0, 0, 0, 0, 3, 0, 0, 0, 1, 0,
    0, 0, 0, 20, 0xa9, 0x99, 0x3e, 0x36, 0x47, 0x06, 0x81, 0x6a, 0xba, 0x3e, 0x25, 0x71, 0x78,
    0x50, 0xc2, 0x6c, 0x9c, 0xd0, 0xd8, 0x9d, 0, 0, 0, 1, 0, 0, 1, 2,
];

// An empty one, and one of three bytes in a folder, which has a block.
const PUT_EMPTY: &[u8] = &[
    10, 0, 0, 0, 0, 0, 0, 0, 1, 0, 0, 0, 1, b'd', 0, 0, 0, 0, 0, 0, 0, 0, 0, 0, 0, 0,
];

const PUT: &[u8] = &[
    10, 1, 2, 3, 4, 5, 6, 7, 8, 0, 0, 0, 7, b'd', b'/', b'a', b'.', b'd', b'a', b't', 0, 0, 0, 0,
    0, 0, 0, 3, 0, 0, 0, 1, 255, 255, 255, 255,
];

// Below `.pre`, which is a name like any other.
const REMOVE: &[u8] = &[
    11, 1, 2, 3, 4, 5, 6, 7, 8, 0, 0, 0, 6, b'.', b'p', b'r', b'e', b'/', b'a',
];

#[tactic(auto, using(machine::proofs::Shortness::short_key))]
fn requirement(key: Key) -> Change
    requires { IsKey key }
    ensures { IsChange result }
{
    let version = Version {
        a: 1,
        b: 2,
        c: 3,
        d: 4,
    };
    Change::Require { key, version }
}

// What bytes were read as, in short: of a key how many bytes its parts have.
#[derive(Clone, Copy, Debug, PartialEq, Eq)]
enum Said {
    Boot(u64),
    // The first and the last number of the version.
    Require(u16, u16, [usize; 4]),
    Heard([usize; 4], [u16; 4], Option<[u16; 4]>, u64),
    Unheard([usize; 4]),
    Skip(u32),
    Rollback(u32),
    Launch(u32),
    Finish(u64),
    // The view, how many bytes the group has, how many contents, and how many blocks the first has.
    Group(u64, usize, [usize; 2]),
    // The view, how many bytes the name has, the length, and how many blocks there are.
    Put(u64, usize, u64, usize),
    // The view, and how many bytes the name has.
    Remove(u64, usize),
    Clean,
    Bad(u64),
    Other,
}

fn parts(key: &Key) -> [usize; 4] {
    [
        key.name.as_bytes().len(),
        key.token.as_bytes().len(),
        key.language.as_bytes().len(),
        key.architecture.as_bytes().len(),
    ]
}

fn numbers(version: &Version) -> [u16; 4] {
    [version.a, version.b, version.c, version.d]
}

fn least_numbers(minimum: &Option<Version>) -> Option<[u16; 4]> {
    match minimum {
        Some(version) => Some(numbers(version)),
        None => None,
    }
}

fn short_form(change: &Change) -> Said {
    match change {
        Change::Boot { boot } => Said::Boot(*boot),
        Change::Require { key, version } => Said::Require(version.a, version.d, parts(key)),
        Change::Install { .. } => Said::Other,
        Change::Heard {
            key,
            version,
            minimum,
            now,
        } => Said::Heard(parts(key), numbers(version), least_numbers(minimum), *now),
        Change::Unheard { key } => Said::Unheard(parts(key)),
        Change::Skip { app } => Said::Skip(*app),
        Change::Rollback { app } => Said::Rollback(*app),
        Change::Launch { app } => Said::Launch(*app),
        Change::Finish { lease } => Said::Finish(*lease),
        Change::Group {
            view,
            group,
            contents,
        } => Said::Group(*view, group.as_bytes().len(), sizes(contents.as_slice())),
        Change::Put { view, file } => Said::Put(
            *view,
            file.name.as_bytes().len(),
            file.length,
            file.held.as_slice().len(),
        ),
        Change::Remove { view, name } => Said::Remove(*view, name.as_bytes().len()),
        Change::Clean => Said::Clean,
    }
}

// How many there are, and how many blocks the first has.
fn sizes(contents: &[Content]) -> [usize; 2] {
    match contents {
        [] => [0, 0],
        [first, ..] => [contents.len(), first.held.as_slice().len()],
    }
}

// Reads the bytes. It promises nothing, so that what a test asks is tried and not proved.
fn read(alloc: Global, bytes: &[u8]) -> Said {
    match decode_change(alloc, bytes) {
        Ok(change) => {
            let said = short_form(&change);
            drop(change);
            said
        }
        Err(CodecFault::Bad { place }) => Said::Bad(place),
        Err(CodecFault::Memory) => Said::Other,
    }
}

fn same(a: &[u8], b: &[u8]) -> bool {
    a == b
}

fn are_sevens(bytes: &[u8]) -> bool {
    for byte in bytes {
        if *byte != 7 {
            return false;
        }
    }
    true
}

// Whether the change is written as that, into a buffer whose other bytes stay.
fn writes(change: &Change, wanted: &[u8]) -> bool
    requires { IsChange change.now }
{
    let length = encoded_length(change);
    if length > 64 || length != wanted.len() as u64 {
        return false;
    }
    let mut out = [7; 64];
    let written = encode_change(change, &mut out);
    written == wanted.len() && same(&out[..written], wanted) && are_sevens(&out[written..])
}

#[test]
fn a_change_of_one_number_is_written(rt: HostRuntime) {
    assert!(rt; writes(&Change::Boot { boot: 1 }, BOOT_ONE));
}

#[test]
fn a_requirement_is_written(rt: HostRuntime) -> Result<(), Fail> {
    let key = Key::read(rt.alloc(), b"n,t,l,a")?;
    let change = requirement(key);
    let is_written = writes(&change, REQUIRE);
    drop(change);
    assert!(rt; is_written);
    Ok(())
}

// Reads a change, and tells whether it is written as it was read.
fn writes_back(alloc: Global, bytes: &[u8]) -> bool {
    match decode_change(alloc, bytes) {
        Ok(change) => {
            let is_written = writes(&change, bytes);
            drop(change);
            is_written
        }
        Err(_) => false,
    }
}

const WRITTEN: &[&[u8]] = &[
    BOOT_ONE,
    REQUIRE,
    HEARD,
    HEARD_MINIMUM,
    UNHEARD,
    SKIP,
    ROLLBACK,
    GROUP,
    GROUP_CONTENT,
    PUT_EMPTY,
    PUT,
    REMOVE,
    CLEAN,
];

#[test]
fn changes_are_written_as_they_are_read(rt: HostRuntime) {
    for (number, bytes) in WRITTEN.iter().enumerate() {
        assert!(rt; writes_back(rt.alloc(), bytes), "case {number}");
    }
}

// Bytes, and what they are read as.
const READ: &[(&[u8], Said)] = &[
    (BOOT_ONE, Said::Boot(1)),
    (
        &[0, 1, 2, 3, 4, 5, 6, 7, 8],
        Said::Boot(0x0102_0304_0506_0708),
    ),
    (HEARD, Said::Heard([1, 1, 1, 1], [1, 2, 3, 4], None, 258)),
    (
        HEARD_MINIMUM,
        Said::Heard(
            [1, 1, 1, 1],
            [1, 2, 3, 4],
            Some([5, 6, 7, 8]),
            0x0102_0304_0506_0708,
        ),
    ),
    (UNHEARD, Said::Unheard([1, 1, 1, 1])),
    (SKIP, Said::Skip(258)),
    (ROLLBACK, Said::Rollback(258)),
    (&[7, 0, 0, 1, 2], Said::Launch(258)),
    (
        &[8, 1, 2, 3, 4, 5, 6, 7, 8],
        Said::Finish(0x0102_0304_0506_0708),
    ),
    (GROUP, Said::Group(0x0102_0304_0506_0708, 4, [0, 0])),
    (GROUP_CONTENT, Said::Group(1, 1, [1, 1])),
    (PUT_EMPTY, Said::Put(1, 1, 0, 0)),
    (PUT, Said::Put(0x0102_0304_0506_0708, 7, 3, 1)),
    (REMOVE, Said::Remove(0x0102_0304_0506_0708, 6)),
    (CLEAN, Said::Clean),
    (REQUIRE, Said::Require(1, 4, [1, 1, 1, 1])),
    // Parts may be empty.
    (
        &[
            1, 0, 0, 0, 0, 0, 0, 0, 0, 0, 0, 0, 0, 0, 0, 0, 0, 0, 0, 0, 0, 0, 0, 0, 9,
        ],
        Said::Require(0, 9, [0, 0, 0, 0]),
    ),
    (
        &[4, 0, 0, 0, 0, 0, 0, 0, 0, 0, 0, 0, 0, 0, 0, 0, 0],
        Said::Unheard([0, 0, 0, 0]),
    ),
    // So may a group.
    (
        &[9, 0, 0, 0, 0, 0, 0, 0, 1, 0, 0, 0, 0, 0, 0, 0, 0],
        Said::Group(1, 0, [0, 0]),
    ),
    // These are the numbers of no kind.
    (&[], Said::Bad(0)),
    (&[13], Said::Bad(0)),
    (&[13, 0, 0, 1, 2], Said::Bad(0)),
    (&[255], Said::Bad(0)),
    // It ends too soon.
    (&[0], Said::Bad(1)),
    (&[2], Said::Bad(1)),
    (&[3], Said::Bad(1)),
    (&[4], Said::Bad(1)),
    (&[5, 0, 0, 1], Said::Bad(1)),
    (&[6, 0, 0, 1], Said::Bad(1)),
    (&[7, 0, 0, 1], Said::Bad(1)),
    (&[9], Said::Bad(1)),
    (&[10], Said::Bad(1)),
    (&[11], Said::Bad(1)),
    // A byte is left over.
    (&[0, 0, 0, 0, 0, 0, 0, 0, 1, 0], Said::Bad(9)),
    (&[5, 0, 0, 1, 2, 0], Said::Bad(5)),
    (&[6, 0, 0, 1, 2, 0], Said::Bad(5)),
    (&[12, 0], Said::Bad(1)),
    // The name, or the group, is no UTF-8.
    (&[1, 0, 0, 0, 1, 0xff, 0, 0, 0, 1, b't'], Said::Bad(1)),
    (
        &[9, 0, 0, 0, 0, 0, 0, 0, 1, 0, 0, 0, 1, 0xff, 0, 0, 0, 0],
        Said::Bad(9),
    ),
    // The name of a data file is none that a file may have.
    (
        &[11, 0, 0, 0, 0, 0, 0, 0, 1, 0, 0, 0, 2, b'.', b'.'],
        Said::Bad(9),
    ),
    (&[11, 0, 0, 0, 0, 0, 0, 0, 1, 0, 0, 0, 0], Said::Bad(9)),
    // There are 16,384 contents, of which the first is missing, and one too many.
    (
        &[9, 0, 0, 0, 0, 0, 0, 0, 1, 0, 0, 0, 1, b'g', 0, 0, 64, 0],
        Said::Bad(18),
    ),
    (
        &[9, 0, 0, 0, 0, 0, 0, 0, 1, 0, 0, 0, 1, b'g', 0, 0, 64, 1],
        Said::Bad(14),
    ),
];

#[test]
fn changes_are_read(rt: HostRuntime) {
    for (number, (bytes, wanted)) in READ.iter().enumerate() {
        assert!(rt; read(rt.alloc(), bytes) == *wanted, "case {number}");
    }
}

// Changes that are cut after so many bytes, and where that is found.
const CUT: &[(&[u8], usize, u64)] = &[
    (BOOT_ONE, 8, 1),
    (REQUIRE, 1, 1),
    (REQUIRE, 5, 1),
    (REQUIRE, 20, 16),
    (REQUIRE, 28, 27),
    (HEARD, 5, 1),
    (HEARD, 29, 29),
    (HEARD, 37, 30),
    (HEARD_MINIMUM, 30, 30),
    (HEARD_MINIMUM, 37, 36),
    (HEARD_MINIMUM, 45, 38),
    (UNHEARD, 20, 16),
    (GROUP, 8, 1),
    (GROUP, 16, 9),
    (GROUP, 20, 17),
    (GROUP_CONTENT, 18, 18),
    (GROUP_CONTENT, 54, 31),
    (GROUP_CONTENT, 58, 55),
    (GROUP_CONTENT, 59, 59),
    (GROUP_CONTENT, 62, 59),
    (PUT, 8, 1),
    (PUT, 19, 9),
    (PUT, 27, 20),
    (PUT, 31, 28),
    (PUT, 35, 32),
    (REMOVE, 8, 1),
    (REMOVE, 18, 9),
];

fn is_cut(alloc: Global, bytes: &[u8], length: usize, place: u64) -> bool {
    length <= bytes.len() && read(alloc, &bytes[..length]) == Said::Bad(place)
}

#[test]
fn a_change_that_is_cut_is_none(rt: HostRuntime) {
    for (bytes, length, place) in CUT {
        assert!(rt;
            is_cut(rt.alloc(), bytes, *length, *place),
            "after {length}"
        );
    }
}

// Encodings in which one byte is another, and where that is found.
const CHANGED: &[(&[u8], usize, u8, u64)] = &[
    (HEARD, 0, 13, 0),
    // No third kind of option, and no fifth algorithm.
    (HEARD, 29, 2, 29),
    (GROUP_CONTENT, 30, 4, 30),
    // A second content is missing.
    (GROUP_CONTENT, 17, 2, 63),
    // A byte is left over.
    (HEARD_MINIMUM, 29, 0, 38),
    (GROUP_CONTENT, 58, 0, 59),
    (PUT, 31, 0, 32),
    // A second block is missing.
    (GROUP_CONTENT, 58, 2, 63),
    (PUT, 31, 2, 36),
    (REMOVE, 12, 4, 17),
    // Each is read as its own kind alone.
    (PUT, 0, 11, 20),
    (REMOVE, 0, 10, 19),
];

fn is_changed(
    alloc: Global,
    bytes: &[u8],
    place: usize,
    byte: u8,
    found: u64,
) -> Result<bool, AllocError> {
    let mut other = Vec::from_slice(alloc, bytes)?;
    if other.len() <= place {
        return Ok(false);
    }
    other[place] = byte;
    Ok(read(alloc, &other) == Said::Bad(found))
}

#[test]
fn a_change_with_another_byte_is_none(rt: HostRuntime) -> Result<(), Fail> {
    for (number, (bytes, place, byte, found)) in CHANGED.iter().enumerate() {
        let is_found = is_changed(rt.alloc(), bytes, *place, *byte, *found)?;
        assert!(rt; is_found, "case {number}");
    }
    Ok(())
}

// The encoding of a key with a token of that many bytes.
fn with_token(alloc: Global, length: u8) -> Result<Vec<u8>, AllocError> {
    let mut bytes = Vec::from_slice(alloc, &[1, 0, 0, 0, 1, b'n', 0, 0, 0, length])?;
    for _ in 0..length {
        bytes.push(b't')?;
    }
    bytes.extend_from_slice(&[0, 0, 0, 1, b'l', 0, 0, 0, 1, b'a', 0, 1, 0, 2, 0, 3, 0, 4])?;
    Ok(bytes)
}

// A group of that many bytes, with no content.
fn with_group(alloc: Global, length: u8) -> Result<Vec<u8>, AllocError> {
    let mut bytes = Vec::from_slice(alloc, &[9, 0, 0, 0, 0, 0, 0, 0, 1, 0, 0, 0, length])?;
    for _ in 0..length {
        bytes.push(b'g')?;
    }
    bytes.extend_from_slice(&[0, 0, 0, 0])?;
    Ok(bytes)
}

#[test]
fn parts_have_limits(rt: HostRuntime) -> Result<(), Fail> {
    let table = [(64, Said::Require(1, 4, [1, 64, 1, 1])), (65, Said::Bad(6))];
    for (length, wanted) in table {
        let bytes = with_token(rt.alloc(), length)?;
        assert!(rt; read(rt.alloc(), &bytes) == wanted, "{length}");
    }
    Ok(())
}

#[test]
fn groups_have_a_limit(rt: HostRuntime) -> Result<(), Fail> {
    let table = [(240, Said::Group(1, 240, [0, 0])), (241, Said::Bad(9))];
    for (length, wanted) in table {
        let bytes = with_group(rt.alloc(), length)?;
        assert!(rt; read(rt.alloc(), &bytes) == wanted, "{length}");
    }
    Ok(())
}
