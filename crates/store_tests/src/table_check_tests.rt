// Which tables show a store within its order and its limits, and which disks have all bytes of their
// files, by encodings of tables.
use crate::table_codec_tests::{EMPTY, FULL};
use small_types::Room;
use std::alloc::{AllocError, Global};
use std::test::Fail;
use store_state::StoreState;
use table_check::{has_files, is_measured, is_ordered};
use table_codec::decode_state;

// Whether the tables are ordered that the bytes encode.
fn ordered(alloc: Global, bytes: &[u8]) -> Option<bool> {
    match decode_state(alloc, bytes) {
        Ok(state) => {
            let answer = is_ordered(&state);
            drop(state);
            Some(answer)
        }
        Err(_) => None,
    }
}

// The bytes with another one at that place.
fn with_byte(alloc: Global, bytes: &[u8], place: usize, byte: u8) -> Result<Vec<u8>, AllocError> {
    let mut changed = Vec::from_slice(alloc, bytes)?;
    if place < changed.len() {
        changed[place] = byte;
    }
    Ok(changed)
}

#[test]
fn tables_of_an_ordered_store_are_told(rt: HostRuntime) {
    for bytes in [EMPTY, FULL] {
        assert!(rt; ordered(rt.alloc(), bytes) == Some(true));
    }
}

// A boot number over its limit, a lease of a view that is gone, a view of an application that has
// no current one, and a current view that is gone.
const WRONG: &[(usize, u8)] = &[(0, 0x80), (59, 2), (76, b'b'), (501, 0)];

#[test]
fn other_tables_are_told(rt: HostRuntime) -> Result<(), Fail> {
    for (place, byte) in WRONG {
        let bytes = with_byte(rt.alloc(), FULL, *place, *byte)?;
        assert!(rt; ordered(rt.alloc(), &bytes) == Some(false), "at {place}");
    }
    Ok(())
}

// ---- as many blocks as files need, on a disk that has all their bytes

// The full tables take the room of two blocks. Their content has 3 bytes in the block 0, and their
// data file has 3 in the block 1.
const ROOM: Room = Room {
    blocks: 2,
    half: 1_048_576,
};

// What stands before the blocks: the head and two halves.
const START: u64 = 2_101_248;

// Whether each file has as many blocks as it needs, and then whether a disk of so many bytes has all
// of them.
fn has(alloc: Global, bytes: &[u8], disk_length: u64) -> Option<(bool, bool)> {
    match decode_state(alloc, bytes) {
        Ok(state) => {
            let measured = is_measured(&state);
            let answer = if measured {
                has_files(&state, ROOM, disk_length)
            } else {
                false
            };
            drop(state);
            Some((measured, answer))
        }
        Err(_) => None,
    }
}

// So long a disk has all bytes of the full tables, or not.
const ENDS: &[(u64, bool)] = &[
    (0, false),
    (START, false),
    (START + 3, false),
    (START + 4_098, false),
    (START + 4_099, true),
    (START + 8_192, true),
];

#[test]
fn files_end_within_the_disk(rt: HostRuntime) {
    assert!(rt; has(rt.alloc(), EMPTY, 0) == Some((true, true)));
    for (length, wanted) in ENDS {
        assert!(rt;
            has(rt.alloc(), FULL, *length) == Some((true, *wanted)),
            "{length}"
        );
    }
}

// The size of the content and the length of a data file of the full tables, in their last two bytes,
// and whether each has as many blocks as it needs and so long a disk has all of them.
const SIZES: &[(usize, u8, u8, u64, (bool, bool))] = &[
    (428, 0, 0, START + 8_192, (false, false)),
    (428, 16, 0, START + 8_191, (true, false)),
    (428, 16, 0, START + 8_192, (true, true)),
    (428, 16, 1, START + 8_193, (false, false)),
    // The empty data file has no block, and gets a byte.
    (449, 0, 1, START + 8_192, (false, false)),
];

#[test]
fn files_have_as_many_blocks_as_they_need(rt: HostRuntime) -> Result<(), Fail> {
    for (number, (place, high, low, length, wanted)) in SIZES.iter().enumerate() {
        let bytes = with_byte(rt.alloc(), FULL, *place, *high)?;
        let bytes = with_byte(rt.alloc(), &bytes, place.saturating_add(1), *low)?;
        assert!(rt;
            has(rt.alloc(), &bytes, *length) == Some(*wanted),
            "case {number}"
        );
    }
    Ok(())
}
