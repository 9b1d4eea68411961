// Tables as bytes, by encodings that were written from the format.
ghost use Rattle.std.specs.Prelude.{◌<◌, ◌^◌, length};
ghost use Rattle.table_codec.specs.Spelled.{state_text};
ghost use Rattle.table_codec.specs.Values.{IsEncodableState};

use record_fields::CodecFault;
use std::alloc::{AllocError, Global};
use std::test::Fail;
use store_state::StoreState;
use table_codec::{decode_state, encode_state, encoded_length_of_state};

// The tables of the empty store.
pub(crate) const EMPTY: &[u8] = &[
    0, 0, 0, 0, 0, 0, 0, 0, 0, 0, 0, 0, 0, 0, 0, 1, 0, 0, 0, 0, 0, 0, 0, 1, 0, 0, 0, 0, 0, 0, 0, 0,
    0, 0, 0, 0, 0, 0, 0, 0,
];

// Tables with leases, a view, applications and a content. The content lies in the block 0, and a data
// file in the block 1.
pub(crate) const FULL: &[u8] = &[
    // The boot number, and the next numbers of views and leases.
    0, 0, 0, 0, 0, 0, 0, 5, 0, 0, 0, 0, 0, 0, 0, 2, 0, 0, 0, 0, 0, 0, 0, 3,
    // Two leases, on the view.
    0, 0, 0, 2, 0, 0, 0, 0, 0, 0, 0, 1, 0, 0, 0, 0, 0, 0, 0, 1, 0, 0, 0, 0, 0, 0, 0, 2, 0, 0, 0, 0,
    0, 0, 0, 1,
    // One view: its number and its deployment.
    0, 0, 0, 1, 0, 0, 0, 0, 0, 0, 0, 1, 0, 0, 0, 1, 97, 0, 0, 0, 1, 116, 0, 0, 0, 1, 108, 0, 0, 0,
    1, 120, 0, 1, 0, 0, 0, 0, 0, 0, 0, 0, 0, 0, 1, 1, 0, 1, 0, 0, 0, 0, 0, 0, 0, 2, 0, 0, 0, 0, 0,
    0, 14, 16, 0, 0, 0, 0, 1, 109, 0, 0, 0, 1, 101, 0, 0, 0, 1, 116, 0, 0, 0, 1, 108, 0, 0, 0, 1,
    120, 0, 1, 0, 0, 0, 0, 0, 0, 0, 0, 0, 5, 119, 105, 110, 51, 50, 0, 0, 0, 0, 0, 0, 0, 3, 0, 0,
    0, 1, 0, 0, 0, 0, 20, 169, 153, 62, 54, 71, 6, 129, 106, 186, 62, 37, 113, 120, 80, 194, 108,
    156, 208, 216, 157,
    // Its application: a program file, one of a group, and a data file.
    0, 0, 0, 1, 101, 0, 0, 0, 1, 116, 0, 0, 0, 1, 108, 0, 0, 0, 1, 120, 0, 1, 0, 0, 0, 0, 0, 0, 0,
    0, 0, 5, 119, 105, 110, 51, 50, 0, 0, 0, 1, 102, 0, 0, 0, 0, 0, 0, 0, 3, 0, 0, 0, 1, 102, 0, 0,
    0, 0, 0, 0, 0, 3, 0, 0, 0, 1, 0, 0, 0, 0, 20, 169, 153, 62, 54, 71, 6, 129, 106, 186, 62, 37,
    113, 120, 80, 194, 108, 156, 208, 216, 157, 0, 0, 0, 0, 0, 1, 103, 0, 0, 0, 0, 0, 0, 0, 3, 0,
    0, 0, 1, 0, 0, 0, 0, 20, 169, 153, 62, 54, 71, 6, 129, 106, 186, 62, 37, 113, 120, 80, 194,
    108, 156, 208, 216, 157, 1, 0, 0, 0, 1, 104, 0, 0, 0, 0, 1, 100, 0, 0, 0, 0, 0, 0, 0, 3, 0, 0,
    0, 1, 0, 0, 0, 0, 20, 169, 153, 62, 54, 71, 6, 129, 106, 186, 62, 37, 113, 120, 80, 194, 108,
    156, 208, 216, 157, 0, 1,
    // Its address, the group that stands, and two data files.
    0, 0, 0, 1, 104, 0, 80, 0, 0, 0, 2, 47, 109, 0, 0, 0, 1, 0, 0, 0, 1, 104, 0, 0, 0, 2, 0, 0, 0,
    1, 100, 0, 0, 0, 0, 0, 0, 0, 3, 0, 0, 0, 1, 0, 0, 0, 1, 0, 0, 0, 1, 101, 0, 0, 0, 0, 0, 0, 0,
    0, 0, 0, 0, 0,
    // Two applications: one with a current view and an offer, and one with a minimum alone.
    0, 0, 0, 2, 0, 0, 0, 1, 97, 0, 0, 0, 1, 116, 0, 0, 0, 1, 108, 0, 0, 0, 1, 120, 1, 0, 0, 0, 1,
    104, 0, 80, 0, 0, 0, 2, 47, 97, 1, 0, 0, 0, 0, 0, 0, 0, 1, 0, 1, 0, 1, 0, 0, 0, 0, 0, 0, 1, 0,
    2, 0, 0, 0, 0, 0, 0, 0, 0, 1, 0, 0, 0, 0, 0, 0, 0, 7, 1, 0, 0, 0, 1, 98, 0, 0, 0, 1, 116, 0, 0,
    0, 1, 108, 0, 0, 0, 1, 120, 0, 0, 0, 1, 0, 3, 0, 0, 0, 0, 0, 0, 0, 0, 0, 0, 0,
    // The content of the program files that stand.
    0, 0, 0, 1, 0, 0, 0, 0, 0, 0, 0, 3, 0, 0, 0, 1, 0, 0, 0, 0, 20, 169, 153, 62, 54, 71, 6, 129,
    106, 186, 62, 37, 113, 120, 80, 194, 108, 156, 208, 216, 157, 0, 0, 0, 1, 0, 0, 0, 0,
];

// What bytes were read as.
#[derive(Clone, Copy, Debug, PartialEq, Eq)]
enum Said {
    // Tables that are written as they were read.
    Same,
    Bad(u64),
    Other,
}

fn same(a: &[u8], b: &[u8]) -> bool {
    a == b
}

fn are_sevens(bytes: &[u8]) -> bool {
    for byte in bytes {
        if *byte != 7 {
            return false;
        }
    }
    true
}

// Whether the tables are written as that, into a buffer whose other bytes stay.
fn writes(state: &StoreState, wanted: &[u8]) -> bool
    requires state { IsEncodableState state.now }
    requires short { length (state_text state.now) < 2 ^ 63 }
{
    let length = encoded_length_of_state(state);
    if length > 1_024 || length != wanted.len() as u64 {
        return false;
    }
    let mut out = [7; 1_024];
    let written = encode_state(state, &mut out);
    written == wanted.len() && same(&out[..written], wanted) && are_sevens(&out[written..])
}

// Reads the bytes. It promises nothing, so that what a test asks is tried and not proved.
fn read(alloc: Global, bytes: &[u8]) -> Said {
    match decode_state(alloc, bytes) {
        Ok(state) => {
            let is_same = writes(&state, bytes);
            drop(state);
            if is_same { Said::Same } else { Said::Other }
        }
        Err(CodecFault::Bad { place }) => Said::Bad(place),
        Err(CodecFault::Memory) => Said::Other,
    }
}

#[test]
fn tables_are_written_as_they_are_read(rt: HostRuntime) {
    for (number, bytes) in [EMPTY, FULL].iter().enumerate() {
        assert!(rt; read(rt.alloc(), bytes) == Said::Same, "case {number}");
    }
}

fn is_bad(said: Said) -> bool {
    match said {
        Said::Bad(_) => true,
        Said::Same | Said::Other => false,
    }
}

#[test]
fn tables_that_are_cut_are_none(rt: HostRuntime) {
    for length in 0..FULL.len() {
        assert!(rt; is_bad(read(rt.alloc(), &FULL[..length])), "after {length}");
    }
}

// The tables with a byte more behind them.
fn with_more(alloc: Global) -> Result<Said, AllocError> {
    let mut other = Vec::from_slice(alloc, FULL)?;
    other.push(0)?;
    Ok(read(alloc, &other))
}

#[test]
fn a_byte_too_many_is_found(rt: HostRuntime) -> Result<(), Fail> {
    let said = with_more(rt.alloc())?;
    assert!(rt; said == Said::Bad(619));
    Ok(())
}

// Tables in which one byte is another, and where that is found: where it stands if the bytes are no
// encoding, and at the end if they encode what is no tables.
const CHANGED: &[(usize, u8, u64)] = &[
    // No third truth value, option and rule.
    (104, 2, 104),
    (346, 2, 346),
    (532, 2, 532),
    (105, 2, 105),
    (115, 3, 115),
    // 1,026 leases are too many, and 1,025 views.
    (26, 4, 24),
    (62, 4, 60),
    // The view has no number below the next one, and the leases do not rise.
    (15, 1, 619),
    (51, 1, 619),
    // Data files and applications are out of order.
    (421, b'f', 619),
    (463, b'c', 619),
    // The content is of no program file.
    (581, 4, 619),
    // The content has no second block, and not as many as may be counted.
    (614, 2, 619),
    (611, 1, 619),
];

fn with_byte(alloc: Global, place: usize, byte: u8) -> Result<Said, AllocError> {
    let mut other = Vec::from_slice(alloc, FULL)?;
    if other.len() <= place {
        return Ok(Said::Other);
    }
    other[place] = byte;
    Ok(read(alloc, &other))
}

#[test]
fn tables_with_another_byte_are_none(rt: HostRuntime) -> Result<(), Fail> {
    for (number, (place, byte, found)) in CHANGED.iter().enumerate() {
        let said = with_byte(rt.alloc(), *place, *byte)?;
        assert!(rt; said == Said::Bad(*found), "case {number}");
    }
    Ok(())
}

// The tables whose content has other blocks: their number and themselves.
fn with_blocks(alloc: Global, blocks: &[u8]) -> Result<Said, AllocError> {
    let mut other = Vec::from_slice(alloc, &FULL[..611])?;
    other.extend_from_slice(blocks)?;
    Ok(read(alloc, &other))
}

// The blocks of a content, and what the tables are then. They do not say whether its blocks are as
// many as its size needs.
const BLOCKS: &[(&[u8], Said)] = &[
    (&[0, 0, 0, 0], Said::Same),
    (&[0, 0, 0, 2, 0, 0, 0, 5, 0, 0, 0, 5], Said::Same),
    (&[0, 0, 0, 1, 255, 255, 255, 255], Said::Same),
    (&[0, 0, 0, 1, 0, 0, 0], Said::Bad(615)),
    (&[0, 0, 0], Said::Bad(611)),
];

#[test]
fn a_content_has_any_blocks(rt: HostRuntime) -> Result<(), Fail> {
    for (number, (blocks, wanted)) in BLOCKS.iter().enumerate() {
        let said = with_blocks(rt.alloc(), blocks)?;
        assert!(rt; said == *wanted, "case {number}");
    }
    Ok(())
}

// The tables with 16,385 groups in the view: one has a letter, and the others are empty texts.
fn with_groups(alloc: Global) -> Result<Vec<u8>, AllocError> {
    let mut other = Vec::from_slice(alloc, &FULL[..404])?;
    other.extend_from_slice(&[0, 0, 64, 1])?;
    other.extend_from_slice(&FULL[408..413])?;
    for _ in 0..16_384 {
        other.extend_from_slice(&[0, 0, 0, 0])?;
    }
    other.extend_from_slice(&FULL[413..])?;
    Ok(other)
}

// Whether the bytes are tables, which are written as they were read. It promises nothing.
fn is_written_again(alloc: Global, bytes: &[u8]) -> Result<bool, AllocError> {
    match decode_state(alloc, bytes) {
        Ok(state) => {
            let mut out = vec![in alloc; 0; bytes.len()]?;
            let length = encode_state(&state, &mut out);
            drop(state);
            Ok(length == bytes.len() && same(&out, bytes))
        }
        Err(_) => Ok(false),
    }
}

#[test]
fn a_view_has_more_groups_than_files_may_be_listed(rt: HostRuntime) -> Result<(), Fail> {
    let bytes = with_groups(rt.alloc())?;
    let is_same = is_written_again(rt.alloc(), &bytes)?;
    drop(bytes);
    assert!(rt; is_same);
    Ok(())
}
