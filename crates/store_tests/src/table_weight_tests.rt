// How much tables weigh, by sums that were made by hand from the weights of things.
use crate::table_codec_tests::{EMPTY, FULL};
use identity::Key;
use machine::BLOCK_WEIGHT;
use small_types::{Duplicate, Name, Text};
use std::alloc::{AllocError, Global};
use std::test::Fail;
use store_state::{StoreState, View};
use table_codec::decode_state;
use table_weight::{
    WeightFault, weight, weight_with_data, weight_with_group, weight_with_key, weight_with_release,
};

// The full tables but for their two blocks: 131,072 of all tables; 263 and 260 of the applications;
// 1,535 of the view's release and 17 of its group; 25 of each of two data files, of which one is
// empty; and 96 of the content.
const FULL_WEIGHT: u64 = 133_293;

fn weighed(alloc: Global, bytes: &[u8]) -> Option<u64> {
    match decode_state(alloc, bytes) {
        Ok(state) => {
            let total = weight(&state);
            drop(state);
            Some(total)
        }
        Err(_) => None,
    }
}

#[test]
fn tables_weigh_the_sum_of_their_parts(rt: HostRuntime) {
    for (bytes, wanted) in [(EMPTY, 131_072), (FULL, FULL_WEIGHT + 2 * BLOCK_WEIGHT)] {
        assert!(rt; weighed(rt.alloc(), bytes) == Some(wanted), "{wanted}");
    }
}

// ---- a key

fn with_key(alloc: Global, key: &Key) -> Option<u64> {
    match decode_state(alloc, FULL) {
        Ok(state) => {
            let total = weight_with_key(&state, key);
            drop(state);
            Some(total)
        }
        Err(_) => None,
    }
}

#[test]
fn a_new_key_weighs(rt: HostRuntime) -> Result<(), Fail> {
    for (word, more) in [("a,t,l,x", 0), ("name,t,l,x", 263)] {
        let key = Key::read(rt.alloc(), word.as_bytes())?;
        let total = with_key(rt.alloc(), &key);
        assert!(rt;
            total == Some(FULL_WEIGHT + 2 * BLOCK_WEIGHT + more),
            "{word}"
        );
    }
    Ok(())
}

// ---- a data file

fn with_data(alloc: Global, number: u64, name: &Name, length: u64) -> Option<u64> {
    match decode_state(alloc, FULL) {
        Ok(state) => {
            let total = weight_with_data(&state, number, name, length);
            drop(state);
            Some(total)
        }
        Err(_) => None,
    }
}

#[test]
fn a_data_file_takes_the_place_of_one(rt: HostRuntime) -> Result<(), Fail> {
    // The one of the name had a block, and no view has the number nine.
    for (number, name, length, more, blocks) in [
        (1, "d", 4_097, 0, 3),
        (1, "new", 1, 27, 3),
        (9, "new", 1, 0, 2),
    ] {
        let name = Name::read(rt.alloc(), name.as_bytes())?;
        let total = with_data(rt.alloc(), number, &name, length);
        assert!(rt;
            total == Some(FULL_WEIGHT + more + blocks * BLOCK_WEIGHT),
            "{length}"
        );
    }
    Ok(())
}

// ---- a group

// The byte at that place of the full tables, where the group does not stand and its file has a
// content of its own.
fn without_group(place: usize, byte: u8) -> Option<u8> {
    match place {
        339 => Some(158),
        404..=407 => Some(0),
        408..=412 => None,
        _ => Some(byte),
    }
}

fn ungrouped(alloc: Global) -> Result<Vec<u8>, AllocError> {
    let mut bytes = Vec::new(alloc);
    for (place, byte) in FULL.iter().enumerate() {
        if let Some(byte) = without_group(place, *byte) {
            bytes.extend_from_slice(&[byte])?;
        }
    }
    Ok(bytes)
}

// What the tables weigh once the group stands in the view, whose second file is the one of it.
fn grown(alloc: Global, state: &StoreState, view: &View, group: &Text) -> Option<u64> {
    let entry = view.application.files.as_slice().get(1)?;
    let Ok(mut entry) = entry.copy(alloc) else {
        return None;
    };
    entry.group = None;
    let total = weight_with_group(state, view, group, &[entry], &[0]);
    Some(total)
}

fn with_group(alloc: Global, bytes: &[u8], group: &Text) -> Option<u64> {
    match decode_state(alloc, bytes) {
        Ok(state) => {
            let total = match state.view(1) {
                Some(view) => grown(alloc, &state, view, group),
                None => None,
            };
            drop(state);
            total
        }
        Err(_) => None,
    }
}

#[test]
fn a_group_weighs_with_its_contents(rt: HostRuntime) -> Result<(), Fail> {
    let bytes = ungrouped(rt.alloc())?;
    let group = Text::from_string(format!(in rt.alloc(); "h")?);
    let total = with_group(rt.alloc(), &bytes, &group);
    assert!(rt; total == Some(FULL_WEIGHT + 96 + 3 * BLOCK_WEIGHT));
    Ok(())
}

// ---- a release

// What tables weigh once the release of the first view of others is installed, of which the files
// at the places are wanted.
fn with_release(
    alloc: Global,
    state: &StoreState,
    others: &StoreState,
    places: &[usize],
) -> Option<u64> {
    let view = others.view(1)?;
    let (d, a) = (&view.deployment, &view.application);
    match weight_with_release(alloc, state, &view.base, &view.base, d, a, places) {
        Ok(total) => Some(total),
        Err(WeightFault::Memory) => None,
    }
}

fn over(alloc: Global, others: &StoreState, bytes: &[u8], places: &[usize]) -> Option<u64> {
    match decode_state(alloc, bytes) {
        Ok(state) => {
            let total = with_release(alloc, &state, others, places);
            drop(state);
            total
        }
        Err(_) => None,
    }
}

fn released(alloc: Global, bytes: &[u8], places: &[usize]) -> Option<u64> {
    match decode_state(alloc, FULL) {
        Ok(others) => {
            let total = over(alloc, &others, bytes, places);
            drop(others);
            total
        }
        Err(_) => None,
    }
}

#[test]
fn a_release_weighs_with_its_files(rt: HostRuntime) {
    // In the full tables the data files stay and the program file is held. In the empty ones an
    // application of 263 comes, a data file of 25 and a content of 96.
    let full = FULL_WEIGHT + 1_535 + 50 + 3 * BLOCK_WEIGHT;
    let empty = 131_072 + 263 + 1_535 + 25 + 96 + 2 * BLOCK_WEIGHT;
    assert!(rt; released(rt.alloc(), FULL, &[2]) == Some(full));
    assert!(rt; released(rt.alloc(), EMPTY, &[0, 2]) == Some(empty));
}
