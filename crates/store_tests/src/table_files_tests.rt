// What tables hold for their files, and what changes let go, by tables that were written from the
// format.
ghost use Rattle.store_state.specs.Change.{Fits};

use small_types::{List, Name};
use std::alloc::{AllocError, Global};
use std::test::Fail;
use store_state::{Change, LocalFile, StateFault, StoreState};
use table_changes::make;
use table_codec::decode_state;
use table_files::{brought, freed, held, lets_go};

// Tables of two views that share a content. The first one is in no use.
const TABLES: &[u8] = &[
    // The boot number, the next numbers of views and leases, and no lease.
    0, 0, 0, 0, 0, 0, 0, 0, 0, 0, 0, 0, 0, 0, 0, 3, 0, 0, 0, 0, 0, 0, 0, 1, 0, 0, 0, 0,
    // Two views. The first one: its number and its deployment.
    0, 0, 0, 2, 0, 0, 0, 0, 0, 0, 0, 1, 0, 0, 0, 1, 97, 0, 0, 0, 1, 116, 0, 0, 0, 1, 108, 0, 0, 0,
    1, 120, 0, 1, 0, 0, 0, 0, 0, 0, 0, 0, 0, 0, 1, 1, 0, 1, 0, 0, 0, 0, 0, 0, 0, 2, 0, 0, 0, 0, 0,
    0, 14, 16, 0, 0, 0, 0, 1, 109, 0, 0, 0, 1, 101, 0, 0, 0, 1, 116, 0, 0, 0, 1, 108, 0, 0, 0, 1,
    120, 0, 1, 0, 0, 0, 0, 0, 0, 0, 0, 0, 5, 119, 105, 110, 51, 50, 0, 0, 0, 0, 0, 0, 0, 3, 0, 0,
    0, 1, 0, 0, 0, 0, 20, 169, 153, 62, 54, 71, 6, 129, 106, 186, 62, 37, 113, 120, 80, 194, 108,
    156, 208, 216, 157,
    // Its application: two program files.
    0, 0, 0, 1, 101, 0, 0, 0, 1, 116, 0, 0, 0, 1, 108, 0, 0, 0, 1, 120, 0, 1, 0, 0, 0, 0, 0, 0, 0,
    0, 0, 5, 119, 105, 110, 51, 50, 0, 0, 0, 1, 102, 0, 0, 0, 0, 0, 0, 0, 2, 0, 0, 0, 1, 102, 0, 0,
    0, 0, 0, 0, 0, 3, 0, 0, 0, 1, 0, 0, 0, 0, 20, 169, 153, 62, 54, 71, 6, 129, 106, 186, 62, 37,
    113, 120, 80, 194, 108, 156, 208, 216, 157, 0, 0, 0, 0, 0, 1, 103, 0, 0, 0, 0, 0, 0, 0, 1, 0,
    0, 0, 1, 0, 0, 0, 0, 20, 169, 153, 62, 54, 71, 6, 129, 106, 186, 62, 37, 113, 120, 80, 194,
    108, 156, 208, 216, 157, 0, 0,
    // Its address, no group that stands, and a data file.
    0, 0, 0, 1, 104, 0, 80, 0, 0, 0, 2, 47, 109, 0, 0, 0, 0, 0, 0, 0, 1, 0, 0, 0, 1, 100, 0, 0, 0,
    0, 0, 0, 32, 0, 0, 0, 0, 2, 0, 0, 0, 5, 0, 0, 0, 3,
    // The second view: its number and its deployment.
    0, 0, 0, 0, 0, 0, 0, 2, 0, 0, 0, 1, 97, 0, 0, 0, 1, 116, 0, 0, 0, 1, 108, 0, 0, 0, 1, 120, 0,
    1, 0, 0, 0, 0, 0, 0, 0, 0, 0, 0, 1, 1, 0, 1, 0, 0, 0, 0, 0, 0, 0, 2, 0, 0, 0, 0, 0, 0, 14, 16,
    0, 0, 0, 0, 1, 109, 0, 0, 0, 1, 101, 0, 0, 0, 1, 116, 0, 0, 0, 1, 108, 0, 0, 0, 1, 120, 0, 1,
    0, 0, 0, 0, 0, 0, 0, 0, 0, 5, 119, 105, 110, 51, 50, 0, 0, 0, 0, 0, 0, 0, 3, 0, 0, 0, 1, 0, 0,
    0, 0, 20, 169, 153, 62, 54, 71, 6, 129, 106, 186, 62, 37, 113, 120, 80, 194, 108, 156, 208,
    216, 157,
    // Its application: the first file is that of the first view, and the other one is not.
    0, 0, 0, 1, 101, 0, 0, 0, 1, 116, 0, 0, 0, 1, 108, 0, 0, 0, 1, 120, 0, 1, 0, 0, 0, 0, 0, 0, 0,
    0, 0, 5, 119, 105, 110, 51, 50, 0, 0, 0, 1, 102, 0, 0, 0, 0, 0, 0, 0, 2, 0, 0, 0, 1, 102, 0, 0,
    0, 0, 0, 0, 0, 3, 0, 0, 0, 1, 0, 0, 0, 0, 20, 169, 153, 62, 54, 71, 6, 129, 106, 186, 62, 37,
    113, 120, 80, 194, 108, 156, 208, 216, 157, 0, 0, 0, 0, 0, 1, 104, 0, 0, 0, 0, 0, 0, 0, 1, 0,
    0, 0, 1, 0, 0, 0, 0, 20, 169, 153, 62, 54, 71, 6, 129, 106, 186, 62, 37, 113, 120, 80, 194,
    108, 156, 208, 216, 158, 0, 0,
    // Its address, no group that stands, and two data files.
    0, 0, 0, 1, 104, 0, 80, 0, 0, 0, 2, 47, 109, 0, 0, 0, 0, 0, 0, 0, 2, 0, 0, 0, 1, 100, 0, 0, 0,
    0, 0, 0, 16, 1, 0, 0, 0, 2, 0, 0, 0, 4, 0, 0, 0, 7, 0, 0, 0, 1, 101, 0, 0, 0, 0, 0, 0, 0, 1, 0,
    0, 0, 1, 0, 0, 0, 6,
    // One application, whose current view is the second one.
    0, 0, 0, 1, 0, 0, 0, 1, 97, 0, 0, 0, 1, 116, 0, 0, 0, 1, 108, 0, 0, 0, 1, 120, 1, 0, 0, 0, 1,
    104, 0, 80, 0, 0, 0, 2, 47, 97, 1, 0, 0, 0, 0, 0, 0, 0, 2, 0, 0, 0, 0, 0, 0, 0,
    // Three contents.
    0, 0, 0, 3, 0, 0, 0, 0, 0, 0, 0, 3, 0, 0, 0, 1, 0, 0, 0, 0, 20, 169, 153, 62, 54, 71, 6, 129,
    106, 186, 62, 37, 113, 120, 80, 194, 108, 156, 208, 216, 157, 0, 0, 0, 1, 0, 0, 0, 0, 0, 0, 0,
    0, 0, 0, 0, 1, 0, 0, 0, 1, 0, 0, 0, 0, 20, 169, 153, 62, 54, 71, 6, 129, 106, 186, 62, 37, 113,
    120, 80, 194, 108, 156, 208, 216, 157, 0, 0, 0, 1, 0, 0, 0, 1, 0, 0, 0, 0, 0, 0, 0, 1, 0, 0, 0,
    1, 0, 0, 0, 0, 20, 169, 153, 62, 54, 71, 6, 129, 106, 186, 62, 37, 113, 120, 80, 194, 108, 156,
    208, 216, 158, 0, 0, 0, 1, 0, 0, 0, 2,
];

// What is done to the tables.
#[derive(Clone, Copy, Debug)]
enum Act {
    Boot,
    // The view of that number gets a data file of that name, in these blocks.
    Put(u64, &'static str, &'static [u32]),
    // It loses the one of that name.
    Remove(u64, &'static str),
    Clean,
}

// A change, whether it may let something go, what it brings and lets go, and what is held then.
struct Step {
    act: Act,
    lets_go: bool,
    brought: &'static [u32],
    freed: &'static [u32],
    held: &'static [u32],
}

// The contents lie in the blocks 0, 1 and 2, and the views share the first. The data files are one of
// the first view, in the blocks 5 and 3, and two of the second one, in the blocks 4 and 7 and in 6.
const STEPS: &[Step] = &[
    Step {
        act: Act::Boot,
        lets_go: false,
        brought: &[],
        freed: &[],
        held: &[0, 1, 2, 5, 3, 4, 7, 6],
    },
    // It takes the place of one.
    Step {
        act: Act::Put(2, "d", &[9, 8]),
        lets_go: true,
        brought: &[9, 8],
        freed: &[4, 7],
        held: &[0, 1, 2, 5, 3, 9, 8, 6],
    },
    // It takes the place of none, as one of its name stands in the other view alone.
    Step {
        act: Act::Put(1, "e", &[9, 8]),
        lets_go: true,
        brought: &[9, 8],
        freed: &[],
        held: &[0, 1, 2, 5, 3, 9, 8, 4, 7, 6],
    },
    Step {
        act: Act::Remove(2, "d"),
        lets_go: true,
        brought: &[],
        freed: &[4, 7],
        held: &[0, 1, 2, 5, 3, 6],
    },
    Step {
        act: Act::Remove(1, "d"),
        lets_go: true,
        brought: &[],
        freed: &[5, 3],
        held: &[0, 1, 2, 4, 7, 6],
    },
    // The content that the views share stays.
    Step {
        act: Act::Clean,
        lets_go: true,
        brought: &[],
        freed: &[1, 5, 3],
        held: &[0, 2, 4, 7, 6],
    },
];

fn data_file(alloc: Global, name: &str, blocks: &[u32]) -> Result<LocalFile, Fail> {
    let name = Name::read(alloc, name.as_bytes())?;
    Ok(LocalFile {
        name,
        length: 5_000,
        held: List::from_vec(blocks.to_vec(alloc)?),
    })
}

fn change_of(alloc: Global, act: Act) -> Result<Change, Fail> {
    match act {
        Act::Boot => Ok(Change::Boot { boot: 1 }),
        Act::Put(view, name, blocks) => Ok(Change::Put {
            view,
            file: data_file(alloc, name, blocks)?,
        }),
        Act::Remove(view, name) => Ok(Change::Remove {
            view,
            name: Name::read(alloc, name.as_bytes())?,
        }),
        Act::Clean => Ok(Change::Clean),
    }
}

fn are_held(alloc: Global, state: &StoreState, wanted: &[u32]) -> Result<bool, AllocError> {
    let items = held(alloc, state)?;
    Ok(items.as_slice() == wanted)
}

fn are_brought(alloc: Global, change: &Change, wanted: &[u32]) -> Result<bool, AllocError> {
    let items = brought(alloc, change)?;
    Ok(items.as_slice() == wanted)
}

fn are_freed(
    alloc: Global,
    state: &StoreState,
    change: &Change,
    wanted: &[u32],
) -> Result<bool, AllocError> {
    let items = freed(alloc, state, change)?;
    Ok(items.as_slice() == wanted)
}

// Makes the change, where it fits.
fn made(alloc: Global, state: &mut StoreState, change: Change) -> Result<bool, StateFault> {
    match state.fits(alloc, &change) {
        Ok(true) => match make(alloc, state, change) {
            Ok(()) => Ok(true),
            Err(fault) => Err(fault),
        },
        Ok(false) => {
            drop(change);
            Ok(false)
        }
        Err(fault) => {
            drop(change);
            Err(fault)
        }
    }
}

// Whether the change brings and lets go what it is to.
fn is_told(
    alloc: Global,
    state: &StoreState,
    change: &Change,
    step: &Step,
) -> Result<bool, AllocError> {
    let told = are_freed(alloc, state, change, step.freed)?;
    let comes = are_brought(alloc, change, step.brought)?;
    Ok(told && comes && lets_go(change) == step.lets_go)
}

// The same, and whether that is held then which is to be.
fn is_done(
    alloc: Global,
    state: &mut StoreState,
    change: Change,
    step: &Step,
) -> Result<bool, Fail> {
    match is_told(alloc, state, &change, step) {
        Ok(true) => {}
        Ok(false) => {
            drop(change);
            return Ok(false);
        }
        Err(AllocError) => {
            drop(change);
            return Err(AllocError.into());
        }
    }
    Ok(made(alloc, state, change)? && are_held(alloc, state, step.held)?)
}

fn takes(alloc: Global, state: &mut StoreState, step: &Step) -> Result<bool, Fail> {
    let before = are_held(alloc, state, &[0, 1, 2, 5, 3, 4, 7, 6])?;
    let change = change_of(alloc, step.act)?;
    Ok(is_done(alloc, state, change, step)? && before)
}

#[test]
fn what_is_let_go_is_held_no_more(rt: HostRuntime) -> Result<(), Fail> {
    for step in STEPS {
        let mut state = decode_state(rt.alloc(), TABLES)?;
        let done = takes(rt.alloc(), &mut state, step);
        drop(state);
        assert!(rt; done?, "{:?}", step.act);
    }
    Ok(())
}
