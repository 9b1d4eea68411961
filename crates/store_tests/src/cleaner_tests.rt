// Tests of which views a clean takes.
use crate::store_state_tests::try_make;
use cleaner::{CleanFault, clean, removable};
use leases::{end, grant};
use record_codec::decode_change;
use std::alloc::{AllocError, Global};
use std::process::Abort;
use std::test::Fail;
use store_state::{Change, StoreState};

// What is done to the tables.
#[derive(Clone, Copy, Debug)]
enum Act {
    // A version of the application of that name comes, as the view of that number.
    Install(u8, u8),
    // The application at that place goes back to its previous view.
    Rollback(u32),
    // The view of that number is leased.
    Launch(u64),
    // The lease of that number ends.
    Finish(u64),
}

use Act::{Finish, Install, Launch, Rollback};

// What stands behind the name in the encoding of an install: a release without files.
const RELEASE: &[u8] = &[
    0, 0, 0, 1, b't', 0, 0, 0, 1, b'l', 0, 0, 0, 1, b'a', 0, 1, 0, 0, 0, 0, 0, 0, 0, 0, 0, 0, 1, 0,
    0, 0, 0, 0, 0, 0, 1, b'c', 0, 0, 0, 1, b'e', 0, 0, 0, 1, b't', 0, 0, 0, 1, b'l', 0, 0, 0, 1,
    b'a', 0, 1, 0, 0, 0, 0, 0, 0, 0, 0, 0, 0, 0, 0, 0, 0, 0, 0, 0, 3, 0, 0, 0, 1, 0, 0, 0, 0, 20,
    0xa9, 0x99, 0x3e, 0x36, 0x47, 0x06, 0x81, 0x6a, 0xba, 0x3e, 0x25, 0x71, 0x78, 0x50, 0xc2, 0x6c,
    0x9c, 0xd0, 0xd8, 0x9d, 0, 0, 0, 1, b'e', 0, 0, 0, 1, b't', 0, 0, 0, 1, b'l', 0, 0, 0, 1, b'a',
    0, 1, 0, 0, 0, 0, 0, 0, 0, 0, 0, 0, 0, 0, 0, 1, b'e', 0, 0, 0, 0, 0, 0, 0, 0, 0, 0, 0, 1, b'h',
    0, 80, 0, 0, 0, 1, b'/', 0, 0, 0, 0, 0, 0, 0, 0, 0, 0, 0, 0, 0, 0, 0, 1, b'h', 0, 80, 0, 0, 0,
    1, b'/', 0, 0, 0, 0, 0, 0, 0, 0,
];

fn encoded(alloc: Global, name: u8, view: u8) -> Result<Vec<u8>, AllocError> {
    let head = [2, 0, 0, 0, 0, 0, 0, 0, view, 0, 0, 0, 1, name];
    let mut bytes = Vec::from_slice(alloc, &head)?;
    bytes.extend_from_slice(RELEASE)?;
    Ok(bytes)
}

fn install(alloc: Global, state: &mut StoreState, name: u8, view: u8) -> Result<bool, Fail> {
    let bytes = encoded(alloc, name, view)?;
    match decode_change(alloc, &bytes) {
        Ok(
            Change::Install {
                view,
                contents,
                provider,
                now,
            },
        ) => {
            let change = Change::Install {
                view,
                contents,
                provider,
                now,
            };
            try_make(alloc, state, change)
        }
        _ => Ok(false),
    }
}

// Does that, where it can be done.
fn is_done(alloc: Global, state: &mut StoreState, act: Act) -> Result<bool, Fail> {
    match act {
        Install(name, view) => install(alloc, state, name, view),
        Rollback(app) => try_make(alloc, state, Change::Rollback { app }),
        Launch(view) => Ok(grant(state, view).is_ok()),
        Finish(lease) => Ok(end(state, lease).is_ok()),
    }
}

// What is done, and which views are removable then.
const REMOVABLE: &[(&[Act], &[u64])] = &[
    (&[], &[]),
    (&[Install(b'a', 1)], &[]),
    (&[Install(b'a', 1), Install(b'a', 2)], &[]),
    (
        &[Install(b'a', 1), Install(b'a', 2), Install(b'a', 3)],
        &[1],
    ),
    (&[Install(b'a', 1), Install(b'a', 2), Rollback(0)], &[2]),
    // A lease keeps its view, and no other one.
    (
        &[
            Install(b'a', 1),
            Install(b'a', 2),
            Install(b'a', 3),
            Install(b'a', 4),
            Launch(2),
        ],
        &[1],
    ),
    (
        &[
            Install(b'a', 1),
            Install(b'a', 2),
            Launch(2),
            Launch(2),
            Rollback(0),
            Finish(1),
        ],
        &[],
    ),
    (
        &[
            Install(b'a', 1),
            Install(b'a', 2),
            Launch(2),
            Launch(2),
            Rollback(0),
            Finish(1),
            Finish(2),
        ],
        &[2],
    ),
    // Two applications, of which the second one comes first in the tables.
    (
        &[
            Install(b'b', 1),
            Install(b'a', 2),
            Install(b'b', 3),
            Install(b'a', 4),
            Install(b'a', 5),
            Install(b'b', 6),
            Rollback(0),
            Launch(3),
        ],
        &[1, 2, 5],
    ),
];

fn tells(alloc: Global, state: &StoreState, wanted: &[u64]) -> Result<bool, CleanFault> {
    let numbers = removable(alloc, state)?;
    Ok(numbers.as_slice() == wanted)
}

fn assert_row(
    rt: &impl Abort,
    alloc: Global,
    state: &mut StoreState,
    acts: &[Act],
    wanted: &[u64],
) -> Result<(), Fail> {
    for act in acts {
        assert!(rt; is_done(alloc, state, *act)?, "{acts:?}: {act:?}");
    }
    let kept = state.view_count().saturating_sub(wanted.len());
    assert!(rt; tells(alloc, state, wanted)?, "{acts:?}");
    assert!(rt; clean(alloc, state)? == wanted.len(), "{acts:?}: count");
    assert!(rt; state.view_count() == kept, "{acts:?}: kept");
    assert!(rt; clean(alloc, state)? == 0, "{acts:?}: again");
    Ok(())
}

#[test]
fn what_is_not_in_use_is_removable(rt: HostRuntime) -> Result<(), Fail> {
    for (acts, wanted) in REMOVABLE {
        let mut state = StoreState::empty(rt.alloc())?;
        let done = assert_row(&rt, rt.alloc(), &mut state, acts, wanted);
        drop(state);
        done?;
    }
    Ok(())
}
