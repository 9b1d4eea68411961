// Tests of changes of the tables.
ghost use Rattle.store_state.specs.Change.{IsPlain};

use identity::{Key, Version};
use small_types::Text;
use small_types::limits::NUMBER_LIMIT;
use std::alloc::Global;
use std::process::Abort;
use std::test::Fail;
use store_state::{Change, StoreState};

fn version(a: u16, b: u16) -> Version {
    Version { a, b, c: 0, d: 0 }
}

// Makes the change, where it fits.
pub(crate) fn try_make(alloc: Global, state: &mut StoreState, change: Change) -> Result<bool, Fail>
    requires { IsPlain change }
{
    match state.fits(alloc, &change) {
        Err(fault) => {
            drop(change);
            Err(fault.into())
        }
        Ok(false) => {
            drop(change);
            Ok(false)
        }
        Ok(true) => match state.apply(alloc, change) {
            Ok(()) => Ok(true),
            Err(fault) => Err(fault.into()),
        },
    }
}

fn require(
    alloc: Global,
    state: &mut StoreState,
    word: &str,
    version: Version,
) -> Result<bool, Fail> {
    let key = Key::read(alloc, word.as_bytes())?;
    try_make(alloc, state, Change::Require { key, version })
}

fn minimum(alloc: Global, state: &StoreState, word: &str) -> Result<Option<Version>, Fail> {
    let key = Key::read(alloc, word.as_bytes())?;
    match state.entry(&key) {
        Some(app) => Ok(app.minimum),
        None => Ok(None),
    }
}

// The numbers of the store, and its counts.
fn numbers(state: &StoreState) -> ([u64; 3], [u64; 4]) {
    (
        [state.boot, state.next_view, state.next_lease],
        [
            state.count() as u64,
            state.view_count() as u64,
            state.file_count() as u64,
            state.used_blocks() as u64,
        ],
    )
}

fn is_empty(rt: &impl Abort, alloc: Global, state: &mut StoreState) -> Result<(), Fail> {
    assert!(rt; numbers(state) == ([0, 1, 1], [0, 0, 0, 0]));
    let minimum = minimum(alloc, state, "n,t,l,a")?;
    assert!(rt; minimum.is_none());
    Ok(())
}

#[test]
fn the_empty_store(rt: HostRuntime) -> Result<(), Fail> {
    let mut state = StoreState::empty(rt.alloc())?;
    let done = is_empty(&rt, rt.alloc(), &mut state);
    drop(state);
    done
}

// The names of the applications, each with a blank behind it.
fn names(alloc: Global, state: &StoreState) -> Result<String, Fail> {
    let mut names = String::new(alloc);
    for app in state.apps.as_slice() {
        names.push_str(app.key.name.as_str())?;
        names.push(' ')?;
    }
    Ok(names)
}

fn keep_order(rt: &impl Abort, alloc: Global, state: &mut StoreState) -> Result<(), Fail> {
    // `,` is below `b`, and both below the `~` that stands for itself.
    for word in ["b,t,l,a", "ab,t,l,a", "a~,t,l,a", "a,t,l,a"] {
        assert!(rt; require(alloc, state, word, version(1, 0))?, "{word}");
    }
    let names = names(alloc, state)?;
    assert!(rt; names.as_str() == "a ab a~ b ");
    Ok(())
}

#[test]
fn applications_stand_in_order(rt: HostRuntime) -> Result<(), Fail> {
    let mut state = StoreState::empty(rt.alloc())?;
    let done = keep_order(&rt, rt.alloc(), &mut state);
    drop(state);
    done
}

// Requires the version, and answers the minimum that then holds, where the change was made.
fn raised(
    alloc: Global,
    state: &mut StoreState,
    word: &str,
    version: Version,
) -> Result<Option<Version>, Fail> {
    if !require(alloc, state, word, version)? {
        return Ok(None);
    }
    minimum(alloc, state, word)
}

fn only_rises(rt: &impl Abort, alloc: Global, state: &mut StoreState) -> Result<(), Fail> {
    for (a, b, held) in [(1, 5, 5), (1, 4, 5), (1, 6, 6)] {
        let minimum = raised(alloc, state, "n,t,l,a", version(a, b))?;
        assert!(rt; minimum == Some(version(1, held)), "{a}.{b}");
    }
    let other = minimum(alloc, state, "n,t,l,b")?;
    assert!(rt; other.is_none() && state.count() == 1);
    Ok(())
}

#[test]
fn a_minimum_only_rises(rt: HostRuntime) -> Result<(), Fail> {
    let mut state = StoreState::empty(rt.alloc())?;
    let done = only_rises(&rt, rt.alloc(), &mut state);
    drop(state);
    done
}

fn take_boot_numbers(rt: &impl Abort, alloc: Global, state: &mut StoreState) -> Result<(), Fail> {
    for (boot, fits) in [(NUMBER_LIMIT, true), (4_611_686_018_427_387_905, false)] {
        let made = try_make(alloc, state, Change::Boot { boot })?;
        assert!(rt;
            made == fits && state.boot == 4_611_686_018_427_387_904,
            "{boot}"
        );
    }
    Ok(())
}

#[test]
fn boot_numbers(rt: HostRuntime) -> Result<(), Fail> {
    let mut state = StoreState::empty(rt.alloc())?;
    let done = take_boot_numbers(&rt, rt.alloc(), &mut state);
    drop(state);
    done
}

fn require_number(alloc: Global, state: &mut StoreState, number: u32) -> Result<bool, Fail> {
    let word = format!(in alloc; "k{number},t,l,a")?;
    require(alloc, state, word.as_str(), version(1, 0))
}

fn take_256(rt: &impl Abort, alloc: Global, state: &mut StoreState) -> Result<(), Fail> {
    for number in 0..256u32 {
        assert!(rt; require_number(alloc, state, number)?, "{number}");
    }
    assert!(rt; state.count() == 256);
    let one_more = require_number(alloc, state, 256)?;
    assert!(rt; !one_more);
    let minimum = raised(alloc, state, "k255,t,l,a", version(2, 0))?;
    assert!(rt; minimum == Some(version(2, 0)));
    Ok(())
}

#[test]
fn there_are_256_at_most(rt: HostRuntime) -> Result<(), Fail> {
    let mut state = StoreState::empty(rt.alloc())?;
    let done = take_256(&rt, rt.alloc(), &mut state);
    drop(state);
    done
}
