// Tests of commands over a disk in memory.
ghost use Rattle.std.specs.Prelude.{◌≤◌, IfOk};
ghost use Rattle.small_types.specs.declared.limits.TheConstants.{NUMBER_LIMIT};
ghost use Rattle.identity.specs.Version.{IsVersion};
ghost use Rattle.machine.specs.Words.{IsCommand};

use disks::{Disk, MemDisk};
use identity::{Key, Version};
use journal::Log;
use links::{MemLink, Page, Single, are_distinct};
use machine::{Command, Heard, Reply};
use outside::Failed;
use small_types::{Bytes, List, Room};
use std::alloc::Global;
use std::test::Fail;
use updater::{RecoverFault, Updater};

pub(crate) const ROOM: Room = Room {
    blocks: 16,
    half: 1_048_576,
};

// A disk of these bytes, whose call of the number `failing`, counted from 1, fails.
pub(crate) fn disk_of(alloc: Global, bytes: &[u8], failing: u64) -> Result<MemDisk, Fail> {
    let bytes = Bytes::from_vec(bytes.to_vec(alloc)?);
    let failing = List::from_vec(vec![in alloc; failing]?);
    Ok(MemDisk::new(alloc, bytes, failing))
}

// A disk with a new store.
fn new_disk(alloc: Global) -> Result<MemDisk, Fail> {
    let mut disk = disk_of(alloc, &[], 0)?;
    table_log::format(alloc, &mut disk, ROOM)?;
    Ok(disk)
}

// A version with that first number.
fn version(a: u16) -> Version
    ensures { IsVersion result }
{
    Version {
        a,
        b: 0,
        c: 0,
        d: 0,
    }
}

// The command that requires that version of an application.
fn require(alloc: Global, a: u16) -> Result<Command, Failed>
    ensures { IfOk result IsCommand }
{
    let Ok(key) = Key::read(alloc, b"demo,0000,neutral,msil") else {
        return Err(Failed);
    };
    Ok(Command::Require {
        key,
        version: version(a),
    })
}

// Opens the store. It promises nothing, so that what a test asks is tried and not proved.
fn open(alloc: Global, disk: &mut MemDisk, boot: u64) -> Result<(Updater, bool), RecoverFault>
    requires { boot ≤ NUMBER_LIMIT }
{
    Updater::recover(alloc, disk, boot)
}

// One link, over these pages.
fn links_of(alloc: Global, pages: List<Page>) -> Result<Single<MemLink>, Failed> {
    if !are_distinct(pages.as_slice()) {
        return Err(Failed);
    }
    Ok(Single {
        link: MemLink::new(alloc, pages, List::from_vec(Vec::new(alloc))),
        asked: List::from_vec(Vec::new(alloc)),
    })
}

// Runs the command over a link without pages. It promises nothing either.
fn run(
    alloc: Global,
    updater: &mut Updater,
    disk: &mut MemDisk,
    command: &Command,
) -> Result<Reply, Failed>
    requires { IsCommand command.now }
{
    let mut links = links_of(alloc, List::from_vec(Vec::new(alloc)))?;
    let mut heard = Heard {
        texts: List::from_vec(Vec::new(alloc)),
    };
    updater.apply(alloc, disk, &mut links, 1000, command, &mut heard)
}

// The minimum that a reply gives.
fn minimum_of(reply: &Reply) -> Option<Version> {
    match reply {
        Reply::Minimum { version } => Some(*version),
        _ => None,
    }
}

// Requires the version. The answer is the minimum that the reply gives.
fn required(
    alloc: Global,
    updater: &mut Updater,
    disk: &mut MemDisk,
    a: u16,
) -> Result<Option<Version>, Failed> {
    let command = require(alloc, a)?;
    match run(alloc, updater, disk, &command) {
        Ok(reply) => {
            let minimum = minimum_of(&reply);
            drop(reply);
            Ok(minimum)
        }
        Err(fault) => Err(fault),
    }
}

// What is done with a store that is open.
#[derive(Drop)]
pub(crate) enum Step {
    // Requiring the version with the first number replies the minimum with the second, and calls the disk so often.
    Shows(u16, u16, u64),
    // Requiring the version succeeds.
    Runs(u16),
}

// Whether the step goes as it is to.
fn goes(alloc: Global, updater: &mut Updater, disk: &mut MemDisk, step: &Step) -> bool {
    let before = disk.calls();
    match step {
        Step::Shows(a, minimum, calls) => {
            required(alloc, updater, disk, *a) == Ok(Some(version(*minimum)))
                && disk.calls().checked_sub(before) == Some(*calls)
        }
        Step::Runs(a) => required(alloc, updater, disk, *a).is_ok(),
    }
}

// How many steps go as they are to, one after another.
fn count_steps(alloc: Global, updater: &mut Updater, disk: &mut MemDisk, steps: &[Step]) -> usize {
    for (number, step) in steps.iter().enumerate() {
        if !goes(alloc, updater, disk, step) {
            return number;
        }
    }
    steps.len()
}

// What is seen of a store that was open: whether its boot number was another one, its boot number, how many
// applications it has, and how many steps went as they were to.
#[derive(Clone, Copy, Debug, PartialEq, Eq)]
pub(crate) struct Seen {
    other: bool,
    boot: u64,
    count: usize,
    steps: usize,
}

// Opens the store with that boot number, and does the steps. A store that is open is dropped here alone: its proof
// then has one place where all of the tables go.
pub(crate) fn session(
    alloc: Global,
    disk: &mut MemDisk,
    boot: u64,
    steps: &[Step],
) -> Result<Seen, RecoverFault>
    requires { boot ≤ NUMBER_LIMIT }
{
    match open(alloc, disk, boot) {
        Ok((mut updater, other)) => {
            let steps = count_steps(alloc, &mut updater, disk, steps);
            let seen = Seen {
                other,
                boot: updater.state().boot,
                count: updater.state().count(),
                steps,
            };
            drop(updater);
            Ok(seen)
        }
        Err(fault) => Err(fault),
    }
}

#[test]
fn a_boot_number_is_kept(rt: HostRuntime) -> Result<(), Fail> {
    let mut disk = new_disk(rt.alloc())?;
    for (boot, other) in [(1, true), (1, false), (7, true), (7, false)] {
        let seen = session(rt.alloc(), &mut disk, boot, &[])?;
        let want = Seen {
            other,
            boot,
            count: 0,
            steps: 0,
        };
        assert!(rt; seen == want, "{boot} {other}");
    }
    Ok(())
}

// The minimum rises, and only then the disk is called.
const RISES: &[Step] = &[
    Step::Shows(2, 2, 4),
    Step::Shows(1, 2, 0),
    Step::Shows(3, 3, 4),
];

// It is what it was before the store was opened again.
const STAYS: &[Step] = &[Step::Shows(1, 3, 0)];

#[test]
fn a_minimum_is_raised_and_kept(rt: HostRuntime) -> Result<(), Fail> {
    let mut disk = new_disk(rt.alloc())?;
    for (steps, count) in [(RISES, 3), (STAYS, 1)] {
        let seen = session(rt.alloc(), &mut disk, 1, steps)?;
        assert!(rt; seen.steps == count, "step {}", seen.steps);
    }
    Ok(())
}

// Whether the disk holds no store.
fn is_no_store(alloc: Global, disk: &mut MemDisk) -> bool {
    session(alloc, disk, 1, &[]) == Err(RecoverFault::NotAStore)
}

// A disk with a journal whose only change is none.
fn other_journal(alloc: Global) -> Result<MemDisk, Fail> {
    let mut disk = new_disk(alloc)?;
    let (mut log, _) = Log::recover(alloc, &mut disk)?;
    log.append(&mut disk, &mut [0, 0, 0, 0, 0, 9, 0])?;
    Ok(disk)
}

#[test]
fn other_bytes_are_no_store(rt: HostRuntime) -> Result<(), Fail> {
    let mut disk = disk_of(rt.alloc(), &[0; 10], 0)?;
    assert!(rt; is_no_store(rt.alloc(), &mut disk));
    drop(disk);
    let mut disk = other_journal(rt.alloc())?;
    assert!(rt; is_no_store(rt.alloc(), &mut disk));
    Ok(())
}

// Opens the store with boot number 2, and requires a version. Answers whether both succeeded.
fn runs(alloc: Global, disk: &mut MemDisk) -> Result<bool, RecoverFault> {
    match session(alloc, disk, 2, &[Step::Runs(1)]) {
        Ok(seen) => Ok(seen.steps == 1),
        Err(RecoverFault::DiskFault) => Ok(false),
        Err(fault) => Err(fault),
    }
}

// The bytes of a disk with a store that was opened with boot number 1.
fn opened(alloc: Global) -> Result<Vec<u8>, Fail> {
    let mut disk = new_disk(alloc)?;
    let _ = session(alloc, &mut disk, 1, &[])?;
    Ok(disk.bytes().to_vec(alloc)?)
}

// What running on these bytes comes to where the call of that number fails, and what is seen behind it.
fn run_and_see(alloc: Global, bytes: &[u8], failing: u64) -> Result<(bool, Seen), Fail> {
    let mut disk = disk_of(alloc, bytes, failing)?;
    let ran = runs(alloc, &mut disk)?;
    let seen = session(alloc, &mut disk, 2, &[])?;
    Ok((ran, seen))
}

#[test]
fn a_call_that_fails_leaves_the_store_before_or_after(rt: HostRuntime) -> Result<(), Fail> {
    let bytes = opened(rt.alloc())?;
    // A sync, reads of the head, of the first half's gate, of the second one's, of the end behind it
    // and of the first half, the length, and four calls each of the boot number and of the minimum.
    // With 0 none fails.
    for failing in 0..16u64 {
        // A change is there once its gate is written, also where the last sync failed.
        let has_boot = failing == 0 || failing >= 11;
        let has_minimum = failing == 0 || failing >= 15;
        let want = Seen {
            other: !has_boot,
            boot: 2,
            count: has_minimum as usize,
            steps: 0,
        };
        let made = run_and_see(rt.alloc(), &bytes, failing)?;
        assert!(rt; made == (failing == 0, want), "at {failing}");
    }
    Ok(())
}
