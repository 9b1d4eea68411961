// The generated run.
ghost use Rattle.std.specs.Prelude.{◌≡◌, ℕ, [], IfOk, None};
ghost use Rattle.machine.specs.declared.event.Event.TheVariants.{Boot};
ghost use Rattle.machine.specs.Machine.{Step};
ghost use Rattle.small_types.specs.Room.{new_room};
ghost use Rattle.store_state.specs.Tables.{empty};
ghost use Rattle.table_log.specs.ReadsAs.{ReadsAs};
ghost use Rattle.demo.specs.Parts.{FirstLaunched, FirstLeft, Goes, OpensNew, ReachesHeld, ThirdInstalled, Touches};
ghost use Rattle.demo.specs.Run.{Demonstrates, start};
ghost use Rattle.demo.specs.Steps.{Installs, IsSite};
ghost use Rattle.generated_release.specs.Options.{demo_key};
ghost use Rattle.generated_release.specs.declared.release.GeneratedRelease.TheVariants as releases;

use crate::kept::keeps_generated;
use crate::lines::{clean, finish, install, launch};
use crate::site::{Site, open_site};
use crate::{DemoFault, Installed, Summary};
use disks::Disk;
use generated_release::GeneratedRelease;
use journal::LogFault;
use small_types::new_room;
use std::alloc::Global;
use updater::{RecoverFault, Updater};

/// How many blocks the store has.
pub const STORE_BLOCKS: u64 = 65_536;

/// The number of blocks.
pub fn store_blocks_are()
    ensures { STORE_BLOCKS ≡ 65_536 }
{}

// The number of the boot with which the store is opened.
const BOOT: u64 = 1;

// Opens the new store, which is there.
fn open_new<D: Disk>(alloc: Global, disk: &mut D) -> Result<Updater, DemoFault>
    requires { ReadsAs (new_room STORE_BLOCKS) (D.seen disk.old) empty }
    ensures { OpensNew D.Disk disk.old result disk.new }
{
    match Updater::recover(alloc, disk, BOOT) {
        Ok(opened) => {
            let (updater, _booted) = opened;
            Ok(updater)
        }
        Err(RecoverFault::DiskFault) => Err(DemoFault::DiskFault),
        Err(RecoverFault::NotAStore) => Err(DemoFault::NotAStore),
        Err(RecoverFault::Memory) => Err(DemoFault::Memory),
    }
}

// Makes a new store, and opens it.
fn open<D: Disk>(alloc: Global, disk: &mut D) -> Result<Updater, DemoFault>
    ensures { OpensNew D.Disk disk.old result disk.new }
{
    match table_log::format(alloc, disk, new_room(STORE_BLOCKS)) {
        Ok(()) => open_new(alloc, disk),
        Err(LogFault::DiskFault) => Err(DemoFault::DiskFault),
        Err(LogFault::Memory) => Err(DemoFault::Memory),
        Err(LogFault::NoRoom { .. } | LogFault::NotALog) => unreachable!(),
    }
}

// Installs the first release from its site, and launches it.
fn begin_at<D: Disk>(
    alloc: Global,
    site: &mut Site,
    disk: &mut D,
    updater: &mut Updater,
) -> Result<Installed, DemoFault>
    requires { site.old.key ≡ demo_key }
    ensures { (seed : ℕ) → IsSite seed releases.One site.old → Goes D.Disk (FirstLaunched seed)
        updater.old disk.old result updater.new disk.new }
{
    let installed = match install(alloc, GeneratedRelease::One, site, disk, updater) {
        Ok(installed) => installed,
        Err(fault) => return Err(fault),
    };
    match launch(alloc, site, disk, updater) {
        Ok(()) => Ok(installed),
        Err(fault) => Err(fault),
    }
}

// Installs the first release, and launches it.
fn begin<D: Disk>(
    alloc: Global,
    seed: u64,
    disk: &mut D,
    updater: &mut Updater,
) -> Result<Installed, DemoFault>
    ensures { Goes D.Disk (FirstLaunched seed) updater.old disk.old result updater.new disk.new }
{
    match open_site(alloc, seed, GeneratedRelease::One) {
        Ok(mut site) => begin_at(alloc, &mut site, disk, updater),
        Err(fault) => Err(fault),
    }
}

// Installs the second release.
fn update<D: Disk>(
    alloc: Global,
    seed: u64,
    disk: &mut D,
    updater: &mut Updater,
) -> Result<Installed, DemoFault>
    ensures { Goes D.Disk (Installs seed releases.Two) updater.old disk.old result updater.new
        disk.new }
{
    match open_site(alloc, seed, GeneratedRelease::Two) {
        Ok(mut site) => install(alloc, GeneratedRelease::Two, &mut site, disk, updater),
        Err(fault) => Err(fault),
    }
}

// Cleans, finishes the lease, and cleans again.
fn leave<D: Disk>(
    alloc: Global,
    site: &mut Site,
    disk: &mut D,
    updater: &mut Updater,
) -> Result<(), DemoFault>
    ensures { Goes D.Disk (λ (_ : Unit {0}). FirstLeft) updater.old disk.old result updater.new
        disk.new }
{
    match clean(alloc, 0, site, disk, updater) {
        Ok(()) => {}
        Err(fault) => return Err(fault),
    }
    match finish(alloc, site, disk, updater) {
        Ok(()) => {}
        Err(fault) => return Err(fault),
    }
    match clean(alloc, 1, site, disk, updater) {
        Ok(()) => Ok(()),
        Err(fault) => Err(fault),
    }
}

// Installs the third release from its site, and takes away the first.
fn end_at<D: Disk>(
    alloc: Global,
    site: &mut Site,
    disk: &mut D,
    updater: &mut Updater,
) -> Result<Installed, DemoFault>
    ensures { (seed : ℕ) → IsSite seed releases.Three site.old → Goes D.Disk (ThirdInstalled seed)
        updater.old disk.old result updater.new disk.new }
{
    let installed = match install(alloc, GeneratedRelease::Three, site, disk, updater) {
        Ok(installed) => installed,
        Err(fault) => return Err(fault),
    };
    match leave(alloc, site, disk, updater) {
        Ok(()) => Ok(installed),
        Err(fault) => Err(fault),
    }
}

// Installs the third release, and takes away the first.
fn end<D: Disk>(
    alloc: Global,
    seed: u64,
    disk: &mut D,
    updater: &mut Updater,
) -> Result<Installed, DemoFault>
    ensures { Goes D.Disk (ThirdInstalled seed) updater.old disk.old result updater.new disk.new }
{
    match open_site(alloc, seed, GeneratedRelease::Three) {
        Ok(mut site) => end_at(alloc, &mut site, disk, updater),
        Err(fault) => Err(fault),
    }
}

// Lives the run over the store that was opened.
fn live<D: Disk>(
    alloc: Global,
    seed: u64,
    disk: &mut D,
    updater: &mut Updater,
) -> Result<Summary, DemoFault>
    ensures run { D.tells disk.new → ReachesHeld D.Disk (Step 0 start (Boot 1) None) updater.old
        disk.old → IfOk result (λ summary. Demonstrates D.Disk seed summary disk.new) }
    ensures touches { Touches D.Disk disk.old result disk.new }
{
    let one = match begin(alloc, seed, disk, updater) {
        Ok(installed) => installed,
        Err(fault) => return Err(fault),
    };
    let two = match update(alloc, seed, disk, updater) {
        Ok(installed) => installed,
        Err(fault) => return Err(fault),
    };
    let three = match end(alloc, seed, disk, updater) {
        Ok(installed) => installed,
        Err(fault) => return Err(fault),
    };
    match keeps_generated(alloc, seed, updater, disk) {
        Ok(true) => {}
        Ok(false) => return Err(DemoFault::OtherFiles),
        Err(fault) => return Err(fault),
    }
    Ok(Summary {
        seed,
        one,
        two,
        three,
        blocks: updater.used_blocks(),
    })
}

/// Makes a new store of `STORE_BLOCKS` blocks on the disk, and lives a generated run over it, all at moment
/// 0, with boot number 1. It publishes the first release of 200 generated files in a folder in
/// memory, and installs and launches it; it publishes and installs the second, and the third; it
/// cleans, finishes the lease, and cleans again. Each answer is compared with what it must be, each
/// text that is heard with what was published, and each program file that is kept with its
/// generated bytes.
///
/// # Errors
///
/// `DiskFault`: the disk failed. `Memory`: there was no memory. `NotPublished`: the publisher refused
/// a release. `NotAStore`: the new store does not read as one. `Answered`, `OtherTexts` and
/// `OtherFiles`: an answer, a heard text or a kept file was not what it must be. The disk then has what
/// the steps up to then left.
pub fn demo<D: Disk>(alloc: Global, seed: u64, disk: &mut D) -> Result<Summary, DemoFault>
    // Where the disk tells, its reads stand for the store that the run leads to, and the summary
    // has the numbers of this run.
    ensures run { D.tells disk.new
        → IfOk result (λ summary. Demonstrates D.Disk seed summary disk.new) }
    ensures touches { Touches D.Disk disk.old result disk.new }
{
    match open(alloc, disk) {
        Ok(mut updater) => live(alloc, seed, disk, &mut updater),
        Err(fault) => Err(fault),
    }
}
