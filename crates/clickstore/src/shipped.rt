// The top call over the devices of the program.
ghost use Rattle.std.specs.Prelude.{◌≡◌, ℕ, Some};
ghost use Rattle.small_types.specs.declared.room.Room.{Room};
ghost use Rattle.updater_cli.specs.declared.words.Request.TheVariants as asked;
ghost use Rattle.updater_cli.specs.Devices.{devices_of};
ghost use Rattle.updater_cli.specs.Format.{MakesStore};
ghost use Rattle.updater_cli.specs.Headline.{Headline, HeadlineLaunch, HeadlineLeased, HeadlineStop, HeadlineViews};
ghost use Rattle.updater_cli.specs.Words.{request_of};
ghost use Rattle.outside_real.specs.FileDisk.{DiskIsHonest};

use disks::{Disk, Start};
use links::Links;
use outside::{Sink, Source};
use outside_real::{FileDisk, RealFolder, StdSink, StdSource};
use small_types::Word;
use std::alloc::Global;
use updater_cli::{DemoFault, Report, run};

/// Does what the words ask for over a store in a file, the standard input and output, a folder and
/// any links, and answers the exit status. The start says what the file held when it was opened.
/// What holds where the file's answers are honest (`DiskIsHonest`) holds at each start, since no
/// code can read one.
pub(crate) fn run_over_file<S: Start, L: Links>(
    alloc: Global,
    words: &[Word],
    source: &mut StdSource<HostRuntime>,
    sink: &mut StdSink<HostRuntime>,
    disk: &mut FileDisk<HostRuntime, S>,
    folder: &mut RealFolder<HostRuntime>,
    links: &mut L,
    report: &mut Report,
    note: &mut Option<DemoFault>,
) -> u8
    // A session: its lines, their run, what its links did, what a stop at any moment leaves, which
    // views its launches hand out and when, and what its reads show.
    ensures headline { (boot now : ℕ) → request_of words.now ≡ Some (asked.Session boot now)
        → Headline ⟦<StdSource<HostRuntime> as Source>⟧ ⟦<StdSink<HostRuntime> as Sink>⟧
        ⟦<FileDisk<HostRuntime, S> as Disk>⟧ L.Links boot now result
        (devices_of source.old sink.old disk.old links.old)
        (devices_of source.new sink.new disk.new links.new) report.new }

    // Where the file's answers are honest, a stop at any moment leaves a store that holds every acknowledged line.
    ensures headline_stop { (boot now : ℕ) → request_of words.now ≡ Some (asked.Session boot now)
        → DiskIsHonest S.Start disk.new
        → HeadlineStop ⟦<FileDisk<HostRuntime, S> as Disk>⟧ now result disk.old disk.new
        report.new }

    // And a launch hands out the current view, which is one whole release and not below a minimum;
    // reads on its lease show parts of the same bytes; a launch where nothing is due and a lease is
    // free is answered with one; and what a stop leaves has the leased views, whole and unchanged.
    ensures headline_views { (boot now : ℕ) → request_of words.now ≡ Some (asked.Session boot now)
        → DiskIsHonest S.Start disk.new
        → HeadlineViews ⟦<FileDisk<HostRuntime, S> as Disk>⟧ now disk.old report.new }
    ensures headline_launch { (boot now : ℕ) → request_of words.now ≡ Some (asked.Session boot now)
        → DiskIsHonest S.Start disk.new
        → HeadlineLaunch ⟦<FileDisk<HostRuntime, S> as Disk>⟧ now disk.old report.new }
    ensures headline_leased { (boot now : ℕ) → request_of words.now ≡ Some (asked.Session boot now)
        → DiskIsHonest S.Start disk.new
        → HeadlineLeased ⟦<FileDisk<HostRuntime, S> as Disk>⟧ now result disk.old disk.new
        report.new }

    // A new store stands, and a stop while it is made leaves what is said of it.
    ensures format { (room : Room) → request_of words.now ≡ Some (asked.Format room)
        → MakesStore ⟦<FileDisk<HostRuntime, S> as Disk>⟧ room result disk.old disk.new }
{
    run(
        alloc, words, source, sink, disk, folder, links, report, note,
    )
}
