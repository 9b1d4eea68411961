// The generated run, and the line that says what it came to.
ghost use Rattle.std.specs.Prelude.{◌≡◌};
ghost use Rattle.updater_cli.specs.declared.demo_end.DemoEnd.TheVariants as end;
ghost use Rattle.updater_cli.specs.Demonstration.{NotesFault, RunsDemo, demo_code};
ghost use Rattle.updater_cli.specs.Devices.{Asks, RisesWith};

use demo::{DemoFault, demo};
use disks::Disk;
use outside::{Failed, Sink, write_all};
use std::alloc::{AllocError, Global};

/// How a generated run ends.
#[derive(Clone, Copy, Debug, PartialEq, Eq)]
pub(crate) enum DemoEnd {
    /// It was done, and its line was written.
    Done,
    /// The sink failed.
    SinkFault,
    /// The disk failed.
    DiskFault,
    /// There was no memory, or it did not come out as it must.
    Early,
}

impl DemoEnd {
    /// The exit status of the program.
    pub fn code(self) -> u8
        ensures { result ≡ demo_code self }
    {
        match self {
            DemoEnd::Done => 0,
            DemoEnd::SinkFault => 3,
            DemoEnd::DiskFault => 4,
            DemoEnd::Early => 6,
        }
    }
}

/// The generated run of the number over the disk. The line of its summary is written to the sink.
/// Where it ends early, and not for the disk, why is noted.
pub(crate) fn demonstrate<K: Sink, D: Disk>(
    alloc: Global,
    seed: u64,
    sink: &mut K,
    disk: &mut D,
    note: &mut Option<DemoFault>,
) -> DemoEnd
    ensures runs { RunsDemo K.Sink D.Disk seed (demo_code result) sink.old sink.new disk.old
        disk.new }
    ensures notes { NotesFault D.Disk (demo_code result) disk.new note.old note.new }
    ensures writes { RisesWith (result ≡ end.SinkFault) (K.count sink.old) (K.count sink.new) }
    ensures asks { Asks D.Disk (result ≡ end.DiskFault) disk.old disk.new }
{
    let summary = match demo(alloc, seed, disk) {
        Ok(summary) => summary,
        Err(DemoFault::DiskFault) => return DemoEnd::DiskFault,
        Err(fault) => {
            *note = Some(fault);
            return DemoEnd::Early;
        }
    };
    let line = match summary.line(alloc) {
        Ok(line) => line,
        Err(AllocError) => {
            *note = Some(DemoFault::Memory);
            return DemoEnd::Early;
        }
    };
    match write_all(sink, line.as_bytes()) {
        Ok(()) => DemoEnd::Done,
        Err(Failed) => DemoEnd::SinkFault,
    }
}
