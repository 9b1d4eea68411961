// Inspecting a manifest.
ghost use Rattle.std.specs.Prelude.{◌≡◌, ◌≢◌, ◌⊎◌, ◌≤◌, drop};
ghost use Rattle.outside.specs.Streams.{Rose, TakesAtMost};
ghost use Rattle.inspection.specs.declared.manifest.InspectionEnd.TheVariants as ends;
ghost use Rattle.inspection.specs.Inspection.{exit_status, Inspects};

use crate::lines::lines_of;
use outside::{ReadFault, Sink, Source, read_all, write_all};
use small_types::PrintFault;
use small_types::limits::MANIFEST_LIMIT;
use std::alloc::Global;

/// Which manifest is read.
#[derive(Clone, Copy, Debug, PartialEq, Eq)]
pub enum Kind {
    Deployment,
    Application,
}

/// How inspecting ends.
#[derive(Clone, Copy, Debug, PartialEq, Eq)]
pub enum InspectionEnd {
    /// The facts were written.
    Done,
    /// The manifest is refused, and the refusal was written.
    Refused,
    /// The source failed.
    SourceFault,
    /// The sink failed.
    SinkFault,
    /// There was no memory.
    Memory,
}

impl InspectionEnd {
    /// The exit status: 0 done, 7 refused, 2 the source failed, 3 the sink, 6 no memory.
    pub fn code(self) -> u8
        ensures { result ≡ exit_status self }
    {
        match self {
            InspectionEnd::Done => 0,
            InspectionEnd::Refused => 7,
            InspectionEnd::SourceFault => 2,
            InspectionEnd::SinkFault => 3,
            InspectionEnd::Memory => 6,
        }
    }
}

/// The most bytes that are read: one more than a manifest may have.
pub const INSPECTED_LIMIT: usize = MANIFEST_LIMIT + 1;

/// The most bytes that are read.
pub fn numbers_are()
    ensures { INSPECTED_LIMIT ≡ 4_194_305 }
{}

/// Reads a manifest of the kind from the source, at most 4,194,305 bytes however it ends, and writes what it says to
/// the sink, or why it is refused. Where the source fails, or memory runs out, nothing is written. A fault of the
/// source or of the sink is told as such: any other answer leaves its count of faults.
pub fn inspect<S: Source, K: Sink>(
    alloc: Global,
    kind: Kind,
    source: &mut S,
    sink: &mut K,
) -> InspectionEnd
    ensures says { Inspects kind S.tells K.tells (S.left source.old) (K.taken sink.old)
        (K.taken sink.new) result }
    ensures left { S.tells
        → (result ≡ ends.Done) ⊎ ((result ≡ ends.Refused) ⊎ (result ≡ ends.SinkFault))
        → S.left source.new ≡ drop INSPECTED_LIMIT (S.left source.old) }
    ensures taken { S.tells
        → TakesAtMost INSPECTED_LIMIT (S.left source.old) (S.left source.new) }
    ensures nothing { (result ≡ ends.SourceFault) ⊎ (result ≡ ends.Memory) → sink.new ≡ sink.old }
    ensures source_count { S.count source.old ≤ S.count source.new }
    ensures sink_count { K.count sink.old ≤ K.count sink.new }
    ensures source_cause { result ≡ ends.SourceFault
        → Rose (S.count source.old) (S.count source.new) }
    ensures sink_cause { result ≡ ends.SinkFault → Rose (K.count sink.old) (K.count sink.new) }
    ensures source_quiet { result ≢ ends.SourceFault → S.count source.new ≡ S.count source.old }
    ensures sink_quiet { result ≢ ends.SinkFault → K.count sink.new ≡ K.count sink.old }
{
    let bytes = match read_all(alloc, source, INSPECTED_LIMIT) {
        Ok(bytes) => bytes,
        Err(ReadFault::Failed) => return InspectionEnd::SourceFault,
        Err(ReadFault::Memory) => return InspectionEnd::Memory,
    };
    let (lines, how) = match lines_of(alloc, kind, bytes.as_slice()) {
        Ok(said) => said,
        Err(PrintFault::Memory) => return InspectionEnd::Memory,
    };
    let Ok(()) = write_all(sink, lines.as_slice()) else {
        return InspectionEnd::SinkFault;
    };
    how
}
