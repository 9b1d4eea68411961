// Publishing by options, with the line that says what came of it.
ghost use Rattle.std.specs.Prelude.{◌≡◌, ◌≢◌, ◌≤◌};
ghost use Rattle.outside.specs.Streams.{Rose};
ghost use Rattle.publisher.specs.Options.{IsPublishable};
ghost use Rattle.publication.specs.declared.publication.PublishEnd.TheVariants as ends;
ghost use Rattle.publication.specs.Lines.{has_line};
ghost use Rattle.publication.specs.Publication.{status_of, EndsWith, PublishesOptions};

use crate::lines::{end_of_publish, line_of};
use folders::Folder;
use outside::{Sink, write_all};
use publisher::{Options, PublishFault, Published, publish};
use small_types::PrintFault;
use std::alloc::Global;

/// How such a publish ends.
#[derive(Clone, Copy, Debug, PartialEq, Eq)]
pub enum PublishEnd {
    /// The release was written, and so was the line that says so.
    Done,
    /// The folder failed at a listing or a reading.
    ReadFault,
    /// The folder failed at a writing.
    WriteFault,
    /// The sink failed.
    SinkFault,
    /// There was no memory.
    Memory,
    /// The publish is refused, and the refusal was written.
    Refused,
}

impl PublishEnd {
    /// The exit status: 0 done, 2 the folder failed at a reading, 3 at a writing or the sink failed,
    /// 6 no memory, 7 refused.
    pub fn code(self) -> u8
        ensures { result ≡ status_of self }
    {
        match self {
            PublishEnd::Done => 0,
            PublishEnd::ReadFault => 2,
            PublishEnd::WriteFault | PublishEnd::SinkFault => 3,
            PublishEnd::Memory => 6,
            PublishEnd::Refused => 7,
        }
    }

    // Whether a line says it.
    fn has_line(self) -> bool
        ensures { result ≡ has_line self }
    {
        matches!(self, PublishEnd::Done | PublishEnd::Refused)
    }
}

// Writes the line of what came of a publish, where there is one, and says how the call ends.
fn say_done<K: Sink>(
    alloc: Global,
    done: &Result<Published, PublishFault>,
    sink: &mut K,
) -> PublishEnd
    ensures ended { EndsWith K.tells K.taken sink.old sink.new done.now result }
    ensures sink_count { K.count sink.old ≤ K.count sink.new }
    ensures sink_cause { result ≡ ends.SinkFault → Rose (K.count sink.old) (K.count sink.new) }
    ensures sink_quiet { result ≢ ends.SinkFault → K.count sink.new ≡ K.count sink.old }
{
    let end = end_of_publish(done);
    if !end.has_line() {
        return end;
    }
    let line = match line_of(alloc, done) {
        Ok(line) => line,
        Err(PrintFault::Memory) => return PublishEnd::Memory,
    };
    let Ok(()) = write_all(sink, line.as_slice()) else {
        return PublishEnd::SinkFault;
    };
    end
}

/// Publishes by the options, and writes one line that says what was published, or why it was
/// refused. Where the folder fails, or memory runs out, no line is written. Memory may also run out
/// for the line, once the release is written.
pub fn publish_options<F: Folder, K: Sink>(
    alloc: Global,
    options: &Options,
    folder: &mut F,
    sink: &mut K,
) -> PublishEnd
    requires { IsPublishable options.now }
    ensures done { PublishesOptions F.Folder K.Sink options.now folder.old folder.new
        sink.old sink.new result }

    // The counts of faults never fall. An end says which device failed, and any other end leaves
    // that device's count.
    ensures folder_count { F.count folder.old ≤ F.count folder.new }
    ensures sink_count { K.count sink.old ≤ K.count sink.new }
    ensures read_cause { result ≡ ends.ReadFault
        → Rose (F.count folder.old) (F.count folder.new) }
    ensures write_cause { result ≡ ends.WriteFault
        → Rose (F.count folder.old) (F.count folder.new) }
    ensures sink_cause { result ≡ ends.SinkFault → Rose (K.count sink.old) (K.count sink.new) }
    ensures folder_quiet { result ≢ ends.ReadFault → result ≢ ends.WriteFault
        → F.count folder.new ≡ F.count folder.old }
    ensures sink_quiet { result ≢ ends.SinkFault → K.count sink.new ≡ K.count sink.old }
{
    let done = publish(alloc, options, folder);
    say_done(alloc, &done, sink)
}
