// The top call.
ghost use Rattle.std.specs.Prelude.{◌≡◌, ◌≢◌, ◌⊎◌, ◌↔◌, ◌≤◌, ℕ, true, false, None, Some};
ghost use Rattle.small_types.specs.declared.room.Room.{Room};
ghost use Rattle.outside.specs.Streams.{Rose};
ghost use Rattle.journal.specs.Layout.{AreLimits};
ghost use Rattle.inspection.specs.declared.manifest.Kind.{Kind};
ghost use Rattle.publication.specs.declared.publication.PublishEnd.TheVariants as ends;
ghost use Rattle.publication.specs.Publication.{status_of};
ghost use Rattle.publish_plan.specs.declared.options.Options.{Options};
ghost use Rattle.updater.specs.StandsFor.{StandsForNone};
ghost use Rattle.updater_cli.specs.declared.status.Status.TheVariants as exit;
ghost use Rattle.updater_cli.specs.declared.words.Request.TheVariants as asked;
ghost use Rattle.updater_cli.specs.Complete.{AnswersAll};
ghost use Rattle.updater_cli.specs.Demonstration.{NotesFault, RunsDemo};
ghost use Rattle.updater_cli.specs.Devices.{Asks, devices_of};
ghost use Rattle.updater_cli.specs.Format.{MakesStore};
ghost use Rattle.updater_cli.specs.Headline.{Headline, IsNothing};
ghost use Rattle.updater_cli.specs.Requests.{InspectsInput, PublishesBy};
ghost use Rattle.updater_cli.specs.Status.{code_of};
ghost use Rattle.updater_cli.specs.Words.{AsksForDemo, AsksForSession, AsksToPublish, IsUntaken, is_publish, request_of};

use crate::demo_end::demonstrate;
use crate::status::Status;
use crate::whole_session::session;
use crate::words::{Request, read_words};
use demo::DemoFault;
use disks::Disk;
use folders::Folder;
use inspection::inspect;
use journal::LogFault;
use links::Links;
use machine::Report;
use outside::{Sink, Source};
use publication::{WordFault, publish_options};
use small_types::{Room, Word};
use std::alloc::Global;

// A new store of this room.
fn format<D: Disk>(alloc: Global, disk: &mut D, room: Room) -> Status
    requires { AreLimits room.blocks room.half }
    ensures makes { MakesStore D.Disk room (code_of result) disk.old disk.new }
    ensures asks { Asks D.Disk (result ≡ exit.DiskFault) disk.old disk.new }
{
    match table_log::format(alloc, disk, room) {
        Ok(()) => Status::Done,
        Err(LogFault::Memory) => Status::Memory,
        Err(_) => Status::DiskFault,
    }
}

/// Does what the words ask for and answers the exit status.
///
/// `format --blocks N` makes a new store of N blocks of 4,096 bytes, 1 to 1,048,576, on the disk. Its
/// journal has two halves of 16,777,216 bytes, or of as many as `--half` says behind it: 1,048,576 to
/// 67,108,864, in steps of 4,096.
///
/// `session --boot N --now N` answers the lines of the source on the sink over the store on the
/// disk; the numbers are at most 2^62, and `now` is in seconds. The lines are `at N`,
/// `require KEY V`, `install URL`, `check KEY`, `skip KEY`, `rollback KEY`, `launch KEY`,
/// `read L NAME FROM COUNT`, `data L NAME FROM COUNT`, `put L NAME HEX`, `remove L NAME`,
/// `group L GROUP`, `finish L`, `clean`, `list` and `show KEY`. What an `install` or a `group` wants is
/// fetched over the links, and a `check` asks them what the application's provider offers. A `launch`
/// gives a lease on the application's current view, whose program files `read` reads as they are until
/// `finish` or another boot number; `data` reads its data files, which `put` and `remove` change. A
/// `rollback` makes the previous view current again. A `clean` gives up the views that are neither
/// current nor previous nor leased. A line of more than 65,536 bytes is answered as too long and
/// passed over, and no more of it is kept. The report then has what the session did.
///
/// `inspect deployment` and `inspect application` read a manifest from the source, at most 4,194,305
/// bytes, and write what it says, or why it is refused, to the sink.
///
/// `publish` with `--name N`, `--release V`, `--entry E`, `--from F` and `--to T` publishes the files
/// below F in the folder, and writes to the sink what was published, or why it is refused. It may
/// also have `--publisher P`, `--minimum V`, `--check C`, `--provider U`, `--plain`, and any number of
/// marks, `data:FILE` and `group:GROUP:FILE`. These stand in any order, and `read_options` of
/// `publication` says what each may be.
///
/// `demo SEED` makes a new store of 65,536 blocks on the disk, and lives a run over it that the
/// number makes: three releases of 200 generated files are published in memory, each is installed,
/// and the first is launched, its lease is finished, and it is cleaned away. The line of its summary
/// is written to the sink: how many targets each install asked for, and how many blocks were used
/// behind each install and at the end. Where the status is 6, the note then says why.
///
/// The status is 0 where all was done, 1 where the words are none of these, 2 where the source
/// failed, 3 the sink, 4 the disk, 5 where the disk holds no store, 6 where there was no memory or a
/// generated run did not come out as it must, 7 where a manifest or a publish is refused, and 8 where
/// a session's input has more than 4,294,967,296 bytes. For `publish` it is 2 where the folder failed
/// at a reading, and 3 also where it failed at a writing; 1 comes wherever the words give no options,
/// unless memory ran out, and else only where the options do not take the words, as where one is
/// unknown, has no value or stands twice. Wherever the words ask for nothing, and wherever the status
/// is 1, nothing is done.
pub fn run<S: Source, K: Sink, D: Disk, F: Folder, L: Links>(
    alloc: Global,
    words: &[Word],
    source: &mut S,
    sink: &mut K,
    disk: &mut D,
    folder: &mut F,
    links: &mut L,
    report: &mut Report,
    note: &mut Option<DemoFault>,
) -> u8

    // A session: its lines, their run, what a stop at any moment leaves, which views its launches
    // hand out and when, what its reads show, and that a stop leaves leased views whole.
    ensures headline { (boot now : ℕ) → request_of words.now ≡ Some (asked.Session boot now)
        → Headline S.Source K.Sink D.Disk L.Links boot now result
        (devices_of source.old sink.old disk.old links.old)
        (devices_of source.new sink.new disk.new links.new) report.new }

    // It answers: where nothing failed, each line of its input has its reply, the sink took the texts
    // of all replies, and the status is 0; or there was no memory.
    ensures complete { (boot now : ℕ) → request_of words.now ≡ Some (asked.Session boot now)
        → AnswersAll S.Source K.Sink D.Disk L.Links boot now result
        (devices_of source.old sink.old disk.old links.old)
        (devices_of source.new sink.new disk.new links.new) report.new }

    // A new store stands, and a stop while it is made leaves what is said of it.
    ensures format { (room : Room) → request_of words.now ≡ Some (asked.Format room)
        → MakesStore D.Disk room result disk.old disk.new }
    ensures format_others { (room : Room) → request_of words.now ≡ Some (asked.Format room)
        → (source.new ≡ source.old) × (sink.new ≡ sink.old) × (report.new ≡ report.old) }

    // What a manifest says was written, or why it is refused.
    ensures inspect { (kind : Kind) → request_of words.now ≡ Some (asked.Inspect kind)
        → InspectsInput S.Source K.Sink kind result source.old source.new sink.old sink.new }
    ensures inspect_others { (kind : Kind) → request_of words.now ≡ Some (asked.Inspect kind)
        → (disk.new ≡ disk.old) × (report.new ≡ report.old) }

    // A release was published, or the publish was refused, and a line says which.
    ensures publish { (options : Options) → request_of words.now ≡ Some (asked.Publish options)
        → result ≢ code_of exit.Words
        → PublishesBy F.Folder K.Sink options result folder.old folder.new sink.old sink.new }
    ensures publish_others { (options : Options)
        → request_of words.now ≡ Some (asked.Publish options) → (source.new ≡ source.old)
        × (disk.new ≡ disk.old) × (report.new ≡ report.old) }
    ensures folder_kept { ¬ AsksToPublish (request_of words.now) → folder.new ≡ folder.old }

    // A generated run was done, and the line of its summary was written.
    ensures demo { (seed : ℕ) → request_of words.now ≡ Some (asked.Demo seed)
        → RunsDemo K.Sink D.Disk seed result sink.old sink.new disk.old disk.new }
    ensures demo_others { (seed : ℕ) → request_of words.now ≡ Some (asked.Demo seed)
        → (source.new ≡ source.old) × (report.new ≡ report.old) }

    // Why a generated run ended early, and not for the disk, is noted, and nothing else is.
    ensures demo_note { (seed : ℕ) → request_of words.now ≡ Some (asked.Demo seed)
        → NotesFault D.Disk result disk.new note.old note.new }
    ensures note_kept { ¬ AsksForDemo (request_of words.now) → note.new ≡ note.old }

    // Only a session asks a link.
    ensures links_kept { ¬ AsksForSession (request_of words.now) → links.new ≡ links.old }

    // When each status comes.
    ensures statuses { result ≤ 8 }
    ensures session_statuses { (boot now : ℕ)
        → request_of words.now ≡ Some (asked.Session boot now) → result ≢ status_of ends.Refused }
    ensures words { result ≡ code_of exit.Words
        → (request_of words.now ≡ None) ⊎ IsUntaken words.now }
    ensures no_request { request_of words.now ≡ None
        → (result ≡ code_of exit.Words)
        ⊎ ((is_publish words.now ≡ true) × (result ≡ code_of exit.Memory)) }
    ensures other_words { is_publish words.now ≡ false
        → (result ≡ code_of exit.Words) ↔ (request_of words.now ≡ None) }
    ensures nothing { result ≡ code_of exit.Words
        → (source.new ≡ source.old) × (sink.new ≡ sink.old)
        × (disk.new ≡ disk.old) × (folder.new ≡ folder.old) × (links.new ≡ links.old)
        × (report.new ≡ report.old) }
    ensures nothing_asked { request_of words.now ≡ None → (source.new ≡ source.old)
        × (sink.new ≡ sink.old) × (disk.new ≡ disk.old) × (folder.new ≡ folder.old)
        × (links.new ≡ links.old) × (report.new ≡ report.old) }
    ensures source_fault { ¬ AsksToPublish (request_of words.now)
        → result ≡ code_of exit.SourceFault
        → Rose (S.count source.old) (S.count source.new) }
    ensures sink_fault { ¬ AsksToPublish (request_of words.now)
        → result ≡ code_of exit.SinkFault
        → Rose (K.count sink.old) (K.count sink.new) }
    ensures disk_fault { result ≡ code_of exit.DiskFault
        → Rose (D.count disk.old) (D.count disk.new) }

    // A status passes over no fault: each count rises with its own status alone.
    ensures source_quiet { result ≢ code_of exit.SourceFault
        → S.count source.new ≡ S.count source.old }
    ensures sink_quiet { result ≢ code_of exit.SinkFault → K.count sink.new ≡ K.count sink.old }
    ensures disk_quiet { result ≢ code_of exit.DiskFault → D.count disk.new ≡ D.count disk.old }
    ensures folder_quiet { result ≢ code_of exit.SourceFault → result ≢ code_of exit.SinkFault
        → F.count folder.new ≡ F.count folder.old }

    // What the disk tells afterwards it told before.
    ensures told { D.tells disk.new → D.tells disk.old }

    // Where there is no store.
    ensures not_a_store { D.tells disk.new → result ≡ code_of exit.NotAStore
        → StandsForNone (D.seen disk.old) }
    ensures no_store { (boot now : ℕ) → request_of words.now ≡ Some (asked.Session boot now)
        → D.tells disk.new → StandsForNone (D.seen disk.old) → (result ≡ code_of exit.NotAStore)
        ⊎ ((result ≡ code_of exit.DiskFault) ⊎ (result ≡ code_of exit.Memory)) }
    ensures unopened { result ≡ code_of exit.NotAStore
        → (source.new ≡ source.old) × (sink.new ≡ sink.old)
        × (links.new ≡ links.old) × (D.total disk.new ≡ D.total disk.old) × IsNothing report.new }
    ensures unopened_reads { result ≡ code_of exit.NotAStore → D.seen disk.new ≡ D.seen disk.old }
{
    match read_words(alloc, words) {
        Err(WordFault::Unreadable) => Status::Words.code(),
        Err(WordFault::Memory) => Status::Memory.code(),
        Ok(Request::Format { room }) => format(alloc, disk, room).code(),
        Ok(Request::Session { boot, now }) => {
            session(alloc, boot, now, source, sink, disk, links, report).code()
        }
        Ok(Request::Inspect { kind }) => inspect(alloc, kind, source, sink).code(),
        Ok(Request::Publish { options }) => publish_options(alloc, &options, folder, sink).code(),
        Ok(Request::Demo { seed }) => demonstrate(alloc, seed, sink, disk, note).code(),
    }
}
