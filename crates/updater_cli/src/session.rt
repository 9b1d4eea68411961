// The lines of a session: pieces of the input are cut into lines, which are answered one after the
// other. Of a line that has not ended no more is kept than tells what it is.
ghost use Rattle.std.specs.Prelude.{◌≡◌, ◌<◌, ◌≤◌, [], ◌∷◌, ◌++◌, length, take, IfOk, OnErr};
ghost use Rattle.outside.specs.Streams.{Causes};
ghost use Rattle.command_text.specs.Input.{HasNoFeed};
ghost use Rattle.updater_cli.specs.Lines.{InputAnswered, IsPending, IsReady, PieceAnswered, RestAnswered, place_of};

use crate::course::Course;
use crate::limits::INPUT_LIMIT;
use crate::line::answer_line;
use crate::status::Status;
use command_text::{keep, strip_carriage_return};
use disks::Disk;
use links::Links;
use outside::{Failed, Sink, Source};
use small_types::cut_once;
use std::alloc::{AllocError, Global};

/// How many bytes are asked of the source at a time.
const PIECE: usize = 65_536;

// Answers the pending line, which ends with these bytes and a line feed behind them.
fn answer_ended<K: Sink, D: Disk, L: Links>(
    alloc: Global,
    sink: &mut K,
    disk: &mut D,
    links: &mut L,
    course: &mut Course,
    pending: &mut Vec<u8>,
    part: &[u8],
) -> Result<(), Status>
    requires ready { IsReady course.old }
    requires pending { IsPending pending.old.items }
    requires part { HasNoFeed part.now }
    ensures { PieceAnswered K.Sink D.Disk L.Links (pending.old.items ++ (part.now ++ 10 ∷ []))
        (place_of sink.old disk.old links.old course.old) result pending.new.items
        (place_of sink.new disk.new links.new course.new) }
{
    match keep(pending, part) {
        Ok(()) => {}
        Err(AllocError) => return Err(Status::Memory),
    }
    let line = strip_carriage_return(pending.as_slice());
    if let Err(status) = answer_line(alloc, sink, disk, links, course, line) {
        return Err(status);
    }
    pending.clear();
    Ok(())
}

// Answers each line that the piece ends, and keeps what it has of the next one.
fn answer_piece<K: Sink, D: Disk, L: Links>(
    alloc: Global,
    sink: &mut K,
    disk: &mut D,
    links: &mut L,
    course: &mut Course,
    pending: &mut Vec<u8>,
    piece: &[u8],
) -> Result<(), Status>
    requires ready { IsReady course.old }
    requires pending { IsPending pending.old.items }
    ensures { PieceAnswered K.Sink D.Disk L.Links (pending.old.items ++ piece.now)
        (place_of sink.old disk.old links.old course.old) result pending.new.items
        (place_of sink.new disk.new links.new course.new) }
{
    let mut rest = piece;
    while let Some((part, more)) = cut_once(rest, b'\n') {
        if let Err(status) = answer_ended(alloc, sink, disk, links, course, pending, part) {
            return Err(status);
        }
        rest = more;
    }
    match keep(pending, rest) {
        Ok(()) => Ok(()),
        Err(AllocError) => Err(Status::Memory),
    }
}

// Answers what is left at the end of the input: a last line without a line feed counts.
fn answer_rest<K: Sink, D: Disk, L: Links>(
    alloc: Global,
    sink: &mut K,
    disk: &mut D,
    links: &mut L,
    course: &mut Course,
    pending: &[u8],
) -> Result<(), Status>
    requires { IsReady course.old }
    ensures { RestAnswered K.Sink D.Disk L.Links pending.now
        (place_of sink.old disk.old links.old course.old) result
        (place_of sink.new disk.new links.new course.new) }
{
    if pending.is_empty() {
        return Ok(());
    }
    answer_line(alloc, sink, disk, links, course, pending)
}

// Reads at most so many bytes into the front of the buffer.
fn read_piece<S: Source>(source: &mut S, buf: &mut [u8], room: usize) -> Result<usize, Failed>
    requires { (0 < room) × (0 < length buf.old) }
    ensures within { IfOk result (λ n. (n ≤ room) × (n ≤ length buf.old)) }
    ensures bytes { S.tells → IfOk result (λ n. S.left source.old
        ≡ take n buf.new ++ S.left source.new) }
    ensures end { S.tells → result ≡ Ok 0 → S.left source.old ≡ [] }
    ensures kept { S.tells → OnErr result (S.left source.new ≡ S.left source.old) }
    ensures cause { Causes (S.count source.old) (S.count source.new) result }
{
    let space = room.min(buf.len());
    source.read(&mut buf[..space])
}

/// Answers the lines of the source to its end, or until something fails.
pub(crate) fn answer_all<S: Source, K: Sink, D: Disk, L: Links>(
    alloc: Global,
    source: &mut S,
    sink: &mut K,
    disk: &mut D,
    links: &mut L,
    course: &mut Course,
) -> Result<(), Status>
    requires { IsReady course.old }
    ensures { InputAnswered S.Source K.Sink D.Disk L.Links source.old
        (place_of sink.old disk.old links.old course.old) result source.new
        (place_of sink.new disk.new links.new course.new) }
{
    let mut buf = [0u8; PIECE];
    let mut pending = Vec::new(alloc);
    let mut room = INPUT_LIMIT;
    while room > 0 {
        let n = match read_piece(source, &mut buf, room) {
            Ok(n) => n,
            Err(Failed) => return Err(Status::SourceFault),
        };
        if n == 0 {
            return answer_rest(alloc, sink, disk, links, course, &pending);
        }
        room -= n;
        if let Err(status) = answer_piece(
            alloc,
            sink,
            disk,
            links,
            course,
            &mut pending,
            &buf[..n],
        ) {
            return Err(status);
        }
    }
    match read_piece(source, &mut buf, 1) {
        Ok(0) => answer_rest(alloc, sink, disk, links, course, &pending),
        Ok(_) => Err(Status::TooMuchInput),
        Err(Failed) => Err(Status::SourceFault),
    }
}
