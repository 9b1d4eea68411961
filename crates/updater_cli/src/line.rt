// One line of a session.
ghost use Rattle.std.specs.Prelude.{◌≡◌, ◌≤◌, [], Some};
ghost use Rattle.small_types.specs.declared.limits.TheConstants.{NUMBER_LIMIT};
ghost use Rattle.machine.specs.Machine.{moment_after};
ghost use Rattle.updater_cli.specs.Lines.{IsReady, LineAnswered, LineRun, place_of};

use crate::course::Course;
use crate::status::Status;
use command_text::{print_reply, read_line};
use disks::Disk;
use links::Links;
use machine::{Command, Event, Heard, Reply, ReportLine};
use outside::{Failed, Sink};
use small_types::List;
use std::alloc::{AllocError, Global};
use std::mem::replace;
use updater::Updater;

// What a line heard before it is run.
fn nothing_heard(alloc: Global) -> Heard
    ensures { result.texts ≡ [] }
{
    Heard {
        texts: List::from_vec(Vec::new(alloc)),
    }
}

// The moment of the next line.
fn next_moment(now: u64, reply: &Reply) -> u64
    ensures { result ≡ moment_after now (Some reply.now) }
{
    match reply {
        Reply::At { now: next } => *next,
        _ => now,
    }
}

// The event of a line, with what it heard, and its reply. Where the disk fails the event is that of the error.
fn run_line<D: Disk, L: Links>(
    alloc: Global,
    now: u64,
    disk: &mut D,
    links: &mut L,
    updater: &mut Updater,
    line: &[u8],
) -> Result<(Event, Reply), Event>
    requires moment { now ≤ NUMBER_LIMIT }
    ensures { LineRun D.Disk L.Links now line.now updater.old disk.old links.old result
        updater.new disk.new links.new }
{
    let command = match read_line(alloc, line) {
        Ok(command) => command,
        Err(fault) => return Ok((Event::Unread { fault }, Reply::Line { fault })),
    };
    let mut heard = nothing_heard(alloc);
    let answer = updater.apply(alloc, disk, links, now, &command, &mut heard);
    let event = Event::Line {
        command,
        now,
        heard,
    };
    match answer {
        Ok(reply) => Ok((event, reply)),
        Err(Failed) => Err(event),
    }
}

/// Answers a line: runs it, writes its reply, and adds it to the lines. The room for it is taken first.
pub(crate) fn answer_line<K: Sink, D: Disk, L: Links>(
    alloc: Global,
    sink: &mut K,
    disk: &mut D,
    links: &mut L,
    course: &mut Course,
    line: &[u8],
) -> Result<(), Status>
    requires { IsReady course.old }
    ensures { LineAnswered K.Sink D.Disk L.Links line.now
        (place_of sink.old disk.old links.old course.old) result
        (place_of sink.new disk.new links.new course.new) }
{
    match course.lines.reserve(1) {
        Ok(()) => {}
        Err(AllocError) => return Err(Status::Memory),
    }
    let ran = run_line(alloc, course.now, disk, links, &mut course.updater, line);
    let (event, reply) = match ran {
        Ok(answer) => answer,
        Err(event) => {
            drop(replace(&mut course.begun, Some(event)));
            return Err(Status::DiskFault);
        }
    };
    course.now = next_moment(course.now, &reply);
    let mark = disk.calls();
    let failures = links.failures();
    let written = print_reply(&reply, sink);
    course
        .lines
        .push(ReportLine {
            event,
            reply: Some(reply),
            mark,
            failures,
        })
        .unwrap();
    if written.is_err() {
        return Err(Status::SinkFault);
    }
    Ok(())
}
