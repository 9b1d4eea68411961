// How a session begins and ends.
ghost use Rattle.std.specs.Prelude.{◌≡◌, ◌≢◌, ◌⊎◌, ◌≤◌, []};
ghost use Rattle.small_types.specs.declared.limits.TheConstants.{NUMBER_LIMIT};
ghost use Rattle.updater.specs.StandsFor.{StandsForNone};
ghost use Rattle.updater_cli.specs.declared.status.Status.TheVariants as exit;
ghost use Rattle.updater_cli.specs.Devices.{Asks, RisesWith, devices_of};
ghost use Rattle.updater_cli.specs.Headline.{Headline, IsNothing};
ghost use Rattle.updater_cli.specs.OpensSession.{OpensSession, begun_by};
ghost use Rattle.updater_cli.specs.Report.{report_of};
ghost use Rattle.updater_cli.specs.Status.{code_of, end_status};

use crate::course::Course;
use crate::session::answer_all;
use crate::status::Status;
use disks::Disk;
use links::Links;
use machine::{Event, Report, ReportLine};
use outside::{Sink, Source};
use small_types::List;
use std::alloc::{AllocError, Global};
use std::mem::replace;
use updater::{RecoverFault, Updater};

// Opens the store. A boot number that differs from the kept one is the first event. The links are asked for nothing.
fn open<D: Disk, L: Links>(
    alloc: Global,
    boot: u64,
    now: u64,
    disk: &mut D,
    links: &L,
) -> Result<Course, Status>
    requires boot { boot ≤ NUMBER_LIMIT }
    requires now { now ≤ NUMBER_LIMIT }
    ensures { OpensSession D.Disk L.Links boot now links.now disk.old result disk.new }
{
    let mut lines = Vec::new(alloc);
    match lines.reserve(1) {
        Ok(()) => {}
        Err(AllocError) => return Err(Status::Memory),
    }
    let (updater, booted) = match Updater::recover(alloc, disk, boot) {
        Ok(opened) => opened,
        Err(RecoverFault::NotAStore) => return Err(Status::NotAStore),
        Err(RecoverFault::Memory) => return Err(Status::Memory),
        Err(RecoverFault::DiskFault) => return Err(Status::DiskFault),
    };
    if !booted {
        return Ok(Course {
            updater,
            now,
            lines,
            begun: None,
        });
    }
    let mark = disk.calls();
    let failures = links.failures();
    lines
        .push(ReportLine {
            event: Event::Boot { boot },
            reply: None,
            mark,
            failures,
        })
        .unwrap();
    Ok(Course {
        updater,
        now,
        lines,
        begun: None,
    })
}

// The report where the store was not opened: if the disk failed, the boot event was begun.
fn unopened_report(alloc: Global, boot: u64, status: Status) -> Report
    ensures { result ≡ report_of [] (begun_by boot status) }
{
    let begun = match status {
        Status::DiskFault => Some(Event::Boot { boot }),
        _ => None,
    };
    Report {
        lines: List::from_vec(Vec::new(alloc)),
        begun,
    }
}

// The report of what was done.
fn report_of(course: Course) -> Report
    ensures { result ≡ report_of course.lines.items course.begun }
{
    let Course { lines, begun, .. } = course;
    Report {
        lines: List::from_vec(lines),
        begun,
    }
}

// Puts the report in place of the one that was handed in.
fn put_report(report: &mut Report, made: Report)
    ensures { report.new ≡ made }
{
    drop(replace(report, made));
}

// The status with which the session ends.
fn end_status(outcome: Result<(), Status>) -> Status
    ensures { result ≡ end_status outcome }
{
    match outcome {
        Ok(()) => Status::Done,
        Err(status) => status,
    }
}

/// A session over the store on the disk. The report is made anew: it has what this session did.
pub(crate) fn session<S: Source, K: Sink, D: Disk, L: Links>(
    alloc: Global,
    boot: u64,
    now: u64,
    source: &mut S,
    sink: &mut K,
    disk: &mut D,
    links: &mut L,
    report: &mut Report,
) -> Status
    requires boot { boot ≤ NUMBER_LIMIT }
    requires now { now ≤ NUMBER_LIMIT }
    ensures headline { Headline S.Source K.Sink D.Disk L.Links boot now (code_of result)
        (devices_of source.old sink.old disk.old links.old)
        (devices_of source.new sink.new disk.new links.new) report.new }
    ensures not_a_store { D.tells disk.new → result ≡ exit.NotAStore
        → StandsForNone (D.seen disk.old) }
    ensures no_store { D.tells disk.new → StandsForNone (D.seen disk.old)
        → (result ≡ exit.NotAStore) ⊎ ((result ≡ exit.DiskFault) ⊎ (result ≡ exit.Memory)) }
    ensures unopened { result ≡ exit.NotAStore → (source.new ≡ source.old) × (sink.new ≡ sink.old)
        × (links.new ≡ links.old) × (D.total disk.new ≡ D.total disk.old) × IsNothing report.new }
    ensures unopened_reads { result ≡ exit.NotAStore → D.seen disk.new ≡ D.seen disk.old }
    ensures words { result ≢ exit.Words }
    ensures reads { RisesWith (result ≡ exit.SourceFault)
        (S.count source.old) (S.count source.new) }
    ensures writes { RisesWith (result ≡ exit.SinkFault) (K.count sink.old) (K.count sink.new) }
    ensures asks { Asks D.Disk (result ≡ exit.DiskFault) disk.old disk.new }
{
    let mut course = match open(alloc, boot, now, disk, links) {
        Ok(course) => course,
        Err(status) => {
            put_report(report, unopened_report(alloc, boot, status));
            return status;
        }
    };
    let outcome = answer_all(alloc, source, sink, disk, links, &mut course);
    put_report(report, report_of(course));
    end_status(outcome)
}
