//! The client's program: `clickstore STORE FOLDER COMMAND`, over a store in a file.
#![tactic(auto)]

mod commands;
mod folder_site;
mod forms;
mod help;
mod other_words;
mod publish_words;
mod reasons;
mod shipped;

use crate::folder_site::FolderSite;
use crate::help::{Page, begins_help, page_of, write_page};
use crate::other_words::what_is_wrong;
use crate::reasons::Misread;
use crate::shipped::run_over_file;
use disks::{Disk, Start, Unknown};
use http_link::HttpLink;
use links::{Link, Links};
use mirrors::Mirrors;
use outside::Failed;
use outside_real::{Failure, FileDisk, RealFolder, StdSink, StdSource, TcpWire};
use small_types::{List, Word};
use std::alloc::AllocError;
use std::env;
use std::fmt::Display;
use std::io::{self, ErrorKind};
use std::process::ExitCode;
use updater_cli::{DemoFault, Report};

// What the standard input and output are called.
const INPUT: &str = "standard input";

const OUTPUT: &str = "standard output";

const NO_MEMORY: &str = "no memory";

// How a store of the form before this one begins.
const FIRST_FORM: [u8; 8] = *b"CLKSTOR0";

// How the command line is read.
enum CommandLine {
    // The paths of the store and the folder, and the words behind them.
    Run {
        store: String,
        folder: String,
        words: Vec<Word>,
    },
    // A text to print.
    Print(Page),
    // Other words.
    Words(Misread<'static>),
    // The page of a command that there is not.
    NoPage(String),
}

// The words behind the program's name.
fn read_words(rt: &HostRuntime) -> io::Result<Vec<String>> {
    let mut words = Vec::new(rt.alloc());
    for word in env::args(rt)?.skip(1) {
        words.push(word)?;
    }
    Ok(words)
}

// Words that ask for no page.
fn read_run(rt: &HostRuntime, words: Vec<String>) -> Result<CommandLine, AllocError> {
    let mut words = words.into_iter();
    let Some(store) = words.next() else {
        return Ok(CommandLine::Words(Misread::no_command()));
    };
    let Some(folder) = words.next() else {
        return Ok(CommandLine::Words(Misread::no_command()));
    };
    let mut behind = Vec::new(rt.alloc());
    for word in words {
        behind.push(Word::from_vec(word.into_bytes()))?;
    }
    if behind.is_empty() && begins_help(store.as_str()) {
        return Ok(CommandLine::NoPage(folder));
    }
    Ok(CommandLine::Run {
        store,
        folder,
        words: behind,
    })
}

fn read_args(rt: &HostRuntime) -> Result<CommandLine, AllocError> {
    let words = match read_words(rt) {
        Ok(words) => words,
        Err(error) => {
            return match error.kind() {
                ErrorKind::OutOfMemory => Err(AllocError),
                _ => Ok(CommandLine::Words(Misread::no_text())),
            };
        }
    };
    match page_of(words.as_slice()) {
        Some(page) => Ok(CommandLine::Print(page)),
        None => read_run(rt, words),
    }
}

// Says why the program ends. Where that fails nothing more can be said.
fn say<D: Display + Drop>(rt: &HostRuntime, why: D) {
    let _ = eprintln!(rt; "clickstore: {why}");
}

fn print(rt: &HostRuntime, page: Page) -> Result<u8, AllocError> {
    let mut sink = StdSink::new(rt.clone()?);
    match write_page(&mut sink, page) {
        Ok(()) => Ok(0),
        Err(Failed) => {
            say(rt, Failure::new(OUTPUT, sink.why()));
            Ok(3)
        }
    }
}

// The devices of a run by their names, and why they failed, if they did.
#[derive(Drop)]
struct Failures<'a> {
    source: Failure<'a>,
    sink: Failure<'a>,
    disk: Failure<'a>,
    folder: Failure<'a>,
}

// Says why there was no memory, or why a generated run ended early, if that is noted.
fn explain_early(rt: &HostRuntime, note: Option<DemoFault>) {
    match note {
        Some(fault) => say(rt, fault),
        None => say(rt, NO_MEMORY),
    }
}

// Whether the disk has a store of the form before this one.
fn is_first_form<D: Disk>(disk: &mut D) -> bool {
    let mut sign = [0u8; 8];
    disk.read(0, &mut sign) == Ok(8) && sign == FIRST_FORM
}

// Says that the file is no store, and what to do; of a store of the form before this one, that it is
// that.
fn explain_no_store(rt: &HostRuntime, is_first_form: bool, disk: &Failure) {
    let path = disk.name();
    if is_first_form {
        say(
            rt,
            format_args!(
                "{path}: a store of the first form, CLKSTOR0, which only an older clickstore reads; \
                 'format' erases it and makes a new one, to install into again"
            ),
        );
        return;
    }
    say(
        rt,
        format_args!("{path}: no store, or a damaged one; 'format' erases it and makes a new one"),
    );
}

// Says why a run of these words ended with this status, if it was not done. Of a generated run that
// ended early it is noted why.
fn explain(
    rt: &HostRuntime,
    status: u8,
    words: &[Word],
    note: Option<DemoFault>,
    is_first_form: bool,
    failures: &Failures,
) {
    match status {
        1 => say(rt, what_is_wrong(rt.alloc(), words)),
        2 => say(rt, failures.source.or(failures.folder)),
        3 => say(rt, failures.sink.or(failures.folder)),
        4 => say(rt, failures.disk),
        5 => explain_no_store(rt, is_first_form, &failures.disk),
        6 => explain_early(rt, note),
        8 => say(rt, "more input than a session takes"),
        _ => {}
    }
}

// Runs the words over the store and the folder at these paths and over links, at any start of the
// store's file.
fn run_over_links<S: Start, L: Links>(
    rt: &HostRuntime,
    store: String,
    start: S,
    folder: String,
    links: &mut L,
    words: &[Word],
) -> Result<u8, AllocError> {
    let alloc = rt.alloc();
    let mut source = StdSource::new(rt.clone()?);
    let mut sink = StdSink::new(rt.clone()?);
    let mut disk = FileDisk::new(rt.clone()?, store, start);
    let mut folder = RealFolder::new(rt.clone()?, folder);
    let mut report = Report {
        lines: List::from_vec(Vec::new(alloc)),
        begun: None,
    };
    let mut note = None;
    let status = run_over_file(
        alloc,
        words,
        &mut source,
        &mut sink,
        &mut disk,
        &mut folder,
        links,
        &mut report,
        &mut note,
    );
    let is_first_form = status == 5 && is_first_form(&mut disk);
    let failures = Failures {
        source: Failure::new(INPUT, source.why()),
        sink: Failure::new(OUTPUT, sink.why()),
        disk: Failure::new(disk.path(), disk.why()),
        folder: Failure::new(folder.path(), folder.why()),
    };
    explain(rt, status, words, note, is_first_form, &failures);
    Ok(status)
}

// Runs the words over the store and the folder at these paths. What a session fetches is asked of
// the folder first, and then of the host over HTTP.
fn run_words(
    rt: &HostRuntime,
    store: String,
    folder: String,
    words: &[Word],
) -> Result<u8, AllocError> {
    let alloc = rt.alloc();
    let site = RealFolder::new(rt.clone()?, folder.clone()?);
    let wire = TcpWire::new(rt.clone()?);
    let mut boxes: Vec<Box<dyn Link>> = Vec::new(alloc);
    boxes.push(Box::new(alloc, FolderSite::new(alloc, site))?)?;
    boxes.push(Box::new(alloc, HttpLink::new(alloc, wire))?)?;
    let mut links = Mirrors::new(alloc, boxes);
    run_over_links(rt, store, Unknown, folder, &mut links, words)
}

fn run_args(rt: &HostRuntime) -> Result<u8, AllocError> {
    match read_args(rt)? {
        CommandLine::Words(why) => {
            say(rt, why);
            Ok(1)
        }
        CommandLine::NoPage(name) => {
            say(rt, Misread::no_such_command(name.as_str()));
            Ok(1)
        }
        CommandLine::Print(page) => print(rt, page),
        CommandLine::Run {
            store,
            folder,
            words,
        } => run_words(rt, store, folder, &words),
    }
}

fn main(rt: HostRuntime) -> ExitCode {
    match run_args(&rt) {
        Ok(status) => ExitCode::from(status),
        Err(AllocError) => {
            say(&rt, NO_MEMORY);
            ExitCode::from(6)
        }
    }
}
