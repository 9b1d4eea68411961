//! The host's program: `clickhost FOLDER PORT COUNT`, over the files of a folder.
#![tactic(auto)]

mod help;
mod other_words;

use crate::help::{HELP, VERSION, asks_for_help};
use crate::other_words::{HostRun, Misread, read_words, what_is_wrong};
use host_cli::{host_run, read_port};
use outside::{Failed, Sink, write_all};
use outside_real::{Failure, RealFolder, Reason, StdSink, TcpDoor};
use small_types::Word;
use std::alloc::AllocError;
use std::fmt::Display;
use std::io::ErrorKind;
use std::process::ExitCode;
use std::{env, fs};

const NO_MEMORY: &str = "no memory";

// How the command line is read.
enum CommandLine {
    // The folder's path, and the words behind it.
    Run { folder: String, words: Vec<Word> },
    // A text to print.
    Print(&'static [u8]),
    // Other words.
    Words(Misread<'static>),
}

fn read_args(rt: &HostRuntime) -> Result<CommandLine, AllocError> {
    let args = match env::args(rt) {
        Ok(args) => args,
        Err(error) => {
            return match error.kind() {
                ErrorKind::OutOfMemory => Err(AllocError),
                _ => Ok(CommandLine::Words(Misread::NoText)),
            };
        }
    };
    let mut args = args.skip(1);
    let Some(folder) = args.next() else {
        return Ok(CommandLine::Words(Misread::Missing("FOLDER")));
    };
    let mut words = Vec::new(rt.alloc());
    for arg in args {
        words.push(Word::from_vec(arg.into_bytes()))?;
    }
    if words.is_empty() {
        if asks_for_help(folder.as_str()) {
            return Ok(CommandLine::Print(HELP));
        }
        if folder.as_str() == "--version" {
            return Ok(CommandLine::Print(VERSION));
        }
    }
    Ok(CommandLine::Run { folder, words })
}

// The port of the first word, or 0 where it gives none.
fn port_in(words: &[Word]) -> u16 {
    match words.first() {
        Some(word) => read_port(word.as_slice()).unwrap_or(0),
        None => 0,
    }
}

// Says why the program ends. Where that fails nothing more can be said.
fn say<D: Display + Drop>(rt: &HostRuntime, why: D) {
    let _ = eprintln!(rt; "clickhost: {why}");
}

fn print(rt: &HostRuntime, text: &[u8]) -> Result<u8, AllocError> {
    let mut sink = StdSink::new(rt.clone()?);
    match write_all(&mut sink, text) {
        Ok(()) => Ok(0),
        Err(Failed) => {
            say(rt, Failure::new("standard output", sink.why()));
            Ok(3)
        }
    }
}

// Says why a run of these words ended with this status, if it was not done.
fn explain(rt: &HostRuntime, status: u8, words: &[Word], why: Option<&Reason>) {
    match status {
        1 => say(rt, what_is_wrong(words)),
        2 => {
            let port = port_in(words);
            match why {
                Some(reason) => say(rt, format_args!("port {port}: {reason}")),
                None => say(rt, format_args!("port {port}: failed")),
            }
        }
        6 => say(rt, NO_MEMORY),
        _ => {}
    }
}

// Whether the error says that nothing stands at a path.
fn is_absence(kind: ErrorKind) -> bool {
    kind == ErrorKind::NotFound || kind == ErrorKind::NotADirectory
}

// Says what is served where, and where the folder is not there.
fn announce(rt: &HostRuntime, folder: &str, asked: HostRun) {
    let HostRun { port, count } = asked;
    let path = folder.escape_debug();
    say(
        rt,
        format_args!("folder {path}, address http://0.0.0.0:{port}/, connections {count}"),
    );
    let path = folder.escape_debug();
    match fs::metadata(rt, folder) {
        Ok(facts) if facts.is_dir() => {}
        Ok(_) => say(rt, format_args!("{path}: there is no such folder")),
        Err(error) if is_absence(error.kind()) => {
            say(rt, format_args!("{path}: there is no such folder"));
        }
        Err(error) => {
            let reason = Reason::from(error);
            say(rt, format_args!("{path}: {reason}"));
        }
    }
}

fn run_words(rt: &HostRuntime, folder: String, words: &[Word]) -> Result<u8, AllocError> {
    let alloc = rt.alloc();
    match read_words(words) {
        Ok(asked) if asked.count > 0 => announce(rt, folder.as_str(), asked),
        _ => {}
    }
    let mut folder = RealFolder::new(rt.clone()?, folder);
    let mut door = TcpDoor::new(rt.clone()?, port_in(words));
    let status = host_run(alloc, words, &mut folder, &mut door);
    explain(rt, status, words, door.why());
    Ok(status)
}

fn run_args(rt: &HostRuntime) -> Result<u8, AllocError> {
    match read_args(rt)? {
        CommandLine::Words(why) => {
            say(rt, why);
            Ok(1)
        }
        CommandLine::Print(text) => print(rt, text),
        CommandLine::Run { folder, words } => run_words(rt, folder, &words),
    }
}

fn main(rt: HostRuntime) -> ExitCode {
    match run_args(&rt) {
        Ok(status) => ExitCode::from(status),
        Err(AllocError) => {
            say(&rt, NO_MEMORY);
            ExitCode::from(6)
        }
    }
}
