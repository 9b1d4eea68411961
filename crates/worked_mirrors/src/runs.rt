// A session over several links.
use crate::noted::{Note, Noted};
use crate::sites::{Site, site_of};
use crate::texts::Texts;
use disks::MemDisk;
use folders::MemFolder;
use links::{Link, LinkFault, Links};
use mirrors::Mirrors;
use outside::{MemSink, MemSource};
use small_types::limits::LINK_LIMIT;
use small_types::{Bytes, List, Word};
use std::alloc::{AllocError, Global};
use std::io::{self, ErrorKind};
use updater_cli::{Report, run};

fn none<T>(alloc: Global) -> List<T> {
    List::from_vec(Vec::new(alloc))
}

fn words_of(alloc: Global, text: &str) -> Result<Vec<Word>, AllocError> {
    let mut words = Vec::new(alloc);
    for word in text.split_whitespace() {
        let bytes = word.as_bytes().to_vec(alloc)?;
        words.push(Word::from_vec(bytes))?;
    }
    Ok(words)
}

// Prints the status and the output of a run.
fn tell(rt: &HostRuntime, status: u8, output: &[u8]) -> io::Result<()> {
    if status > 0 {
        println!(rt; "status {status}")?;
    }
    let Ok(text) = std::str::from_utf8(output) else {
        return rt.println("no text");
    };
    rt.print(text)
}

// Runs the words over the devices with this input, and prints what they write.
fn run_words<L: Links>(
    rt: &HostRuntime,
    words: &str,
    input: &str,
    disk: &mut MemDisk,
    links: &mut Noted<L>,
    report: &mut Report,
) -> io::Result<()> {
    let alloc = rt.alloc();
    let words = words_of(alloc, words)?;
    let input = Bytes::from_slice(alloc, input.as_bytes())?;
    let mut source = MemSource::new(alloc, input, none(alloc));
    let mut sink = MemSink::new(alloc, Bytes::from_vec(Vec::new(alloc)), none(alloc));
    let files = List::from_vec(Vec::new(alloc));
    let mut folder = MemFolder::new(alloc, files, none(alloc));
    let mut note = None;
    let status = run(
        alloc,
        &words,
        &mut source,
        &mut sink,
        disk,
        &mut folder,
        links,
        report,
        &mut note,
    );
    let told = tell(rt, status, sink.taken());
    drop(folder);
    drop(sink);
    drop(source);
    told
}

// Prints how many bytes of an answer were taken and how many there were, or why there are none.
fn print_note(rt: &HostRuntime, note: &Note, path: &str) -> io::Result<()> {
    let place = note.place;
    let taken = note.taken;
    match note.answer {
        Ok(length) => println!(rt; "  link {place} {path} {taken} of {length}"),
        Err(LinkFault::Missing) => println!(rt; "  link {place} {path} missing"),
        Err(LinkFault::Down) => println!(rt; "  link {place} {path} down"),
        Err(LinkFault::Memory) => println!(rt; "  link {place} {path} memory"),
    }
}

// Prints each time that a link was asked, and how many targets there were.
fn print_notes<L: Links>(rt: &HostRuntime, links: &Noted<L>) -> io::Result<()> {
    for note in links.notes.iter() {
        let Some(path) = links.paths.get(note.target) else {
            return Err(ErrorKind::NotFound.into());
        };
        print_note(rt, note, path.as_str())?;
    }
    let count = links.paths.len();
    println!(rt; "  targets {count}")
}

// Prints how often each link failed.
fn print_faults<L: Links>(rt: &HostRuntime, links: &Noted<L>) -> io::Result<()> {
    rt.print("  faults")?;
    for place in 0..links.sources() {
        let faults = links.faults(place);
        print!(rt; " {faults}")?;
    }
    rt.println("")
}

// Prints how often links had failed at the end of the boot event and of each line.
fn print_failures(rt: &HostRuntime, report: &Report) -> io::Result<()> {
    rt.print("  failures")?;
    for line in report.lines.as_slice() {
        let failures = line.failures;
        print!(rt; " {failures}")?;
    }
    rt.println("")
}

// Makes a store on the disk, runs the lines over it, and prints what the links did.
fn run_lines<L: Links>(
    rt: &HostRuntime,
    lines: &str,
    disk: &mut MemDisk,
    links: &mut Noted<L>,
    report: &mut Report,
) -> io::Result<()> {
    run_words(rt, "format --blocks 10", "", disk, links, report)?;
    run_words(rt, "session --boot 1 --now 0", lines, disk, links, report)?;
    print_notes(rt, links)?;
    print_faults(rt, links)?;
    print_failures(rt, report)
}

// The same over a new disk.
fn run_anew<L: Links>(rt: &HostRuntime, lines: &str, links: &mut Noted<L>) -> io::Result<()> {
    let alloc = rt.alloc();
    let mut disk = MemDisk::new(alloc, Bytes::from_vec(Vec::new(alloc)), none(alloc));
    let mut report = Report {
        lines: none(alloc),
        begun: None,
    };
    let ran = run_lines(rt, lines, &mut disk, links, &mut report);
    drop(report);
    drop(disk);
    ran
}

/// Runs the lines in a session over a new store and the links that are described, a line for each.
pub fn play(rt: &HostRuntime, texts: &Texts, described: &str, lines: &str) -> io::Result<()> {
    let alloc = rt.alloc();
    let mut boxes: Vec<Box<dyn Link>> = Vec::new(alloc);
    for line in described.lines() {
        match site_of(alloc, texts, line)? {
            Site::Memory(link) => boxes.push(Box::new(alloc, link)?)?,
            Site::Web(link) => boxes.push(Box::new(alloc, link)?)?,
        }
    }
    if boxes.is_empty() || boxes.len() > LINK_LIMIT {
        return Err(ErrorKind::InvalidInput.into());
    }
    let mut links = Noted::new(alloc, Mirrors::new(alloc, boxes));
    let ran = run_anew(rt, lines, &mut links);
    drop(links);
    ran
}
