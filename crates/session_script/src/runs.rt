// The top call over devices in memory.
use crate::next::Next;
use disks::MemDisk;
use fetcher::FolderLink;
use folders::{Folder, MemFolder};
use journal::are_limits;
use links::Single;
use outside::{MemSink, MemSource};
use small_types::{Bytes, List, Room, Target, Word};
use std::alloc::{AllocError, Global};
use std::io::{self, ErrorKind};
use updater_cli::{Report, run};

/// The links of a client: one, to a folder.
pub type Site = Single<FolderLink<MemFolder>>;

fn nothing<T>(alloc: Global) -> List<T> {
    List::from_vec(Vec::new(alloc))
}

// The numbers of the calls that fail: that one, or none where it is 0.
fn only(alloc: Global, call: u64) -> Result<List<u64>, AllocError> {
    let mut calls = Vec::new(alloc);
    if call > 0 {
        calls.push(call)?;
    }
    Ok(List::from_vec(calls))
}

/// A folder without files.
pub fn empty_folder(alloc: Global) -> MemFolder {
    let files = List::from_vec(Vec::new(alloc));
    MemFolder::new(alloc, files, nothing(alloc))
}

/// A folder without files, whose first call fails.
pub fn unused_folder(alloc: Global) -> Result<MemFolder, AllocError> {
    let files = List::from_vec(Vec::new(alloc));
    Ok(MemFolder::new(alloc, files, only(alloc, 1)?))
}

/// One link to the folder.
pub fn site_of(alloc: Global, folder: MemFolder) -> Site {
    Single {
        link: FolderLink::new(alloc, folder),
        asked: nothing(alloc),
    }
}

/// A disk of no bytes.
pub fn empty_disk(alloc: Global) -> MemDisk {
    MemDisk::new(alloc, Bytes::from_vec(Vec::new(alloc)), nothing(alloc))
}

/// A disk of these bytes, whose call of that number fails, or none where it is 0.
pub fn disk_of(alloc: Global, bytes: &[u8], failing: u64) -> Result<MemDisk, AllocError> {
    let bytes = Bytes::from_slice(alloc, bytes)?;
    Ok(MemDisk::new(alloc, bytes, only(alloc, failing)?))
}

/// A disk with a new store of so many blocks, whose journal has halves of so many bytes. The program
/// makes longer ones, over which a script with many stops takes long, and which never fill here.
pub fn store_of(alloc: Global, blocks: u64, half: u64) -> io::Result<MemDisk> {
    if !are_limits(blocks, half) {
        return Err(ErrorKind::InvalidInput.into());
    }
    let mut disk = empty_disk(alloc);
    match table_log::format(alloc, &mut disk, Room { blocks, half }) {
        Ok(()) => Ok(disk),
        Err(_) => Err(ErrorKind::Other.into()),
    }
}

/// A report of nothing.
pub fn empty_report(alloc: Global) -> Report {
    Report {
        lines: nothing(alloc),
        begun: None,
    }
}

/// The words of a text, between spaces.
pub fn words_of(alloc: Global, text: &str) -> Result<Vec<Word>, AllocError> {
    let mut words = Vec::new(alloc);
    for word in text.split(' ') {
        words.push(Word::from_vec(word.as_bytes().to_vec(alloc)?))?;
    }
    Ok(words)
}

// Prints the status, and then what was written. A status 0 without a label is told only where it is
// asked for.
fn tell(rt: &HostRuntime, next: &Next, status: u8, output: &[u8]) -> io::Result<()> {
    match &next.label {
        Some(label) => {
            let label = label.as_str();
            println!(rt; "{label}: {status}")?;
        }
        None => {
            if next.always || status != 0 {
                println!(rt; "status {status}")?;
            }
        }
    }
    match std::str::from_utf8(output) {
        Ok(text) => rt.print(text),
        Err(_) => rt.println("no text"),
    }
}

// The status of the words over the devices with this input, and what they write.
fn ran_over<F: Folder>(
    alloc: Global,
    next: &Next,
    words: &[Word],
    input: &[u8],
    disk: &mut MemDisk,
    folder: &mut F,
    links: &mut Site,
    report: &mut Report,
) -> io::Result<(u8, Vec<u8>)> {
    let input = Bytes::from_slice(alloc, input)?;
    let mut source = MemSource::new(alloc, input, only(alloc, next.source)?);
    let output = Bytes::from_vec(Vec::new(alloc));
    let mut sink = MemSink::new(alloc, output, only(alloc, next.sink)?);
    let mut note = None;
    let status = run(
        alloc,
        words,
        &mut source,
        &mut sink,
        disk,
        folder,
        links,
        report,
        &mut note,
    );
    let output = sink.taken().to_vec(alloc);
    drop(sink);
    drop(source);
    Ok((status, output?))
}

/// Runs the words over the devices with this input, and prints their status and what they write.
pub fn run_over<F: Folder>(
    rt: &HostRuntime,
    next: &Next,
    words: &[Word],
    input: &[u8],
    disk: &mut MemDisk,
    folder: &mut F,
    links: &mut Site,
    report: &mut Report,
) -> io::Result<()> {
    let (status, output) = ran_over(rt.alloc(), next, words, input, disk, folder, links, report)?;
    tell(rt, next, status, &output)
}

/// Runs the words with this input over that folder, and prints their status and what they write. The
/// first call of its disk fails, and so does the first of its site.
pub fn run_apart<F: Folder>(
    rt: &HostRuntime,
    next: &Next,
    words: &[Word],
    input: &[u8],
    folder: &mut F,
) -> io::Result<()> {
    let alloc = rt.alloc();
    let mut disk = disk_of(alloc, &[], 1)?;
    let mut links = site_of(alloc, unused_folder(alloc)?);
    let mut report = empty_report(alloc);
    let ran = run_over(
        rt,
        next,
        words,
        input,
        &mut disk,
        folder,
        &mut links,
        &mut report,
    );
    drop(report);
    drop(links);
    drop(disk);
    ran
}

/// The status of the words with the lines that are set, over a disk and a site, and what they write.
pub fn ran_lines(
    alloc: Global,
    next: &Next,
    words: &str,
    disk: &mut MemDisk,
    site: &mut Site,
    report: &mut Report,
) -> io::Result<(u8, Vec<u8>)> {
    let words = words_of(alloc, words)?;
    let mut folder = unused_folder(alloc)?;
    let input = next.lines.as_str().as_bytes();
    let ran = ran_over(alloc, next, &words, input, disk, &mut folder, site, report);
    drop(folder);
    drop(words);
    ran
}

/// Runs the words with the lines that are set over a disk and a site, and prints their status and what
/// they write.
pub fn run_lines(
    rt: &HostRuntime,
    next: &Next,
    words: &str,
    disk: &mut MemDisk,
    site: &mut Site,
    report: &mut Report,
) -> io::Result<()> {
    let (status, output) = ran_lines(rt.alloc(), next, words, disk, site, report)?;
    tell(rt, next, status, &output)
}

/// The same, with a report that is not looked at.
pub fn run_silently(
    rt: &HostRuntime,
    next: &Next,
    words: &str,
    disk: &mut MemDisk,
    site: &mut Site,
) -> io::Result<()> {
    let mut report = empty_report(rt.alloc());
    let ran = run_lines(rt, next, words, disk, site, &mut report);
    drop(report);
    ran
}

/// The same, and prints nothing.
pub fn run_unheard(
    alloc: Global,
    next: &Next,
    words: &str,
    disk: &mut MemDisk,
    site: &mut Site,
) -> io::Result<()> {
    let mut report = empty_report(alloc);
    let ran = ran_lines(alloc, next, words, disk, site, &mut report);
    drop(report);
    let _ = ran?;
    Ok(())
}

/// Prints how many calls the disk had in the boot event, if there was one, and in each line. The
/// session was open after so many calls.
pub fn print_calls(rt: &HostRuntime, opened: u64, report: &Report) -> io::Result<()> {
    rt.print("  disk calls:")?;
    let mut before = opened;
    for line in report.lines.as_slice() {
        let made = line.mark.saturating_sub(before);
        before = line.mark;
        print!(rt; " {made}")?;
    }
    rt.println("")
}

/// Prints a target that was asked for.
pub fn print_target(rt: &HostRuntime, target: &Target) -> io::Result<()> {
    let host = target.host.as_str();
    let port = target.port;
    let path = target.path.as_str();
    println!(rt; "  asked http://{host}:{port}{path}")
}
