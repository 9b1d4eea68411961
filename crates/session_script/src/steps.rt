// How many of its lines a session leaves in the store, where a call fails or a stop comes.
use crate::next::Next;
use crate::runs::{Site, disk_of, empty_report, ran_lines};
use disks::{Disk, MemDisk, Pick};
use std::alloc::Global;
use std::io;
use updater_cli::Report;

/// The stores of the first lines of a session, told apart by what the lines that look at a store write.
#[derive(Drop)]
pub struct Steps {
    // The lines that look at a store.
    look: Next,
    // The words of each session.
    words: String,
    // What the look at each store writes, once each.
    looks: Vec<Vec<u8>>,
    // Which of these stores each number of lines leaves, from none on.
    stores: Vec<usize>,
    // What the whole session writes.
    answers: Vec<u8>,
}

/// A device of a session of which a call is to fail.
#[derive(Clone, Copy)]
pub enum Device {
    Source,
    Sink,
    Disk,
}

impl Device {
    fn name(self) -> &'static str {
        match self {
            Device::Source => "source",
            Device::Sink => "sink",
            Device::Disk => "disk",
        }
    }
}

// How many lines the text ends.
fn count_of(text: &[u8]) -> usize {
    text.iter().filter(|byte| **byte == b'\n').count()
}

// The first so many of the lines.
fn first_lines(alloc: Global, lines: &str, count: usize) -> io::Result<Next> {
    let mut first = Next::new(alloc);
    for line in lines.lines().take(count) {
        first.add(line)?;
    }
    Ok(first)
}

// The status of the words with the lines that are set, and what they write.
fn ran(
    alloc: Global,
    next: &Next,
    words: &str,
    disk: &mut MemDisk,
    site: &mut Site,
) -> io::Result<(u8, Vec<u8>)> {
    let mut report = empty_report(alloc);
    let ran = ran_lines(alloc, next, words, disk, site, &mut report);
    drop(report);
    ran
}

fn print_text(rt: &HostRuntime, text: &[u8]) -> io::Result<()> {
    match std::str::from_utf8(text) {
        Ok(text) => rt.print(text),
        Err(_) => rt.println("no text"),
    }
}

impl Steps {
    /// The stores of the lines that are set, over a disk of these bytes.
    pub fn of(
        alloc: Global,
        next: &Next,
        words: &str,
        bytes: &[u8],
        site: &mut Site,
    ) -> io::Result<Steps> {
        let look = next.look.as_str();
        let mut steps = Steps {
            look: first_lines(alloc, look, look.len())?,
            words: String::from_str(alloc, words)?,
            looks: Vec::new(alloc),
            stores: Vec::new(alloc),
            answers: Vec::new(alloc),
        };
        let lines = next.lines.as_str();
        let count = count_of(lines.as_bytes());
        for first in 0..count.saturating_add(1) {
            let first = first_lines(alloc, lines, first)?;
            steps.add(alloc, &first, bytes, site)?;
        }
        Ok(steps)
    }

    // Runs the first lines over a disk of these bytes, and keeps what a look then writes.
    fn add(
        &mut self,
        alloc: Global,
        first: &Next,
        bytes: &[u8],
        site: &mut Site,
    ) -> io::Result<()> {
        let mut disk = disk_of(alloc, bytes, 0)?;
        let (_, answers) = ran(alloc, first, self.words.as_str(), &mut disk, site)?;
        let looked = self.looked(alloc, &mut disk, site);
        drop(disk);
        self.answers = answers;
        if let Some(look) = looked? {
            self.add_look(look)?;
        }
        Ok(())
    }

    // What the look at a disk writes; nothing where its status is not 0.
    fn looked(
        &self,
        alloc: Global,
        disk: &mut MemDisk,
        site: &mut Site,
    ) -> io::Result<Option<Vec<u8>>> {
        match ran(alloc, &self.look, self.words.as_str(), disk, site)? {
            (0, output) => Ok(Some(output)),
            _ => Ok(None),
        }
    }

    // Keeps what the look at the store of the next number of lines writes.
    fn add_look(&mut self, look: Vec<u8>) -> io::Result<()> {
        let known = self.store_of(&look);
        let store = known.unwrap_or(self.looks.len());
        if known.is_none() {
            self.looks.push(look)?;
        }
        self.stores.push(store)?;
        Ok(())
    }

    // The store whose look writes this.
    fn store_of(&self, look: &[u8]) -> Option<usize> {
        self.looks.iter().position(|known| known.as_slice() == look)
    }

    /// Prints what the whole session writes, which store each number of lines leaves, and what the look
    /// at each store writes.
    pub fn print(&self, rt: &HostRuntime) -> io::Result<()> {
        print_text(rt, &self.answers)?;
        rt.print("lines leave stores")?;
        for store in self.stores.iter() {
            print!(rt; " {store}")?;
        }
        rt.println("")?;
        for (store, look) in self.looks.iter().enumerate() {
            println!(rt; "store {store}:")?;
            print_text(rt, look)?;
        }
        Ok(())
    }

    // Whether it is the store of so many lines, or of one more.
    fn may_be(&self, count: usize, store: usize) -> bool {
        let mut stores = self.stores.iter().skip(count).take(2);
        stores.any(|known| *known == store)
    }

    // Prints which store a stop at that moment leaves, in each way, where so many lines were answered.
    fn print_left(
        &self,
        rt: &HostRuntime,
        disk: &MemDisk,
        site: &mut Site,
        moment: u64,
        count: usize,
    ) -> io::Result<()> {
        for pick in [Pick::Kept, Pick::Lost, Pick::Filled(1)] {
            let Ok(mut image) = disk.stop(rt.alloc(), moment, pick) else {
                rt.print(" no-moment")?;
                continue;
            };
            let looked = self.looked(rt.alloc(), &mut image, site);
            drop(image);
            let look = looked?;
            match look.and_then(|look| self.store_of(&look)) {
                Some(store) if self.may_be(count, store) => print!(rt; " {store}")?,
                Some(store) => print!(rt; " {store}-wrong")?,
                None => rt.print(" none-wrong")?,
            }
        }
        rt.println("")
    }

    // Prints how a run ended, and which store a stop then leaves.
    fn print_end(
        &self,
        rt: &HostRuntime,
        disk: &MemDisk,
        site: &mut Site,
        status: u8,
        output: &[u8],
    ) -> io::Result<()> {
        if !self.answers.starts_with(output) {
            println!(rt; " status {status}, other answers")?;
            return print_text(rt, output);
        }
        let count = count_of(output);
        print!(rt; " status {status}, answers {count}, stores")?;
        self.print_left(rt, disk, site, disk.calls(), count)
    }

    /// Runs the lines that are set over a disk of these bytes, once for each call of the device, which
    /// fails then. Prints how the run ends, and which store a stop then leaves.
    pub fn fail_each(
        &self,
        rt: &HostRuntime,
        next: &mut Next,
        device: Device,
        bytes: &[u8],
        site: &mut Site,
    ) -> io::Result<()> {
        let name = device.name();
        for call in 1..u64::MAX {
            next.source = if let Device::Source = device { call } else { 0 };
            next.sink = if let Device::Sink = device { call } else { 0 };
            let failing = if let Device::Disk = device { call } else { 0 };
            let mut disk = disk_of(rt.alloc(), bytes, failing)?;
            let (status, output) = ran(rt.alloc(), next, self.words.as_str(), &mut disk, site)?;
            if status == 0 {
                let calls = call.saturating_sub(1);
                return println!(rt; "{name}: {calls} calls");
            }
            print!(rt; "{name} {call}:")?;
            self.print_end(rt, &disk, site, status, &output)?;
        }
        Ok(())
    }

    /// Stops the disk of a session with these lines at each moment since it had been opened, and prints
    /// how many lines were answered then and which store is left, in each way.
    pub fn stop_each(
        &self,
        rt: &HostRuntime,
        disk: &MemDisk,
        opened: u64,
        report: &Report,
        site: &mut Site,
    ) -> io::Result<()> {
        for moment in opened..disk.calls().saturating_add(1) {
            let call = moment.saturating_sub(opened);
            let lines = report.lines.as_slice().iter();
            let count = lines.filter(|line| line.mark <= moment).count();
            print!(rt; "after {call}: answers {count}, stores")?;
            self.print_left(rt, disk, site, moment, count)?;
        }
        Ok(())
    }
}
