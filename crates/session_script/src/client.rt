// A client in memory: a disk, and a link to a folder of published files.
use crate::next::{Next, number_of, numbered};
use crate::releases::{inspect, publish};
use crate::runs::{
    Site, disk_of, empty_disk, empty_folder, empty_report, print_calls, print_target, ran_lines,
    run_lines, run_silently, run_unheard, site_of, store_of,
};
use crate::site::{folder_failing, folder_without};
use crate::steps::{Device, Steps};
use disks::{Disk, MemDisk, Pick};
use folders::MemFolder;
use std::io::{self, ErrorKind};
use std::mem::replace;

/// A client, with what is set for its next run.
#[derive(Drop)]
pub struct Client {
    disk: MemDisk,
    /// The disk that is left aside while the client goes on with what a stop left of it, and the moment
    /// at which its last session had been opened.
    aside: Option<(MemDisk, u64)>,
    /// How many bytes a half of a new store's journal has, where the program is not to make it.
    half: Option<u64>,
    site: Site,
    /// What is set for its next run.
    pub next: Next,
    /// The moment at which the last session had been opened.
    opened: u64,
    /// How many targets had been asked for before it.
    asked: usize,
}

// Runs a session with the lines, and prints how many calls the disk had in each line.
fn run_counted(
    rt: &HostRuntime,
    next: &Next,
    words: &str,
    disk: &mut MemDisk,
    site: &mut Site,
    opened: u64,
) -> io::Result<()> {
    let mut report = empty_report(rt.alloc());
    let ran = run_lines(rt, next, words, disk, site, &mut report);
    let counted = print_calls(rt, opened, &report);
    drop(report);
    ran?;
    counted
}

// What a stop leaves of writes that were not synced.
fn pick_of(word: &str) -> Option<Pick> {
    if word == "kept" {
        return Some(Pick::Kept);
    }
    if word == "lost" {
        return Some(Pick::Lost);
    }
    if word == "filled" {
        return Some(Pick::Filled(1));
    }
    None
}

impl Client {
    /// A client with an empty disk and an empty site.
    pub fn new(rt: &HostRuntime) -> Client {
        let alloc = rt.alloc();
        Client {
            disk: empty_disk(alloc),
            aside: None,
            half: None,
            site: site_of(alloc, empty_folder(alloc)),
            next: Next::new(alloc),
            opened: 0,
            asked: 0,
        }
    }

    /// The folder of its site.
    pub fn folder(&mut self) -> &mut MemFolder {
        &mut self.site.link.folder
    }

    /// Takes all files from the site.
    pub fn empty_site(&mut self, rt: &HostRuntime) -> io::Result<()> {
        self.site.link.folder = empty_folder(rt.alloc());
        Ok(())
    }

    /// Takes that file from the site.
    pub fn lose(&mut self, rt: &HostRuntime, file: &str) -> io::Result<()> {
        let folder = folder_without(rt.alloc(), &self.site.link.folder, file)?;
        self.site.link.folder = folder;
        Ok(())
    }

    /// Lets the call of the site of that number fail, counted from now on.
    pub fn fail(&mut self, rt: &HostRuntime, word: &str) -> io::Result<()> {
        let folder = folder_failing(rt.alloc(), &self.site.link.folder, number_of(word)?)?;
        self.site.link.folder = folder;
        Ok(())
    }

    /// Goes on with a disk of so many zero bytes.
    pub fn zero_disk(&mut self, rt: &HostRuntime, word: &str) -> io::Result<()> {
        let mut bytes = Vec::new(rt.alloc());
        for _ in 0..number_of(word)? {
            bytes.push(0u8)?;
        }
        self.disk = disk_of(rt.alloc(), &bytes, 0)?;
        Ok(())
    }

    /// Goes on with a disk of the same bytes, whose call of that number fails.
    pub fn fail_disk(&mut self, rt: &HostRuntime, word: &str) -> io::Result<()> {
        let disk = disk_of(rt.alloc(), self.disk.bytes(), number_of(word)?)?;
        self.disk = disk;
        Ok(())
    }

    /// Has the halves of new stores that many bytes long, and not as long as the program makes them.
    pub fn set_half(&mut self, word: &str) -> io::Result<()> {
        self.half = Some(number_of(word)?);
        Ok(())
    }

    /// Makes an empty store, on a new disk.
    pub fn format(&mut self, rt: &HostRuntime, words: &str) -> io::Result<()> {
        let Some(half) = self.half else {
            self.disk = empty_disk(rt.alloc());
            return run_silently(rt, &self.next, words, &mut self.disk, &mut self.site);
        };
        let Some(("format --blocks", blocks)) = words.rsplit_once(' ') else {
            return Err(ErrorKind::InvalidInput.into());
        };
        let disk = store_of(rt.alloc(), number_of(blocks)?, half)?;
        self.disk = disk;
        Ok(())
    }

    /// Publishes files of its site there, with the marks that are set.
    pub fn publish(&mut self, rt: &HostRuntime, words: &str) -> io::Result<()> {
        publish(rt, &mut self.next, &mut self.site.link.folder, words)
    }

    /// Inspects a file of its site.
    pub fn inspect(&mut self, rt: &HostRuntime, words: &str) -> io::Result<()> {
        inspect(rt, &mut self.next, &mut self.site.link.folder, words)
    }

    // A session begins: opening is one call of the disk.
    fn begin(&mut self) {
        self.opened = self.disk.calls().saturating_add(1);
        self.asked = self.site.asked.as_slice().len();
    }

    /// Runs a session with the lines, and prints what it writes, how many calls the disk had in each
    /// line, and how many targets were asked for.
    pub fn session(&mut self, rt: &HostRuntime, words: &str) -> io::Result<()> {
        self.begin();
        run_counted(
            rt,
            &self.next,
            words,
            &mut self.disk,
            &mut self.site,
            self.opened,
        )?;
        self.next.clear();
        let asked = self.site.asked.as_slice().len().saturating_sub(self.asked);
        println!(rt; "  asked {asked}")
    }

    /// Runs the words with the lines over its disk, and prints their status behind a label, which is the
    /// words where none was set, and what they write.
    pub fn row(&mut self, rt: &HostRuntime, words: &str) -> io::Result<()> {
        self.begin();
        if self.next.label.is_none() {
            self.next.name(rt.alloc(), words)?;
        }
        run_silently(rt, &self.next, words, &mut self.disk, &mut self.site)?;
        self.next.clear();
        Ok(())
    }

    /// Runs a session with the lines, and prints nothing.
    pub fn quiet_session(&mut self, rt: &HostRuntime, words: &str) -> io::Result<()> {
        let alloc = rt.alloc();
        let ran = run_unheard(alloc, &self.next, words, &mut self.disk, &mut self.site);
        self.next.clear();
        ran
    }

    /// Prints how many calls the disk had in the last session, but for the first so many.
    pub fn print_count(&self, rt: &HostRuntime, word: &str) -> io::Result<()> {
        let before = self.opened.saturating_sub(1);
        let before = before.saturating_add(number_of(word)?);
        let made = self.disk.calls().saturating_sub(before);
        println!(rt; "{made} calls")
    }

    /// Prints what the last session asked for.
    pub fn print_asked(&self, rt: &HostRuntime) -> io::Result<()> {
        for target in self.site.asked.as_slice().iter().skip(self.asked) {
            print_target(rt, target)?;
        }
        Ok(())
    }

    // What a stop leaves of its disk: after so many calls of the last session, those of its opening
    // among them, and how: `kept`, `lost` or `filled`.
    fn left_of(&self, rt: &HostRuntime, words: &str) -> io::Result<MemDisk> {
        let (call, how) = numbered(words)?;
        let Some(pick) = pick_of(how) else {
            return Err(ErrorKind::InvalidInput.into());
        };
        let moment = self.opened.saturating_sub(1).saturating_add(call);
        match self.disk.stop(rt.alloc(), moment, pick) {
            Ok(image) => Ok(image),
            Err(_) => Err(ErrorKind::NotFound.into()),
        }
    }

    /// Goes on with what a stop leaves.
    pub fn go_on(&mut self, rt: &HostRuntime, words: &str) -> io::Result<()> {
        let image = self.left_of(rt, words)?;
        self.disk = image;
        Ok(())
    }

    /// The same, until it comes back to the disk.
    pub fn go_aside(&mut self, rt: &HostRuntime, words: &str) -> io::Result<()> {
        let image = self.left_of(rt, words)?;
        let disk = replace(&mut self.disk, image);
        self.aside = Some((disk, self.opened));
        Ok(())
    }

    /// Comes back to the disk that was left aside.
    pub fn come_back(&mut self) -> io::Result<()> {
        let Some((disk, opened)) = self.aside.take() else {
            return Err(ErrorKind::NotFound.into());
        };
        self.disk = disk;
        self.opened = opened;
        Ok(())
    }

    // Runs the words with the lines over what a stop at that moment leaves.
    fn stop(&mut self, rt: &HostRuntime, words: &str, moment: u64, pick: Pick) -> io::Result<()> {
        let Ok(mut image) = self.disk.stop(rt.alloc(), moment, pick) else {
            return rt.println("no such moment");
        };
        let ran = run_silently(rt, &self.next, words, &mut image, &mut self.site);
        drop(image);
        ran
    }

    // The same for each pick at that moment, which is told as a number of calls.
    fn stop_each(
        &mut self,
        rt: &HostRuntime,
        words: &str,
        call: u64,
        moment: u64,
    ) -> io::Result<()> {
        println!(rt; "after {call}, kept:")?;
        self.stop(rt, words, moment, Pick::Kept)?;
        println!(rt; "after {call}, lost:")?;
        self.stop(rt, words, moment, Pick::Lost)?;
        println!(rt; "after {call}, filled:")?;
        self.stop(rt, words, moment, Pick::Filled(1))
    }

    /// Stops its disk at each moment since the last session had been opened, in each way, and runs the
    /// words with the lines over what is left.
    pub fn stops(&mut self, rt: &HostRuntime, words: &str) -> io::Result<()> {
        let end = self.disk.calls().saturating_add(1);
        for moment in self.opened..end {
            let call = moment.saturating_sub(self.opened);
            self.stop_each(rt, words, call, moment)?;
        }
        self.next.clear();
        Ok(())
    }

    /// The same after that many calls of the last session, those of its opening among them: the number, a
    /// space, and the words.
    pub fn stop_once(&mut self, rt: &HostRuntime, words: &str) -> io::Result<()> {
        let (call, words) = numbered(words)?;
        let moment = self.opened.saturating_sub(1).saturating_add(call);
        self.stop_each(rt, words, call, moment)?;
        self.next.clear();
        Ok(())
    }
    /// Runs the words with the lines over copies of its disk, once for each call of their source, their
    /// sink and the disk, which fails then, and prints which store is left.
    pub fn fail_each(&mut self, rt: &HostRuntime, words: &str) -> io::Result<()> {
        let bytes = self.disk.bytes();
        let steps = Steps::of(rt.alloc(), &self.next, words, bytes, &mut self.site)?;
        steps.print(rt)?;
        for device in [Device::Source, Device::Sink, Device::Disk] {
            steps.fail_each(rt, &mut self.next, device, bytes, &mut self.site)?;
        }
        self.next.clear();
        Ok(())
    }

    /// Runs the words with the lines, and stops its disk at each moment since the session had been opened,
    /// in each way. Prints which store is left.
    pub fn stop_each_moment(&mut self, rt: &HostRuntime, words: &str) -> io::Result<()> {
        let alloc = rt.alloc();
        let bytes = self.disk.bytes();
        let steps = Steps::of(alloc, &self.next, words, bytes, &mut self.site)?;
        steps.print(rt)?;
        self.begin();
        let mut report = empty_report(alloc);
        let ran = ran_lines(
            alloc,
            &self.next,
            words,
            &mut self.disk,
            &mut self.site,
            &mut report,
        );
        self.next.clear();
        let told = print_calls(rt, self.opened, &report);
        let stopped = steps.stop_each(rt, &self.disk, self.opened, &report, &mut self.site);
        drop(report);
        let _ = ran?;
        told?;
        stopped
    }
}
