// A file that is opened at the first call, and fails for good once a change of it has failed.
ghost use Rattle.std.specs.Prelude.{◌≡◌, ◌<◌, ◌≤◌, ◌+◌, ◌^◌, ◌↔◌, true, false, length, drop, IfOk, IsErr, OnOk, IsTrue};

use crate::file::{cut_to, opened, read_from, size_of_file, sync_to, write_to};
use crate::reason::{Reason, keep, kept};
use outside::Failed;
use std::fs::File;
use std::io;
use std::io::ErrorKind;
use std::rt::Files;

// After a call of `write_at`, `cut` or `sync` that failed, the system may hold other bytes than the disk, and may say
// of the next sync that it is done. So `lost` is set then, and no call is made any more.
#[derive(Drop)]
pub(crate) struct DurableFile<R: Files<File = File> + Drop> {
    pub(crate) rt: R,
    pub(crate) path: String,
    pub(crate) file: Option<File>,
    pub(crate) lost: bool,
    pub(crate) why: Option<Reason>,
}

// What is said of a call that the system is not asked for.
fn not_tried(words: &str) -> io::Error {
    io::Error::new(ErrorKind::Other, words)
}

// The file, opened if it is not yet.
fn usable<'a, R: Files<File = File>>(
    lost: bool,
    rt: &R,
    path: &str,
    file: &'a mut Option<File>,
    why: &mut Option<Reason>,
) -> Result<&'a File, Failed>
    ensures { lost ≡ true → IsErr result }
{
    if lost {
        return Err(keep(why, not_tried("an earlier call failed")));
    }
    match opened(rt, path, file) {
        Ok(found) => Ok(found),
        Err(error) => Err(keep(why, error)),
    }
}

// The end of a call that changes the file.
fn changed(lost: &mut bool, done: Result<(), Failed>) -> Result<(), Failed>
    requires { lost.old ≡ true → IsErr done }
    ensures result { result ≡ done }
    ensures lost { IsErr done ↔ IsTrue lost.new }
{
    if done.is_err() {
        *lost = true;
    }
    done
}

impl<R: Files<File = File> + Drop> DurableFile<R> {
    // It opens nothing yet.
    pub(crate) fn new(rt: R, path: String) -> DurableFile<R>
        ensures { result.lost ≡ false }
    {
        DurableFile {
            rt,
            path,
            file: None,
            lost: false,
            why: None,
        }
    }

    pub(crate) fn length(&mut self) -> Result<u64, Failed>
        ensures lost { self.new.lost ≡ self.old.lost }
        ensures stays { self.old.lost ≡ true → IsErr result }
    {
        let path = self.path.as_str();
        let file = usable(self.lost, &self.rt, path, &mut self.file, &mut self.why)?;
        kept(&mut self.why, size_of_file(file))
    }

    // Reads what stands at the place, as far as there is room.
    pub(crate) fn read(&mut self, place: u64, buf: &mut [u8]) -> Result<usize, Failed>
        ensures within { IfOk result (λ n. n ≤ length buf.old) }
        ensures rest { IfOk result (λ n. drop n buf.new ≡ drop n buf.old) }
        ensures lost { self.new.lost ≡ self.old.lost }
        ensures stays { self.old.lost ≡ true → IsErr result }
    {
        let path = self.path.as_str();
        let file = usable(self.lost, &self.rt, path, &mut self.file, &mut self.why)?;
        let size = kept(&mut self.why, size_of_file(file))?;
        match read_from(file, size, place, buf) {
            Ok(n) => Ok(n),
            Err(error) => Err(keep(&mut self.why, error)),
        }
    }

    pub(crate) fn write_at(&mut self, place: u64, bytes: &[u8]) -> Result<(), Failed>
        ensures fits { OnOk result (place + length bytes.now < 2 ^ 64) }
        ensures lost { IsErr result ↔ IsTrue self.new.lost }
        ensures stays { self.old.lost ≡ true → IsErr result }
    {
        let done = self.try_write(place, bytes);
        changed(&mut self.lost, done)
    }

    // A change that is not tried.
    pub(crate) fn refuse(&mut self) -> Result<(), Failed>
        ensures result { IsErr result }
        ensures lost { self.new.lost ≡ true }
    {
        self.lost = true;
        Err(keep(
            &mut self.why,
            not_tried("more calls or bytes than can be counted"),
        ))
    }

    fn try_write(&mut self, place: u64, bytes: &[u8]) -> Result<(), Failed>
        ensures fits { OnOk result (place + length bytes.now < 2 ^ 64) }
        ensures lost { self.new.lost ≡ self.old.lost }
        ensures stays { self.old.lost ≡ true → IsErr result }
    {
        if bytes.len() as u64 > u64::MAX - place {
            let error = not_tried("no file is so long");
            return Err(keep(&mut self.why, error));
        }
        let path = self.path.as_str();
        let file = usable(self.lost, &self.rt, path, &mut self.file, &mut self.why)?;
        kept(&mut self.why, write_to(file, place, bytes))
    }

    // Shortens to a length, which is not above the present one.
    pub(crate) fn cut(&mut self, size: u64) -> Result<(), Failed>
        ensures lost { IsErr result ↔ IsTrue self.new.lost }
        ensures stays { self.old.lost ≡ true → IsErr result }
    {
        let done = self.try_cut(size);
        changed(&mut self.lost, done)
    }

    fn try_cut(&mut self, size: u64) -> Result<(), Failed>
        ensures lost { self.new.lost ≡ self.old.lost }
        ensures stays { self.old.lost ≡ true → IsErr result }
    {
        let path = self.path.as_str();
        let file = usable(self.lost, &self.rt, path, &mut self.file, &mut self.why)?;
        kept(&mut self.why, cut_to(file, size))
    }

    pub(crate) fn sync(&mut self) -> Result<(), Failed>
        ensures lost { IsErr result ↔ IsTrue self.new.lost }
        ensures stays { self.old.lost ≡ true → IsErr result }
    {
        let done = self.try_sync();
        changed(&mut self.lost, done)
    }

    fn try_sync(&mut self) -> Result<(), Failed>
        ensures lost { self.new.lost ≡ self.old.lost }
        ensures stays { self.old.lost ≡ true → IsErr result }
    {
        let path = self.path.as_str();
        let file = usable(self.lost, &self.rt, path, &mut self.file, &mut self.why)?;
        kept(&mut self.why, sync_to(file))
    }
}
