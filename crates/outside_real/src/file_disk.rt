// A disk in a file.
ghost use Rattle.std.specs.Prelude.{◌≡◌, ◌<◌, ◌≤◌, ◌+◌, ◌^◌, ◌++◌, ℕ, List, false, [], length, take, drop, is_ok, IfOk, OnOk};
ghost use Rattle.small_types.specs.Bytes.{put};
ghost use Rattle.disks.specs.Answers.{seen_after, IsHonest, LeftAfter};
ghost use Rattle.disks.specs.Disk.{Torn, CutOff, Follows, Only, Gives};
ghost use Rattle.disks.specs.declared.call.Move.TheVariants.{Write, Cut, Sync};
ghost use Rattle.outside_real.specs.Notes.{told_length, told_read};

use crate::counted::counted;
use crate::durable_file::DurableFile;
use crate::reason::Reason;
use crate::told::Told;
use disks::{Disk, Start};
use outside::Failed;
use std::fs::File;
use std::marker::PhantomData;
use std::rt::Files;

/// A disk in a file, over a runtime's files. It keeps the file locked from its first call to its
/// end, so that no other disk works on it. A call that the system refuses is a failed one, and so is one that would
/// take a counter past its end, or a range past 2^64, and a write of which only some bytes were taken.
///
/// It keeps a record of its calls with their answers, which only clauses see. `S` says which bytes the file held and
/// what a stop could leave then; what reads give and what stops leave follows from that and the record. It tells its
/// contents as long as the answers are those of such a file.
///
/// After a call of `write_at`, `cut` or `sync` that failed every further call fails: a system that could not write may
/// drop the bytes, and say of the next sync that it is done.
///
/// When it opens the file it has the system write out what waits and drop its copies of the file's bytes, so that
/// reads give what is on the disk, and not what a sync that failed under an earlier program left. The second is the
/// advice `POSIX_FADV_DONTNEED` of POSIX's `posix_fadvise`, which a system or a file system may leave undone; there is
/// no call that must do it.
#[derive(Drop)]
pub struct FileDisk<R: Files<File = File> + Drop, S: Start> {
    file: DurableFile<R>,
    told: Told,
    faults: u64,
    start: PhantomData<S>,
}

impl<R: Files<File = File> + Drop, S: Start> FileDisk<R, S> {
    ghost use Rattle.outside_real.specs.FileDisk.{disk_calls, disk_written, disk_faults, disk_answers, is_lost};

    /// The disk at this path. It makes nothing: its first call of `length`, `read`, `write_at`, `cut` or `sync` opens
    /// the file, or makes an empty one, and takes its lock. Where the opening or the lock is refused that call fails,
    /// and the next one tries again. The start is used up, so code over any start opens one file with it.
    pub fn new(rt: R, path: String, _start: S) -> FileDisk<R, S>
        ensures calls { disk_calls result ≡ 0 }
        ensures written { disk_written result ≡ 0 }
        ensures faults { disk_faults result ≡ 0 }
        ensures answers { disk_answers result ≡ [] }
        ensures lost { is_lost result ≡ false }
    {
        FileDisk {
            file: DurableFile::new(rt, path),
            told: Told::new(),
            faults: 0,
            start: PhantomData,
        }
    }

    /// The path of the file.
    pub fn path(&self) -> &str {
        self.file.path.as_str()
    }

    /// Why the first call that failed did.
    pub fn why(&self) -> Option<&Reason> {
        self.file.why.as_ref()
    }
}

// Each method makes a call of the file and then notes it with its answer.
impl<R: Files<File = File> + Drop, S: Start> Disk for FileDisk<R, S> {
    ghost use Rattle.outside_real.specs.FileDisk.{disk_calls, disk_answers, DiskIsHonest, MayChange, Notes, OnlyReads, disk_seen, disk_left};
    ghost use Rattle.disks.proofs.NextAnswer.{seen_is_left};

    ghost tells = { λ d. IsHonest S.Start.first d.told.answers.noted };

    ghost seen = { λ d. seen_after S.Start.first d.told.answers.noted };

    ghost moment = { λ d. d.told.calls };

    ghost left_at = { λ d. LeftAfter S.Start.first S.Start.left d.told.answers.noted };

    ghost total = { λ d. d.told.written };

    ghost count = { λ d. d.faults };

    ghost seen_left = { λ d. seen_is_left S.Start.first S.Start.left S.Start.first_left
        d.told.answers.noted d.told.calls d.told.numbered };

    fn length(&mut self) -> Result<u64, Failed>
        ensures noted { disk_answers self.new ≡ disk_answers self.old ++ told_length result }
        ensures bytes { DiskIsHonest S.Start self.new
            → IfOk result (λ n. n ≡ length (disk_seen S.Start self.old)) }
        ensures reads { OnlyReads S.Start self.old self.new result }
    {
        let answer = self.file.length();
        self.told.length(answer);
        counted(&mut self.faults, answer)
    }

    fn read(&mut self, place: u64, buf: &mut [u8]) -> Result<usize, Failed>
        ensures noted { disk_answers self.new ≡ disk_answers self.old
            ++ told_read place buf.new result }
        ensures within { IfOk result (λ n. n ≤ length buf.old) }
        ensures rest { IfOk result (λ n. drop n buf.new ≡ drop n buf.old) }
        ensures bytes { DiskIsHonest S.Start self.new
            → IfOk result (λ n. Gives (disk_seen S.Start self.old) place buf.old buf.new n) }
        ensures reads { OnlyReads S.Start self.old self.new result }
    {
        let answer = self.file.read(place, buf);
        self.told.read(place, buf, answer);
        counted(&mut self.faults, answer)
    }

    fn write_at(&mut self, place: u64, bytes: &[u8]) -> Result<(), Failed>
        ensures noted { Notes (Write place bytes.now (is_ok result)) self.old self.new }
        ensures fits { OnOk result (place + length bytes.now < 2 ^ 64) }
        ensures seen { Torn place (length bytes.now) (disk_seen S.Start self.old)
            (disk_seen S.Start self.new) }
        ensures written { OnOk result (disk_seen S.Start self.new
            ≡ put place bytes.now (disk_seen S.Start self.old)) }
        ensures stop { Follows (Torn place (length bytes.now))
            (disk_left S.Start self.old (disk_calls self.old))
            (disk_left S.Start self.new (disk_calls self.new)) }
        ensures changes { MayChange (length bytes.now) S.Start self.old self.new result }
    {
        if !self.told.count(bytes.len() as u64) {
            let done = self.file.refuse();
            return counted(&mut self.faults, done);
        }
        let written = self.file.write_at(place, bytes);
        self.told.write(place, bytes, written.is_ok());
        counted(&mut self.faults, written)
    }

    fn cut(&mut self, size: u64) -> Result<(), Failed>
        ensures noted { Notes (Cut size (is_ok result)) self.old self.new }
        ensures seen { CutOff size (disk_seen S.Start self.old) (disk_seen S.Start self.new) }
        ensures written { OnOk result (disk_seen S.Start self.new
            ≡ take size (disk_seen S.Start self.old)) }
        ensures stop { Follows (CutOff size)
            (disk_left S.Start self.old (disk_calls self.old))
            (disk_left S.Start self.new (disk_calls self.new)) }
        ensures changes { MayChange 0 S.Start self.old self.new result }
    {
        if !self.told.count(0) {
            let done = self.file.refuse();
            return counted(&mut self.faults, done);
        }
        let shortened = self.file.cut(size);
        self.told.cut(size, shortened.is_ok());
        counted(&mut self.faults, shortened)
    }

    fn sync(&mut self) -> Result<(), Failed>
        ensures noted { Notes (Sync (is_ok result)) self.old self.new }
        ensures durable { OnOk result (Only (disk_seen S.Start self.old)
            (disk_left S.Start self.new (disk_calls self.new))) }
        ensures seen { disk_seen S.Start self.new ≡ disk_seen S.Start self.old }
        ensures stop { (c : List ℕ) → disk_left S.Start self.new (disk_calls self.new) c
            → disk_left S.Start self.old (disk_calls self.old) c }
        ensures changes { MayChange 0 S.Start self.old self.new result }
    {
        if !self.told.count(0) {
            let done = self.file.refuse();
            return counted(&mut self.faults, done);
        }
        let synced = self.file.sync();
        self.told.sync(synced.is_ok());
        counted(&mut self.faults, synced)
    }

    fn calls(&self) -> u64 {
        self.told.calls()
    }

    fn written(&self) -> u64 {
        self.told.written()
    }

    fn faults(&self) -> u64 {
        self.faults
    }
}
