ghost use Rattle.std.specs.Prelude.{◌≡◌, ◌≢◌, ◌⊎◌, ◌<◌, ◌≤◌, ◌+◌, ◌^◌, ℕ, List, [], ◌∷◌, ◌++◌, ◌↔◌, ◌==◌, length, take, drop, min, true, false, is_ok, IfOk, IfErr, IsErr, OnOk, OnErr, IsTrue, Err};
ghost use Rattle.disks.specs.declared.stop.StopFault.TheVariants.{LaterThanNow, Memory};
ghost use Rattle.small_types.specs.Bytes.{put};
ghost use Rattle.disks.specs.Disk.{Torn, CutOff, Follows, Elapses, IsStill, Only, Ticks, Gives};
ghost use Rattle.outside.specs.Streams.{Causes};
ghost use Rattle.disks.specs.Moves.{all_by};
ghost use Rattle.disks.specs.declared.call.Move.TheVariants.{Write, Cut, Sync};

use crate::history::History;
use crate::stop::replay;
use crate::{Disk, Pick, StopFault};
use outside::{Failed, FailingCalls, count_call};
use small_types::{Bytes, List, copy_front, rest_from};
use std::alloc::Global;

/// A disk in memory. It keeps a record of its calls, so that a stop at each moment can be tried. Its calls whose
/// numbers, counted from 1 over all its calls, the list `failing` has are to fail. A call fails too where it finds no
/// memory, where its range ends past 2^64, and where it would take a counter past its end; no other does. One that fails
/// changes no byte. `starved` tells for how many calls there was no memory.
#[derive(Drop, Debug)]
pub struct MemDisk {
    alloc: Global,
    history: History,
    calls: u64,
    written: u64,
    failing: FailingCalls,
    ghost numbered: { all_by calls history.moves.items ≡ true },
}

impl MemDisk {
    ghost use Rattle.disks.specs.MemDisk.{disk_bytes, calls_of, written_of, faults_of, failing_of, turns_of, starved_of, noted_of, left_of, picked_of};

    /// A disk of these bytes, which count as synced. It takes no memory: the first call of `write_at`, `cut` or `sync`
    /// keeps a copy of them.
    pub fn new(alloc: Global, bytes: Bytes, failing: List<u64>) -> MemDisk
        ensures bytes { disk_bytes result ≡ bytes }
        ensures calls { calls_of result ≡ 0 }
        ensures written { written_of result ≡ 0 }
        ensures faults { faults_of result ≡ 0 }
        ensures failing { failing_of result ≡ failing }
        ensures turns { turns_of result ≡ 0 }
        ensures starved { starved_of result ≡ 0 }
        ensures noted { noted_of result ≡ [] }
        ensures only { Only (disk_bytes result) (left_of result 0) }
    {
        MemDisk {
            alloc,
            history: History::new(alloc, bytes),
            calls: 0,
            written: 0,
            failing: FailingCalls::new(failing),
        }
    }

    /// The disk that a stop at that moment leaves with this pick. No call of it is to fail. It answers `LaterThanNow`
    /// exactly where the moment has not come.
    pub fn stop(&self, alloc: Global, moment: u64, pick: Pick) -> Result<MemDisk, StopFault>
        ensures image { IfOk result
            (λ disk. (moment ≤ calls_of self.now) × left_of self.now moment (disk_bytes disk)) }
        ensures bytes { IfOk result (λ disk. disk_bytes disk ≡ picked_of pick self.now moment) }
        ensures calls { IfOk result (λ disk. calls_of disk ≡ 0) }
        ensures failing { IfOk result (λ disk. failing_of disk ≡ []) }
        ensures turns { IfOk result (λ disk. turns_of disk ≡ 0) }
        ensures starved { IfOk result (λ disk. starved_of disk ≡ 0) }
        ensures written { IfOk result (λ disk. written_of disk ≡ 0) }
        ensures faults { IfOk result (λ disk. faults_of disk ≡ 0) }
        ensures noted { IfOk result (λ disk. noted_of disk ≡ []) }
        ensures only { IfOk result (λ disk. Only (disk_bytes disk) (left_of disk 0)) }
        ensures later { IfErr result (λ e. e ≢ Memory
            → (e ≡ LaterThanNow (calls_of self.now)) × (calls_of self.now < moment)) }
        ensures too_late { calls_of self.now < moment
            → result ≡ Err (LaterThanNow (calls_of self.now)) }
    {
        if moment > self.calls {
            return Err(StopFault::LaterThanNow { calls: self.calls });
        }
        let image = replay(
            alloc,
            self.history.first(),
            self.history.moves.as_slice(),
            moment,
            pick,
        )?;
        Ok(MemDisk::new(alloc, image, List::from_vec(Vec::new(alloc))))
    }

    /// What reads give.
    pub fn bytes(&self) -> &[u8]
        ensures { result.now ≡ disk_bytes self.now }
    {
        self.history.bytes.as_slice()
    }

    /// For how many calls there was no memory. The count never falls.
    pub fn starved(&self) -> u64
        ensures { result ≡ starved_of self.now }
    {
        self.history.starved
    }
}

impl Disk for MemDisk {
    ghost use Rattle.disks.specs.History.{first_of};
    ghost use Rattle.disks.specs.MemDisk.{EndsAs, IsNoted, TakesTurn, disk_bytes, calls_of, written_of, faults_of, starved_of, disk_fails, left_of};
    ghost use Rattle.disks.specs.Moves.{IsImage, until};
    ghost use Rattle.disks.specs.ReadsLeft.{reads_are_left};

    ghost tells = { λ m. Unit {0} };

    ghost seen = { λ m. m.history.bytes };

    ghost moment = { λ m. m.calls };

    ghost left_at = { λ m t c. IsImage (first_of m.history) (first_of m.history)
        (until t m.history.moves.items) c };

    ghost total = { λ m. m.written };

    ghost count = { λ m. m.failing.faults };

    ghost seen_left = { λ m. reads_are_left (first_of m.history)
        m.history.moves.items m.calls m.history.bytes m.history.is_replay m.numbered };

    fn length(&mut self) -> Result<u64, Failed>
        ensures bytes { IfOk result (λ n. n ≡ length (disk_bytes self.old)) }
        ensures still { IsStill (calls_of self.old) (calls_of self.new) (written_of self.old)
            (written_of self.new) }
        ensures seen { disk_bytes self.new ≡ disk_bytes self.old }
        ensures time { Elapses (calls_of self.old) (left_of self.old) (left_of self.new) }
        ensures cause { Causes (faults_of self.old) (faults_of self.new) result }
        ensures fails { IsErr result ↔ IsTrue (disk_fails self.old) }
        ensures starved { starved_of self.new ≡ starved_of self.old }
        ensures turn { TakesTurn self.old self.new result }
    {
        if self.failing.next() {
            self.failing.fail();
            return Err(Failed);
        }
        Ok(self.history.bytes.as_slice().len() as u64)
    }

    fn read(&mut self, place: u64, buf: &mut [u8]) -> Result<usize, Failed>
        ensures within { IfOk result (λ n. n ≤ length buf.old) }
        ensures bytes { IfOk result (λ n. Gives (disk_bytes self.old) place buf.old buf.new n) }
        ensures still { IsStill (calls_of self.old) (calls_of self.new) (written_of self.old)
            (written_of self.new) }
        ensures seen { disk_bytes self.new ≡ disk_bytes self.old }
        ensures time { Elapses (calls_of self.old) (left_of self.old) (left_of self.new) }
        ensures cause { Causes (faults_of self.old) (faults_of self.new) result }
        ensures fails { IsErr result ↔ IsTrue (disk_fails self.old) }
        ensures starved { starved_of self.new ≡ starved_of self.old }
        ensures turn { TakesTurn self.old self.new result }
    {
        if self.failing.next() {
            self.failing.fail();
            return Err(Failed);
        }
        let bytes = self.history.bytes.as_slice();
        if place as usize > bytes.len() {
            return Ok(0);
        }
        Ok(copy_front(rest_from(bytes, place as usize), buf))
    }

    fn write_at(&mut self, place: u64, bytes: &[u8]) -> Result<(), Failed>
        ensures fits { OnOk result (place + length bytes.now < 2 ^ 64) }
        ensures seen { Torn place (length bytes.now) (disk_bytes self.old) (disk_bytes self.new) }
        ensures written { OnOk result
            (disk_bytes self.new ≡ put place bytes.now (disk_bytes self.old)) }
        ensures stop { Follows (Torn place (length bytes.now))
            (left_of self.old (calls_of self.old)) (left_of self.new (calls_of self.new)) }
        ensures none { calls_of self.new ≡ calls_of self.old
            → disk_bytes self.new ≡ disk_bytes self.old }
        ensures tick { Ticks (calls_of self.old) (calls_of self.new) (written_of self.old)
            (written_of self.new) (length bytes.now) result }
        ensures time { Elapses (calls_of self.old) (left_of self.old) (left_of self.new) }
        ensures cause { Causes (faults_of self.old) (faults_of self.new) result }
        ensures kept { OnErr result (disk_bytes self.new ≡ disk_bytes self.old) }
        ensures noted { IsNoted (Write place bytes.now (is_ok result)) self.old self.new result }
        ensures fails { IsTrue (disk_fails self.old) → IsErr result }
        ensures ends { EndsAs (length bytes.now) (place + length bytes.now < 2 ^ 64)
            (Write place bytes.now false) self.old self.new result }
        ensures turn { TakesTurn self.old self.new result }
    {
        let fails = self.failing.next();
        if !count_call(&mut self.calls, &mut self.written, bytes.len() as u64) {
            self.failing.fail();
            return Err(Failed);
        }
        match self
            .history
            .write(self.alloc, self.calls, place, bytes, fails)
        {
            Ok(()) => Ok(()),
            Err(Failed) => {
                self.failing.fail();
                Err(Failed)
            }
        }
    }

    fn cut(&mut self, size: u64) -> Result<(), Failed>
        requires { size ≤ length (disk_bytes self.old) }
        ensures seen { CutOff size (disk_bytes self.old) (disk_bytes self.new) }
        ensures written { OnOk result (disk_bytes self.new ≡ take size (disk_bytes self.old)) }
        ensures stop { Follows (CutOff size) (left_of self.old (calls_of self.old))
            (left_of self.new (calls_of self.new)) }
        ensures none { calls_of self.new ≡ calls_of self.old
            → disk_bytes self.new ≡ disk_bytes self.old }
        ensures tick { Ticks (calls_of self.old) (calls_of self.new) (written_of self.old)
            (written_of self.new) 0 result }
        ensures time { Elapses (calls_of self.old) (left_of self.old) (left_of self.new) }
        ensures cause { Causes (faults_of self.old) (faults_of self.new) result }
        ensures kept { OnErr result (disk_bytes self.new ≡ disk_bytes self.old) }
        ensures noted { IsNoted (Cut size (is_ok result)) self.old self.new result }
        ensures fails { IsTrue (disk_fails self.old) → IsErr result }
        ensures ends { EndsAs 0 (Unit {0}) (Cut size false) self.old self.new result }
        ensures turn { TakesTurn self.old self.new result }
    {
        let fails = self.failing.next();
        if !count_call(&mut self.calls, &mut self.written, 0) {
            self.failing.fail();
            return Err(Failed);
        }
        match self.history.cut(self.alloc, self.calls, size, fails) {
            Ok(()) => Ok(()),
            Err(Failed) => {
                self.failing.fail();
                Err(Failed)
            }
        }
    }

    fn sync(&mut self) -> Result<(), Failed>
        ensures durable { OnOk result
            (Only (disk_bytes self.old) (left_of self.new (calls_of self.new))) }
        ensures seen { disk_bytes self.new ≡ disk_bytes self.old }
        ensures stop { (c : List ℕ) → left_of self.new (calls_of self.new) c
            → left_of self.old (calls_of self.old) c }
        ensures none { calls_of self.new ≡ calls_of self.old
            → disk_bytes self.new ≡ disk_bytes self.old }
        ensures tick { Ticks (calls_of self.old) (calls_of self.new) (written_of self.old)
            (written_of self.new) 0 result }
        ensures time { Elapses (calls_of self.old) (left_of self.old) (left_of self.new) }
        ensures cause { Causes (faults_of self.old) (faults_of self.new) result }
        ensures noted { IsNoted (Sync (is_ok result)) self.old self.new result }
        ensures fails { IsTrue (disk_fails self.old) → IsErr result }
        ensures ends { EndsAs 0 (Unit {0}) (Sync false) self.old self.new result }
        ensures turn { TakesTurn self.old self.new result }
    {
        let fails = self.failing.next();
        if !count_call(&mut self.calls, &mut self.written, 0) {
            self.failing.fail();
            return Err(Failed);
        }
        match self.history.sync(self.alloc, self.calls, fails) {
            Ok(()) => Ok(()),
            Err(Failed) => {
                self.failing.fail();
                Err(Failed)
            }
        }
    }

    fn calls(&self) -> u64 {
        self.calls
    }

    fn written(&self) -> u64 {
        self.written
    }

    fn faults(&self) -> u64 {
        self.failing.faults
    }
}
