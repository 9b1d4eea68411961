// A disk: what reads give, and what a stop may leave at each moment.
ghost use Rattle.std.specs.Prelude.{◌≡◌, ◌<◌, ◌≤◌, ◌+◌, ◌^◌, ℕ, List, length, take, IfOk, OnOk, OnErr};
ghost use Rattle.outside.specs.Streams.{Causes};
ghost use Rattle.small_types.specs.Bytes.{put};
ghost use Rattle.disks.specs.Disk.{Torn, CutOff, Follows, Elapses, IsStill, Only, Ticks, Gives};

use outside::Failed;

/// A disk of bytes. Between two syncs each range that is written or cut off may hold any bytes after a stop, and
/// the length may be the old or the new one; bytes outside stay.
pub trait Disk {
    /// Whether all that its reads and lengths gave so far is what the calls before them made of its bytes.
    ghost tells: { Self → Type 0 };

    /// What reads give.
    ghost seen: { Self → List ℕ };

    /// The moment: the count of calls of `write_at`, `cut` and `sync`.
    ghost moment: { Self → ℕ };

    /// What a stop at that moment may leave.
    ghost left_at: { Self → ℕ → List ℕ → Type 0 };

    /// The bytes handed to `write_at`.
    ghost total: { Self → ℕ };

    /// How often it failed.
    ghost count: { Self → ℕ };

    /// The length that reads give.
    fn length(&mut self) -> Result<u64, Failed>
        ensures bytes { tells self.new → IfOk result (λ n. n ≡ length (seen self.old)) }
        ensures still { IsStill (moment self.old) (moment self.new) (total self.old)
            (total self.new) }
        ensures seen { seen self.new ≡ seen self.old }
        ensures time { Elapses (moment self.old) (left_at self.old) (left_at self.new) }
        ensures told { tells self.new → tells self.old }
        ensures cause { Causes (count self.old) (count self.new) result };

    /// As many bytes as stand there, at most the buffer's length.
    fn read(&mut self, place: u64, buf: &mut [u8]) -> Result<usize, Failed>
        ensures within { IfOk result (λ n. n ≤ length buf.old) }
        ensures bytes { tells self.new
            → IfOk result (λ n. Gives (seen self.old) place buf.old buf.new n) }
        ensures still { IsStill (moment self.old) (moment self.new) (total self.old)
            (total self.new) }
        ensures seen { seen self.new ≡ seen self.old }
        ensures time { Elapses (moment self.old) (left_at self.old) (left_at self.new) }
        ensures told { tells self.new → tells self.old }
        ensures cause { Causes (count self.old) (count self.new) result };

    /// Reads then give these bytes. A gap before them reads as zeros.
    fn write_at(&mut self, place: u64, bytes: &[u8]) -> Result<(), Failed>
        ensures fits { OnOk result (place + length bytes.now < 2 ^ 64) }
        ensures seen { Torn place (length bytes.now) (seen self.old) (seen self.new) }
        ensures written { OnOk result (seen self.new ≡ put place bytes.now (seen self.old)) }
        ensures stop { Follows (Torn place (length bytes.now)) (left_at self.old (moment self.old))
            (left_at self.new (moment self.new)) }
        ensures none { moment self.new ≡ moment self.old → seen self.new ≡ seen self.old }
        ensures tick { Ticks (moment self.old) (moment self.new) (total self.old) (total self.new)
            (length bytes.now) result }
        ensures time { Elapses (moment self.old) (left_at self.old) (left_at self.new) }
        ensures told { tells self.new → tells self.old }
        ensures cause { Causes (count self.old) (count self.new) result };

    /// Shortens to a length, which is not above the present one.
    fn cut(&mut self, size: u64) -> Result<(), Failed>
        requires { tells self.old → size ≤ length (seen self.old) }
        ensures seen { CutOff size (seen self.old) (seen self.new) }
        ensures written { OnOk result (seen self.new ≡ take size (seen self.old)) }
        ensures stop { Follows (CutOff size) (left_at self.old (moment self.old))
            (left_at self.new (moment self.new)) }
        ensures none { moment self.new ≡ moment self.old → seen self.new ≡ seen self.old }
        ensures tick { Ticks (moment self.old) (moment self.new) (total self.old) (total self.new) 0
            result }
        ensures time { Elapses (moment self.old) (left_at self.old) (left_at self.new) }
        ensures told { tells self.new → tells self.old }
        ensures cause { Causes (count self.old) (count self.new) result };

    /// After Ok a stop leaves what reads give.
    fn sync(&mut self) -> Result<(), Failed>
        ensures durable { OnOk result (Only (seen self.old) (left_at self.new (moment self.new))) }
        ensures seen { seen self.new ≡ seen self.old }
        ensures stop { (c : List ℕ) → left_at self.new (moment self.new) c
            → left_at self.old (moment self.old) c }
        ensures none { moment self.new ≡ moment self.old → seen self.new ≡ seen self.old }
        ensures tick { Ticks (moment self.old) (moment self.new) (total self.old) (total self.new) 0
            result }
        ensures time { Elapses (moment self.old) (left_at self.old) (left_at self.new) }
        ensures told { tells self.new → tells self.old }
        ensures cause { Causes (count self.old) (count self.new) result };

    /// The moment: how many calls of `write_at`, `cut` and `sync` there were, failed ones included.
    fn calls(&self) -> u64
        ensures { result ≡ moment self.now };

    /// How many bytes were handed to `write_at`.
    fn written(&self) -> u64
        ensures { result ≡ total self.now };

    /// How often it failed. The count never falls.
    fn faults(&self) -> u64
        ensures { result ≡ count self.now };

    /// What reads give is one of the things that a stop may leave.
    ghost seen_left: { (disk : Self) → left_at disk (moment disk) (seen disk) };
}
