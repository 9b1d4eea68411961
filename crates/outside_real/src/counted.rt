// Counts of faults, and results that are counted.
ghost use Rattle.std.specs.Prelude.{◌≡◌, ◌+◌, ◌≤◌, min, IfErr, OnOk, OnErr};
ghost use Rattle.outside.specs.Streams.{Causes, Rose};

use outside::Failed;

// Raises a count by one. At the end of its type it stays.
pub(crate) fn raise(count: &mut u64)
    ensures raised { count.new ≡ min (count.old + 1) 0xffff_ffff_ffff_ffff }
    ensures later { count.old ≤ count.new }
    ensures rose { Rose count.old count.new }
{
    *count = count.saturating_add(1);
}

// Counts a call that failed.
pub(crate) fn counted<T: Drop>(faults: &mut u64, done: Result<T, Failed>) -> Result<T, Failed>
    ensures result { result ≡ done }
    ensures cause { Causes faults.old faults.new result }
    ensures quiet { OnOk result (faults.new ≡ faults.old) }
    ensures raised { OnErr result (faults.new ≡ min (faults.old + 1) 0xffff_ffff_ffff_ffff) }
{
    if done.is_err() {
        raise(faults);
    }
    done
}
