// How the bytes of a content are read from its blocks.
ghost use Rattle.std.specs.Prelude.{◌≡◌, ℕ, ◌<◌, ◌≤◌, ◌+◌, ◌*◌, ◌^◌, List, length, drop, take, IfOk, IsErr};
ghost use Rattle.disks.specs.Moments.{Untouched};
ghost use Rattle.disks.specs.Spends.{Spends};
ghost use Rattle.small_types.specs.Blocks.{IsContent};
ghost use Rattle.small_types.specs.declared.limits.TheConstants.{BLOCK_SIZE};

use crate::piece::{place, stretch};
use disks::Disk;
use outside::Failed;

// Fills the buffer from these blocks, from a byte of the content on, and answers how many bytes it
// read. A stretch is one read.
pub(crate) fn read_bytes<D: Disk>(
    base: u64,
    disk: &mut D,
    blocks: &[u32],
    from: usize,
    buf: &mut [u8],
) -> Result<usize, Failed>
    requires base { base ≤ 2 ^ 62 }
    requires within { from + length buf.old ≤ BLOCK_SIZE * length blocks.now }
    requires fits { from + length buf.old < 2 ^ 64 }
    ensures within { IfOk result (λ n. n ≤ length buf.old) }
    ensures whole { D.tells disk.new → (content : List ℕ) → from + length buf.old ≤ length content
        → IsContent base blocks.now content (D.seen disk.old)
        → IfOk result (λ n. n ≡ length buf.old) }
    ensures bytes { D.tells disk.new → (content : List ℕ) → from + length buf.old ≤ length content
        → IsContent base blocks.now content (D.seen disk.old)
        → IfOk result (λ n. buf.new ≡ take (length buf.old) (drop from content)) }
    ensures still { Untouched D.Disk disk.old disk.new }
    ensures spends { Spends D.Disk 0 0 disk.old disk.new (IsErr result) }
{
    let mut done = 0;
    while done < buf.len() {
        let room = stretch(blocks, from + done, buf.len() - done);
        let at = place(base, blocks, from + done);
        let n = disk.read(at, &mut buf[done..done + room])?;
        if n == 0 {
            return Ok(done);
        }
        done += n;
    }
    Ok(done)
}
