// How the bytes of a content go into its blocks.
ghost use Rattle.std.specs.Prelude.{◌≡◌, ◌≢◌, ◌⊎◌, ℕ, ◌<◌, ◌≤◌, ◌+◌, ◌-◌, ◌*◌, ◌/◌, ◌%◌, ◌^◌, [], length, IsErr, OnOk};
ghost use Rattle.disks.specs.Spends.{HasNoNumber, Spends};
ghost use Rattle.small_types.specs.Blocks.{AreApart, place_at};
ghost use Rattle.file_store.specs.Stretches.{AreNeighbours, IsStretch};
ghost use Rattle.file_store.specs.Writes.{AddsPiece, WritesOnly, touched};

use disks::Disk;
use outside::Failed;
use small_types::limits::BLOCK_SIZE;

// How many of the wanted bytes, from one on, stand behind one another on the disk: blocks that are
// neighbours make one stretch. It looks at no more blocks than the bytes need.
pub(crate) fn stretch(blocks: &[u32], from: usize, want: usize) -> usize
    requires some { 0 < want }
    requires within { from + want ≤ BLOCK_SIZE * length blocks.now }
    requires fits { from + want < 2 ^ 64 }
    ensures some { 0 < result }
    ensures wanted { result ≤ want }
    ensures stretch { IsStretch blocks.now from result }

    // It ends with what is wanted, or else with a block.
    ensures end { result < want → (from + result) % BLOCK_SIZE ≡ 0 }
    ensures whole { AreNeighbours blocks.now (from / BLOCK_SIZE) ((from + want - 1) / BLOCK_SIZE)
        → result ≡ want }
{
    let end = (from + want - 1) / BLOCK_SIZE;
    let mut last = from / BLOCK_SIZE;
    while last < end {
        if u64::from(blocks[last + 1]) != u64::from(blocks[last]) + 1 {
            return (last + 1) * BLOCK_SIZE - from;
        }
        last += 1;
    }
    want
}

// The place of a byte of a content on the disk.
pub(crate) fn place(base: u64, blocks: &[u32], from: usize) -> u64
    requires base { base ≤ 2 ^ 62 }
    requires within { from < BLOCK_SIZE * length blocks.now }
    ensures { result ≡ place_at base blocks.now from }
{
    base + u64::from(blocks[from / BLOCK_SIZE]) * BLOCK_SIZE as u64 + (from % BLOCK_SIZE) as u64
}

// Writes bytes into these blocks, from a byte of the content on. A stretch is one write.
pub(crate) fn write_bytes<D: Disk>(
    base: u64,
    disk: &mut D,
    blocks: &[u32],
    from: usize,
    bytes: &[u8],
) -> Result<(), Failed>
    requires base { base ≤ 2 ^ 62 }
    requires within { from + length bytes.now ≤ BLOCK_SIZE * length blocks.now }
    requires fits { from + length bytes.now < 2 ^ 64 }
    requires apart { AreApart blocks.now }
    ensures only { WritesOnly D.Disk base blocks.now disk.old disk.new }
    ensures added { OnOk result
        (AddsPiece D.Disk base blocks.now from bytes.now disk.old disk.new) }
    ensures kept { AddsPiece D.Disk base blocks.now from [] disk.old disk.new }
    ensures counted { 0 < length bytes.now → (D.moment disk.old + 1 ≤ D.moment disk.new)
        ⊎ HasNoNumber (D.moment disk.new) (D.total disk.new) (length bytes.now) }
    ensures calls { AreNeighbours blocks.now (from / BLOCK_SIZE)
        ((from + length bytes.now - 1) / BLOCK_SIZE) → D.moment disk.new ≤ D.moment disk.old + 1 }
    ensures written { OnOk result (D.total disk.new ≡ D.total disk.old + length bytes.now) }
    ensures spends { Spends D.Disk (touched from (length bytes.now)) (length bytes.now) disk.old
        disk.new (IsErr result) }
{
    let mut done = 0;
    while done < bytes.len() {
        let room = stretch(blocks, from + done, bytes.len() - done);
        let at = place(base, blocks, from + done);
        disk.write_at(at, &bytes[done..done + room])?;
        done += room;
    }
    Ok(())
}
