// The blocks of a disk, free and used.
ghost use Rattle.std.specs.Prelude.{◌≡◌, ◌≢◌, ◌⊎◌, ◌<◌, ◌≤◌, ◌+◌, ◌-◌, ◌/◌, ◌^◌, ℕ, List, ◌++◌, length, min, reverse, All, Contains, IfOk, IfErr, IsErr, OnOk, OnErr, vec_len, vec_capacity};
ghost use Rattle.disks.specs.Disk.{Gives, Only};
ghost use Rattle.disks.specs.Moments.{Each, LeavesOnly, Untouched};
ghost use Rattle.disks.specs.Spends.{HasNoNumber, Spends};
ghost use Rattle.small_types.specs.Blocks.{AreApart, IsContent, count_for};
ghost use Rattle.small_types.specs.declared.limits.TheConstants.{BLOCK_LIMIT};
ghost use Rattle.file_store.specs.declared.fault.FileFault.TheVariants.{DiskFault, Full, Memory};
ghost use Rattle.file_store.specs.Stretches.{AreNeighbours};
ghost use Rattle.file_store.specs.Writes.{WritesOnly, touched};

use crate::marks::{mark, unmarked};
use crate::piece::write_bytes;
use crate::read::read_bytes;
use crate::{Draft, FileFault};
use disks::Disk;
use outside::Failed;
use small_types::List;
use small_types::limits::{BLOCK_LIMIT, BLOCK_SIZE};
use std::alloc::{AllocError, Global};

/// Which blocks of a disk are free. The block with the number n is the 4,096 bytes from
/// `base + 4096 n` on.
#[derive(Drop, Debug)]
pub struct FileStore {
    blocks: u64,
    base: u64,
    // The last of them is handed out first.
    free: Vec<u32>,
    ghost limit: { blocks ≤ BLOCK_LIMIT },
    ghost base_limit: { base ≤ 2 ^ 62 },
    ghost room: { blocks ≤ vec_capacity free },
    ghost below: { All (λ block. block < blocks) free.items },
    ghost apart: { AreApart free.items },
}

// A copy in the other order.
fn turned(alloc: Global, items: &[u32]) -> Result<Vec<u32>, AllocError>
    ensures { IfOk result (λ made. made.items ≡ reverse items.now) }
{
    let mut made = items.to_vec(alloc)?;
    made.reverse();
    Ok(made)
}

// Adds blocks behind the others, the last of them first. It takes no memory.
fn give_back(free: &mut Vec<u32>, blocks: &[u32])
    requires { vec_len free.old + length blocks.now ≤ vec_capacity free.old }
    ensures items { free.new.items ≡ free.old.items ++ reverse blocks.now }
    ensures capacity { vec_capacity free.old ≤ vec_capacity free.new }
{
    let start = free.len();
    let _ = free.extend_from_slice(blocks);
    free[start..].reverse();
}

impl FileStore {
    ghost use Rattle.file_store.specs.Stores.{AreUsed, DraftHolds, SameRange, block_count, blocks_of_all, draft_blocks, draft_size, filled_of, free_of, store_base};

    /// A store of this many blocks, 1 to `BLOCK_LIMIT`, from `base` on, of which these are
    /// in use. It makes the room for the numbers of all blocks, so no later call needs memory to
    /// give blocks back. `Memory`: there was none.
    pub fn new(
        alloc: Global,
        blocks: u64,
        base: u64,
        taken: &List<u32>,
    ) -> Result<FileStore, FileFault>
        requires some { 1 ≤ blocks }
        requires limit { blocks ≤ BLOCK_LIMIT }
        requires base { base ≤ 2 ^ 62 }
        requires within { All (λ block. block < blocks) taken.now }
        requires apart { AreApart taken.now }

        // The taken blocks are in use, and each other block is free.
        ensures used { IfOk result (λ store. AreUsed store taken.now) }
        ensures count { IfOk result (λ store.
            length taken.now + length (free_of store) ≡ blocks) }
        ensures number { IfOk result (λ store. block_count store ≡ blocks) }
        ensures base { IfOk result (λ store. store_base store ≡ base) }
        ensures faults { IfErr result (λ e. e ≡ Memory) }
    {
        let marks = mark(alloc, blocks as usize, taken.as_slice())?;
        let free = unmarked(alloc, &marks)?;
        Ok(FileStore { blocks, base, free })
    }

    /// How many blocks are free.
    pub fn free(&self) -> u64
        ensures { result ≡ length (free_of self.now) }
    {
        self.free.len() as u64
    }

    /// Takes the blocks for a content of this size: the first of the free ones. Nothing is written.
    /// `Full`: that needs more than are free. `Memory`: there was none. After a fault the store is
    /// as it was.
    pub fn begin(&mut self, alloc: Global, size: u64) -> Result<Draft, FileFault>
        ensures takes { IfOk result
            (λ draft. free_of self.old ≡ draft_blocks draft ++ free_of self.new) }
        ensures used { IfOk result (λ draft. AreUsed self.new (draft_blocks draft)) }
        ensures count { IfOk result (λ draft. length (draft_blocks draft) ≡ count_for size) }
        ensures size { IfOk result (λ draft. draft_size draft ≡ size) }
        ensures empty { IfOk result (λ draft. filled_of draft ≡ 0) }
        ensures full { IfErr result (λ e. e ≢ Memory
            → (e ≡ Full (count_for size) (length (free_of self.old)))
            × (length (free_of self.old) < count_for size)) }
        ensures too_many { length (free_of self.old) < count_for size
            → result ≡ Err (Full (count_for size) (length (free_of self.old))) }
        ensures kept { OnErr result (self.new ≡ self.old) }
        ensures range { SameRange self.old self.new }
    {
        let need = size.div_ceil(BLOCK_SIZE as u64);
        let free = self.free();
        if need > free {
            return Err(FileFault::Full { need, free });
        }
        let keep = self.free.len() - need as usize;
        let blocks = turned(alloc, &self.free[keep..])?;
        self.free.truncate(keep);
        Ok(Draft {
            blocks: List::from_vec(blocks),
            size,
            filled: 0,
        })
    }

    /// Writes a piece of a draft behind those that it was given. It takes no memory. Neighbouring
    /// blocks are written by one call of the disk. `DiskFault`: the disk failed; the draft is then
    /// as it was.
    pub fn store_piece<D: Disk>(
        &mut self,
        disk: &mut D,
        draft: &mut Draft,
        bytes: &[u8],
    ) -> Result<(), FileFault>
        requires { filled_of draft.old + length bytes.now ≤ draft_size draft.old }

        // Only the draft's own blocks are written, at each moment of the call, also where it fails.
        ensures only { WritesOnly D.Disk (store_base self.old) (draft_blocks draft.old) disk.old
            disk.new }

        // What the draft held, it holds with the piece behind it; after a fault without it.
        ensures held { (before : List ℕ)
            → DraftHolds (store_base self.old) draft.old before (D.seen disk.old)
            → OnOk result (DraftHolds (store_base self.old) draft.new (before ++ bytes.now)
            (D.seen disk.new)) }
        ensures kept { (before : List ℕ)
            → DraftHolds (store_base self.old) draft.old before (D.seen disk.old)
            → IsContent (store_base self.old) (draft_blocks draft.old) before (D.seen disk.new) }
        ensures filled { OnOk result
            (filled_of draft.new ≡ filled_of draft.old + length bytes.now) }
        ensures blocks { draft_blocks draft.new ≡ draft_blocks draft.old }
        ensures size { draft_size draft.new ≡ draft_size draft.old }
        ensures draft { OnErr result (draft.new ≡ draft.old) }
        ensures store { self.new ≡ self.old }

        // Each byte is written once, and those of neighbouring blocks by one call.
        ensures written { OnOk result (D.total disk.new ≡ D.total disk.old + length bytes.now) }
        ensures calls { AreNeighbours (draft_blocks draft.old) (filled_of draft.old / BLOCK_SIZE)
            ((filled_of draft.old + length bytes.now - 1) / BLOCK_SIZE)
            → D.moment disk.new ≤ D.moment disk.old + 1 }
        ensures spends { Spends D.Disk (touched (filled_of draft.old) (length bytes.now))
            (length bytes.now) disk.old disk.new (IsErr result) }
        ensures counted { 0 < length bytes.now → (D.moment disk.old + 1 ≤ D.moment disk.new)
            ⊎ HasNoNumber (D.moment disk.new) (D.total disk.new) (length bytes.now) }
        ensures faults { IfErr result (λ e. e ≡ DiskFault) }
    {
        write_bytes(
            self.base,
            disk,
            draft.blocks.as_slice(),
            draft.filled as usize,
            bytes,
        )?;
        draft.filled += bytes.len() as u64;
        Ok(())
    }

    /// Makes a whole draft durable, and answers its blocks. It takes no memory. `DiskFault`: the
    /// disk failed; the draft's blocks are then free.
    pub fn seal<D: Disk>(&mut self, disk: &mut D, draft: Draft) -> Result<List<u32>, FileFault>
        requires whole { filled_of draft ≡ draft_size draft }
        requires used { AreUsed self.old (draft_blocks draft) }

        // Each stop then leaves what reads give, and in it the draft's blocks have what it held.
        ensures durable { OnOk result (Only (D.seen disk.old) (D.left_at disk.new
            (D.moment disk.new))) }
        ensures content { (bytes : List ℕ)
            → DraftHolds (store_base self.old) draft bytes (D.seen disk.old)
            → IfOk result (λ blocks. Each D.Disk disk.new
            (IsContent (store_base self.old) blocks bytes)) }
        ensures blocks { IfOk result (λ blocks. blocks ≡ draft_blocks draft) }
        ensures seen { D.seen disk.new ≡ D.seen disk.old }

        // A stop inside leaves what it could leave before the call.
        ensures any_moment { LeavesOnly D.Disk disk.old disk.new (D.left_at disk.old
            (D.moment disk.old)) }
        ensures free { OnOk result (self.new ≡ self.old) }
        ensures freed { OnErr result (free_of self.new ≡ draft_blocks draft ++ free_of self.old) }
        ensures range { SameRange self.old self.new }
        ensures spends { Spends D.Disk 1 0 disk.old disk.new (IsErr result) }
        ensures tick { OnOk result (D.moment disk.new ≡ D.moment disk.old + 1) }
        ensures counted { (D.moment disk.old + 1 ≤ D.moment disk.new)
            ⊎ HasNoNumber (D.moment disk.new) (D.total disk.new) 0 }
        ensures faults { IfErr result (λ e. e ≡ DiskFault) }
    {
        if disk.sync().is_err() {
            self.abandon(draft);
            return Err(FileFault::DiskFault);
        }
        Ok(draft.into_blocks())
    }

    /// Makes whole drafts durable by one sync, and answers them. It takes no memory. `DiskFault`:
    /// the disk failed; the blocks of all these drafts are then free.
    pub fn seal_all<D: Disk>(
        &mut self,
        disk: &mut D,
        drafts: List<Draft>,
    ) -> Result<List<Draft>, FileFault>
        requires whole { All (λ draft. filled_of draft ≡ draft_size draft) drafts }
        requires used { AreUsed self.old (blocks_of_all drafts) }

        // Each stop then leaves what reads give, and in it the blocks of each draft have what it
        // held.
        ensures durable { OnOk result (Only (D.seen disk.old) (D.left_at disk.new
            (D.moment disk.new))) }
        ensures contents { (draft : Draft) (bytes : List ℕ) → Contains drafts draft
            → DraftHolds (store_base self.old) draft bytes (D.seen disk.old)
            → OnOk result (Each D.Disk disk.new
            (IsContent (store_base self.old) (draft_blocks draft) bytes)) }
        ensures drafts { IfOk result (λ sealed. sealed ≡ drafts) }
        ensures seen { D.seen disk.new ≡ D.seen disk.old }

        // A stop inside leaves what it could leave before the call.
        ensures any_moment { LeavesOnly D.Disk disk.old disk.new (D.left_at disk.old
            (D.moment disk.old)) }
        ensures free { OnOk result (self.new ≡ self.old) }
        ensures freed { OnErr result
            (free_of self.new ≡ blocks_of_all drafts ++ free_of self.old) }
        ensures range { SameRange self.old self.new }
        ensures spends { Spends D.Disk 1 0 disk.old disk.new (IsErr result) }
        ensures tick { OnOk result (D.moment disk.new ≡ D.moment disk.old + 1) }
        ensures counted { (D.moment disk.old + 1 ≤ D.moment disk.new)
            ⊎ HasNoNumber (D.moment disk.new) (D.total disk.new) 0 }
        ensures faults { IfErr result (λ e. e ≡ DiskFault) }
    {
        if let Err(Failed) = disk.sync() {
            self.abandon_all(drafts);
            return Err(FileFault::DiskFault);
        }
        Ok(drafts)
    }

    /// Reads a content of this size from its blocks, from a byte of it on: as many bytes as stand
    /// there, at most the buffer's length. It takes no memory. Neighbouring blocks are read by one
    /// call of the disk. `DiskFault`: the disk failed; the buffer may then have any bytes.
    pub fn read_content<D: Disk>(
        &self,
        disk: &mut D,
        blocks: &List<u32>,
        size: u64,
        from: u64,
        buf: &mut [u8],
    ) -> Result<usize, FileFault>
        requires { length blocks.now ≡ count_for size }
        ensures within { IfOk result (λ n. n ≤ min (size - from) (length buf.old)) }
        ensures bytes { D.tells disk.new → (content : List ℕ) → length content ≡ size
            → IsContent (store_base self.now) blocks.now content (D.seen disk.old)
            → IfOk result (λ n. Gives content from buf.old buf.new n) }
        ensures still { Untouched D.Disk disk.old disk.new }
        ensures spends { Spends D.Disk 0 0 disk.old disk.new (IsErr result) }
        ensures faults { IfErr result (λ e. e ≡ DiskFault) }
    {
        if from >= size {
            return Ok(0);
        }
        let want = ((size - from) as usize).min(buf.len());
        let n = read_bytes(
            self.base,
            disk,
            blocks.as_slice(),
            from as usize,
            &mut buf[..want],
        )?;
        Ok(n)
    }

    /// Empties a draft, which keeps its blocks. It takes no memory.
    pub fn restart(&self, draft: &mut Draft)
        ensures filled { filled_of draft.new ≡ 0 }
        ensures blocks { draft_blocks draft.new ≡ draft_blocks draft.old }
        ensures size { draft_size draft.new ≡ draft_size draft.old }
    {
        draft.filled = 0;
    }

    /// Gives a draft up: its blocks are free. It takes no memory.
    pub fn abandon(&mut self, draft: Draft)
        requires { AreUsed self.old (draft_blocks draft) }
        ensures freed { free_of self.new ≡ draft_blocks draft ++ free_of self.old }
        ensures range { SameRange self.old self.new }
    {
        self.release_blocks(&draft.blocks);
    }

    /// Gives drafts up: the blocks of all of them are free. It takes no memory.
    pub fn abandon_all(&mut self, drafts: List<Draft>)
        requires { AreUsed self.old (blocks_of_all drafts) }
        ensures freed { free_of self.new ≡ blocks_of_all drafts ++ free_of self.old }
        ensures range { SameRange self.old self.new }
    {
        let mut left = drafts.into_vec();
        while let Some(draft) = left.pop() {
            self.abandon(draft);
        }
    }

    /// Frees blocks. They keep their bytes until `begin` hands them out again. It takes no memory.
    pub fn release_blocks(&mut self, blocks: &List<u32>)
        requires { AreUsed self.old blocks.now }
        ensures freed { free_of self.new ≡ blocks.now ++ free_of self.old }
        ensures range { SameRange self.old self.new }
    {
        give_back(&mut self.free, blocks.as_slice());
    }
}
