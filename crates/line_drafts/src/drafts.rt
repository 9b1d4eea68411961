// The drafts of a line.
ghost use Rattle.std.specs.Prelude.{◌≡◌, ◌<◌, ◌≤◌, ◌+◌, ◌*◌, ◌^◌, ℕ, List, [], ◌∷◌, ◌++◌, length, map, IfErr, IfOk, OnErr, OnOk, Ok, Err, vec_capacity, vec_len};
ghost use Rattle.disks.specs.Disk.{Only};
ghost use Rattle.disks.specs.Moments.{Each, LeavesOnly};
ghost use Rattle.disks.specs.Spends.{Spends};
ghost use Rattle.small_types.specs.Blocks.{IsContent, ShareNone, count_for};
ghost use Rattle.links.specs.Links.{sources_of};
ghost use Rattle.fetcher.specs.Fetched.{IsFile, IsThis, KeptBut};
ghost use Rattle.file_store.specs.Stores.{AreUsed, SameRange, blocks_of_all, draft_blocks, draft_size, filled_of, free_of, store_base};
ghost use Rattle.file_store.specs.declared.store.FileStore.{FileStore};
ghost use Rattle.line_drafts.specs.declared.fault.DraftFault.TheVariants.{DiskFault, Full};

use crate::DraftFault;
use crate::copy::copy_into;
use crate::fetch::fetch_into;
use digest_list::DigestList;
use disks::Disk;
use file_store::{Draft, FileStore};
use links::Links;
use small_types::{List, Target};
use std::alloc::{AllocError, Global};
use std::marker::Model;

/// The drafts of a line, each of them whole, in the order in which its files came. Contracts see
/// it as their list. It cannot be let go: a line seals its drafts or abandons them.
#[derive(Debug)]
pub struct LineDrafts {
    drafts: Vec<Draft>,
    // No lists, and the room for one of each draft: so a seal takes no memory.
    lists: Vec<List<u32>>,
}

impl Model for LineDrafts {
    ghost use Rattle.std.specs.Prelude.{List, vec_capacity};
    ghost use Rattle.file_store.specs.declared.draft.Draft.{Draft};
    ghost use Rattle.line_drafts.specs.Held.{AreReady};

    ghost Value = { List Draft };

    ghost view = { λ l. l.drafts.items };

    ghost invariant = { λ l. AreReady l.drafts.items l.lists.items (vec_capacity l.lists) };
}

// Makes the room for one draft more, and for the lists of blocks of all.
fn make_room(drafts: &mut Vec<Draft>, lists: &mut Vec<List<u32>>) -> Result<(), AllocError>
    ensures room { OnOk result (vec_len drafts.new < vec_capacity drafts.new) }
    ensures lists { OnOk result (vec_len lists.new + vec_len drafts.new + 1
        ≤ vec_capacity lists.new) }
    ensures drafts { drafts.new.items ≡ drafts.old.items }
    ensures same { lists.new.items ≡ lists.old.items }
    ensures capacity { vec_capacity lists.old ≤ vec_capacity lists.new }
{
    drafts.reserve(1)?;
    lists.reserve(drafts.len() + 1)
}

// The blocks of these drafts, in place of the drafts. The vector has the room for them.
fn lists_of(room: Vec<List<u32>>, drafts: List<Draft>) -> List<List<u32>>
    requires none { room.items ≡ [] }
    requires room { length drafts ≤ vec_capacity room }
    ensures { result ≡ map draft_blocks drafts }
{
    let mut lists = room;
    let mut left = drafts.into_vec();
    while let Some(draft) = left.pop() {
        let _ = lists.push(draft.into_blocks());
    }
    lists.reverse();
    List::from_vec(lists)
}

impl LineDrafts {
    ghost use Rattle.line_drafts.specs.Added.{AddsDraft, AddsNone, AddsOne};
    ghost use Rattle.line_drafts.specs.Faults.{IsFetchFault, IsWriteFault};
    ghost use Rattle.line_drafts.specs.Held.{AreContents, AreHeld};
    ghost use Rattle.line_drafts.specs.Works.{Works};

    /// No drafts: in no store is a block of theirs free. It takes no memory.
    pub fn new(alloc: Global) -> LineDrafts
        ensures none { result ≡ [] }
        ensures used { (files : FileStore) → AreUsed files (blocks_of_all result) }
    {
        LineDrafts {
            drafts: Vec::new(alloc),
            lists: Vec::new(alloc),
        }
    }

    // Adds a whole draft. Without memory it is given up.
    fn keep(&mut self, files: &mut FileStore, draft: Draft) -> Result<(), AllocError>
        requires whole { filled_of draft ≡ draft_size draft }
        requires used { AreUsed files.old (draft_blocks draft) }
        ensures added { OnOk result (self.new ≡ self.old ++ draft ∷ []) }
        ensures store { OnOk result (files.new ≡ files.old) }
        ensures none { OnErr result (self.new ≡ self.old) }
        ensures freed { OnErr result
            (free_of files.new ≡ draft_blocks draft ++ free_of files.old) }
        ensures range { SameRange files.old files.new }
    {
        if let Err(AllocError) = make_room(&mut self.drafts, &mut self.lists) {
            files.abandon(draft);
            return Err(AllocError);
        }
        let _ = self.drafts.push(draft);
        Ok(())
    }

    /// Fetches the file at the target into a draft: the bytes of the first link that gives bytes of
    /// that size which match every digest of the list, as `fetch_file` does. Each piece is written
    /// as it comes, so no more than one is in memory. `AllLinks`: no link gave the file. `Full`:
    /// its blocks are more than are free, and nothing was asked of the links. `DiskFault`: the disk
    /// failed. `Memory`: there was none. After a fault the drafts and the free blocks are as they
    /// were.
    pub fn fetch<D: Disk, L: Links>(
        &mut self,
        alloc: Global,
        disk: &mut D,
        files: &mut FileStore,
        links: &mut L,
        target: &Target,
        size: u64,
        list: &DigestList,
    ) -> Result<(), DraftFault>
        requires below { size < 2 ^ 61 }
        requires used { AreUsed files.old (blocks_of_all self.old) }
        ensures fetched { OnOk result ((bytes : List ℕ)
            × IsFile list.now size target.now (L.links links.old) (L.links links.new) (Unit {0})
            bytes
            × AddsDraft D.Disk self.old self.new files.old files.new disk.old disk.new bytes) }
        ensures added { OnOk result (AddsOne self.old self.new size) }
        ensures none { OnErr result
            (AddsNone D.Disk self.old self.new files.old files.new disk.old disk.new) }
        ensures fault { IfErr result (IsFetchFault list.now size target.now (L.links links.old)
            (L.links links.new) files.old (D.count disk.old) (D.count disk.new)) }
        ensures too_many { length (free_of files.old) < count_for size
            → result ≡ Err (Full (count_for size) (length (free_of files.old))) }
        ensures kept { KeptBut (IsThis target.now list.now size)
            (L.links links.old) (L.links links.new) }

        // Each link gives no more than the size, and what it gives is written once.
        ensures works { Works D.Disk self.old self.new files.old files.new disk.old disk.new
            (size * sources_of (L.links links.old)) (result ≡ Err DiskFault) }

        // Where nothing is asked of the links, nothing is written.
        ensures idle { (L.links links.new).asked ≡ (L.links links.old).asked
            → D.total disk.new ≡ D.total disk.old }
    {
        let mut draft = match files.begin(alloc, size) {
            Ok(draft) => draft,
            Err(fault) => return Err(DraftFault::from(fault)),
        };
        if let Err(fault) = fetch_into(alloc, disk, files, links, target, size, list, &mut draft) {
            files.abandon(draft);
            return Err(DraftFault::from(fault));
        }
        match self.keep(files, draft) {
            Ok(()) => Ok(()),
            Err(AllocError) => Err(DraftFault::Memory),
        }
    }

    /// Writes these bytes into a draft, each of them once. `Full`: their blocks are more than are
    /// free. `DiskFault`: the disk failed. `Memory`: there was none. After a fault the drafts and
    /// the free blocks are as they were.
    pub fn write<D: Disk>(
        &mut self,
        alloc: Global,
        disk: &mut D,
        files: &mut FileStore,
        bytes: &[u8],
    ) -> Result<(), DraftFault>
        requires { AreUsed files.old (blocks_of_all self.old) }
        ensures added { OnOk result
            (AddsDraft D.Disk self.old self.new files.old files.new disk.old disk.new bytes.now) }
        ensures none { OnErr result
            (AddsNone D.Disk self.old self.new files.old files.new disk.old disk.new) }
        ensures fault { IfErr result (IsWriteFault (length bytes.now) files.old) }
        ensures too_many { length (free_of files.old) < count_for (length bytes.now)
            → result ≡ Err (Full (count_for (length bytes.now)) (length (free_of files.old))) }

        ensures works { Works D.Disk self.old self.new files.old files.new disk.old disk.new
            (length bytes.now) (result ≡ Err DiskFault) }
        ensures written { OnOk result (D.total disk.new ≡ D.total disk.old + length bytes.now) }
        ensures spends { Spends D.Disk (count_for (length bytes.now)) (length bytes.now) disk.old
            disk.new (result ≡ Err DiskFault) }
    {
        let mut draft = match files.begin(alloc, bytes.len() as u64) {
            Ok(draft) => draft,
            Err(fault) => return Err(DraftFault::from(fault)),
        };
        if let Err(fault) = files.store_piece(disk, &mut draft, bytes) {
            files.abandon(draft);
            return Err(DraftFault::from(fault));
        }
        match self.keep(files, draft) {
            Ok(()) => Ok(()),
            Err(AllocError) => Err(DraftFault::Memory),
        }
    }

    /// Writes a copy of the content of this size that lies in these blocks into a draft, each of its
    /// bytes once. It takes memory for a buffer of at most 65,536 bytes. Bytes that the disk does not
    /// have, as those of a file that was cut off, are zeros in the draft. `Full`: its blocks are more
    /// than are free. `DiskFault`: the disk failed. `Memory`: there was none. After a fault the
    /// drafts and the free blocks are as they were.
    pub fn copy<D: Disk>(
        &mut self,
        alloc: Global,
        disk: &mut D,
        files: &mut FileStore,
        blocks: &List<u32>,
        size: u64,
    ) -> Result<(), DraftFault>
        requires counted { length blocks.now ≡ count_for size }
        requires used { AreUsed files.old (blocks_of_all self.old) }
        ensures added { OnOk result (AddsOne self.old self.new size) }

        // A content in blocks that were not free is then the draft's too.
        ensures copied { D.tells disk.new → (content : List ℕ) → length content ≡ size
            → IsContent (store_base files.old) blocks.now content (D.seen disk.old)
            → ShareNone blocks.now (free_of files.old)
            → OnOk result (AddsDraft D.Disk self.old self.new files.old files.new disk.old disk.new
            content) }
        ensures none { OnErr result
            (AddsNone D.Disk self.old self.new files.old files.new disk.old disk.new) }
        ensures fault { IfErr result (IsWriteFault size files.old) }
        ensures too_many { length (free_of files.old) < count_for size
            → result ≡ Err (Full (count_for size) (length (free_of files.old))) }
        ensures works { Works D.Disk self.old self.new files.old files.new disk.old disk.new size
            (result ≡ Err DiskFault) }
        ensures written { OnOk result (D.total disk.new ≡ D.total disk.old + size) }
        ensures spends { Spends D.Disk (count_for size) size disk.old disk.new
            (result ≡ Err DiskFault) }
    {
        let begun = files.begin(alloc, size);
        let mut draft = match begun {
            Ok(draft) => draft,
            Err(fault) => return Err(DraftFault::from(fault)),
        };
        if let Err(fault) = copy_into(alloc, disk, files, blocks, &mut draft) {
            files.abandon(draft);
            return Err(fault);
        }
        match self.keep(files, draft) {
            Ok(()) => Ok(()),
            Err(AllocError) => Err(DraftFault::Memory),
        }
    }

    /// The drafts, in their order.
    pub fn as_slice(&self) -> &[Draft]
        ensures { result.now ≡ self.now }
    {
        &self.drafts
    }

    /// The blocks of all drafts, those of the first one first.
    pub fn all_blocks(&self, alloc: Global) -> Result<List<u32>, AllocError>
        ensures { IfOk result (λ blocks. blocks ≡ blocks_of_all self.now) }
    {
        let mut blocks = Vec::new(alloc);
        for draft in self.as_slice() {
            blocks.extend_from_slice(draft.blocks().as_slice())?;
        }
        Ok(List::from_vec(blocks))
    }

    /// Makes all drafts durable by one sync, and answers the blocks of each, in their order. It
    /// takes no memory. With no drafts the disk is not called. `DiskFault`: the disk failed; the
    /// blocks of all the drafts are then free.
    pub fn seal<D: Disk>(
        self,
        disk: &mut D,
        files: &mut FileStore,
    ) -> Result<List<List<u32>>, DraftFault>
        requires { AreUsed files.old (blocks_of_all self) }

        // What the drafts held stands in their blocks in all that a stop may leave from now on.
        ensures contents { (contents : List (List ℕ))
            → AreHeld (store_base files.old) self contents (D.seen disk.old)
            → IfOk result (λ lists. Each D.Disk disk.new
            (AreContents (store_base files.old) lists contents)) }
        ensures lists { IfOk result (λ lists. lists ≡ map draft_blocks self) }

        // A stop then leaves what reads give, unless there was nothing to be made durable.
        ensures durable { 0 < length self → OnOk result (Only (D.seen disk.old)
            (D.left_at disk.new (D.moment disk.new))) }
        ensures empty { self ≡ [] → (disk.new ≡ disk.old) × (result ≡ Ok []) }
        ensures seen { D.seen disk.new ≡ D.seen disk.old }

        // A stop inside leaves what it could leave before the call.
        ensures any_moment { LeavesOnly D.Disk disk.old disk.new (D.left_at disk.old
            (D.moment disk.old)) }
        ensures free { OnOk result (files.new ≡ files.old) }
        ensures freed { OnErr result
            (free_of files.new ≡ blocks_of_all self ++ free_of files.old) }
        ensures range { SameRange files.old files.new }
        ensures spends { Spends D.Disk 1 0 disk.old disk.new (result ≡ Err DiskFault) }
        ensures faults { IfErr result (λ e. e ≡ DiskFault) }
    {
        let LineDrafts { drafts, lists } = self;
        if drafts.is_empty() {
            return Ok(List::from_vec(lists));
        }
        match files.seal_all(disk, List::from_vec(drafts)) {
            Ok(sealed) => Ok(lists_of(lists, sealed)),
            Err(_) => Err(DraftFault::DiskFault),
        }
    }

    /// Gives all drafts up: their blocks are free. It takes no memory.
    pub fn abandon(self, files: &mut FileStore)
        requires { AreUsed files.old (blocks_of_all self) }
        ensures freed { free_of files.new ≡ blocks_of_all self ++ free_of files.old }
        ensures range { SameRange files.old files.new }
    {
        let LineDrafts { drafts, lists: _ } = self;
        files.abandon_all(List::from_vec(drafts));
    }
}
