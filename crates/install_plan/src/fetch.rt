// The files that an install or a group fetches, into drafts.
ghost use Rattle.std.specs.Prelude.{◌≡◌, ◌≤◌, ◌<◌, ◌^◌, ◌+◌, ◌++◌, ℕ, List, length, IfErr, OnErr, OnOk, Err};
ghost use Rattle.small_types.specs.Blocks.{count_for};
ghost use Rattle.file_store.specs.Stores.{AreUsed, blocks_of_all, free_of, store_base};
ghost use Rattle.fetcher.specs.Fetched.{IsThis, KeptBut};
ghost use Rattle.line_drafts.specs.Added.{AddsDraft};
ghost use Rattle.line_drafts.specs.Held.{AreHeld};
ghost use Rattle.line_drafts.specs.Works.{Works};
ghost use Rattle.install_plan.specs.declared.lack.Lack.TheVariants as by;
ghost use Rattle.install_plan.specs.Drafted.{AreSized};
ghost use Rattle.install_plan.specs.FetchedFiles.{ArePlaces, HasFetched, IsFetched, IsLack, IsStopped, WritesAsked, WritesOne, blocks_needed};
ghost use Rattle.install_plan.specs.Lacks.{lack_reply};

use crate::WantedFile;
use crate::lack::{Lack, lack_of};
use disks::Disk;
use file_store::FileStore;
use line_drafts::LineDrafts;
use links::Links;
use manifests::FileEntry;
use small_types::Target;
use std::alloc::Global;

// Fetches a wanted file into a draft: the bytes at the target that match what is listed. They are
// hashed once, and go to the disk piece by piece. There are blocks for it.
fn fetch_one<D: Disk, L: Links>(
    alloc: Global,
    disk: &mut D,
    files: &mut FileStore,
    links: &mut L,
    drafts: &mut LineDrafts,
    target: &Target,
    entry: &FileEntry,
) -> Result<(), Lack>
    requires below { entry.now.size < 2 ^ 61 }
    requires used { AreUsed files.old (blocks_of_all drafts.old) }
    requires room { count_for entry.now.size ≤ length (free_of files.old) }
    ensures fetched { OnOk result ((bytes : List ℕ)
        × IsFetched entry.now target.now (L.links links.old) (L.links links.new) bytes
        × AddsDraft D.Disk drafts.old drafts.new files.old files.new disk.old disk.new bytes) }
    ensures lack { IfErr result (λ lack. IsLack entry.now target.now
        (L.links links.old) (L.links links.new) (lack_reply lack)) }
    ensures none { OnErr result (drafts.new ≡ drafts.old) }
    ensures kept { KeptBut (IsThis target.now entry.now.list entry.now.size)
        (L.links links.old) (L.links links.new) }
    ensures works { (most : ℕ)
        × WritesOne entry.now (L.links links.old) (L.links links.new) most
        × Works D.Disk drafts.old drafts.new files.old files.new disk.old disk.new most
        (result ≡ Err by.DiskFault) }
{
    match drafts.fetch(alloc, disk, files, links, target, entry.size, &entry.list) {
        Ok(()) => Ok(()),
        Err(fault) => Err(lack_of(fault)),
    }
}

// Fetches the wanted ones of these files, in their order, each into a draft of its own. The first
// that no link gives is the reply; each file before it was fetched, and nothing behind it is asked
// for. There are blocks for all of them.
pub(crate) fn fetch_wanted<D: Disk, L: Links>(
    alloc: Global,
    disk: &mut D,
    files: &mut FileStore,
    links: &mut L,
    drafts: &mut LineDrafts,
    listed: &[FileEntry],
    wanted: &[WantedFile],
) -> Result<(), Lack>
    requires places { ArePlaces listed.now wanted.now }
    requires used { AreUsed files.old (blocks_of_all drafts.old) }
    requires room { blocks_needed listed.now wanted.now ≤ length (free_of files.old) }
    ensures fetched { OnOk result ((gave : List (List ℕ))
        × HasFetched listed.now wanted.now (L.links links.old) (L.links links.new) gave
        × ((contents : List (List ℕ)) → AreSized drafts.old contents
        → AreSized drafts.new (contents ++ gave))
        × ((contents : List (List ℕ))
        → AreHeld (store_base files.old) drafts.old contents (D.seen disk.old)
        → AreHeld (store_base files.old) drafts.new (contents ++ gave) (D.seen disk.new))) }
    ensures stopped { IfErr result (λ lack. IsStopped listed.now wanted.now
        (L.links links.old) (L.links links.new) (lack_reply lack)) }
    ensures left { OnOk result (length (free_of files.old)
        ≡ blocks_needed listed.now wanted.now + length (free_of files.new)) }
    ensures works { (most : ℕ)
        × WritesAsked listed.now wanted.now (L.links links.old) (L.links links.new) most
        × Works D.Disk drafts.old drafts.new files.old files.new disk.old disk.new most
        (result ≡ Err by.DiskFault) }
{
    for file in wanted {
        let place = file.place;
        let entry = &listed[place];
        if let Err(lack) = fetch_one(alloc, disk, files, links, drafts, &file.target, entry) {
            return Err(lack);
        }
    }
    Ok(())
}
