// The fetch of a file into a draft.
ghost use Rattle.std.specs.Prelude.{◌≡◌, ◌≢◌, ◌<◌, ◌≤◌, ◌+◌, ◌*◌, ◌^◌, ℕ, List, IfErr, OnOk, Err};
ghost use Rattle.draft_basket.specs.Basket.{ReadsWhole, held_bytes};
ghost use Rattle.fetcher.specs.Fetched.{IsFile, IsFileFault, IsThis, KeptBut};
ghost use Rattle.fetcher.specs.declared.fault.FetchFault.TheVariants.{BasketFault};
ghost use Rattle.file_store.specs.Stores.{draft_blocks, draft_size, filled_of, store_base};
ghost use Rattle.file_store.specs.Writes.{WritesOnly};
ghost use Rattle.links.specs.Links.{sources_of};

use digest_list::DigestList;
use disks::Disk;
use draft_basket::DraftBasket;
use fetcher::{FetchFault, fetch_file};
use file_store::{Draft, FileStore};
use links::Links;
use small_types::Target;
use std::alloc::Global;

// Fetches the file at the target into a draft of its size, which it empties first. On `Ok` the
// draft is whole, and what it holds is the file.
pub(crate) fn fetch_into<D: Disk, L: Links>(
    alloc: Global,
    disk: &mut D,
    files: &mut FileStore,
    links: &mut L,
    target: &Target,
    size: u64,
    list: &DigestList,
    draft: &mut Draft,
) -> Result<(), FetchFault>
    requires below { size < 2 ^ 61 }
    requires size { draft_size draft.old ≡ size }
    ensures file { OnOk result ((bytes : List ℕ)
        × IsFile list.now size target.now (L.links links.old) (L.links links.new) (Unit {0}) bytes
        × (held_bytes (store_base files.old) draft.new (D.seen disk.new) ≡ bytes)) }
    ensures filled { OnOk result (filled_of draft.new ≡ draft_size draft.new) }
    ensures whole { ReadsWhole (store_base files.old) draft.new (D.seen disk.new) }
    ensures fault { IfErr result (IsFileFault list.now size target.now (L.links links.old)
        (L.links links.new) (D.count disk.old) (D.count disk.new)) }
    ensures kept { KeptBut (IsThis target.now list.now size)
        (L.links links.old) (L.links links.new) }

    // Only the draft's own blocks are written.
    ensures only { WritesOnly D.Disk (store_base files.old) (draft_blocks draft.old) disk.old
        disk.new }
    ensures blocks { draft_blocks draft.new ≡ draft_blocks draft.old }
    ensures size { draft_size draft.new ≡ draft_size draft.old }
    ensures store { files.new ≡ files.old }
    ensures told { D.tells disk.new → D.tells disk.old }
    ensures total { D.total disk.old ≤ D.total disk.new }
    ensures written { D.total disk.new
        ≤ D.total disk.old + size * sources_of (L.links links.old) }
    ensures idle { (L.links links.new).asked ≡ (L.links links.old).asked
        → D.total disk.new ≡ D.total disk.old }
    ensures later { D.count disk.old ≤ D.count disk.new }
    ensures quiet { result ≢ Err BasketFault → D.count disk.new ≡ D.count disk.old }
{
    let mut basket = DraftBasket::new(disk, files, draft);
    match fetch_file(alloc, links, target, size, list, &mut basket) {
        Ok(()) => Ok(()),
        Err(fault) => Err(fault),
    }
}
