// Content keys of files, by which jobs know contents.
ghost use Rattle.std.specs.Prelude.{◌≡◌, IfOk};
ghost use Rattle.machine.specs.Views.{content_key, same_key};
ghost use Rattle.jobs.specs.Keys.{key_by};

use digest_list::Digest;
use manifests::FileEntry;
use small_types::{CopyFault, Duplicate};
use std::alloc::Global;
use store_state::{ContentKey, key_order};

// Whether this is the key of that size and those digests.
pub(crate) fn is_key(size: u64, list: &[Digest], key: &ContentKey) -> bool
    ensures { result ≡ same_key (key_by size list.now) key.now }
{
    key_order(key, size, list).is_eq()
}

// The key of the file's content.
pub(crate) fn key_of(alloc: Global, entry: &FileEntry) -> Result<ContentKey, CopyFault>
    ensures { IfOk result (λ key. key ≡ content_key entry.now) }
{
    Ok(ContentKey {
        size: entry.size,
        list: entry.list.copy(alloc)?,
    })
}
